// A query's parameters.
ghost use Rattle.std.specs.Prelude.{◌≡◌, IfOk, option_map, string_bytes, codes, Bool};
ghost use Rattle.rq_route.specs.Parameters.{value_of, is_on, level_named, level_of, timeout_of, statement_of, statement_if, given_of, first_bad};

use crate::duration::duration;
use crate::path::Path;
use form_urlencoded::{decode, raw_pairs};
use rq_request::Level;
use rq_values::{NoMemory, Text};
use std::alloc::Global;

/// The milliseconds that a request waits at most, where it says nothing of it.
pub const DEFAULT_TIMEOUT: u64 = 10_000;

/// A parameter.
#[derive(Clone, Copy, Drop)]
pub enum Key {
    Level,
    Freshness,
    Timeout,
    Queue,
    Wait,
    Q,
}

/// The parameters of a query.
#[derive(Drop)]
pub struct Given {
    /// None where it is malformed.
    pub level: Option<Level>,
    pub freshness: bool,
    /// In milliseconds; None where it is malformed.
    pub timeout: Option<u64>,
    pub queue: bool,
    pub wait: bool,
    /// Whether the query is to name the statement.
    pub asks: bool,
    /// The statement that it names, if it is one and is asked for.
    pub statement: Option<Text>,
    pub transaction: bool,
    pub associative: bool,
    pub pretty: bool,
}

/// The first value of a key.
#[tactic(auto, unfolding(crate::specs::Parameters::value_of))]
fn value(alloc: Global, query: &[u8], name: &str) -> Result<Option<String>, NoMemory>
    ensures { IfOk result (λ o. option_map string_bytes o ≡ value_of name.now query.now) }
{
    for (key, value) in raw_pairs(query) {
        let key = decode(alloc, key)?;
        if key.as_str() == name {
            return Ok(Some(decode(alloc, value)?.into_owned(alloc)?));
        }
    }
    Ok(None)
}

fn is_on(alloc: Global, query: &[u8], name: &str) -> Result<bool, NoMemory>
    ensures { IfOk result (λ on. on ≡ is_on name.now query.now) }
{
    match value(alloc, query, name) {
        Ok(Some(_)) => Ok(true),
        Ok(None) => Ok(false),
        Err(error) => Err(error),
    }
}

fn level_named(name: &[u8]) -> Option<Level>
    ensures { result ≡ level_named name.now }
{
    if name == b"none".as_slice() {
        Some(Level::None)
    } else if name == b"weak".as_slice() {
        Some(Level::Weak)
    } else {
        None
    }
}

fn find_level(alloc: Global, query: &[u8]) -> Result<Option<Level>, NoMemory>
    ensures { IfOk result (λ o. o ≡ level_of (value_of (codes "level") query.now)) }
{
    match value(alloc, query, "level") {
        Ok(Some(name)) => Ok(level_named(name.as_bytes())),
        Ok(None) => Ok(Some(Level::Weak)),
        Err(error) => Err(error),
    }
}

fn find_timeout(alloc: Global, query: &[u8]) -> Result<Option<u64>, NoMemory>
    ensures { IfOk result (λ o. o ≡ timeout_of (value_of (codes "timeout") query.now)) }
{
    match value(alloc, query, "timeout") {
        Ok(Some(text)) => Ok(duration(text.as_bytes())),
        Ok(None) => Ok(Some(DEFAULT_TIMEOUT)),
        Err(error) => Err(error),
    }
}

fn find_statement(alloc: Global, query: &[u8]) -> Result<Option<Text>, NoMemory>
    ensures { IfOk result (λ o. o ≡ statement_of (value_of (codes "q") query.now)) }
{
    match value(alloc, query, "q") {
        Ok(Some(text)) => Text::new(alloc, text.as_bytes()),
        Ok(None) => Ok(None),
        Err(error) => Err(error),
    }
}

fn statement_if(alloc: Global, asks: bool, query: &[u8]) -> Result<Option<Text>, NoMemory>
    ensures { IfOk result (λ o. o ≡ statement_if asks query.now) }
{
    if asks {
        find_statement(alloc, query)
    } else {
        Ok(None)
    }
}

/// The parameters of a query.
#[tactic(auto, unfolding(crate::specs::Parameters::given_of))]
pub fn find_given(alloc: Global, asks: bool, query: &[u8]) -> Result<Given, NoMemory>
    ensures { IfOk result (λ given. given ≡ given_of asks query.now) }
{
    Ok(Given {
        level: find_level(alloc, query)?,
        freshness: is_on(alloc, query, "freshness")?,
        timeout: find_timeout(alloc, query)?,
        queue: is_on(alloc, query, "queue")?,
        wait: is_on(alloc, query, "wait")?,
        transaction: is_on(alloc, query, "transaction")?,
        associative: is_on(alloc, query, "associative")?,
        pretty: is_on(alloc, query, "pretty")?,
        asks,
        statement: statement_if(alloc, asks, query)?,
    })
}

/// The first parameter that is malformed or missing.
pub fn first_bad(path: Path, given: &Given) -> Option<Key>
    ensures { result ≡ first_bad path given.now }
{
    if path.takes_level() && given.level.is_none() {
        Some(Key::Level)
    } else if path.takes_level() && given.freshness {
        Some(Key::Freshness)
    } else if given.timeout.is_none() {
        Some(Key::Timeout)
    } else if path.takes_queue() && given.queue {
        Some(Key::Queue)
    } else if path.takes_queue() && given.wait {
        Some(Key::Wait)
    } else if given.asks && given.statement.is_none() {
        Some(Key::Q)
    } else {
        None
    }
}
