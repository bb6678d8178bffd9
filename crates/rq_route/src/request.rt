// What a request asks for.
ghost use Rattle.std.specs.Prelude.{◌≡◌};
ghost use Rattle.rq_route.specs.Routing.{level_at, timeout_in, request_of};

use crate::parameters::{DEFAULT_TIMEOUT, Given};
use crate::path::Path;
use rq_request::{Level, Shape};
use rq_values::Text;

/// What a request asks for, without its body. A parameter that its path doesn't list has no effect.
#[derive(Drop)]
pub struct Request {
    pub path: Path,
    /// The statement that a GET names, in place of a body.
    pub statement: Option<Text>,
    pub level: Level,
    /// Whether the statements are done all or none.
    pub transaction: bool,
    /// In milliseconds.
    pub timeout: u64,
    pub shape: Shape,
}

fn level_at(path: Path, level: Option<Level>) -> Level
    ensures { result ≡ level_at path level }
{
    match level {
        Some(level) if path.takes_level() => level,
        _ => Level::Weak,
    }
}

fn timeout_in(timeout: Option<u64>) -> u64
    ensures { result ≡ timeout_in timeout }
{
    match timeout {
        Some(timeout) => timeout,
        None => DEFAULT_TIMEOUT,
    }
}

/// What a request asks for at this path whose parameters are none of them bad.
pub fn request_of(path: Path, given: Given) -> Request
    ensures { result ≡ request_of path given }
{
    Request {
        path,
        level: level_at(path, given.level),
        transaction: path.takes_transaction() && given.transaction,
        timeout: timeout_in(given.timeout),
        shape: Shape {
            associative: path.takes_level() && given.associative,
            pretty: given.pretty,
        },
        statement: given.statement,
    }
}
