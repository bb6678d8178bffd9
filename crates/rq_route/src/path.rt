// The paths that are served.
ghost use Rattle.std.specs.Prelude.{◌≡◌, IfOk, IfSome, Some, None, true, false, option_map};
ghost use Rattle.std.specs.Str.{is_utf8};
ghost use Rattle.matchit.specs.Seek.{first};
ghost use Rattle.rq_route.specs.Paths.{path_at, path_named, has_method, place_of, table, takes_level, takes_queue, takes_transaction};

use matchit::{InsertError, Router};
use percent_encoding::percent_decode;
use rq_values::NoMemory;
use std::alloc::Global;

/// A path that is served.
#[derive(Clone, Copy, PartialEq, Eq, Drop)]
pub enum Path {
    /// `/db/execute`
    Execute,
    /// `/db/query`
    Query,
    /// `/db/request`
    Request,
}

impl Path {
    /// Whether the path has this method.
    pub fn has_method(self, method: &[u8]) -> bool
        ensures { result ≡ has_method self method.now }
    {
        match self {
            Path::Query => method == b"POST".as_slice() || method == b"GET".as_slice(),
            _ => method == b"POST".as_slice(),
        }
    }

    /// Whether the parameters of reads have an effect.
    pub fn takes_level(self) -> bool
        ensures { result ≡ takes_level self }
    {
        self != Path::Execute
    }

    /// Whether the parameters of queued writes have an effect.
    pub fn takes_queue(self) -> bool
        ensures { result ≡ takes_queue self }
    {
        self == Path::Execute
    }

    /// Whether the parameter of transactions has an effect.
    pub fn takes_transaction(self) -> bool
        ensures { result ≡ takes_transaction self }
    {
        self != Path::Query
    }
}

fn found(router: &Router<Path>, path: &str) -> Option<Path>
    ensures { result ≡ option_map (λ r. r.value) (first router.now path.now) }
{
    match router.at(path) {
        Ok(found) => Some(*found.value),
        Err(_) => None,
    }
}

fn routed(alloc: Global, path: &str) -> Result<Option<Path>, InsertError>
    ensures { IfOk result (λ o. o ≡ place_of path.now table) }
{
    let mut router = Router::new(alloc);
    router.insert("/db/execute", Path::Execute)?;
    router.insert("/db/query", Path::Query)?;
    router.insert("/db/request", Path::Request)?;
    Ok(found(&router, path))
}

#[tactic(auto, using(crate::proofs::Utf8::is_text, crate::proofs::Utf8::no_text))]
fn as_text(path: &[u8]) -> Option<&str>
    ensures some { IfSome result (λ text. (text.now ≡ path.now) × (is_utf8 path.now ≡ true)) }
    ensures none { result ≡ None → is_utf8 path.now ≡ false }
{
    match std::str::from_utf8(path) {
        Ok(text) => Some(text),
        Err(_) => None,
    }
}

/// The path of this text.
fn path_named(alloc: Global, text: &[u8]) -> Result<Option<Path>, NoMemory>
    ensures { IfOk result (λ o. o ≡ path_named text.now) }
{
    match as_text(text) {
        Some(text) => match routed(alloc, text) {
            Ok(place) => Ok(place),
            Err(_) => Err(NoMemory),
        },
        None => Ok(None),
    }
}

/// The path that this part of a target names.
pub fn path_at(alloc: Global, path: &[u8]) -> Result<Option<Path>, NoMemory>
    ensures { IfOk result (λ o. o ≡ path_at path.now) }
{
    let mut text = Vec::new(alloc);
    percent_decode(path).append_to(&mut text)?;
    path_named(alloc, &text)
}
