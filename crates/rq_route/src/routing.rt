// The routing of a request.
ghost use Rattle.std.specs.Prelude.{◌≡◌, IfOk, length};
ghost use Rattle.rq_route.specs.Routing.{by_given, by_path, route_of};

use crate::parameters::{Given, find_given, first_bad};
use crate::path::{Path, path_at};
use crate::refusal::Refusal;
use crate::request::{Request, request_of};
use crate::target::parts;
use rq_values::NoMemory;
use std::alloc::Global;

/// The longest body, in bytes.
const MAX_BODY: usize = 1_048_576;

/// What becomes of a request.
#[derive(Drop)]
pub enum Routed {
    Taken(Request),
    Refused(Refusal),
}

fn by_given(path: Path, given: Given) -> Routed
    ensures { result ≡ by_given path given }
{
    match first_bad(path, &given) {
        Some(key) => {
            drop(given);
            Routed::Refused(Refusal::Parameter(key))
        }
        None => Routed::Taken(request_of(path, given)),
    }
}

fn by_path(
    alloc: Global,
    path: Path,
    method: &[u8],
    query: &[u8],
    size: usize,
) -> Result<Routed, NoMemory>
    ensures { IfOk result (λ routed. routed ≡ by_path method.now query.now size path) }
{
    if !path.has_method(method) {
        return Ok(Routed::Refused(Refusal::NoMethod));
    }
    if size > MAX_BODY {
        return Ok(Routed::Refused(Refusal::LongBody(size as u64)));
    }
    match find_given(alloc, method == b"GET".as_slice(), query) {
        Ok(given) => Ok(by_given(path, given)),
        Err(error) => Err(error),
    }
}

/// What a request asks for up to its body, or why it is refused, in this order: its path, its method, the length of
/// its body, its parameters.
pub fn route(alloc: Global, method: &[u8], target: &[u8], body: &[u8]) -> Result<Routed, NoMemory>
    ensures { IfOk result (λ routed. routed ≡ route_of method.now target.now (length body.now)) }
{
    let (path, query) = parts(target);
    match path_at(alloc, path)? {
        Some(path) => by_path(alloc, path, method, query, body.len()),
        None => Ok(Routed::Refused(Refusal::NoPath)),
    }
}
