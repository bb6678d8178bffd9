// Why a request is refused.
ghost use Rattle.std.specs.Prelude.{◌≡◌, ◌++◌, IfOk};
ghost use Rattle.rq_route.specs.Refusal.{key_text, status_of, text_of};

use crate::parameters::Key;
use crate::target::parts;
use rq_values::NoMemory;
use std::alloc::Global;

/// Why a request is refused, in the order in which this is looked at.
#[derive(Clone, Copy, Drop)]
pub enum Refusal {
    /// No such path is served.
    NoPath,
    /// The path has other methods.
    NoMethod,
    /// The body has so many bytes, more than a body may have.
    LongBody(u64),
    /// This parameter is malformed, or missing where it is needed.
    Parameter(Key),
}

/// One text and then another.
fn joined(alloc: Global, prefix: &[u8], back: &[u8]) -> Result<Vec<u8>, NoMemory>
    ensures { IfOk result (λ text. text.items ≡ prefix.now ++ back.now) }
{
    let mut text = Vec::from_slice(alloc, prefix)?;
    text.extend_from_slice(back)?;
    Ok(text)
}

fn key_text(key: Key) -> &'static [u8]
    ensures { result.now ≡ key_text key }
{
    match key {
        Key::Level => b"level",
        Key::Freshness => b"freshness",
        Key::Timeout => b"timeout",
        Key::Queue => b"queue",
        Key::Wait => b"wait",
        Key::Q => b"q",
    }
}

impl Refusal {
    /// The status of the reply.
    pub fn status(self) -> u16
        ensures { result ≡ status_of self }
    {
        match self {
            Refusal::NoPath => 404,
            Refusal::NoMethod => 405,
            Refusal::LongBody(_) => 413,
            Refusal::Parameter(_) => 400,
        }
    }

    /// The text of the reply to a request with this method and target.
    pub fn text(self, alloc: Global, method: &[u8], target: &[u8]) -> Result<Vec<u8>, NoMemory>
        ensures { IfOk result (λ text. text.items ≡ text_of method.now target.now self) }
    {
        match self {
            Refusal::NoPath => joined(alloc, b"no such path: ", parts(target).0),
            Refusal::NoMethod => joined(alloc, b"method not allowed: ", method),
            Refusal::LongBody(count) => {
                let count = format!(in alloc; "{count}")?;
                joined(alloc, b"body too long: ", count.as_bytes())
            }
            Refusal::Parameter(key) => joined(alloc, b"bad parameter: ", key_text(key)),
        }
    }
}
