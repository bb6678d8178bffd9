//! Why a body lists no statements, or names no server.
ghost use Rattle.std.specs.Prelude.{◌≡◌, ◌++◌, OnOk, OnErr};
ghost use Rattle.rq_bodies.specs.ErrorText.{error_status, error_text};
ghost use Rattle.rq_bodies.specs.declared.error.BodyError.TheVariants.{TooMany, BadStatement, BadValue};

use rq_values::NoMemory;
use std::alloc::Global;

/// Why a body lists no statements, in the order in which this is looked at, of statements and values the first by place; or
/// names no server.
#[derive(Clone, Copy)]
pub enum BodyError {
    /// It is no UTF-8 that spells one JSON value.
    NotJson,
    /// The value is no list.
    NotAList,
    /// So many statements, more than a body may have.
    TooMany(u64),
    /// The statement of this number, from 1.
    BadStatement(u64),
    /// The statement of this number and its value of that number, each from 1.
    BadValue(u64, u64),
    /// The object of a join or a removal names no server.
    BadMember,
    NoMemory,
}

impl BodyError {
    /// The status of the reply, as HTTP has it.
    pub fn status(self) -> u16
        ensures { result ≡ error_status self }
    {
        match self {
            BodyError::NoMemory => 507,
            _ => 400,
        }
    }

    /// Appends the text of the reply. With no memory the bytes stay as they were.
    pub fn write(self, alloc: Global, into: &mut Vec<u8>) -> Result<(), NoMemory>
        ensures ok { OnOk result (into.new.items ≡ into.old.items ++ error_text self) }
        ensures err { OnErr result (into.new.items ≡ into.old.items) }
    {
        match self {
            BodyError::NotJson => append(b"body is not JSON", into),
            BodyError::NotAList => append(b"body is not a list", into),
            BodyError::TooMany(count) => append_count(alloc, count, into),
            BodyError::BadStatement(k) => append_statement(alloc, k, into),
            BodyError::BadValue(k, j) => append_value(alloc, k, j, into),
            BodyError::BadMember => append(b"bad member", into),
            BodyError::NoMemory => append(b"out of memory", into),
        }
    }
}

/// Appends bytes. With no memory they stay as they were.
fn append(bytes: &[u8], into: &mut Vec<u8>) -> Result<(), NoMemory>
    ensures ok { OnOk result (into.new.items ≡ into.old.items ++ bytes.now) }
    ensures err { OnErr result (into.new.items ≡ into.old.items) }
{
    into.extend_from_slice(bytes)?;
    Ok(())
}

fn append_count(alloc: Global, count: u64, into: &mut Vec<u8>) -> Result<(), NoMemory>
    ensures ok { OnOk result (into.new.items ≡ into.old.items ++ error_text (TooMany count)) }
    ensures err { OnErr result (into.new.items ≡ into.old.items) }
{
    let text = format!(in alloc; "too many statements: {count}")?;
    append(text.as_bytes(), into)
}

fn append_statement(alloc: Global, k: u64, into: &mut Vec<u8>) -> Result<(), NoMemory>
    ensures ok { OnOk result (into.new.items ≡ into.old.items ++ error_text (BadStatement k)) }
    ensures err { OnErr result (into.new.items ≡ into.old.items) }
{
    let text = format!(in alloc; "statement {k}: not a statement")?;
    append(text.as_bytes(), into)
}

fn append_value(alloc: Global, k: u64, j: u64, into: &mut Vec<u8>) -> Result<(), NoMemory>
    ensures ok { OnOk result (into.new.items ≡ into.old.items ++ error_text (BadValue k j)) }
    ensures err { OnErr result (into.new.items ≡ into.old.items) }
{
    let text = format!(in alloc; "statement {k}, value {j}: not a value")?;
    append(text.as_bytes(), into)
}
