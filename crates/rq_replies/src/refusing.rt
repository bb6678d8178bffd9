//! The texts of what a node refuses.
ghost use Rattle.std.specs.Prelude.{◌≡◌, ◌++◌, OnOk, OnErr, IfOk, string_bytes, decimal};
ghost use Rattle.rq_replies.specs.Reply as spec;
ghost use Rattle.rq_request.specs.declared.say.NodeRefusal.TheVariants.{Stale};

use rq_request::NodeRefusal;
use rq_values::NoMemory;
use std::alloc::Global;

/// Appends bytes. With no memory they stay as they were.
pub(crate) fn append(bytes: &[u8], into: &mut Vec<u8>) -> Result<(), NoMemory>
    ensures ok { OnOk result (into.new.items ≡ into.old.items ++ bytes.now) }
    ensures err { OnErr result (into.new.items ≡ into.old.items) }
{
    into.extend_from_slice(bytes)?;
    Ok(())
}

/// Appends the text of a refusal. With no memory the bytes stay as they were.
pub(crate) fn write_refusal(
    alloc: Global,
    refusal: NodeRefusal,
    into: &mut Vec<u8>,
) -> Result<(), NoMemory>
    ensures ok { OnOk result (into.new.items ≡ into.old.items ++ spec.refusal_text refusal) }
    ensures err { OnErr result (into.new.items ≡ into.old.items) }
{
    let text = text_of(alloc, refusal)?;
    append(text.as_bytes(), into)
}

fn text_of(alloc: Global, refusal: NodeRefusal) -> Result<String, NoMemory>
    ensures { IfOk result (λ text. string_bytes text ≡ spec.refusal_text refusal) }
{
    match refusal {
        NodeRefusal::Stale {
            contact,
            now,
            limit,
        } => stale_text(alloc, contact, now, limit),
        NodeRefusal::NoLeader { term } => numbered(alloc, "leader not found: term ", term),
        NodeRefusal::EntryTooLarge(size) => numbered(alloc, "entry too large: ", size),
        NodeRefusal::QueuedTooLarge(size) => numbered(alloc, "queued request too large: ", size),
        NodeRefusal::QueueFull(held) => numbered(alloc, "queue full: ", held),
        NodeRefusal::Lost { term, now } => two_numbers(alloc, "leadership lost: term ", term, now),
        NodeRefusal::Timeout { asked, now } => two_numbers(alloc, "timeout: asked ", asked, now),
    }
}

/// Words and a number.
fn numbered(alloc: Global, words: &str, number: u64) -> Result<String, NoMemory>
    ensures { IfOk result (λ text. string_bytes text ≡ words.now ++ decimal number) }
{
    Ok(format!(in alloc; "{words}{number}")?)
}

/// Words, and what was and is.
fn two_numbers(alloc: Global, words: &str, before: u64, now: u64) -> Result<String, NoMemory>
    ensures { IfOk result (λ text. string_bytes text ≡ spec.with_now words.now before now) }
{
    Ok(format!(in alloc; "{words}{before}, now {now}")?)
}

fn stale_text(alloc: Global, contact: Option<u64>, now: u64, limit: u64) -> Result<String, NoMemory>
    ensures { IfOk result (λ text. string_bytes text ≡ spec.refusal_text (Stale contact now limit)) }
{
    match contact {
        Some(moment) => {
            Ok(format!(in alloc; "stale: contact {moment}, now {now}, limit {limit}")?)
        }
        None => Ok(format!(in alloc; "stale: contact none, now {now}, limit {limit}")?),
    }
}
