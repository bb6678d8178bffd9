//! Reading a command.
ghost use Rattle.std.specs.Prelude.{◌≡◌, ◌⊎◌, ℕ, List, IfOk};
ghost use Rattle.rq_values.specs.Place.{IsAnswer};
ghost use Rattle.rq_values.specs.Reading.{Gives, NeedsNoMemory, many_at};
ghost use Rattle.rq_statement.specs.declared.item.Item.{Item};
ghost use Rattle.rq_statement.specs.Bytes.{execute_bytes};
ghost use Rattle.rq_values.specs.declared.error.DecodeError.TheVariants as errors;
ghost use Rattle.rq_command.specs.Reading as spec;
ghost use Rattle.rq_command.specs.Reading.{IsPreparing, run_at, item_at, byte_at, command_at};
ghost use Rattle.rq_command.specs.Stored.{IsCommand};
ghost use Rattle.rq_command.specs.Whole.{Reads, answer_by};

use crate::laws::each_text_is_read_as_one;
use crate::texts::read_text;
use rq_canonical::settled_text_is_read;
use rq_statement::Item;
use rq_values::{DecodeError, MAX_COMMAND, NoMemory, Seq, next_kind, next_text, next_u8, next_u32};
use std::alloc::Global;

/// Whether the item is a statement, and the text is its canonical text.
fn is_run_text(text: &[u8], item: &Item) -> bool
    ensures { result ≡ spec.is_run_text text.now item.now }
{
    match item {
        Item::Run(settled) => settled.text() == text,
        Item::Fail(_) => false,
    }
}

/// A settled statement, by its canonical text.
#[tactic(auto, unfolding(crate::specs::Reading::run_at))]
fn next_run(alloc: Global, limit: u32, bytes: &[u8]) -> Result<(Item, &[u8]), DecodeError>
    ensures { (item_of : List ℕ → Item) → IsPreparing item_of → Gives (λ x. (x.0, x.1.now)) result (run_at item_of limit bytes.now) }
{
    each_text_is_read_as_one();
    let (text, rest) = next_text(alloc, limit, bytes)?;
    let item = read_text(alloc, text.bytes())?;
    if is_run_text(text.bytes(), &item) {
        Ok((item, rest))
    } else {
        Err(DecodeError::Text(bytes.len()))
    }
}

/// An item: 00 and a statement, or 01 and an error's text.
#[tactic(auto, unfolding(crate::specs::Reading::item_at))]
pub(crate) fn next_item(
    alloc: Global,
    limit: u32,
    bytes: &[u8],
) -> Result<(Item, &[u8]), DecodeError>
    ensures { (item_of : List ℕ → Item) → IsPreparing item_of → Gives (λ x. (x.0, x.1.now)) result (item_at item_of limit bytes.now) }
{
    let (kind, rest) = next_kind(1, bytes)?;
    if kind == 0 {
        return next_run(alloc, limit, rest);
    }
    let (text, rest) = next_text(alloc, limit, rest)?;
    Ok((Item::Fail(text), rest))
}

/// So many items.
pub(crate) fn next_items(
    alloc: Global,
    limit: u32,
    count: u32,
    bytes: &[u8],
) -> Result<(Seq<Item>, &[u8]), DecodeError>
    ensures { (item_of : List ℕ → Item) → IsPreparing item_of → Gives (λ x. (x.0, x.1.now)) result (many_at (item_at item_of limit) count bytes.now) }
{
    let mut items = Seq::new(alloc);
    let mut rest = bytes;
    for _ in 0..count {
        let (item, after) = next_item(alloc, limit, rest)?;
        items.push(item)?;
        rest = after;
    }
    Ok((items, rest))
}

/// The one byte that may stand here.
#[tactic(auto, unfolding(crate::specs::Reading::byte_at))]
fn next_byte(wanted: u8, bytes: &[u8]) -> Result<(u8, &[u8]), DecodeError>
    ensures gives { Gives (λ x. (x.0, x.1.now)) result (byte_at wanted bytes.now) }
    ensures sure { NeedsNoMemory result }
{
    let (byte, rest) = next_u8(bytes)?;
    if byte != wanted {
        return Err(DecodeError::Kind(bytes.len(), byte));
    }
    Ok((byte, rest))
}

/// The command at the start of the bytes, and the bytes after it.
#[tactic(auto, unfolding(crate::specs::Reading::command_at, rq_values::specs::Reading::list_at))]
fn next_command(alloc: Global, limit: u32, bytes: &[u8]) -> Result<(Seq<Item>, &[u8]), DecodeError>
    ensures { (item_of : List ℕ → Item) → IsPreparing item_of → Gives (λ x. (x.0, x.1.now)) result (command_at item_of limit bytes.now) }
{
    let (_kind, rest) = next_byte(1, bytes)?;
    let (_transaction, rest) = next_byte(0, rest)?;
    let (count, rest) = next_u32(rest)?;
    next_items(alloc, limit, count, rest)
}

/// The items of the command that is the whole input.
#[tactic(auto, using(rq_values::proofs::Faults::whole_fault))]
fn decode_whole(alloc: Global, limit: u32, bytes: &[u8]) -> Result<Seq<Item>, DecodeError>
    ensures { (item_of : List ℕ → Item) → IsPreparing item_of → IsAnswer result (answer_by item_of limit bytes.now) }
{
    match next_command(alloc, limit, bytes) {
        Err(error) => Err(error.placed(bytes.len())),
        Ok((items, rest)) => {
            if rest.is_empty() {
                Ok(items)
            } else {
                drop(items);
                Err(DecodeError::Trailing(bytes.len().saturating_sub(rest.len())))
            }
        }
    }
}

/// The items of the command Execute that is the whole input. Each text of a statement must be the canonical text of a settled one.
#[tactic(auto, using(crate::proofs::Told::told))]
pub fn decode_execute(alloc: Global, bytes: &[u8]) -> Result<Seq<Item>, DecodeError>
    ensures answer { Reads MAX_COMMAND bytes.now result }
    ensures ok { IfOk result (λ items. (bytes.now ≡ execute_bytes items) × IsCommand MAX_COMMAND items) }
    ensures complete { (items : List Item) → bytes.now ≡ execute_bytes items → IsCommand MAX_COMMAND items → (result ≡ Ok items) ⊎ (result ≡ Err errors.NoMemory) }
{
    each_text_is_read_as_one();
    settled_text_is_read();
    decode_whole(alloc, MAX_COMMAND, bytes)
}
