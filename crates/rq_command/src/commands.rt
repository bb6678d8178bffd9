//! Reading a command of any kind.
ghost use Rattle.std.specs.Prelude.{◌≡◌, ◌⊎◌, ℕ, List, IfOk};
ghost use Rattle.rq_values.specs.Place.{IsAnswer};
ghost use Rattle.rq_values.specs.Reading.{Gives, NeedsNoMemory, list_at, many_at};
ghost use Rattle.rq_statement.specs.declared.item.Item.{Item};
ghost use Rattle.rq_statement.specs.declared.command.Command.{Command};
ghost use Rattle.rq_statement.specs.Bytes.{command_bytes};
ghost use Rattle.rq_values.specs.declared.error.DecodeError.TheVariants as errors;
ghost use Rattle.rq_command.specs.Reading.{IsPreparing, item_at};
ghost use Rattle.rq_command.specs.Commands as spec;

use crate::decoding::{next_item, next_items};
use crate::laws::each_text_is_read_as_one;
use rq_canonical::settled_text_is_read;
use rq_statement::{Command, Item, StatementList};
use rq_values::{
    DecodeError, Id, MAX_COMMAND, Seq, next_bool, next_id, next_u8, next_u32, next_u64,
};
use std::alloc::Global;

/// A number, and so many items.
#[tactic(auto, unfolding(rq_values::specs::Reading::list_at))]
fn next_item_list(
    alloc: Global,
    limit: u32,
    bytes: &[u8],
) -> Result<(Seq<Item>, &[u8]), DecodeError>
    ensures { (item_of : List ℕ → Item) → IsPreparing item_of → Gives (λ x. (x.0, x.1.now)) result (list_at (item_at item_of limit) bytes.now) }
{
    let (count, rest) = next_u32(bytes)?;
    next_items(alloc, limit, count, rest)
}

/// So many items, as a list of statements.
fn next_counted(
    alloc: Global,
    limit: u32,
    transaction: bool,
    count: u32,
    bytes: &[u8],
) -> Result<(StatementList, &[u8]), DecodeError>
    ensures gives { (item_of : List ℕ → Item) → IsPreparing item_of → Gives (λ x. (x.0.items, x.1.now)) result (many_at (item_at item_of limit) count bytes.now) }
    ensures transaction { IfOk result (λ x. x.0.transaction ≡ transaction) }
{
    let mut list = StatementList::new(alloc, transaction);
    let mut rest = bytes;
    for _ in 0..count {
        let (item, after) = next_item(alloc, limit, rest)?;
        list.push(item)?;
        rest = after;
    }
    Ok((list, rest))
}

/// Whether it is a transaction, and the items.
#[tactic(auto, unfolding(crate::specs::Commands::statements_at, rq_values::specs::Reading::list_at))]
fn next_statements(
    alloc: Global,
    limit: u32,
    bytes: &[u8],
) -> Result<(StatementList, &[u8]), DecodeError>
    ensures { (item_of : List ℕ → Item) → IsPreparing item_of → Gives (λ x. (x.0, x.1.now)) result (spec.statements_at item_of limit bytes.now) }
{
    let (transaction, rest) = next_bool(bytes)?;
    let (count, rest) = next_u32(rest)?;
    next_counted(alloc, limit, transaction, count, rest)
}

/// So many lists of statements.
fn next_lists(
    alloc: Global,
    limit: u32,
    count: u32,
    bytes: &[u8],
) -> Result<(Seq<StatementList>, &[u8]), DecodeError>
    ensures { (item_of : List ℕ → Item) → IsPreparing item_of → Gives (λ x. (x.0, x.1.now)) result (many_at (spec.statements_at item_of limit) count bytes.now) }
{
    let mut lists = Seq::new(alloc);
    let mut rest = bytes;
    for _ in 0..count {
        let (list, after) = next_statements(alloc, limit, rest)?;
        lists.push(list)?;
        rest = after;
    }
    Ok((lists, rest))
}

/// A number, and so many lists of statements.
#[tactic(auto, unfolding(rq_values::specs::Reading::list_at))]
fn next_batch(
    alloc: Global,
    limit: u32,
    bytes: &[u8],
) -> Result<(Seq<StatementList>, &[u8]), DecodeError>
    ensures { (item_of : List ℕ → Item) → IsPreparing item_of → Gives (λ x. (x.0, x.1.now)) result (list_at (spec.statements_at item_of limit) bytes.now) }
{
    let (count, rest) = next_u32(bytes)?;
    next_lists(alloc, limit, count, rest)
}

/// A list that was sent on, and where from.
#[tactic(auto, unfolding(crate::specs::Commands::once_at))]
fn next_once(alloc: Global, limit: u32, bytes: &[u8]) -> Result<(Command, &[u8]), DecodeError>
    ensures { (item_of : List ℕ → Item) → IsPreparing item_of → Gives (λ x. (x.0, x.1.now)) result (spec.once_at item_of limit bytes.now) }
{
    match next_id(limit, bytes) {
        Err(error) => Err(error),
        Ok((id, rest)) => next_sent_on(alloc, limit, id, rest),
    }
}

/// A list that the server of this id sent on.
#[tactic(auto, unfolding(crate::specs::Commands::sent_on_at))]
fn next_sent_on(
    alloc: Global,
    limit: u32,
    id: Id,
    bytes: &[u8],
) -> Result<(Command, &[u8]), DecodeError>
    ensures { (item_of : List ℕ → Item) → IsPreparing item_of → Gives (λ x. (x.0, x.1.now)) result (spec.sent_on_at item_of limit id bytes.now) }
{
    let (boot, rest) = next_u64(bytes)?;
    let (number, rest) = next_u64(rest)?;
    let (list, rest) = next_statements(alloc, limit, rest)?;
    let command = Command::Once {
        id,
        boot,
        number,
        list,
    };
    Ok((command, rest))
}

/// What stands behind a command's kind.
#[tactic(auto, unfolding(crate::specs::Commands::content_at))]
fn next_content(
    alloc: Global,
    limit: u32,
    kind: u8,
    bytes: &[u8],
) -> Result<(Command, &[u8]), DecodeError>
    ensures { (item_of : List ℕ → Item) → IsPreparing item_of → Gives (λ x. (x.0, x.1.now)) result (spec.content_at item_of limit kind bytes.now) }
{
    match kind {
        1 => {
            let (list, rest) = next_statements(alloc, limit, bytes)?;
            Ok((Command::Execute(list), rest))
        }
        2 => {
            let (list, rest) = next_statements(alloc, limit, bytes)?;
            Ok((Command::Request(list), rest))
        }
        3 => {
            let (items, rest) = next_item_list(alloc, limit, bytes)?;
            Ok((Command::StrongQuery(items), rest))
        }
        4 => {
            let (items, rest) = next_item_list(alloc, limit, bytes)?;
            Ok((Command::Load(items), rest))
        }
        5 => {
            let (lists, rest) = next_batch(alloc, limit, bytes)?;
            Ok((Command::Batch(lists), rest))
        }
        _ => next_once(alloc, limit, bytes),
    }
}

/// A command's kind.
#[tactic(auto, unfolding(crate::specs::Commands::command_kind_at))]
fn next_command_kind(bytes: &[u8]) -> Result<(u8, &[u8]), DecodeError>
    ensures gives { Gives (λ x. (x.0, x.1.now)) result (spec.command_kind_at bytes.now) }
    ensures sure { NeedsNoMemory result }
{
    let (kind, rest) = next_u8(bytes)?;
    if kind >= 1 && kind <= 6 {
        Ok((kind, rest))
    } else {
        Err(DecodeError::Kind(bytes.len(), kind))
    }
}

/// The command at the start of the bytes, and the bytes after it.
#[tactic(auto, unfolding(crate::specs::Commands::any_command_at))]
fn next_command(alloc: Global, limit: u32, bytes: &[u8]) -> Result<(Command, &[u8]), DecodeError>
    ensures { (item_of : List ℕ → Item) → IsPreparing item_of → Gives (λ x. (x.0, x.1.now)) result (spec.any_command_at item_of limit bytes.now) }
{
    let (kind, rest) = next_command_kind(bytes)?;
    next_content(alloc, limit, kind, rest)
}

/// The command that is the whole input.
#[tactic(auto, using(rq_values::proofs::Faults::whole_fault))]
fn decode_whole(alloc: Global, limit: u32, bytes: &[u8]) -> Result<Command, DecodeError>
    ensures { (item_of : List ℕ → Item) → IsPreparing item_of → IsAnswer result (spec.command_by item_of limit bytes.now) }
{
    match next_command(alloc, limit, bytes) {
        Err(error) => Err(error.placed(bytes.len())),
        Ok((command, rest)) => {
            if rest.is_empty() {
                Ok(command)
            } else {
                drop(command);
                Err(DecodeError::Trailing(bytes.len().saturating_sub(rest.len())))
            }
        }
    }
}

/// The command that is the whole input. Each text of a statement must be the canonical text of a settled one.
#[tactic(auto, using(crate::proofs::AnyCommand::told))]
pub fn decode_command(alloc: Global, bytes: &[u8]) -> Result<Command, DecodeError>
    ensures answer { spec.IsDecoding MAX_COMMAND bytes.now result }
    ensures ok { IfOk result (λ command. (bytes.now ≡ command_bytes command) × spec.IsLogged MAX_COMMAND command) }
    ensures complete { (command : Command) → bytes.now ≡ command_bytes command → spec.IsLogged MAX_COMMAND command → (result ≡ Ok command) ⊎ (result ≡ Err errors.NoMemory) }
{
    each_text_is_read_as_one();
    settled_text_is_read();
    decode_whole(alloc, MAX_COMMAND, bytes)
}
