//! Commands of the log.
ghost use Rattle.std.specs.Prelude.{◌≡◌, ◌++◌, OnOk, OnErr};
ghost use Rattle.rq_values.specs.Writing.{KeepsPrefix};
ghost use Rattle.rq_statement.specs.Bytes as spec;

use crate::item::Item;
use crate::list::StatementList;
use rq_values::{Encode, Id, NoMemory, Seq, TryCopy, encode_whole, put_list, put_u8, put_u64};
use std::alloc::Global;

/// What an entry of the log has a replica do.
pub enum Command {
    /// The entry with which a leader begins its term.
    NoOp,
    /// A configuration of the servers with these ids.
    Config(Seq<Id>),
    /// A list that is written.
    Execute(StatementList),
    /// A list that may write and read.
    Request(StatementList),
    /// Queries that are answered where they stand in the log.
    StrongQuery(Seq<Item>),
    /// Statements as one transaction, which is answered by no more than its error.
    Load(Seq<Item>),
    /// The lists of queued writes, one after the other.
    Batch(Seq<StatementList>),
    /// A list that another server sent on, with that server's id, its count of boots and the number of the list there. It is
    /// run once, however often it comes.
    Once {
        id: Id,
        boot: u64,
        number: u64,
        list: StatementList,
    },
}

impl Drop for Command {
    fn drop(self) {
        match self {
            Command::NoOp => (),
            Command::Config(ids) => drop(ids),
            Command::Execute(list) => drop(list),
            Command::Request(list) => drop(list),
            Command::StrongQuery(items) => drop(items),
            Command::Load(items) => drop(items),
            Command::Batch(lists) => drop(lists),
            Command::Once {
                id: _,
                boot: _,
                number: _,
                list,
            } => drop(list),
        }
    }
}

impl TryCopy for Command {
    fn copy(&self, alloc: Global) -> Result<Command, NoMemory> {
        match self {
            Command::NoOp => Ok(Command::NoOp),
            Command::Config(ids) => Ok(Command::Config(ids.copy(alloc)?)),
            Command::Execute(list) => Ok(Command::Execute(list.copy(alloc)?)),
            Command::Request(list) => Ok(Command::Request(list.copy(alloc)?)),
            Command::StrongQuery(items) => Ok(Command::StrongQuery(items.copy(alloc)?)),
            Command::Load(items) => Ok(Command::Load(items.copy(alloc)?)),
            Command::Batch(lists) => Ok(Command::Batch(lists.copy(alloc)?)),
            Command::Once {
                id,
                boot,
                number,
                list,
            } => Ok(Command::Once {
                id: *id,
                boot: *boot,
                number: *number,
                list: list.copy(alloc)?,
            }),
        }
    }
}

impl Encode for Command {
    ghost use Rattle.rq_statement.specs.Bytes.{command_bytes};

    ghost spelled = { command_bytes };

    fn put(&self, into: &mut Vec<u8>) -> Result<(), NoMemory> {
        match self {
            Command::NoOp => Ok(()),
            Command::Config(_) => Ok(()),
            Command::Execute(list) => {
                put_u8(1, into)?;
                list.put(into)
            }
            Command::Request(list) => {
                put_u8(2, into)?;
                list.put(into)
            }
            Command::StrongQuery(items) => {
                put_u8(3, into)?;
                put_list(items.as_slice(), into)
            }
            Command::Load(items) => {
                put_u8(4, into)?;
                put_list(items.as_slice(), into)
            }
            Command::Batch(lists) => {
                put_u8(5, into)?;
                put_list(lists.as_slice(), into)
            }
            Command::Once {
                id,
                boot,
                number,
                list,
            } => {
                put_u8(6, into)?;
                id.put(into)?;
                put_u64(*boot, into)?;
                put_u64(*number, into)?;
                list.put(into)
            }
        }
    }
}

/// Adds the command's spelling, all of it or nothing; a list or a text of 2^32 or more has none, and is answered as want
/// of memory. A NoOp and a Config stand in their entry without a command, and are spelled as nothing here.
pub fn encode_command(command: &Command, into: &mut Vec<u8>) -> Result<(), NoMemory>
    ensures ok { OnOk result (into.new.items ≡ into.old.items ++ spec.command_bytes command.now) }
    ensures err { OnErr result (into.new.items ≡ into.old.items) }
{
    encode_whole(command, into)
}

/// Adds the command that runs the items, each by itself. With no memory a part of it may be there.
fn put_execute(items: &[Item], into: &mut Vec<u8>) -> Result<(), NoMemory>
    ensures ok { OnOk result (into.new.items ≡ into.old.items ++ spec.execute_bytes items.now) }
    ensures err { OnErr result (KeepsPrefix into.old.items into.new.items) }
{
    put_u8(1, into)?;
    put_u8(0, into)?;
    put_list(items, into)
}

/// Adds the spelling of the command that runs the items, each by itself, all of it or nothing; a list or a text of 2^32 or
/// more has none, and is answered as want of memory.
pub fn encode_execute(items: &[Item], into: &mut Vec<u8>) -> Result<(), NoMemory>
    ensures ok { OnOk result (into.new.items ≡ into.old.items ++ spec.execute_bytes items.now) }
    ensures err { OnErr result (into.new.items ≡ into.old.items) }
{
    let len = into.len();
    let done = put_execute(items, into);
    if done.is_err() {
        into.truncate(len);
    }
    done
}
