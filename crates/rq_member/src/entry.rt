//! The log's entries, as the consensus core and the log files have them.
ghost use Rattle.std.specs.Prelude.{◌≡◌, ◌<◌, ◌^◌, ◌++◌, [], IfOk, OnOk, OnErr};
ghost use Rattle.rq_values.specs.Exact.{AreBytes};
ghost use Rattle.rq_wire.specs.Exact.{IsBody, IsEntry};
ghost use Rattle.rq_wal.specs.Reading.{text_limit};
ghost use Rattle.rq_statement.specs.Bytes.{command_bytes};
ghost use Rattle.rq_member.specs.Files.{stored_entry, body_of, IsReadable};

use rq_log::LogEntry as Logged;
use rq_statement::{Command, encode_command};
use rq_values::{Bytes, NoMemory};
use rq_wire::{Body, Entry, Member};
use std::alloc::Global;
use std::marker::Model;

/// An entry of the log: the term of the leader that appended it, and what it has a replica do. A contract sees an entry of the
/// world's log.
#[derive(Drop)]
pub struct LogEntry {
    pub term: u64,
    pub command: Command,
}

impl Model for LogEntry {
    ghost use Rattle.std.specs.Coded.{codes};
    ghost use Rattle.rq_statement.specs.contracts.item.Item as item;
    ghost use Rattle.rq_world.specs.declared.log_entry.LogEntry.{LogEntry as TheLogEntry};

    ghost Value = { TheLogEntry };

    ghost coded = { Prim.hlevel (codes, item.the_row.coded) };

    ghost view = { λ e. record { term = e.term; command = e.command } };
}

impl Logged for LogEntry {
    ghost use Rattle.rq_world.specs.Node.{log_entries};
    ghost use Rattle.rq_member.specs.Files.{log_entries_are_right};

    ghost entries = { log_entries };

    fn term(&self) -> u64 {
        self.term
    }

    fn members(&self) -> Option<&[Member]> {
        None
    }

    fn empty(term: u64) -> LogEntry {
        LogEntry {
            term,
            command: Command::NoOp,
        }
    }

    fn fit(list: &[LogEntry]) -> usize {
        list.len().min(64)
    }

    ghost right = { log_entries_are_right };
}

/// The bytes of a command.
pub(crate) fn spelled(alloc: Global, command: &Command) -> Result<Bytes, NoMemory>
    ensures spelled { IfOk result (λ bytes. bytes ≡ command_bytes command.now) }
    ensures bytes { IfOk result (λ bytes. AreBytes bytes) }
{
    let mut bytes = Vec::new(alloc);
    encode_command(command, &mut bytes)?;
    are_bytes(bytes.as_slice());
    Ok(Bytes::from_vec(bytes))
}

/// Bytes are below 256.
fn are_bytes(bytes: &[u8])
    ensures { AreBytes bytes.now }
{}

/// What the entry does, as a log file has it.
fn body_of(alloc: Global, command: &Command) -> Result<Body, NoMemory>
    ensures body { IfOk result (λ body. body ≡ body_of command.now) }
    ensures sound { IfOk result (λ body. IsReadable command.now → IsBody text_limit body) }
{
    match command {
        Command::NoOp => Ok(Body::NoOp),
        command => Ok(Body::Data(spelled(alloc, command)?)),
    }
}

/// The entry, as a log file has it.
pub fn spelled_entry(alloc: Global, entry: &LogEntry) -> Result<Entry, NoMemory>
    ensures entry { IfOk result (λ stored. stored ≡ stored_entry entry.now) }
    ensures sound { IfOk result (λ stored. IsReadable entry.now.command → IsEntry text_limit stored) }
{
    let term = entry.term;
    let body = body_of(alloc, &entry.command)?;
    Ok(entry_with(term, body))
}

fn entry_with(term: u64, body: Body) -> Entry
    ensures entry { result ≡ record { term = term; body = body } }
    ensures fits { term < 2 ^ 64 }
{
    Entry { term, body }
}
