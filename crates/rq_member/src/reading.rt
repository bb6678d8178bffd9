//! Entries of log files and of packets, as the log has them.
ghost use Rattle.std.specs.Prelude.{◌≡◌, ◌≢◌, ◌⊎◌, ◌<◌, ◌^◌, List, map, Option, Ok, Err, Some, IfOk, IfErr};
ghost use Rattle.rq_values.specs.declared.error.DecodeError.{DecodeError as TheError};
ghost use Rattle.rq_values.specs.declared.error.DecodeError.TheVariants as decoding;
ghost use Rattle.rq_statement.specs.declared.command.Command.{Command as TheCommand};
ghost use Rattle.rq_statement.specs.Bytes.{command_bytes};
ghost use Rattle.rq_world.specs.declared.log_entry.LogEntry.{LogEntry as TheLogEntry};
ghost use Rattle.rq_log.specs.declared.packet.Packet.{Packet as ThePacket};
ghost use Rattle.rq_log.specs.declared.packet.Message.{Message as TheMessage};
ghost use Rattle.rq_member.specs.declared.reading.EntryError.TheVariants as errors;
ghost use Rattle.rq_member.specs.declared.error.NodeError.TheVariants as refusals;
ghost use Rattle.rq_member.specs.declared.turn_error.TurnError.TheVariants as failures;
ghost use Rattle.rq_member.specs.Files.{body_of, stored_entry, IsReadable, IsShort, AreReadable};
ghost use Rattle.rq_member.specs.Reading.{IsNoCommand, IsNoEntry, IsUnreadable};
ghost use Rattle.rq_member.specs.Opening.{IsNoLog};
ghost use Rattle.rq_member.specs.Turned.{IsMessage, IsPacket, IsNear, IsWrongEntries, IsWrongMessage};

use crate::entry::LogEntry;
use crate::error::NodeError;
use crate::turn_error::TurnError;
use rq_command::decode_command;
use rq_log::{Message, Packet};
use rq_statement::Command;
use rq_values::{DecodeError, MAX_COMMAND, Seq};
use rq_wire::{Body, Entry};
use std::alloc::Global;

/// Why an entry is none of a node's log.
#[derive(Clone, Copy)]
pub(crate) enum EntryError {
    NoMemory,
    /// It is a configuration, or its command is refused with this error.
    Wrong(Option<DecodeError>),
}

/// The command of these bytes, which are at most as many as an entry may have.
fn command_of(alloc: Global, bytes: &[u8]) -> Result<Command, EntryError>
    ensures spelled { IfOk result (λ command. bytes.now ≡ command_bytes command) }
    ensures readable { IfOk result (λ command. IsShort command) }
    ensures ok { (command : TheCommand) → IsShort command → bytes.now ≡ command_bytes command → (result ≡ Ok command) ⊎ (result ≡ Err errors.NoMemory) }
    ensures wrong { IfErr result (λ e. (e ≡ errors.NoMemory) ⊎ ((error : TheError) × (e ≡ errors.Wrong (Some error)) × IsNoCommand bytes.now error)) }
{
    if bytes.len() > MAX_COMMAND as usize {
        let len = u32::try_from(bytes.len()).unwrap_or(u32::MAX);
        return Err(EntryError::Wrong(Some(DecodeError::Long(0, len))));
    }
    match decode_command(alloc, bytes) {
        Ok(command) => Ok(command),
        Err(error) => Err(fault_of(error)),
    }
}

/// What the refusal of its command makes of an entry.
fn fault_of(error: DecodeError) -> EntryError
    ensures { ((error ≡ decoding.NoMemory) × (result ≡ errors.NoMemory)) ⊎ ((error ≢ decoding.NoMemory) × (result ≡ errors.Wrong (Some error))) }
{
    match error {
        DecodeError::NoMemory => EntryError::NoMemory,
        error => EntryError::Wrong(Some(error)),
    }
}

/// An entry, as the log has it.
fn entry_of(alloc: Global, entry: &Entry) -> Result<LogEntry, EntryError>
    ensures spelled { IfOk result (λ found. entry.now ≡ stored_entry found) }
    ensures readable { IfOk result (λ found. IsReadable found.command) }
    ensures ok { (kept : TheLogEntry) → IsReadable kept.command → entry.now ≡ stored_entry kept → (result ≡ Ok kept) ⊎ (result ≡ Err errors.NoMemory) }
    ensures wrong { IfErr result (λ e. (e ≡ errors.NoMemory) ⊎ ((why : Option TheError) × (e ≡ errors.Wrong why) × IsNoEntry entry.now.body why)) }
{
    let term = entry.term;
    let command = content_of(alloc, &entry.body)?;
    Ok(LogEntry { term, command })
}

/// What an entry has a replica do.
fn content_of(alloc: Global, body: &Body) -> Result<Command, EntryError>
    ensures spelled { IfOk result (λ command. body.now ≡ body_of command) }
    ensures readable { IfOk result (λ command. IsReadable command) }
    ensures ok { (command : TheCommand) → IsReadable command → body.now ≡ body_of command → (result ≡ Ok command) ⊎ (result ≡ Err errors.NoMemory) }
    ensures wrong { IfErr result (λ e. (e ≡ errors.NoMemory) ⊎ ((why : Option TheError) × (e ≡ errors.Wrong why) × IsNoEntry body.now why)) }
{
    match body {
        Body::NoOp => Ok(Command::NoOp),
        Body::Config(_) => Err(EntryError::Wrong(None)),
        Body::Data(bytes) => command_of(alloc, bytes.bytes()),
    }
}

/// The entries, which stand behind that index; the first that is none, with its index.
fn entries_of(
    alloc: Global,
    behind: u64,
    entries: &[Entry],
) -> Result<Vec<LogEntry>, (u64, EntryError)>
    requires near { behind < 2 ^ 62 }
    ensures spelled { IfOk result (λ log. entries.now ≡ map stored_entry log.items) }
    ensures readable { IfOk result (λ log. AreReadable log.items) }
    ensures ok { (log : List TheLogEntry) → AreReadable log → entries.now ≡ map stored_entry log → IfOk result (λ found. found.items ≡ log) }
    ensures refused { (log : List TheLogEntry) → AreReadable log → entries.now ≡ map stored_entry log → IfErr result (λ e. e.1 ≡ errors.NoMemory) }
    ensures wrong { IfErr result (λ e. (e.1 ≡ errors.NoMemory) ⊎ ((why : Option TheError) × (e.1 ≡ errors.Wrong why) × IsUnreadable behind entries.now e.0 why)) }
{
    let mut log = Vec::new(alloc);
    for place in 0..entries.len() {
        match entry_of(alloc, &entries[place]) {
            Ok(entry) => match log.push(entry) {
                Ok(()) => {}
                Err(_) => return Err((0, EntryError::NoMemory)),
            },
            Err(error) => return Err((behind + place as u64 + 1, error)),
        }
    }
    Ok(log)
}

/// The log of a file's entries.
pub(crate) fn log_of(alloc: Global, entries: &[Entry]) -> Result<Vec<LogEntry>, NodeError>
    ensures spelled { IfOk result (λ log. entries.now ≡ map stored_entry log.items) }
    ensures readable { IfOk result (λ log. AreReadable log.items) }
    ensures ok { (log : List TheLogEntry) → AreReadable log → entries.now ≡ map stored_entry log → IfOk result (λ found. found.items ≡ log) }
    ensures refused { (log : List TheLogEntry) → AreReadable log → entries.now ≡ map stored_entry log → IfErr result (λ e. e ≡ refusals.NoMemory) }
    ensures wrong { IfErr result (λ e. (e ≡ refusals.NoMemory) ⊎ IsNoLog entries.now e) }
{
    match entries_of(alloc, 0, entries) {
        Ok(log) => Ok(log),
        Err((_, EntryError::NoMemory)) => Err(NodeError::NoMemory),
        Err((index, EntryError::Wrong(None))) => Err(NodeError::Config { index }),
        Err((index, EntryError::Wrong(Some(error)))) => Err(NodeError::Command { index, error }),
    }
}

/// A packet, as the log has it, whose entries don't stand beyond what an index can be.
pub(crate) fn packet_of(
    alloc: Global,
    packet: &Packet<Entry>,
) -> Result<Packet<LogEntry>, TurnError>
    requires near { IsNear packet.now.message }
    ensures is { IfOk result (λ found. IsPacket packet.now found) }
    ensures ok { (q : ThePacket TheLogEntry) → IsPacket packet.now q → (result ≡ Ok q) ⊎ (result ≡ Err failures.NoMemory) }
    ensures wrong { IfErr result (λ e. (e ≡ failures.NoMemory) ⊎ IsWrongMessage packet.now.message e) }
{
    let message = message_of(alloc, &packet.message)?;
    Ok(Packet {
        term: packet.term,
        from: packet.from,
        to: packet.to,
        message,
    })
}

fn message_of(alloc: Global, message: &Message<Entry>) -> Result<Message<LogEntry>, TurnError>
    requires near { IsNear message.now }
    ensures is { IfOk result (λ found. IsMessage message.now found) }
    ensures ok { (m : TheMessage TheLogEntry) → IsMessage message.now m → (result ≡ Ok m) ⊎ (result ≡ Err failures.NoMemory) }
    ensures wrong { IfErr result (λ e. (e ≡ failures.NoMemory) ⊎ IsWrongMessage message.now e) }
{
    match message {
        Message::VoteAsk {
            last_index,
            last_term,
        } => Ok(Message::VoteAsk {
            last_index: *last_index,
            last_term: *last_term,
        }),
        Message::VoteSay { granted } => Ok(Message::VoteSay { granted: *granted }),
        Message::AppendSay { ok, at, probe } => Ok(Message::AppendSay {
            ok: *ok,
            at: *at,
            probe: *probe,
        }),
        Message::Append {
            prev,
            prev_term,
            commit,
            probe,
            entries,
        } => Ok(Message::Append {
            prev: *prev,
            prev_term: *prev_term,
            commit: *commit,
            probe: *probe,
            entries: packet_entries(alloc, *prev, entries.as_slice())?,
        }),
    }
}

/// The entries of an append behind that index.
fn packet_entries(alloc: Global, prev: u64, entries: &[Entry]) -> Result<Seq<LogEntry>, TurnError>
    requires near { prev < 2 ^ 62 }
    ensures spelled { IfOk result (λ log. entries.now ≡ map stored_entry log) }
    ensures readable { IfOk result (λ log. AreReadable log) }
    ensures ok { (log : List TheLogEntry) → AreReadable log → entries.now ≡ map stored_entry log → (result ≡ Ok log) ⊎ (result ≡ Err failures.NoMemory) }
    ensures wrong { IfErr result (λ e. (e ≡ failures.NoMemory) ⊎ IsWrongEntries prev entries.now e) }
{
    match entries_of(alloc, prev, entries) {
        Ok(log) => Ok(Seq::from_vec(log)),
        Err((_, EntryError::NoMemory)) => Err(TurnError::NoMemory),
        Err((index, EntryError::Wrong(None))) => Err(TurnError::Config { index }),
        Err((index, EntryError::Wrong(Some(error)))) => Err(TurnError::Packet { index, error }),
    }
}
