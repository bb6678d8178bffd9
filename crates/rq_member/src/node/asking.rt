//! Asks that need an entry: docs/RAFT.md, "Ask".
ghost use Rattle.std.specs.Prelude.{◌≡◌, ◌⊎◌, ◌≤◌, ◌<◌, ◌^◌, ◌∷◌, ◌++◌, [], true, None, length, IfOk, IfErr, OnOk, OnErr};
ghost use Rattle.rq_values.specs.declared.limits.TheConstants.{MAX_COMMAND};
ghost use Rattle.rq_statement.specs.Bytes.{command_bytes};
ghost use Rattle.rq_raft.specs.Node.{is_leader};
ghost use Rattle.rq_world.specs.Rules.{write_command, write, proposed, appends};
ghost use Rattle.rq_member.specs.declared.turn_error.TurnError.TheVariants as failures;
ghost use Rattle.rq_member.specs.Files.{IsReadable};
ghost use Rattle.rq_member.specs.Held.{IsOpen};
ghost use Rattle.rq_member.specs.Turned.{Did};

use super::{Node, Put};
use crate::engine::Engine;
use crate::entry::{LogEntry, spelled};
use crate::event::Effects;
use crate::turn_error::TurnError;
use rq_command::items_can_be_read;
use rq_outside::{Disk, DiskPair};
use rq_request::NodeRefusal;
use rq_statement::{Command, StatementList};
use rq_values::{MAX_COMMAND, NoMemory};
use rq_wal::logs_stand_while_room_is_made;
use rq_world::Waiting;
use std::alloc::Global;

/// A mixed list may read too.
#[tactic(auto, using(crate::proofs::Short::execute_readable, crate::proofs::Short::request_readable))]
fn write_command(list: StatementList, mixed: bool) -> Command
    ensures command { result ≡ write_command list mixed }
    ensures readable { length (command_bytes result) ≤ MAX_COMMAND → IsReadable result }
{
    items_can_be_read(list.items());
    if mixed {
        Command::Request(list)
    } else {
        Command::Execute(list)
    }
}

/// How many bytes a command has, spelled.
fn length_of(alloc: Global, command: &Command) -> Result<usize, NoMemory>
    ensures { IfOk result (λ size. size ≡ length (command_bytes command.now)) }
{
    let bytes = spelled(alloc, command)?;
    Ok(bytes.bytes().len())
}

/// What is put waits for an entry at this index.
fn wait_for(waiting: &mut Vec<Waiting>, put: Put, index: u64) -> Result<(), NoMemory>
    ensures ok { OnOk result (waiting.new.items ≡ waiting.old.items ++ record { index = index; number = put.number; asked = put.moment; timeout = put.timeout; position = 0; sequence = None } ∷ []) }
    ensures err { OnErr result (waiting.new.items ≡ waiting.old.items) }
{
    waiting.push(Waiting {
        index,
        number: put.number,
        asked: put.moment,
        timeout: put.timeout,
        position: 0,
        sequence: None,
    })?;
    Ok(())
}

impl<R: Engine> Node<R> {
    /// Appends a list at a leader, to be answered when it is applied; else says why not.
    pub(super) fn write<D: Disk>(
        &mut self,
        alloc: Global,
        disks: &mut DiskPair<D>,
        put: Put,
        list: StatementList,
        mixed: bool,
    ) -> Result<Effects, TurnError>
        requires open { IsOpen self.old.state.first D.told D.means disks.old self.old.state.node self.old.file }
        requires short { length self.old.state.node.raft.log < 2 ^ 62 }
        ensures did { Did self.old.state.first D.told D.means (write self.old.state.first self.old.state.node put.number put.moment put.timeout list mixed) disks.old disks.new self.old.state.node self.new.state.node self.new.file result }
        ensures refusals { IfErr result (λ e. (e ≡ failures.Disk) ⊎ (e ≡ failures.NoMemory)) }
        ensures first { self.new.state.first ≡ self.old.state.first }
        ensures generation { self.new.generation ≡ self.old.generation }
    {
        logs_stand_while_room_is_made::<D>();
        if !self.state.core.leads() {
            drop(list);
            return self.state.no_leader(alloc, put.number);
        }
        self.propose(alloc, disks, put, write_command(list, mixed))
    }

    /// Appends a command at a leader, unless it is too large.
    pub(super) fn propose<D: Disk>(
        &mut self,
        alloc: Global,
        disks: &mut DiskPair<D>,
        put: Put,
        command: Command,
    ) -> Result<Effects, TurnError>
        requires open { IsOpen self.old.state.first D.told D.means disks.old self.old.state.node self.old.file }
        requires short { length self.old.state.node.raft.log < 2 ^ 62 }
        requires leads { is_leader self.old.state.node.raft.role ≡ true }
        requires readable { length (command_bytes command) ≤ MAX_COMMAND → IsReadable command }
        ensures did { Did self.old.state.first D.told D.means (proposed self.old.state.first self.old.state.node put.number put.moment put.timeout command (length (command_bytes command))) disks.old disks.new self.old.state.node self.new.state.node self.new.file result }
        ensures refusals { IfErr result (λ e. (e ≡ failures.Disk) ⊎ (e ≡ failures.NoMemory)) }
        ensures first { self.new.state.first ≡ self.old.state.first }
        ensures generation { self.new.generation ≡ self.old.generation }
    {
        logs_stand_while_room_is_made::<D>();
        let size = match length_of(alloc, &command) {
            Ok(size) => size,
            Err(error) => {
                drop(command);
                return Err(error.into());
            }
        };
        if size > MAX_COMMAND as usize {
            drop(command);
            let refusal = NodeRefusal::EntryTooLarge(size as u64);
            return self.state.refuses(alloc, put.number, refusal);
        }
        let index = self.state.core.last() + 1;
        match wait_for(&mut self.state.waiting, put, index) {
            Ok(()) => {}
            Err(_) => {
                drop(command);
                return Err(TurnError::NoMemory);
            }
        }
        match self.append(alloc, disks, command) {
            Ok(effects) => Ok(effects),
            Err(error) => {
                let _ = self.state.waiting.pop();
                Err(error)
            }
        }
    }

    /// Appends an entry of this command at a leader.
    pub(super) fn append<D: Disk>(
        &mut self,
        alloc: Global,
        disks: &mut DiskPair<D>,
        command: Command,
    ) -> Result<Effects, TurnError>
        requires open { IsOpen self.old.state.first D.told D.means disks.old self.old.state.node self.old.file }
        requires leads { is_leader self.old.state.node.raft.role ≡ true }
        requires readable { IsReadable command }
        ensures did { Did self.old.state.first D.told D.means (appends self.old.state.first self.old.state.node (record { term = self.old.state.node.raft.term; command = command }) [] self.old.state.node.queue) disks.old disks.new self.old.state.node self.new.state.node self.new.file result }
        ensures refusals { IfErr result (λ e. (e ≡ failures.Disk) ⊎ (e ≡ failures.NoMemory)) }
        ensures first { self.new.state.first ≡ self.old.state.first }
        ensures generation { self.new.generation ≡ self.old.generation }
    {
        logs_stand_while_room_is_made::<D>();
        let led = self.state.led();
        let term = self.state.core.term();
        let moves = self.state.core.propose(LogEntry { term, command })?;
        self.settle(alloc, disks, led, moves)
    }
}
