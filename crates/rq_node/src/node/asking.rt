//! Asks: docs/RAFT.md, "Ask".
ghost use Rattle.std.specs.Prelude.{◌≡◌, ◌∷◌, ◌≤◌, ◌*◌, [], length, Some, IfOk, OnOk, OnErr, IsErrOf, MatchOption, nat_lt};
ghost use Rattle.rq_values.specs.Exact.{AreBytes};
ghost use Rattle.rq_statement.specs.Bytes.{execute_bytes};
ghost use Rattle.rq_request.specs.declared.say.Say.TheVariants.{Results};
ghost use Rattle.rq_node.specs.declared.turn_error.TurnError.TheVariants.{Disk as DiskFailed, NoMemory as OutOfMemory};
ghost use Rattle.rq_node.specs.Node.{persistent_of, says};
ghost use Rattle.rq_node.specs.Events.{Brings};
ghost use Rattle.rq_node.specs.Rules.{execute, execute_sized, query, taken_up};
ghost use Rattle.rq_node.specs.Sound.{most_bytes};
ghost use Rattle.rq_node.specs.Recovery.{IsOpen, IsBroken, Moments, SpentStoring};

use super::{Node, State, splice_of, store};
use crate::event::Effects;
use crate::log_entry::{Content, LogEntry};
use crate::role::Role;
use crate::turn_error::TurnError;
use crate::waiting::Waiting;
use rq_command::items_can_be_read;
use rq_engine::SharedEngine;
use rq_outside::{Disk, DiskPair};
use rq_request::{NodeRefusal, Say};
use rq_statement::{Item, encode_execute};
use rq_values::{Bytes, MAX_COMMAND, NoMemory, Seq};
use rq_wire::Body;
use std::alloc::Global;

impl State {
    /// Answers queries from the node's own replica.
    pub(super) fn query(
        &self,
        alloc: Global,
        number: u64,
        items: &[Item],
    ) -> Result<Effects, NoMemory>
        ensures effects { IfOk result (Brings (query self.now number items.now)) }
    {
        let results = self.replica.look(alloc, items)?;
        Effects::says(alloc, number, Say::Results(results))
    }
}

/// The command that runs these items, in bytes.
fn command_of(alloc: Global, items: &Seq<Item>) -> Result<Vec<u8>, NoMemory>
    ensures spelled { IfOk result (λ command. command.items ≡ execute_bytes items.now) }
    ensures bytes { IfOk result (λ command. AreBytes command.items) }
{
    let mut command = Vec::new(alloc);
    encode_execute(items.as_slice(), &mut command)?;
    are_bytes(command.as_slice());
    Ok(command)
}

/// Bytes are below 256.
fn are_bytes(bytes: &[u8])
    ensures { AreBytes bytes.now }
{}

impl Node {
    /// Appends a list of statements at a leader, to be answered when it is applied; else says why not.
    #[tactic(auto, using(rq_wal::proofs::Spending::spends_none))]
    pub(super) fn execute<D: Disk>(
        &mut self,
        alloc: Global,
        disks: &mut DiskPair<D>,
        number: u64,
        items: Seq<Item>,
    ) -> Result<Effects, TurnError>
        requires open { IsOpen D.told D.means disks.old self.old }
        ensures effects { IfOk result (Brings (execute self.old.state number items)) }
        ensures ok { OnOk result (self.new.state ≡ (execute self.old.state number items).node) }
        ensures open { OnOk result (IsOpen D.told D.means disks.new self.new) }
        ensures spent { SpentStoring D.means (length (execute self.old.state number items).records) disks.old disks.new result }
        ensures failed { IsErrOf result DiskFailed → IsBroken D.told D.means disks.new self.old.state.id (persistent_of self.old.state) (execute self.old.state number items).records }
        ensures moments { Moments D.told D.means disks.old disks.new self.old.state.id (persistent_of self.old.state) (execute self.old.state number items).records }
        ensures err { OnErr result (self.new.state ≡ self.old.state) }
        ensures no_memory { IsErrOf result OutOfMemory → IsOpen D.told D.means disks.new self.new }
        ensures still { (execute self.old.state number items).records ≡ [] → disks.new ≡ disks.old }
    {
        let term = self.state.term;
        if self.state.role != Role::Leader {
            let refusal = NodeRefusal::NoLeader { term };
            return Ok(Effects::says(alloc, number, Say::Refused(refusal))?);
        }
        let command = command_of(alloc, &items)?;
        if command.len() > MAX_COMMAND as usize {
            let refusal = NodeRefusal::EntryTooLarge(command.len() as u64);
            return Ok(Effects::says(alloc, number, Say::Refused(refusal))?);
        }
        self.append(alloc, disks, number, items, Bytes::from_vec(command))?;
        Ok(Effects::stores(alloc, 1))
    }

    /// Appends an entry with this list, spelled as these bytes. A leader that is the one voter commits it at once.
    #[tactic(auto, using(rq_wal::proofs::Spending::spends_none))]
    fn append<D: Disk>(
        &mut self,
        alloc: Global,
        disks: &mut DiskPair<D>,
        number: u64,
        items: Seq<Item>,
        command: Bytes,
    ) -> Result<(), TurnError>
        requires open { IsOpen D.told D.means disks.old self.old }
        requires spelled { command ≡ execute_bytes items }
        requires fits { length command ≤ most_bytes }
        requires bytes { AreBytes command }
        ensures ok { OnOk result (self.new.state ≡ (taken_up self.old.state number items).node) }
        ensures open { OnOk result (IsOpen D.told D.means disks.new self.new) }
        ensures spent { SpentStoring D.means 1 disks.old disks.new result }
        ensures failed { IsErrOf result DiskFailed → IsBroken D.told D.means disks.new self.old.state.id (persistent_of self.old.state) (taken_up self.old.state number items).records }
        ensures moments { Moments D.told D.means disks.old disks.new self.old.state.id (persistent_of self.old.state) (taken_up self.old.state number items).records }
        ensures err { OnErr result (self.new.state ≡ self.old.state) }
        ensures no_memory { IsErrOf result OutOfMemory → IsOpen D.told D.means disks.new self.new }
    {
        items_can_be_read(items.as_slice());
        let state = &mut self.state;
        let index = state.next_index()?;
        let term = state.term;
        let splice = splice_of(alloc, index, term, Body::Data(command))?;
        state.log.reserve(1)?;
        state.waiting.reserve(1)?;
        match store(&mut self.file, alloc, disks, &[splice]) {
            Ok(()) => {}
            Err(error) => return Err(error),
        }
        state.log.push_reserved(LogEntry {
            term,
            content: Content::Execute(items),
        });
        let _ = state.waiting.push_back(Waiting { index, number });
        state.commit = index;
        Ok(())
    }
}
