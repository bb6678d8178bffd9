//! An election: docs/RAFT.md, "Elect".
ghost use Rattle.std.specs.Prelude.{◌≡◌, ◌<◌, ◌-◌, ◌^◌, ◌*◌, [], length, IsTrue, Some, OnOk, OnErr, IfOk, IsErrOf};
ghost use Rattle.rq_values.specs.Text.{is_id};
ghost use Rattle.rq_wire.specs.declared.frame.Frame.TheVariants.{Vote};
ghost use Rattle.rq_node.specs.declared.turn_error.TurnError.TheVariants.{Disk as DiskFailed, NoMemory as OutOfMemory};
ghost use Rattle.rq_node.specs.Node.{persistent_of};
ghost use Rattle.rq_node.specs.Events.{Brings};
ghost use Rattle.rq_node.specs.Rules.{elect, led};
ghost use Rattle.rq_node.specs.Recovery.{IsOpen, IsBroken, Moments, SpentStoring};

use super::{Node, splice_of, store};
use crate::event::Effects;
use crate::log_entry::{Content, LogEntry};
use crate::role::Role;
use crate::turn_error::TurnError;
use rq_outside::{Disk, DiskPair};
use rq_values::Id;
use rq_wal::Frame;
use rq_wire::Body;
use std::alloc::Global;

impl Node {
    /// Stands for the next term. The one voter's own vote is a quorum, so it leads at once.
    #[tactic(auto, using(rq_wal::proofs::Spending::spends_none))]
    pub(super) fn elect<D: Disk>(
        &mut self,
        alloc: Global,
        disks: &mut DiskPair<D>,
    ) -> Result<Effects, TurnError>
        requires open { IsOpen D.told D.means disks.old self.old }
        ensures ok { OnOk result (self.new.state ≡ (elect self.old.state).node) }
        ensures effects { IfOk result (Brings (elect self.old.state)) }
        ensures open { OnOk result (IsOpen D.told D.means disks.new self.new) }
        ensures spent { SpentStoring D.means (length (elect self.old.state).records) disks.old disks.new result }
        ensures failed { IsErrOf result DiskFailed → IsBroken D.told D.means disks.new self.old.state.id (persistent_of self.old.state) (elect self.old.state).records }
        ensures moments { Moments D.told D.means disks.old disks.new self.old.state.id (persistent_of self.old.state) (elect self.old.state).records }
        ensures err { OnErr result (self.new.state ≡ self.old.state) }
        ensures no_memory { IsErrOf result OutOfMemory → IsOpen D.told D.means disks.new self.new }
        ensures still { (elect self.old.state).records ≡ [] → disks.new ≡ disks.old }
    {
        if self.state.role == Role::Leader || self.state.term == u64::MAX {
            return Ok(Effects::stores(alloc, 0));
        }
        self.lead(alloc, disks)?;
        Ok(Effects::stores(alloc, 2))
    }

    /// Goes to the next term, votes for itself, and leads.
    #[tactic(auto, using(rq_wal::proofs::Spending::spends_none))]
    fn lead<D: Disk>(&mut self, alloc: Global, disks: &mut DiskPair<D>) -> Result<(), TurnError>
        requires open { IsOpen D.told D.means disks.old self.old }
        requires term { self.old.state.term < 2 ^ 64 - 1 }
        ensures ok { OnOk result (self.new.state ≡ (led self.old.state).node) }
        ensures open { OnOk result (IsOpen D.told D.means disks.new self.new) }
        ensures spent { SpentStoring D.means 2 disks.old disks.new result }
        ensures failed { IsErrOf result DiskFailed → IsBroken D.told D.means disks.new self.old.state.id (persistent_of self.old.state) (led self.old.state).records }
        ensures moments { Moments D.told D.means disks.old disks.new self.old.state.id (persistent_of self.old.state) (led self.old.state).records }
        ensures err { OnErr result (self.new.state ≡ self.old.state) }
        ensures no_memory { IsErrOf result OutOfMemory → IsOpen D.told D.means disks.new self.new }
    {
        let state = &mut self.state;
        let term = state.term + 1;
        let index = state.next_index()?;
        let vote = vote_for(term, state.id);
        let splice = splice_of(alloc, index, term, Body::NoOp)?;
        state.log.reserve(1)?;
        match store(&mut self.file, alloc, disks, &[vote, splice]) {
            Ok(()) => {}
            Err(error) => return Err(error),
        }
        state.term = term;
        state.vote = Some(state.id);
        state.role = Role::Leader;
        state.log.push_reserved(LogEntry {
            term,
            content: Content::NoOp,
        });
        state.commit = index;
        Ok(())
    }
}

/// The frame that votes for a node.
fn vote_for(term: u64, id: Id) -> Frame
    ensures frame { result ≡ Vote term (Some id) }
    ensures term { term < 2 ^ 64 }
    ensures id { IsTrue (is_id id) }
{
    let _name = id.bytes();
    Frame::Vote {
        term,
        vote: Some(id),
    }
}
