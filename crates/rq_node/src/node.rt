//! A running node with its log files: docs/RAFT.md.
ghost use Rattle.std.specs.Prelude.{◌≡◌, ◌⊎◌, ◌<◌, ◌+◌, ◌++◌, ◌∷◌, ◌*◌, ◌^◌, [], List, ℕ, length, map, IsTrue, OnOk, IfOk, IfErr, IsErrOf, is_some, true};
ghost use Rattle.rq_wire.specs.declared.frame.Frame.TheVariants.{Splice};
ghost use Rattle.rq_node.specs.declared.turn_error.TurnError.TheVariants.{Disk as DiskFailed, NoMemory as OutOfMemory};
ghost use Rattle.rq_wal.specs.Rules.{AreAllowed};
ghost use Rattle.rq_node.specs.Events.{rule, Brings, KeepsPersistent, IsLeft, IsModest};
ghost use Rattle.rq_node.specs.Files.{frame_of, stored_of};
ghost use Rattle.rq_node.specs.Node.{Persistent, StoredRecord, persistent_of, persistent_after};
ghost use Rattle.rq_node.specs.Recovery.{HasFile, IsBroken, IsOpen, Moments, SpentStoring};
ghost use Rattle.rq_node.specs.Rules.{apply};
ghost use Rattle.rq_node.specs.Sound.{AreReadable};

use crate::event::{Effects, Event};
use crate::log_entry::LogEntry;
use crate::role::Role;
use crate::turn_error::TurnError;
use crate::waiting::Waiting;
use rq_command::items_can_be_read;
use rq_outside::{Disk, DiskPair};
use rq_tables::Tables;
use rq_values::{Id, NoMemory, Seq};
use rq_wal::{Frame, WalFile, logs_stand_while_room_is_made};
use rq_wire::{Body, Entry};
use std::alloc::Global;
use std::collections::VecDeque;
use std::marker::Model;

mod applying;
mod asking;
mod electing;
mod opening;

/// What a running node knows.
#[derive(Drop)]
pub struct State {
    id: Id,
    term: u64,
    vote: Option<Id>,
    boot: u64,
    log: Vec<LogEntry>,
    commit: u64,
    applied: u64,
    role: Role,
    waiting: VecDeque<Waiting>,
    replica: Tables,
}

impl Model for State {
    ghost use Rattle.std.specs.Coded.{codes};
    ghost use Rattle.rq_values.specs.contracts.value.Value as value;
    ghost use Rattle.rq_grammar.specs.contracts.stmt.ColumnDef as column;
    ghost use Rattle.rq_statement.specs.contracts.item.Item as item;
    ghost use Rattle.rq_engine.specs.Coding.{state_code};
    ghost use Rattle.rq_node.specs.Node.{Node};
    ghost use Rattle.rq_node.specs.Sound.{IsSound};

    ghost Value = { Node };

    ghost coded = { Prim.hlevel (codes, item.the_row.coded, state_code column.the_row.coded value.the_row.coded) };

    ghost view = { λ s. record {
      id = s.id;
      term = s.term;
      vote = s.vote;
      boot = s.boot;
      log = s.log.items;
      commit = s.commit;
      applied = s.applied;
      role = s.role;
      waiting = s.waiting.items;
      replica = s.replica;
    } };

    ghost invariant = { λ s. IsSound s.log.items s.commit s.applied };
}

/// A running node and its log file. After a disk has failed the file is gone, and the node is to be opened again.
#[derive(Drop)]
pub struct Node {
    pub state: State,
    pub file: Option<WalFile>,
}

impl State {
    pub fn id(&self) -> &Id
        ensures { result.now ≡ self.now.id }
    {
        &self.id
    }

    pub fn boot(&self) -> u64
        ensures { result ≡ self.now.boot }
    {
        self.boot
    }

    pub fn term(&self) -> u64
        ensures { result ≡ self.now.term }
    {
        self.term
    }

    pub fn role(&self) -> Role
        ensures { result ≡ self.now.role }
    {
        self.role
    }

    pub fn commit(&self) -> u64
        ensures { result ≡ self.now.commit }
    {
        self.commit
    }

    pub fn applied(&self) -> u64
        ensures { result ≡ self.now.applied }
    {
        self.applied
    }

    /// The index of the last entry, 0 where there is none.
    pub fn last(&self) -> u64
        ensures { result ≡ length self.now.log }
    {
        self.log.len() as u64
    }

    /// The index of the entry to come. That it isn't below 2^64 counts as want of memory.
    fn next_index(&self) -> Result<u64, NoMemory>
        ensures { IfOk result (λ index. index ≡ length self.now.log + 1) }
    {
        self.last().checked_add(1).ok_or(NoMemory)
    }

    /// The log can be read from its file again. This changes nothing.
    fn know_log(&self)
        ensures { AreReadable self.now.log }
    {
        let _length = self.log.len();
    }

    /// The asks that wait, in rising order of indexes, in two pieces.
    pub fn waiting(&self) -> (&[Waiting], &[Waiting])
        ensures { result.0.now ++ result.1.now ≡ self.now.waiting }
    {
        self.waiting.as_slices()
    }
}

impl Node {
    /// Does what the rule of this event says. What it stores is durable when the answers are there.
    #[tactic(auto, using(rq_wal::proofs::Spending::spends_none, crate::proofs::Turning::apply_stores))]
    pub fn turn<D: Disk>(
        &mut self,
        alloc: Global,
        disks: &mut DiskPair<D>,
        event: Event,
    ) -> Result<Effects, TurnError>
        requires open { IsOpen D.told D.means disks.old self.old }
        ensures ok { OnOk result (self.new.state ≡ (rule event self.old.state).node) }
        ensures effects { IfOk result (Brings (rule event self.old.state)) }
        ensures open { OnOk result (IsOpen D.told D.means disks.new self.new) }
        ensures spent { SpentStoring D.means (length (rule event self.old.state).records) disks.old disks.new result }
        ensures failed { IsErrOf result DiskFailed → IsBroken D.told D.means disks.new self.old.state.id (persistent_of self.old.state) (rule event self.old.state).records }
        ensures moments { Moments D.told D.means disks.old disks.new self.old.state.id (persistent_of self.old.state) (rule event self.old.state).records }
        ensures stopped { IsErrOf result DiskFailed → self.new.state ≡ self.old.state }
        ensures no_memory { IsErrOf result OutOfMemory → IsLeft event self.old.state self.new.state × IsOpen D.told D.means disks.new self.new }
        ensures still { (rule event self.old.state).records ≡ [] → disks.new ≡ disks.old }
        ensures modest { IsModest self.old.state (rule event self.old.state) }
    {
        know_rule(&self.state, &event);
        match event {
            Event::Execute { number, items } => self.execute(alloc, disks, number, items),
            Event::Query { number, items } => {
                Ok(self.state.query(alloc, number, items.as_slice())?)
            }
            Event::Elect => self.elect(alloc, disks),
            Event::Apply => self.apply(alloc),
        }
    }

    /// Applies what is committed.
    fn apply(&mut self, alloc: Global) -> Result<Effects, TurnError>
        ensures ok { OnOk result (self.new.state ≡ (apply self.old.state).node) }
        ensures effects { IfOk result (Brings (apply self.old.state)) }
        ensures kept { KeepsPersistent self.old.state self.new.state }
        ensures file { self.new.file ≡ self.old.file }
        ensures refused { IfErr result (λ e. e ≡ OutOfMemory) }
    {
        let answers = self.state.apply(alloc)?;
        Ok(Effects { stored: 0, answers })
    }
}

/// What the rule of an event leaves as it is. This changes nothing.
#[tactic(auto, using(crate::proofs::Turning::elect_modest, crate::proofs::Turning::execute_modest, crate::proofs::Turning::says_modest, crate::proofs::Turning::apply_modest))]
fn know_rule(state: &State, event: &Event)
    ensures { IsModest state.now (rule event.now state.now) }
{
    state.know_log();
    match event {
        Event::Execute { number: _, items } => items_can_be_read(items.as_slice()),
        Event::Query {
            number: _,
            items: _,
        } => {}
        Event::Elect => {}
        Event::Apply => {}
    }
}

/// The frame that appends one entry at an index.
fn splice_of(alloc: Global, index: u64, term: u64, body: Body) -> Result<Frame, NoMemory>
    ensures frame { IfOk result (λ frame. frame ≡ Splice index (record { term = term; body = body } ∷ [])) }
    ensures index { index < 2 ^ 64 }
    ensures term { term < 2 ^ 64 }
{
    let mut entries = Seq::new(alloc);
    entries.push(Entry { term, body })?;
    Ok(Frame::Splice {
        from: index,
        entries,
    })
}

/// Makes frames durable, by four changing calls each. After `Disk` there is no file any more; after `NoMemory` nothing
/// has changed.
#[tactic(auto, using(crate::proofs::FileSteps::stored_spent))]
fn store<D: Disk>(
    file: &mut Option<WalFile>,
    alloc: Global,
    disks: &mut DiskPair<D>,
    frames: &[Frame],
) -> Result<(), TurnError>
    requires some { is_some file.old ≡ true }
    requires open { (id : List ℕ) × (kept : Persistent) × HasFile D.told D.means disks.old id kept file.old }
    ensures ok { OnOk result ((id : List ℕ) (kept : Persistent) (items : List StoredRecord) → frames.now ≡ map frame_of items → AreAllowed (stored_of id kept) (map frame_of items) → HasFile D.told D.means disks.old id kept file.old → HasFile D.told D.means disks.new id (persistent_after kept items) file.new) }
    ensures spent { SpentStoring D.means (length frames.now) disks.old disks.new result }
    ensures failed { IsErrOf result DiskFailed → (id : List ℕ) (kept : Persistent) (first : StoredRecord) (more : List StoredRecord) → frames.now ≡ map frame_of (first ∷ more) → AreAllowed (stored_of id kept) (map frame_of (first ∷ more)) → HasFile D.told D.means disks.old id kept file.old → IsBroken D.told D.means disks.new id kept (first ∷ more) }
    ensures no_memory { IsErrOf result OutOfMemory → (id : List ℕ) (kept : Persistent) → HasFile D.told D.means disks.old id kept file.old → HasFile D.told D.means disks.new id kept file.new }
    ensures moments { (id : List ℕ) (kept : Persistent) (items : List StoredRecord) → frames.now ≡ map frame_of items → AreAllowed (stored_of id kept) (map frame_of items) → HasFile D.told D.means disks.old id kept file.old → Moments D.told D.means disks.old disks.new id kept items }
{
    logs_stand_while_room_is_made::<D>();
    let Some(mut wal) = file.take() else {
        unreachable!()
    };
    let batch = match wal.ready(alloc, disks, frames) {
        Ok(batch) => batch,
        Err(NoMemory) => {
            *file = Some(wal);
            return Err(TurnError::NoMemory);
        }
    };
    match wal.write(disks, batch) {
        Ok(wal) => {
            *file = Some(wal);
            Ok(())
        }
        Err(_) => Err(TurnError::Disk),
    }
}
