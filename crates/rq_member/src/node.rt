//! A running node with its log files.
ghost use Rattle.std.specs.Prelude.{◌≡◌, ◌≢◌, ◌⊎◌, [], None, Some, ℕ, List, length, map, IfOk, IfErr, OnOk, OnErr, IsTrue, IsErrOf, is_none};
ghost use Rattle.rq_request.specs.declared.say.Say.TheVariants.{Refused};
ghost use Rattle.rq_request.specs.declared.say.NodeRefusal.TheVariants.{NoLeader};
ghost use Rattle.rq_wire.specs.declared.config.Member.{Member as TheMember};
ghost use Rattle.rq_wal.specs.Rules.{AreAllowed};
ghost use Rattle.rq_raft.specs.Node.{Persistent, StoredRecord, all_stored, is_leader};
ghost use Rattle.rq_log.specs.Views.{is_moved};
ghost use Rattle.rq_world.specs.declared.log_entry.LogEntry.{LogEntry as TheLogEntry};
ghost use Rattle.rq_world.specs.Node.{Turn, unchanged, says, persistent_of};
ghost use Rattle.rq_world.specs.Rules.{elect, beat, raft_turn};
ghost use Rattle.rq_world.specs.World.{asked};
ghost use Rattle.rq_member.specs.declared.event.Event.TheVariants as events;
ghost use Rattle.rq_member.specs.declared.turn_error.TurnError.TheVariants as failures;
ghost use Rattle.rq_member.specs.Files.{frame_of, stored_of, HasFile};
ghost use Rattle.rq_member.specs.Held.{node_before, IsOpen};
ghost use Rattle.rq_member.specs.Keeping.{IsKeeping, moved, led_by};
ghost use Rattle.rq_member.specs.Storing.{refusal_in, HasStored};
ghost use Rattle.rq_member.specs.Turned.{Brings, Did, DidApply, IfDone, IsFault, IsTurn, IsCause, op_of, ended};

use crate::engine::Engine;
use crate::entry::LogEntry;
use crate::error::NodeError;
use crate::event::{Ask, Effects, Event, Op};
use crate::frames::frames_of;
use crate::turn_error::TurnError;
use crate::waiting::{PendingRead, QueuedWrite};
use rq_core::Core;
use rq_log::{Moves, Outgoing, Table};
use rq_outside::{Disk, DiskPair};
use rq_queue::Queue;
use rq_request::{Answer, NodeRefusal, Say};
use rq_values::{NoMemory, Seq};
use rq_wal::{Frame, WalFile, logs_stand_while_room_is_made};
use rq_world::Waiting;
use std::alloc::Global;
use std::marker::Model;

mod applying;
mod asking;
mod delivering;
mod losing;
mod opening;
mod queueing;
mod reads;
mod ticking;

pub use opening::Opened;

/// No count of a node comes to this.
const END: u64 = 1 << 62;

/// What a running node knows.
#[derive(Drop)]
pub struct State<R: Engine> {
    core: Core<LogEntry>,
    boot: u64,
    /// In rising order of indexes.
    waiting: Vec<Waiting>,
    /// In the order of their asks.
    pending_reads: Vec<PendingRead>,
    queue: Queue<QueuedWrite>,
    replica: R,
}

impl<R: Engine> Model for State<R> {
    ghost use Rattle.std.specs.Coded.{codes};
    ghost use Rattle.rq_values.specs.contracts.value.Value as value;
    ghost use Rattle.rq_grammar.specs.contracts.stmt.ColumnDef as column;
    ghost use Rattle.rq_statement.specs.contracts.item.Item as item;
    ghost use Rattle.rq_engine.specs.Coding.{state_code};
    ghost use Rattle.rq_member.specs.Held.{Held};

    ghost Value = { Held };

    ghost coded = { Prim.hlevel (codes, item.the_row.coded, state_code column.the_row.coded value.the_row.coded) };

    ghost view = { λ s. record {
      node = record {
        raft = s.core.node;
        boot = s.boot;
        waiting = s.waiting.items;
        pending_reads = s.pending_reads.items;
        queue = s.queue.items;
        last = s.queue.last;
        replica = R.state s.replica;
      };
      before = s.core.before;
      first = s.core.first;
    } };
}

/// A running node and its log file. After a disk has failed the file is gone, and the node is to be opened again.
#[derive(Drop)]
pub struct Node<R: Engine> {
    pub state: State<R>,
    pub file: Option<WalFile>,
    /// How often a base was written to the pair.
    pub generation: u64,
}

impl<R: Engine> State<R> {
    pub fn core(&self) -> &Core<LogEntry>
        ensures { result.now.node ≡ self.now.node.raft }
    {
        &self.core
    }

    pub fn boot(&self) -> u64
        ensures { result ≡ self.now.node.boot }
    {
        self.boot
    }

    pub fn replica(&self) -> &R {
        &self.replica
    }

    /// The asks that wait for an entry, in rising order of its index.
    pub fn waiting(&self) -> &[Waiting]
        ensures { result.now ≡ self.now.node.waiting }
    {
        self.waiting.as_slice()
    }

    /// The linearizable reads that wait for their pass, in the order of their asks.
    pub fn pending_reads(&self) -> &[PendingRead]
        ensures { result.now ≡ self.now.node.pending_reads }
    {
        self.pending_reads.as_slice()
    }

    /// The queued writes that aren't appended yet.
    pub fn queue(&self) -> &Queue<QueuedWrite>
        ensures { result.now.items ≡ self.now.node.queue }
    {
        &self.queue
    }

    /// The first of the last index, the probe counter and the queue's last number that has come to its end, but the file's
    /// generation comes before the queue.
    fn ended(&self, generation: u64) -> Option<u64>
        ensures { result ≡ ended self.now.node generation }
    {
        if self.core.last() >= END {
            Some(self.core.last())
        } else if self.core.probe() >= END {
            Some(self.core.probe())
        } else if generation >= END {
            Some(generation)
        } else if self.queue.last() >= END {
            Some(self.queue.last())
        } else {
            None
        }
    }

    fn no_packets(&self, alloc: Global) -> Table<Outgoing>
        ensures { result ≡ [] }
    {
        Table::new(alloc)
    }

    /// Nothing is stored, sent or answered.
    fn quiet(&self, alloc: Global) -> Effects
        ensures { Brings (unchanged self.now.node) result }
    {
        self.only(alloc, Seq::new(alloc))
    }

    /// Nothing is stored or sent.
    fn only(&self, alloc: Global, answers: Seq<Answer>) -> Effects
        ensures stored { result.stored ≡ 0 }
        ensures packets { result.packets ≡ [] }
        ensures answers { result.answers ≡ answers }
    {
        Effects {
            stored: 0,
            packets: self.no_packets(alloc),
            answers,
        }
    }

    /// The ask of this number is answered at once.
    fn says(&self, alloc: Global, number: u64, say: Say) -> Result<Effects, TurnError>
        ensures brings { IfOk result (Brings (says self.now.node number say)) }
        ensures refusals { IfErr result (λ e. e ≡ failures.NoMemory) }
    {
        let mut answers = Seq::new(alloc);
        answers.push(Answer { number, say })?;
        Ok(self.only(alloc, answers))
    }

    fn refuses(
        &self,
        alloc: Global,
        number: u64,
        refusal: NodeRefusal,
    ) -> Result<Effects, TurnError>
        ensures brings { IfOk result (Brings (says self.now.node number (Refused refusal))) }
        ensures refusals { IfErr result (λ e. e ≡ failures.NoMemory) }
    {
        self.says(alloc, number, Say::Refused(refusal))
    }

    fn no_leader(&self, alloc: Global, number: u64) -> Result<Effects, TurnError>
        ensures brings { IfOk result (Brings (says self.now.node number (Refused (NoLeader self.now.node.raft.term)))) }
        ensures refusals { IfErr result (λ e. e ≡ failures.NoMemory) }
    {
        let term = self.core.term();
        self.refuses(alloc, number, NodeRefusal::NoLeader { term })
    }
}

impl<R: Engine> Node<R> {
    pub fn core(&self) -> &Core<LogEntry>
        ensures { result.now.node ≡ self.now.state.node.raft }
    {
        &self.state.core
    }

    /// Whether a disk has failed.
    pub fn stopped(&self) -> bool
        ensures { result ≡ is_none self.now.file }
    {
        self.file.is_none()
    }

    /// The first count that has come to 2^62, of the last index, the probe counter, the file's generation and the queue's last
    /// number.
    pub fn ended(&self) -> Option<u64>
        ensures { result ≡ ended self.now.state.node self.now.generation }
    {
        self.state.ended(self.generation)
    }

    /// Does what the rule of this event says, at this moment. What it stores is durable when the effects are there.
    pub fn turn<D: Disk>(
        &mut self,
        alloc: Global,
        disks: &mut DiskPair<D>,
        event: Event<'_>,
        moment: u64,
    ) -> Result<Effects, TurnError>
        requires open { IsOpen self.old.state.first D.told D.means disks.old self.old.state.node self.old.file }
        ensures did { (t : Turn) → IsTurn self.old.state.first moment self.old.state.node event.entry t → IfDone result (Did self.old.state.first D.told D.means t disks.old disks.new self.old.state.node self.new.state.node self.new.file result) }
        ensures applied { (most : ℕ) → event.entry ≡ events.Apply most → DidApply self.old.state.first D.told D.means most disks.old disks.new self.old.state.node self.new.state.node self.new.file result }
        ensures refused { IfErr result (λ e. (e ≡ failures.Disk) ⊎ Did self.old.state.first D.told D.means (unchanged self.old.state.node) disks.old disks.new self.old.state.node self.new.state.node self.new.file result) }
        ensures causes { IfErr result (IsCause event.entry self.old.state.node self.old.generation) }
        ensures ended { (count : ℕ) → ended self.old.state.node self.old.generation ≡ Some count → IsErrOf result (failures.Ended count) }
        ensures open { IsErrOf result failures.Disk ⊎ IsOpen self.new.state.first D.told D.means disks.new self.new.state.node self.new.file }
        ensures first { self.new.state.first ≡ self.old.state.first }
        ensures generation { self.new.generation ≡ self.old.generation }
    {
        logs_stand_while_room_is_made::<D>();
        if let Some(count) = self.ended() {
            drop(event);
            return Err(TurnError::Ended(count));
        }
        match event {
            Event::Ask(ask) => self.ask(alloc, disks, ask, moment),
            Event::Elect => self.elect(alloc, disks),
            Event::Beat => self.beat(alloc, disks),
            Event::Flush => self.flush(alloc, disks),
            Event::Deliver(packet) => self.receive(alloc, disks, packet, moment),
            Event::Apply { most } => self.apply(alloc, disks, most),
            Event::Tick => self.tick(alloc, disks, moment),
        }
    }

    fn ask<D: Disk>(
        &mut self,
        alloc: Global,
        disks: &mut DiskPair<D>,
        ask: Ask,
        moment: u64,
    ) -> Result<Effects, TurnError>
        requires open { IsOpen self.old.state.first D.told D.means disks.old self.old.state.node self.old.file }
        requires near { ended self.old.state.node self.old.generation ≡ None }
        ensures did { Did self.old.state.first D.told D.means (asked self.old.state.first self.old.state.node ask.number moment ask.timeout (op_of ask.op)) disks.old disks.new self.old.state.node self.new.state.node self.new.file result }
        ensures refusals { IfErr result IsFault }
        ensures first { self.new.state.first ≡ self.old.state.first }
        ensures generation { self.new.generation ≡ self.old.generation }
    {
        let Ask {
            number,
            timeout,
            op,
        } = ask;
        let put = Put {
            number,
            moment,
            timeout,
        };
        match op {
            Op::Write { list, mixed } => self.write(alloc, disks, put, list, mixed),
            Op::Queue { list, wait } => self.enqueue(alloc, disks, put, list, wait),
            Op::Read {
                items,
                level,
                limit,
            } => self.read(alloc, disks, put, items, level, limit),
        }
    }

    fn elect<D: Disk>(
        &mut self,
        alloc: Global,
        disks: &mut DiskPair<D>,
    ) -> Result<Effects, TurnError>
        requires open { IsOpen self.old.state.first D.told D.means disks.old self.old.state.node self.old.file }
        ensures did { Did self.old.state.first D.told D.means (elect self.old.state.first self.old.state.node) disks.old disks.new self.old.state.node self.new.state.node self.new.file result }
        ensures refusals { IfErr result (λ e. (e ≡ failures.Disk) ⊎ (e ≡ failures.NoMemory)) }
        ensures first { self.new.state.first ≡ self.old.state.first }
        ensures generation { self.new.generation ≡ self.old.generation }
    {
        logs_stand_while_room_is_made::<D>();
        let led = self.state.led();
        let moves = self.state.core.elect()?;
        self.settle(alloc, disks, led, moves)
    }

    fn beat<D: Disk>(
        &mut self,
        alloc: Global,
        disks: &mut DiskPair<D>,
    ) -> Result<Effects, TurnError>
        requires open { IsOpen self.old.state.first D.told D.means disks.old self.old.state.node self.old.file }
        ensures did { Did self.old.state.first D.told D.means (beat self.old.state.first self.old.state.node) disks.old disks.new self.old.state.node self.new.state.node self.new.file result }
        ensures refusals { IfErr result (λ e. (e ≡ failures.Disk) ⊎ (e ≡ failures.NoMemory)) }
        ensures first { self.new.state.first ≡ self.old.state.first }
        ensures generation { self.new.generation ≡ self.old.generation }
    {
        logs_stand_while_room_is_made::<D>();
        let led = self.state.led();
        let moves = self.state.core.beat()?;
        self.settle(alloc, disks, led, moves)
    }

    /// Stores what the core's last call left. A leader that has left its role loses what waits. On a refusal the core's call is
    /// taken back.
    fn settle<D: Disk>(
        &mut self,
        alloc: Global,
        disks: &mut DiskPair<D>,
        led: Option<u64>,
        moves: Moves,
    ) -> Result<Effects, TurnError>
        requires led { led ≡ led_by self.old.state.before }
        requires vote { moves.vote ≡ is_moved self.old.state.before self.old.state.node.raft }
        requires keeping { IsKeeping self.old.state.before (moved self.old.state.node.raft moves) }
        requires open { IsOpen self.old.state.first D.told D.means disks.old (node_before self.old.state) self.old.file }
        ensures did { Did self.old.state.first D.told D.means (raft_turn (node_before self.old.state) (moved self.old.state.node.raft moves)) disks.old disks.new (node_before self.old.state) self.new.state.node self.new.file result }
        ensures refusals { IfErr result (λ e. (e ≡ failures.Disk) ⊎ (e ≡ failures.NoMemory)) }
        ensures first { self.new.state.first ≡ self.old.state.first }
        ensures generation { self.new.generation ≡ self.old.generation }
    {
        logs_stand_while_room_is_made::<D>();
        let answers = match self.state.losses(alloc, led) {
            Ok(answers) => answers,
            Err(_) => {
                drop(moves);
                self.state.core.take_back();
                return Err(TurnError::NoMemory);
            }
        };
        match self.keep(alloc, disks, &moves) {
            Ok(stored) => {
                self.state.forget_lost(led);
                let Moves {
                    vote: _,
                    splice: _,
                    packets,
                } = moves;
                Ok(Effects {
                    stored,
                    packets,
                    answers,
                })
            }
            Err(error) => {
                drop((moves, answers));
                Err(error)
            }
        }
    }

    /// Makes durable what the core's last call left, and answers how many records that is. On a refusal the core's call is taken
    /// back.
    fn keep<D: Disk>(
        &mut self,
        alloc: Global,
        disks: &mut DiskPair<D>,
        moves: &Moves,
    ) -> Result<u64, TurnError>
        requires vote { moves.now.vote ≡ is_moved self.old.state.before self.old.state.node.raft }
        requires keeping { IsKeeping self.old.state.before (moved self.old.state.node.raft moves.now) }
        requires open { IsOpen self.old.state.first D.told D.means disks.old (node_before self.old.state) self.old.file }
        ensures stored { HasStored self.old.state.first D.told D.means (persistent_of (node_before self.old.state)) (all_stored self.old.state.before (moved self.old.state.node.raft moves.now)) disks.old disks.new self.new.file (refusal_in result) }
        ensures count { IfOk result (λ count. count ≡ length (all_stored self.old.state.before (moved self.old.state.node.raft moves.now))) }
        ensures ok { OnOk result (self.new.state ≡ self.old.state) }
        ensures err { OnErr result (self.new.state.node ≡ node_before self.old.state) }
        ensures refusals { IfErr result (λ e. (e ≡ failures.Disk) ⊎ (e ≡ failures.NoMemory)) }
        ensures first { self.new.state.first ≡ self.old.state.first }
        ensures generation { self.new.generation ≡ self.old.generation }
    {
        match self.store_moves(alloc, disks, moves) {
            Ok(count) => Ok(count),
            Err(error) => {
                self.state.core.take_back();
                Err(error)
            }
        }
    }

    /// Makes durable what the core's last call left, and answers how many records that is.
    fn store_moves<D: Disk>(
        &mut self,
        alloc: Global,
        disks: &mut DiskPair<D>,
        moves: &Moves,
    ) -> Result<u64, TurnError>
        requires vote { moves.now.vote ≡ is_moved self.old.state.before self.old.state.node.raft }
        requires keeping { IsKeeping self.old.state.before (moved self.old.state.node.raft moves.now) }
        requires open { IsOpen self.old.state.first D.told D.means disks.old (node_before self.old.state) self.old.file }
        ensures stored { HasStored self.old.state.first D.told D.means (persistent_of (node_before self.old.state)) (all_stored self.old.state.before (moved self.old.state.node.raft moves.now)) disks.old disks.new self.new.file (refusal_in result) }
        ensures count { IfOk result (λ count. count ≡ length (all_stored self.old.state.before (moved self.old.state.node.raft moves.now))) }
        ensures state { self.new.state ≡ self.old.state }
        ensures refusals { IfErr result (λ e. (e ≡ failures.Disk) ⊎ (e ≡ failures.NoMemory)) }
        ensures generation { self.new.generation ≡ self.old.generation }
    {
        logs_stand_while_room_is_made::<D>();
        let frames = frames_of(alloc, &self.state.core, moves)?;
        let count = frames.len() as u64;
        let done = store(&mut self.file, alloc, disks, frames.as_slice());
        drop(frames);
        match done {
            Ok(()) => Ok(count),
            Err(error) => Err(error),
        }
    }
}

/// Makes frames durable, by four changing calls each. After `Disk` there is no file any more; after `NoMemory` nothing has changed.
fn store<D: Disk>(
    file: &mut Option<WalFile>,
    alloc: Global,
    disks: &mut DiskPair<D>,
    frames: &[Frame],
) -> Result<(), TurnError>
    requires open { (first : List TheMember) × (kept : Persistent TheLogEntry) × HasFile first D.told D.means disks.old kept file.old }
    ensures stored { (first : List TheMember) (kept : Persistent TheLogEntry) (records : List (StoredRecord TheLogEntry)) → frames.now ≡ map frame_of records → AreAllowed (stored_of first kept) frames.now → HasFile first D.told D.means disks.old kept file.old → HasStored first D.told D.means kept records disks.old disks.new file.new (refusal_in result) }
    ensures refusals { IfErr result (λ e. (e ≡ failures.Disk) ⊎ (e ≡ failures.NoMemory)) }
{
    logs_stand_while_room_is_made::<D>();
    if frames.is_empty() {
        return Ok(());
    }
    let Some(mut wal) = file.take() else {
        unreachable!()
    };
    let batch = match wal.ready(alloc, disks, frames) {
        Ok(batch) => batch,
        Err(NoMemory) => {
            *file = Some(wal);
            return Err(TurnError::NoMemory);
        }
    };
    match wal.write(disks, batch) {
        Ok(wal) => {
            *file = Some(wal);
            Ok(())
        }
        Err(_) => Err(TurnError::Disk),
    }
}

/// An ask's number, the moment at which it is put, and how long it may wait.
#[derive(Clone, Copy)]
struct Put {
    number: u64,
    moment: u64,
    timeout: u64,
}
