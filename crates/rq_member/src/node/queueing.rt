//! Queued writes: docs/RAFT.md, "Queue", "Flush".
ghost use Rattle.std.specs.Prelude.{◌≡◌, ◌⊎◌, ◌&&◌, nat_lt, ◌<◌, ◌≤◌, ◌^◌, [], ◌∷◌, ◌++◌, true, All, List, length, map, take, OnOk, OnErr, IfOk, IfErr};
ghost use Rattle.rq_raft.specs.Node.{is_leader};
ghost use Rattle.rq_statement.specs.Bytes.{command_bytes};
ghost use Rattle.rq_statement.specs.declared.command.Command.TheVariants.{Execute};
ghost use Rattle.rq_world.specs.Node.{QueuedWrite as TheQueuedWrite};
ghost use Rattle.rq_world.specs.Rules.{enqueue, enqueued, if_not_full, flush, flushed, appends, batch_entry, batch_waits};
ghost use Rattle.rq_wire.specs.declared.config.Member.{Member as TheMember};
ghost use Rattle.rq_member.specs.declared.turn_error.TurnError.TheVariants as failures;
ghost use Rattle.rq_member.specs.Files.{IsReadable};
ghost use Rattle.rq_member.specs.Queued.{IsQueueable};
ghost use Rattle.rq_member.specs.Held.{IsOpen};
ghost use Rattle.rq_member.specs.Turned.{Brings, Did};

use super::{Node, Put, State};
use crate::engine::Engine;
use crate::event::Effects;
use crate::turn_error::TurnError;
use crate::waiting::QueuedWrite;
use rq_command::items_can_be_read;
use rq_outside::{Disk, DiskPair};
use rq_queue::{PutError, Queue};
use rq_request::{Answer, NodeRefusal, Say};
use rq_statement::{Command, StatementList};
use rq_values::{NoMemory, Seq, TryCopy, encode_whole};
use rq_wal::logs_stand_while_room_is_made;
use rq_world::Waiting;
use std::alloc::Global;

/// The most bytes of one queued list, spelled as a command.
const MAX_QUEUED: usize = 64_000;

/// The most lists of a batch.
const MAX_BATCH: usize = 128;

/// How many bytes the command has that runs this list.
fn size_of(alloc: Global, list: &StatementList) -> Result<usize, NoMemory>
    ensures { IfOk result (λ size. size ≡ length (command_bytes (Execute list.now))) }
{
    let mut bytes = Vec::new(alloc);
    encode_whole(list, &mut bytes)?;
    Ok(bytes.len() + 1)
}

impl<R: Engine> State<R> {
    /// Puts a list into the queue of a leader, unless it is too large or the queue is full.
    fn enqueue(
        &mut self,
        alloc: Global,
        put: Put,
        list: StatementList,
        waits: bool,
    ) -> Result<Effects, TurnError>
        requires small { self.old.node.last < 2 ^ 62 }
        ensures node { OnOk result (self.new ≡ record self.old { node = (enqueue self.old.first self.old.node put.number put.moment put.timeout list waits).node }) }
        ensures effects { IfOk result (Brings (enqueue self.old.first self.old.node put.number put.moment put.timeout list waits)) }
        ensures err { OnErr result (self.new ≡ self.old) }
        ensures refusals { IfErr result (λ e. e ≡ failures.NoMemory) }
    {
        if !self.core.leads() {
            drop(list);
            return self.no_leader(alloc, put.number);
        }
        let size = match size_of(alloc, &list) {
            Ok(size) => size,
            Err(error) => {
                drop(list);
                return Err(error.into());
            }
        };
        if size > MAX_QUEUED {
            drop(list);
            let refusal = NodeRefusal::QueuedTooLarge(size as u64);
            return self.refuses(alloc, put.number, refusal);
        }
        self.put_in(alloc, put, list, waits)
    }

    /// Whether the node leads and something is queued.
    fn has_batch(&self) -> bool
        ensures has { result ≡ (is_leader self.now.node.raft.role && nat_lt 0 (length self.now.node.queue)) }
        ensures leads { result ≡ true → is_leader self.now.node.raft.role ≡ true }
    {
        self.core.leads() && self.queue.held() > 0
    }

    fn put_in(
        &mut self,
        alloc: Global,
        put: Put,
        list: StatementList,
        waits: bool,
    ) -> Result<Effects, TurnError>
        requires small { self.old.node.last < 2 ^ 62 }
        requires short { length (command_bytes (Execute list)) ≤ 64000 }
        ensures node { OnOk result (self.new ≡ record self.old { node = (if_not_full self.old.first self.old.node put.number (enqueued self.old.first self.old.node put.number put.moment put.timeout list waits)).node }) }
        ensures effects { IfOk result (Brings (if_not_full self.old.first self.old.node put.number (enqueued self.old.first self.old.node put.number put.moment put.timeout list waits))) }
        ensures err { OnErr result (self.new ≡ self.old) }
        ensures refusals { IfErr result (λ e. e ≡ failures.NoMemory) }
    {
        let sequence = self.queue.last() + 1;
        let mut answers = Vec::new(alloc);
        if answers.reserve(1).is_err() {
            drop((list, answers));
            return Err(TurnError::NoMemory);
        }
        match self.queue.put(QueuedWrite {
            sequence,
            number: put.number,
            list,
            waits,
            asked: put.moment,
            timeout: put.timeout,
        }) {
            Ok(sequence) => {
                if !waits {
                    answers.push_reserved(Answer {
                        number: put.number,
                        say: Say::Queued(sequence),
                    });
                }
                Ok(self.only(alloc, Seq::from_vec(answers)))
            }
            Err(refused) => {
                let (item, error) = refused;
                drop(item);
                let PutError::Full(held) = error;
                answers.push_reserved(Answer {
                    number: put.number,
                    say: Say::Refused(NodeRefusal::QueueFull(held)),
                });
                Ok(self.only(alloc, Seq::from_vec(answers)))
            }
        }
    }
}

/// The lists of the batch make a command that can be read again. This changes nothing.
fn know_batch(queue: &Queue<QueuedWrite>)
    ensures { All IsQueueable (map (λ (q : TheQueuedWrite). q.list) (take 128 queue.now.items)) }
{
    let count = queue.held().min(MAX_BATCH);
    for place in 0..count {
        if let Some((_, item)) = queue.get(place) {
            know_item(item);
        }
    }
}

fn know_item(item: &QueuedWrite)
    ensures { IsQueueable item.now.list }
{
    items_can_be_read(item.list.items());
}

/// The lists of the batch, in order.
fn batch_lists(alloc: Global, queue: &Queue<QueuedWrite>) -> Result<Vec<StatementList>, NoMemory>
    ensures { IfOk result (λ lists. lists.items ≡ map (λ (q : TheQueuedWrite). q.list) (take 128 queue.now.items)) }
{
    let mut lists = Vec::with_capacity(alloc, MAX_BATCH)?;
    let count = queue.held().min(MAX_BATCH);
    for place in 0..count {
        if let Some((_, item)) = queue.get(place) {
            let list = item.list.copy(alloc)?;
            lists.push(list)?;
        }
    }
    Ok(lists)
}

/// What waits in the batch, waits for an entry at this index.
fn wait_for_batch(
    waiting: &mut Vec<Waiting>,
    queue: &Queue<QueuedWrite>,
    index: u64,
) -> Result<(), NoMemory>
    ensures ok { OnOk result ((first : List TheMember) → waiting.new.items ≡ waiting.old.items ++ batch_waits first index 0 (take 128 queue.now.items)) }
    ensures old { take (length waiting.old.items) waiting.new.items ≡ waiting.old.items }
{
    let count = queue.held().min(MAX_BATCH);
    for place in 0..count {
        if let Some((_, item)) = queue.get(place) {
            wait_for_item(waiting, item, place as u64, index)?;
        }
    }
    Ok(())
}

fn wait_for_item(
    waiting: &mut Vec<Waiting>,
    item: &QueuedWrite,
    position: u64,
    index: u64,
) -> Result<(), NoMemory>
    ensures ok { OnOk result ((first : List TheMember) → waiting.new.items ≡ waiting.old.items ++ batch_waits first index position (item.now ∷ [])) }
    ensures err { OnErr result (waiting.new.items ≡ waiting.old.items) }
{
    if item.waits {
        waiting.push(Waiting {
            index,
            number: item.number,
            asked: item.asked,
            timeout: item.timeout,
            position,
            sequence: Some(item.sequence),
        })?;
    }
    Ok(())
}

impl<R: Engine> Node<R> {
    /// Puts a list into the queue of a leader; else says why not.
    pub(super) fn enqueue<D: Disk>(
        &mut self,
        alloc: Global,
        disks: &mut DiskPair<D>,
        put: Put,
        list: StatementList,
        waits: bool,
    ) -> Result<Effects, TurnError>
        requires open { IsOpen self.old.state.first D.told D.means disks.old self.old.state.node self.old.file }
        requires small { self.old.state.node.last < 2 ^ 62 }
        ensures did { Did self.old.state.first D.told D.means (enqueue self.old.state.first self.old.state.node put.number put.moment put.timeout list waits) disks.old disks.new self.old.state.node self.new.state.node self.new.file result }
        ensures refusals { IfErr result (λ e. e ≡ failures.NoMemory) }
        ensures first { self.new.state.first ≡ self.old.state.first }
        ensures generation { self.new.generation ≡ self.old.generation }
    {
        logs_stand_while_room_is_made::<D>();
        let _ = &*disks;
        self.state.enqueue(alloc, put, list, waits)
    }

    /// The first of a leader's queue are appended as one entry, and those of them that wait, wait for it.
    pub(super) fn flush<D: Disk>(
        &mut self,
        alloc: Global,
        disks: &mut DiskPair<D>,
    ) -> Result<Effects, TurnError>
        requires open { IsOpen self.old.state.first D.told D.means disks.old self.old.state.node self.old.file }
        requires short { length self.old.state.node.raft.log < 2 ^ 62 }
        ensures did { Did self.old.state.first D.told D.means (flush self.old.state.first self.old.state.node) disks.old disks.new self.old.state.node self.new.state.node self.new.file result }
        ensures refusals { IfErr result (λ e. (e ≡ failures.Disk) ⊎ (e ≡ failures.NoMemory)) }
        ensures first { self.new.state.first ≡ self.old.state.first }
        ensures generation { self.new.generation ≡ self.old.generation }
    {
        logs_stand_while_room_is_made::<D>();
        if !self.state.has_batch() {
            return Ok(self.state.quiet(alloc));
        }
        self.append_batch(alloc, disks)
    }

    /// Appends the batch, for which those of it that wait, wait then.
    fn append_batch<D: Disk>(
        &mut self,
        alloc: Global,
        disks: &mut DiskPair<D>,
    ) -> Result<Effects, TurnError>
        requires open { IsOpen self.old.state.first D.told D.means disks.old self.old.state.node self.old.file }
        requires short { length self.old.state.node.raft.log < 2 ^ 62 }
        requires leads { is_leader self.old.state.node.raft.role ≡ true }
        ensures did { Did self.old.state.first D.told D.means (flushed self.old.state.first self.old.state.node) disks.old disks.new self.old.state.node self.new.state.node self.new.file result }
        ensures refusals { IfErr result (λ e. (e ≡ failures.Disk) ⊎ (e ≡ failures.NoMemory)) }
        ensures first { self.new.state.first ≡ self.old.state.first }
        ensures generation { self.new.generation ≡ self.old.generation }
    {
        logs_stand_while_room_is_made::<D>();
        know_batch(&self.state.queue);
        let had = self.state.waiting.len();
        let index = self.state.core.last() + 1;
        match wait_for_batch(&mut self.state.waiting, &self.state.queue, index) {
            Ok(()) => {}
            Err(_) => {
                self.state.waiting.truncate(had);
                return Err(TurnError::NoMemory);
            }
        }
        match self.append_lists(alloc, disks) {
            Ok(effects) => {
                self.state.queue.drop_batch();
                Ok(effects)
            }
            Err(error) => {
                self.state.waiting.truncate(had);
                Err(error)
            }
        }
    }

    /// Appends the lists of the batch as one entry.
    fn append_lists<D: Disk>(
        &mut self,
        alloc: Global,
        disks: &mut DiskPair<D>,
    ) -> Result<Effects, TurnError>
        requires open { IsOpen self.old.state.first D.told D.means disks.old self.old.state.node self.old.file }
        requires leads { is_leader self.old.state.node.raft.role ≡ true }
        requires readable { IsReadable (batch_entry self.old.state.first self.old.state.node).command }
        ensures did { Did self.old.state.first D.told D.means (appends self.old.state.first self.old.state.node (batch_entry self.old.state.first self.old.state.node) [] self.old.state.node.queue) disks.old disks.new self.old.state.node self.new.state.node self.new.file result }
        ensures refusals { IfErr result (λ e. (e ≡ failures.Disk) ⊎ (e ≡ failures.NoMemory)) }
        ensures first { self.new.state.first ≡ self.old.state.first }
        ensures generation { self.new.generation ≡ self.old.generation }
    {
        logs_stand_while_room_is_made::<D>();
        let lists = batch_lists(alloc, &self.state.queue)?;
        self.append(alloc, disks, Command::Batch(Seq::from_vec(lists)))
    }
}
