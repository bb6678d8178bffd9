//! What has waited as long as it may: docs/RAFT.md, "Tick".
ghost use Rattle.std.specs.Prelude.{◌≡◌, ◌++◌, ◌∷◌, [], List, OnOk, OnErr, IfOk, IfErr};
ghost use Rattle.rq_request.specs.declared.say.Answer.{Answer as TheAnswer};
ghost use Rattle.rq_request.specs.declared.say.Say.TheVariants.{Refused};
ghost use Rattle.rq_request.specs.declared.say.NodeRefusal.TheVariants.{Timeout};
ghost use Rattle.rq_world.specs.Rules.{is_expired, by_number, expired_waiting, expired_reads, expired_queued, live_waiting, live_reads, live_queue, tick};
ghost use Rattle.rq_member.specs.declared.turn_error.TurnError.TheVariants as failures;
ghost use Rattle.rq_member.specs.Held.{IsOpen};
ghost use Rattle.rq_member.specs.Turned.{Brings, Did};

use super::losing::put_by_number;
use super::{Node, State};
use crate::engine::Engine;
use crate::event::Effects;
use crate::turn_error::TurnError;
use crate::waiting::{PendingRead, QueuedWrite};
use rq_outside::{Disk, DiskPair};
use rq_queue::Queue;
use rq_request::{Answer, NodeRefusal, Say};
use rq_values::{NoMemory, Seq};
use rq_wal::logs_stand_while_room_is_made;
use rq_world::Waiting;
use std::alloc::Global;

/// What was asked at a moment, and may wait so long, has waited as long as it may.
fn is_expired(now: u64, asked: u64, timeout: u64) -> bool
    ensures { result ≡ is_expired now asked timeout }
{
    asked <= now && timeout <= now - asked
}

fn expired(number: u64, asked: u64, now: u64) -> Answer
    ensures { result ≡ record { number = number; say = Refused (Timeout asked now) } }
{
    Answer {
        number,
        say: Say::Refused(NodeRefusal::Timeout { asked, now }),
    }
}

impl<R: Engine> State<R> {
    /// Each ask that has waited as long as it may is answered so, in rising order of numbers. A queued write stays in the queue.
    fn tick(&mut self, alloc: Global, now: u64) -> Result<Effects, TurnError>
        ensures node { OnOk result (self.new ≡ record self.old { node = (tick self.old.node now).node }) }
        ensures effects { IfOk result (Brings (tick self.old.node now)) }
        ensures err { OnErr result (self.new ≡ self.old) }
        ensures refusals { IfErr result (λ e. e ≡ failures.NoMemory) }
    {
        let mut answers = Vec::new(alloc);
        match self.answer_expired(now, &mut answers) {
            Ok(()) => {}
            Err(error) => {
                drop(answers);
                return Err(error.into());
            }
        }
        self.forget_expired(now);
        Ok(self.only(alloc, Seq::from_vec(answers)))
    }

    fn answer_expired(&self, now: u64, answers: &mut Vec<Answer>) -> Result<(), NoMemory>
        requires { answers.old.items ≡ [] }
        ensures { OnOk result (answers.new.items ≡ by_number (expired_waiting now self.now.node.waiting ++ (expired_reads now self.now.node.pending_reads ++ expired_queued now self.now.node.queue))) }
    {
        answer_waits(&self.waiting, now, answers)?;
        answer_reads(&self.pending_reads, now, answers)?;
        answer_queued(&self.queue, now, answers)
    }

    fn forget_expired(&mut self, now: u64)
        ensures { self.new ≡ record self.old { node = (tick self.old.node now).node } }
    {
        forget_waits(&mut self.waiting, now);
        forget_reads(&mut self.pending_reads, now);
        forget_queued(&mut self.queue, now);
    }
}

impl<R: Engine> Node<R> {
    /// What has waited as long as it may is answered so.
    pub(super) fn tick<D: Disk>(
        &mut self,
        alloc: Global,
        disks: &mut DiskPair<D>,
        moment: u64,
    ) -> Result<Effects, TurnError>
        requires open { IsOpen self.old.state.first D.told D.means disks.old self.old.state.node self.old.file }
        ensures did { Did self.old.state.first D.told D.means (tick self.old.state.node moment) disks.old disks.new self.old.state.node self.new.state.node self.new.file result }
        ensures refusals { IfErr result (λ e. e ≡ failures.NoMemory) }
        ensures first { self.new.state.first ≡ self.old.state.first }
        ensures generation { self.new.generation ≡ self.old.generation }
    {
        logs_stand_while_room_is_made::<D>();
        let _ = &*disks;
        self.state.tick(alloc, moment)
    }
}

fn answer_waits(waiting: &Vec<Waiting>, now: u64, answers: &mut Vec<Answer>) -> Result<(), NoMemory>
    ensures { OnOk result ((list : List TheAnswer) → answers.old.items ≡ by_number list → answers.new.items ≡ by_number (list ++ expired_waiting now waiting.now.items)) }
{
    for place in 0..waiting.len() {
        let wait = waiting[place];
        if is_expired(now, wait.asked, wait.timeout) {
            put_by_number(answers, expired(wait.number, wait.asked, now))?;
        }
    }
    Ok(())
}

fn answer_reads(
    reads: &Vec<PendingRead>,
    now: u64,
    answers: &mut Vec<Answer>,
) -> Result<(), NoMemory>
    ensures { OnOk result ((list : List TheAnswer) → answers.old.items ≡ by_number list → answers.new.items ≡ by_number (list ++ expired_reads now reads.now.items)) }
{
    for place in 0..reads.len() {
        let read = &reads[place];
        if is_expired(now, read.asked, read.timeout) {
            put_by_number(answers, expired(read.pass.id, read.asked, now))?;
        }
    }
    Ok(())
}

fn answer_queued(
    queue: &Queue<QueuedWrite>,
    now: u64,
    answers: &mut Vec<Answer>,
) -> Result<(), NoMemory>
    ensures { OnOk result ((list : List TheAnswer) → answers.old.items ≡ by_number list → answers.new.items ≡ by_number (list ++ expired_queued now queue.now.items)) }
{
    for place in 0..queue.held() {
        if let Some((_, item)) = queue.get(place) {
            answer_item(item, now, answers)?;
        }
    }
    Ok(())
}

fn answer_item(item: &QueuedWrite, now: u64, answers: &mut Vec<Answer>) -> Result<(), NoMemory>
    ensures { OnOk result ((list : List TheAnswer) → answers.old.items ≡ by_number list → answers.new.items ≡ by_number (list ++ expired_queued now (item.now ∷ []))) }
{
    if item.waits && is_expired(now, item.asked, item.timeout) {
        put_by_number(answers, expired(item.number, item.asked, now))?;
    }
    Ok(())
}

fn forget_waits(waiting: &mut Vec<Waiting>, now: u64)
    ensures { waiting.new.items ≡ live_waiting now waiting.old.items }
{
    let mut at = 0;
    while at < waiting.len() {
        let wait = waiting[at];
        if is_expired(now, wait.asked, wait.timeout) {
            let _ = waiting.remove(at);
        } else {
            at += 1;
        }
    }
}

fn forget_reads(reads: &mut Vec<PendingRead>, now: u64)
    ensures { reads.new.items ≡ live_reads now reads.old.items }
{
    let mut at = 0;
    while at < reads.len() {
        let (asked, timeout) = (reads[at].asked, reads[at].timeout);
        if is_expired(now, asked, timeout) {
            drop(reads.remove(at));
        } else {
            at += 1;
        }
    }
}

fn forget_queued(queue: &mut Queue<QueuedWrite>, now: u64)
    ensures { queue.new ≡ record queue.old { items = live_queue now queue.old.items } }
{
    for place in 0..queue.held() {
        if let Some(item) = queue.get_mut(place) {
            forget_item(item, now);
        }
    }
}

fn forget_item(item: &mut QueuedWrite, now: u64)
    ensures { item.new ∷ [] ≡ live_queue now (item.old ∷ []) }
{
    if item.waits && is_expired(now, item.asked, item.timeout) {
        item.waits = false;
    }
}
