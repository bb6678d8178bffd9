//! Applying what is committed: docs/RAFT.md, "Apply".
ghost use Rattle.std.specs.Prelude.{◌≡◌, ◌⊎◌, ◌≤◌, ◌<◌, ◌+◌, ◌++◌, ◌∷◌, [], ℕ, length, map, slice_get, Some, None, true, is_some, IfOk, IfErr, OnOk, OnErr};
ghost use Rattle.std.specs.Vec.{vec_len, vec_capacity};
ghost use Rattle.rq_engine.specs.declared.outcome.Outcome.{Outcome as TheOutcome};
ghost use Rattle.rq_engine.specs.Fold as fold;
ghost use Rattle.rq_world.specs.Node.{PendingRead as ThePendingRead};
ghost use Rattle.rq_world.specs.Reads.{is_due};
ghost use Rattle.rq_world.specs.Rules.{apply, answered, still_waiting, said, say_of, due_answers};
ghost use Rattle.rq_member.specs.declared.turn_error.TurnError.TheVariants as failures;
ghost use Rattle.rq_member.specs.Applied.{AppliedSome, outcome_waits, due_reads};
ghost use Rattle.rq_member.specs.Held.{IsOpen};
ghost use Rattle.rq_member.specs.Turned.{DidApply};

use super::{Node, State};
use crate::engine::Engine;
use crate::entry::LogEntry;
use crate::event::Effects;
use crate::turn_error::TurnError;
use crate::waiting::PendingRead;
use rq_core::Core;
use rq_engine::Outcome;
use rq_outside::{Disk, DiskPair};
use rq_reads::{Pass, ready};
use rq_request::{Answer, Say};
use rq_statement::{Item, Res};
use rq_values::{NoMemory, Seq};
use rq_wal::logs_stand_while_room_is_made;
use rq_world::Waiting;
use std::alloc::Global;

/// What an ask is told whose entry has this outcome.
fn say_of(alloc: Global, outcome: Outcome) -> Say
    ensures { result ≡ say_of outcome }
{
    let mut outcome = outcome;
    let say = match &mut outcome {
        Outcome::Results(results) => Say::Results(std::mem::replace(results, Seq::new(alloc))),
        Outcome::Loaded => Say::Loaded,
        Outcome::Nothing => Say::Changed,
        Outcome::Stale => Say::Results(Seq::new(alloc)),
    };
    drop(outcome);
    say
}

/// Whether at most one ask waits for the outcome of the entry at this index, as each entry is appended for one at most.
fn is_lone(waiting: &[Waiting], index: u64) -> bool
    ensures { result ≡ true → outcome_waits index waiting.now ≤ 1 }
{
    let mut found = false;
    for place in 0..waiting.len() {
        let wait = waiting[place];
        if wait.index != index {
            return true;
        }
        if wait.sequence.is_none() {
            if found {
                return false;
            }
            found = true;
        }
    }
    true
}

/// Whether the pass is ready, and what it needs is applied behind this index.
fn is_due_behind(core: &Core<LogEntry>, pass: &Pass, index: u64) -> bool
    ensures { result ≡ is_due core.now.first (record core.now.node { applied = index }) (record { id = pass.now.id; least = pass.now.least; mark = pass.now.mark; term = pass.now.term }) }
{
    ready(core, pass) && pass.least <= index
}

/// The queries of the reads that are due behind this index, in order.
fn due_reads<'a>(
    alloc: Global,
    core: &Core<LogEntry>,
    reads: &'a [PendingRead],
    index: u64,
) -> Result<Vec<&'a Seq<Item>>, NoMemory>
    ensures { IfOk result (λ due. map (λ items. items.now) due.items ≡ map (λ (r : ThePendingRead). r.items) (due_reads core.now.first (record core.now.node { applied = index }) reads.now)) }
{
    let mut due: Vec<&'a Seq<Item>> = Vec::new(alloc);
    for place in 0..reads.len() {
        let read = &reads[place];
        if is_due_behind(core, &read.pass, index) {
            due.push(&read.items)?;
        }
    }
    Ok(due)
}

/// Runs an entry, and the queries of the reads that are due behind its index.
fn run_entry<R: Engine>(
    alloc: Global,
    core: &Core<LogEntry>,
    reads: &[PendingRead],
    entry: &LogEntry,
    index: u64,
    replica: &mut R,
) -> Result<(Outcome, Vec<Seq<Res>>), TurnError>
    ensures ran { IfOk result (λ done. fold.run (R.state replica.old) entry.now.command ≡ (R.state replica.new, done.0)) }
    ensures read { IfOk result (λ done. done.1.items ≡ map (λ (r : ThePendingRead). fold.answer (R.state replica.new) r.items) (due_reads core.now.first (record core.now.node { applied = index }) reads.now)) }
    ensures err { OnErr result (R.state replica.new ≡ R.state replica.old) }
    ensures refusals { IfErr result (λ e. (e ≡ failures.NoMemory) ⊎ (e ≡ failures.Engine)) }
{
    let due = due_reads(alloc, core, reads, index)?;
    let done = replica.apply_then(alloc, &entry.command, due.as_slice());
    drop(due);
    Ok(done?)
}

/// Answers an ask with the sequence number that its list had, or else with what its entry's command answers.
fn answer_wait(wait: Waiting, say: &mut Say, answers: &mut Vec<Answer>)
    requires room { vec_len answers.old < vec_capacity answers.old }
    ensures answers { (outcome : TheOutcome) → (is_some wait.sequence ≡ true) ⊎ (say.old ≡ say_of outcome) → answers.new.items ≡ answers.old.items ++ record { number = wait.number; say = said outcome wait.sequence } ∷ [] }
    ensures say { is_some wait.sequence ≡ true → say.new ≡ say.old }
    ensures capacity { vec_capacity answers.new ≡ vec_capacity answers.old }
    ensures len { vec_len answers.new ≡ vec_len answers.old + 1 }
{
    let told = match wait.sequence {
        Some(sequence) => Say::Queued(sequence),
        None => std::mem::replace(say, Say::Changed),
    };
    answers.push_reserved(Answer {
        number: wait.number,
        say: told,
    });
}

/// Answers those that wait for this index, in the room that is there.
fn answer_waits(waiting: &mut Vec<Waiting>, index: u64, say: &mut Say, answers: &mut Vec<Answer>)
    requires lone { outcome_waits index waiting.old.items ≤ 1 }
    requires room { vec_len answers.old + vec_len waiting.old ≤ vec_capacity answers.old }
    ensures answers { (outcome : TheOutcome) → say.old ≡ say_of outcome → answers.new.items ≡ answers.old.items ++ answered index outcome waiting.old.items }
    ensures waiting { waiting.new.items ≡ still_waiting index waiting.old.items }
    ensures capacity { vec_capacity answers.new ≡ vec_capacity answers.old }
    ensures len { vec_len answers.new + vec_len waiting.new ≡ vec_len answers.old + vec_len waiting.old }
{
    while !waiting.is_empty() && waiting[0].index == index {
        let wait = waiting.remove(0);
        answer_wait(wait, say, answers);
    }
}

impl<R: Engine> State<R> {
    /// Answers the reads that are due with these results, in the room that is there.
    fn answer_reads(&self, results: Vec<Seq<Res>>, answers: &mut Vec<Answer>)
        requires results { results.items ≡ map (λ (r : ThePendingRead). fold.answer self.now.node.replica r.items) (due_reads self.now.first self.now.node.raft self.now.node.pending_reads) }
        requires room { vec_len answers.old + length self.now.node.pending_reads ≤ vec_capacity answers.old }
        ensures { answers.new.items ≡ answers.old.items ++ due_answers self.now.first self.now.node self.now.node.pending_reads }
    {
        let mut results = results;
        for place in 0..self.pending_reads.len() {
            let read = &self.pending_reads[place];
            if self.is_due(&read.pass) {
                let result = results.remove(0);
                answers.push_reserved(Answer {
                    number: read.pass.id,
                    say: Say::Results(result),
                });
            }
        }
        drop(results);
    }

    /// Applies the next entry, and answers the asks that wait for it and the reads that become due. On a refusal nothing changes.
    fn apply_next(&mut self, alloc: Global, answers: &mut Vec<Answer>) -> Result<(), TurnError>
        requires near { self.old.node.raft.applied < self.old.node.raft.commit }
        ensures node { OnOk result (self.new.node ≡ (apply self.old.first self.old.node).node) }
        ensures answers { OnOk result (answers.new.items ≡ answers.old.items ++ (apply self.old.first self.old.node).answers) }
        ensures err { OnErr result (self.new.node ≡ self.old.node) }
        ensures silent { OnErr result (answers.new.items ≡ answers.old.items) }
        ensures refusals { IfErr result (λ e. (e ≡ failures.NoMemory) ⊎ (e ≡ failures.Engine)) }
        ensures first { self.new.first ≡ self.old.first }
    {
        let _commit = self.core.commit();
        let index = self.core.applied() + 1;
        if !is_lone(self.waiting.as_slice(), index) {
            return Err(TurnError::NoMemory);
        }
        answers.reserve(self.waiting.len() + self.pending_reads.len())?;
        let (outcome, results) = match self.core.entry(index) {
            Some(entry) => run_entry(
                alloc,
                &self.core,
                self.pending_reads.as_slice(),
                entry,
                index,
                &mut self.replica,
            )?,
            None => return Ok(()),
        };
        self.core.apply_next();
        let mut say = say_of(alloc, outcome);
        answer_waits(&mut self.waiting, index, &mut say, answers);
        drop(say);
        self.answer_reads(results, answers);
        self.forget_due();
        Ok(())
    }

    /// What a slice has answered that another refusal ends; a refusal of the first is answered.
    fn ends(
        &self,
        alloc: Global,
        done: u64,
        error: TurnError,
        answers: Vec<Answer>,
    ) -> Result<Effects, TurnError>
        ensures ok { IfOk result (λ effects. (0 < done) × (effects.stored ≡ 0) × (effects.packets ≡ []) × (effects.answers ≡ answers.items)) }
        ensures err { IfErr result (λ e. (done ≡ 0) × (e ≡ error)) }
    {
        if done == 0 {
            drop(answers);
            return Err(error);
        }
        Ok(self.only(alloc, Seq::from_vec(answers)))
    }

    /// Applies at least one and at most so many entries, where some are committed and not applied. A refusal of the first leaves
    /// all as it was, and is answered; a later one ends the slice.
    fn apply(&mut self, alloc: Global, most: u64) -> Result<Effects, TurnError>
        ensures applied { AppliedSome self.old.first most self.old.node self.new.node result }
        ensures refusals { IfErr result (λ e. (e ≡ failures.NoMemory) ⊎ (e ≡ failures.Engine)) }
        ensures first { self.new.first ≡ self.old.first }
    {
        let mut answers = Vec::new(alloc);
        let mut done = 0;
        while done < most && self.core.applied() < self.core.commit() {
            if let Err(error) = self.apply_next(alloc, &mut answers) {
                return self.ends(alloc, done, error, answers);
            }
            done += 1;
        }
        Ok(self.only(alloc, Seq::from_vec(answers)))
    }
}

impl<R: Engine> Node<R> {
    /// Applies a slice of what is committed.
    pub(super) fn apply<D: Disk>(
        &mut self,
        alloc: Global,
        disks: &mut DiskPair<D>,
        most: u64,
    ) -> Result<Effects, TurnError>
        requires open { IsOpen self.old.state.first D.told D.means disks.old self.old.state.node self.old.file }
        ensures did { DidApply self.old.state.first D.told D.means most disks.old disks.new self.old.state.node self.new.state.node self.new.file result }
        ensures refusals { IfErr result (λ e. (e ≡ failures.NoMemory) ⊎ (e ≡ failures.Engine)) }
        ensures first { self.new.state.first ≡ self.old.state.first }
        ensures generation { self.new.generation ≡ self.old.generation }
    {
        logs_stand_while_room_is_made::<D>();
        let _ = &*disks;
        self.state.apply(alloc, most)
    }
}
