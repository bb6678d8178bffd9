//! Applying what is committed: docs/RAFT.md, "Apply".
ghost use Rattle.std.specs.Prelude.{◌≡◌, ◌<◌, ◌+◌, ◌++◌, slice_get, IfOk, OnOk};
ghost use Rattle.rq_engine.specs.Fold.{run};
ghost use Rattle.rq_node.specs.declared.log_entry.Content.TheVariants.{Execute};
ghost use Rattle.rq_node.specs.Events.{KeepsPersistent};
ghost use Rattle.rq_node.specs.Rules.{apply, applied_entry, answered, command_of, left_waiting, results_of};

use super::State;
use crate::log_entry::Content;
use crate::waiting::Waiting;
use rq_request::{Answer, Say};
use rq_statement::{Item, Res};
use rq_tables::Tables;
use rq_values::{NoMemory, Seq};
use std::alloc::Global;
use std::collections::VecDeque;

impl State {
    /// Applies every committed entry, in order, and answers the asks that waited for them. With no memory the node is
    /// good for nothing more, but keeps what it kept.
    pub(super) fn apply(&mut self, alloc: Global) -> Result<Seq<Answer>, NoMemory>
        ensures node { OnOk result (self.new ≡ (apply self.old).node) }
        ensures answers { IfOk result (λ answers. answers ≡ (apply self.old).answers) }
        ensures kept { KeepsPersistent self.old self.new }
    {
        let mut answers = Seq::new(alloc);
        while self.applied < self.commit {
            self.apply_next(alloc, &mut answers)?;
        }
        Ok(answers)
    }

    /// Applies the next entry.
    fn apply_next(&mut self, alloc: Global, answers: &mut Seq<Answer>) -> Result<(), NoMemory>
        requires { self.old.applied < self.old.commit }
        ensures node { OnOk result (self.new ≡ (applied_entry self.old (slice_get self.old.log self.old.applied)).node) }
        ensures answers { OnOk result (answers.new ≡ answers.old ++ (applied_entry self.old (slice_get self.old.log self.old.applied)).answers) }
        ensures kept { KeepsPersistent self.old self.new }
    {
        let index = self.applied + 1;
        match &self.log[self.applied as usize].content {
            Content::NoOp => {
                self.applied = index;
                Ok(())
            }
            Content::Execute(items) => {
                let results = run_list(&mut self.replica, alloc, items.as_slice())?;
                self.applied = index;
                answer_first(&mut self.waiting, index, results, answers)?;
                Ok(())
            }
        }
    }
}

/// Runs a list on the replica.
#[tactic(auto, using(crate::proofs::NodeSteps::first_part, crate::proofs::NodeSteps::second_part))]
fn run_list(replica: &mut Tables, alloc: Global, items: &[Item]) -> Result<Seq<Res>, NoMemory>
    ensures replica { OnOk result (replica.new ≡ (run replica.old (command_of (Execute items.now))).0) }
    ensures results { IfOk result (λ results. results ≡ results_of (run replica.old (command_of (Execute items.now))).1) }
{
    replica.execute(alloc, items)
}

/// Answers the first ask that waits, where it waits for this index.
fn answer_first(
    waiting: &mut VecDeque<Waiting>,
    index: u64,
    results: Seq<Res>,
    answers: &mut Seq<Answer>,
) -> Result<(), NoMemory>
    ensures waiting { OnOk result (waiting.new.items ≡ left_waiting index waiting.old.items) }
    ensures answers { OnOk result (answers.new ≡ answers.old ++ answered index results waiting.old.items) }
{
    match waiting.front() {
        Some(first) if first.index == index => {}
        _ => return Ok(()),
    }
    match waiting.pop_front() {
        Some(first) => answers.push(Answer {
            number: first.number,
            say: Say::Results(results),
        }),
        None => Ok(()),
    }
}
