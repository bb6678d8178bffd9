//! What waits at a leader that leaves its role: docs/RAFT.md, "Deliver".
ghost use Rattle.std.specs.Prelude.{◌≡◌, ◌≤◌, ◌<◌, ◌+◌, ◌∷◌, ◌++◌, [], ℕ, List, length, map, slice_get, Some, IfOk, OnOk};
ghost use Rattle.rq_request.specs.declared.say.Answer.{Answer as TheAnswer};
ghost use Rattle.rq_request.specs.declared.say.Say.TheVariants.{Refused};
ghost use Rattle.rq_request.specs.declared.say.NodeRefusal.TheVariants.{Lost};
ghost use Rattle.rq_world.specs.Node.{PendingRead as ThePendingRead};
ghost use Rattle.rq_world.specs.Rules.{by_number, lost_all};
ghost use Rattle.rq_world.specs.declared.waiting.Waiting.{Waiting as TheWaiting};
ghost use Rattle.rq_member.specs.Held.{has_left, lost_answers, without_lost};
ghost use Rattle.rq_member.specs.Keeping.{led_by};

use super::State;
use crate::engine::Engine;
use crate::waiting::PendingRead;
use rq_request::{Answer, NodeRefusal, Say};
use rq_values::{NoMemory, Seq};
use rq_world::Waiting;
use std::alloc::Global;

/// Where an answer of this number belongs among others in rising order of their numbers: before those with its own.
fn place_of(answers: &[Answer], number: u64) -> usize
    ensures within { result ≤ length answers.now }
    ensures behind { (k : ℕ) (a : TheAnswer) → result ≤ k → slice_get answers.now k ≡ Some a → number ≤ a.number }
    ensures before { (k : ℕ) (a : TheAnswer) → k + 1 ≡ result → slice_get answers.now k ≡ Some a → a.number < number }
{
    let mut at = answers.len();
    while at > 0 {
        if answers[at - 1].number < number {
            return at;
        }
        at -= 1;
    }
    0
}

/// Puts an answer among others in rising order of their numbers, before those with its own.
pub(super) fn put_by_number(answers: &mut Vec<Answer>, answer: Answer) -> Result<(), NoMemory>
    ensures { OnOk result ((list : List TheAnswer) → answers.old.items ≡ by_number list → answers.new.items ≡ by_number (list ++ answer ∷ [])) }
{
    let at = place_of(answers.as_slice(), answer.number);
    answers.insert(at, answer)?;
    Ok(())
}

impl<R: Engine> State<R> {
    /// The term that the node leads, if it does.
    pub(super) fn led(&self) -> Option<u64>
        ensures { result ≡ led_by self.now.node.raft }
    {
        if self.core.leads() {
            Some(self.core.term())
        } else {
            None
        }
    }

    /// Whether the node led, and doesn't any more.
    fn has_left(&self, led: Option<u64>) -> bool
        requires led { led ≡ led_by self.now.before }
        ensures { result ≡ has_left self.now }
    {
        led.is_some() && !self.core.leads()
    }

    /// The answers to what waits for its entry or its pass, in rising order of numbers, where the node led and doesn't any more.
    pub(super) fn losses(&self, alloc: Global, led: Option<u64>) -> Result<Seq<Answer>, NoMemory>
        requires led { led ≡ led_by self.now.before }
        ensures { IfOk result (λ answers. answers ≡ lost_answers self.now) }
    {
        let mut answers = Vec::new(alloc);
        match led {
            Some(term) if !self.core.leads() => {
                match lose_all(
                    &self.waiting,
                    &self.pending_reads,
                    term,
                    self.core.term(),
                    &mut answers,
                ) {
                    Ok(()) => {}
                    Err(error) => {
                        drop(answers);
                        return Err(error);
                    }
                }
            }
            _ => {}
        }
        Ok(Seq::from_vec(answers))
    }

    /// Nothing waits any more where the node led and doesn't any more. What is queued stays.
    pub(super) fn forget_lost(&mut self, led: Option<u64>)
        requires led { led ≡ led_by self.old.before }
        ensures { self.new ≡ record self.old { node = without_lost self.old } }
    {
        if self.has_left(led) {
            self.waiting.clear();
            self.pending_reads.clear();
        }
    }
}

fn lose_all(
    waiting: &Vec<Waiting>,
    reads: &Vec<PendingRead>,
    term: u64,
    now: u64,
    answers: &mut Vec<Answer>,
) -> Result<(), NoMemory>
    requires { answers.old.items ≡ [] }
    ensures { OnOk result (answers.new.items ≡ lost_all term now (map (λ (w : TheWaiting). w.number) waiting.now.items ++ map (λ (r : ThePendingRead). r.pass.id) reads.now.items)) }
{
    for place in 0..waiting.len() {
        put_by_number(answers, lost(waiting[place].number, term, now))?;
    }
    for at in 0..reads.len() {
        put_by_number(answers, lost(reads[at].pass.id, term, now))?;
    }
    Ok(())
}

fn lost(number: u64, term: u64, now: u64) -> Answer
    ensures { result ≡ record { number = number; say = Refused (Lost term now) } }
{
    Answer {
        number,
        say: Say::Refused(NodeRefusal::Lost { term, now }),
    }
}
