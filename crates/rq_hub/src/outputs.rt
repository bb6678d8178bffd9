//! The answers of a rule, taken one at a time.
ghost use Rattle.std.specs.Prelude.{◌≡◌, ◌+◌, ◌∷◌, drop, length, vec_len, slice_get, IfSome, IfNone, Some};
ghost use Rattle.rq_hub.specs.Runs.{run};

use crate::naming::Naming;
use crate::said::Said;
use rq_node::Event;
use rq_request::Answer;
use rq_tokens::Known;
use std::collections::VecDeque;
use std::marker::PhantomData;

/// The last answers of a hub's history, from this place on.
#[derive(Drop)]
pub struct Outputs<J: Naming> {
    pub(crate) answers: VecDeque<Answer>,
    pub(crate) place: u64,
    pub(crate) end: u64,
    pub(crate) known: Known<Event>,
    of: PhantomData<J>,
    ghost one: { known.seen.book ≡ J.book },
    ghost given: { drop place (run J.start known.seen.log).answers ≡ answers.items },
    ghost whole: { end ≡ place + length answers.items },
}

impl<J: Naming> Outputs<J> {
    pub(crate) fn new(answers: Vec<Answer>, place: u64, end: u64, known: Known<Event>) -> Outputs<J>
        requires one { known.seen.book ≡ J.book }
        requires given { drop place (run J.start known.seen.log).answers ≡ answers.items }
        requires whole { end ≡ place + vec_len answers }
        ensures { (result.answers.items ≡ answers.items) × (result.known ≡ known) × (result.place ≡ place) }
    {
        Outputs {
            answers: VecDeque::from_vec(answers),
            place,
            end,
            known,
            of: PhantomData,
        }
    }

    /// The next answer. It takes no memory.
    #[tactic(auto, using(crate::proofs::Steps::first_behind, crate::proofs::Steps::rest_behind))]
    pub fn next(&mut self) -> Option<Said<J>>
        ensures some { IfSome result (λ s. (self.old.answers.items ≡ s.answer ∷ self.new.answers.items) × (s.place ≡ self.old.place) × (s.known ≡ self.old.known)) }
        ensures none { IfNone result (length self.old.answers.items ≡ 0) }
        ensures same { self.new.known ≡ self.old.known }
    {
        let place = self.place;
        let answer = self.answers.pop_front()?;
        self.place = place + 1;
        Some(Said::new(answer, place, self.known.again()))
    }
}
