//! An answer of a rule.
ghost use Rattle.std.specs.Prelude.{◌≡◌, slice_get, Some};
ghost use Rattle.rq_hub.specs.Runs.{run};

use crate::naming::Naming;
use rq_node::Event;
use rq_request::{Answer, Say};
use rq_tokens::Known;
use std::marker::PhantomData;

/// An answer that a rule gave at this hub, with its place among all answers there. Only a hub makes one.
#[derive(Drop)]
pub struct Said<J: Naming> {
    pub(crate) answer: Answer,
    pub(crate) place: u64,
    pub(crate) known: Known<Event>,
    of: PhantomData<J>,
    ghost one: { known.seen.book ≡ J.book },
    ghost given: { slice_get (run J.start known.seen.log).answers place ≡ Some answer },
}

impl<J: Naming> Said<J> {
    pub(crate) fn new(answer: Answer, place: u64, known: Known<Event>) -> Said<J>
        requires one { known.seen.book ≡ J.book }
        requires given { slice_get (run J.start known.seen.log).answers place ≡ Some answer }
        ensures { (result.answer ≡ answer) × (result.place ≡ place) × (result.known ≡ known) }
    {
        Said {
            answer,
            place,
            known,
            of: PhantomData,
        }
    }

    /// The number of the ask that is answered.
    pub fn number(&self) -> u64
        ensures { result ≡ self.now.answer.number }
    {
        self.answer.number
    }

    /// What the node says.
    pub fn say(&self) -> &Say
        ensures { result.now ≡ self.now.answer.say }
    {
        &self.answer.say
    }
}
