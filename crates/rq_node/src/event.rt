//! Events of a node, and what they bring about.
ghost use Rattle.std.specs.Prelude.{◌≡◌, ◌∷◌, [], IfOk};

use rq_request::{Answer, Say};
use rq_statement::Item;
use rq_values::{NoMemory, Seq};
use std::alloc::Global;

/// What happens to a node.
#[derive(Drop)]
pub enum Event {
    /// The ask of this number, to run these statements.
    Execute { number: u64, items: Seq<Item> },
    /// The ask of this number, for the results of these queries on the node's own replica.
    Query { number: u64, items: Seq<Item> },
    /// The node stands for election.
    Elect,
    /// What is committed is applied.
    Apply,
}

impl Event {
    ghost use Rattle.rq_node.specs.Events as spec;

    /// The number of the ask that the event puts to the node.
    pub fn asked(&self) -> Option<u64>
        ensures { result ≡ spec.asked self.now }
    {
        match self {
            Event::Execute { number, items: _ } | Event::Query { number, items: _ } => {
                Some(*number)
            }
            Event::Elect | Event::Apply => None,
        }
    }
}

/// What an event has brought about.
#[derive(Drop)]
pub struct Effects {
    /// How many records were made durable.
    pub stored: u64,
    /// The answers, in order.
    pub answers: Seq<Answer>,
}

impl Effects {
    /// So many records were made durable, and nothing was answered.
    pub(crate) fn stores(alloc: Global, stored: u64) -> Effects
        ensures stored { result.stored ≡ stored }
        ensures answers { result.answers ≡ [] }
    {
        Effects {
            stored,
            answers: Seq::new(alloc),
        }
    }

    /// Nothing was made durable, and the ask of this number was answered.
    pub(crate) fn says(alloc: Global, number: u64, say: Say) -> Result<Effects, NoMemory>
        ensures stored { IfOk result (λ effects. effects.stored ≡ 0) }
        ensures answers { IfOk result (λ effects. effects.answers ≡ record { number = number; say = say } ∷ []) }
    {
        let mut answers = Seq::new(alloc);
        answers.push(Answer { number, say })?;
        Ok(Effects { stored: 0, answers })
    }
}
