//! Events of a node, and what they bring about.
ghost use Rattle.std.specs.Prelude.{◌≡◌};
ghost use Rattle.rq_member.specs.Turned.{asked};

use rq_log::{Outgoing, Packet, Table};
use rq_request::{Answer, Level};
use rq_statement::{Item, StatementList};
use rq_values::Seq;
use rq_wire::Entry;

/// What is asked for.
#[derive(Drop)]
pub enum Op {
    /// A list that is written; a mixed one may read too.
    Write {
        list: StatementList,
        mixed: bool,
    },
    /// A list that is written with the next batch, answered when that is applied, or at once.
    Queue {
        list: StatementList,
        wait: bool,
    },
    /// A read. The limit is how long ago the leader may have been heard, in the unit of the moments.
    Read {
        items: Seq<Item>,
        level: Level,
        limit: Option<u64>,
    },
}

/// An ask with its number, and how long it may wait, in the unit of the moments.
#[derive(Drop)]
pub struct Ask {
    pub number: u64,
    pub timeout: u64,
    pub op: Op,
}

/// What happens to a node.
#[derive(Drop)]
pub enum Event<'a> {
    Ask(Ask),
    /// The node stands for election.
    Elect,
    /// A leader sends to all.
    Beat,
    /// The first of the queue are appended.
    Flush,
    /// A packet comes in.
    Deliver(&'a Packet<Entry>),
    /// At most so many committed entries are applied, in order; at least one, if there is any.
    Apply { most: u64 },
    /// What has waited as long as it may is answered so.
    Tick,
}

impl Event<'_> {
    /// The number of the ask that it puts.
    pub fn asked(&self) -> Option<u64>
        ensures { result ≡ asked self.now }
    {
        match self {
            Event::Ask(ask) => Some(ask.number),
            _ => None,
        }
    }
}

/// What an event has brought about.
#[derive(Drop)]
pub struct Effects {
    /// How many records were made durable.
    pub stored: u64,
    /// What is sent, in order; an append's entries stand in the log.
    pub packets: Table<Outgoing>,
    /// The answers, in order.
    pub answers: Seq<Answer>,
}
