//! What a node says to an ask.
ghost use Rattle.std.specs.Prelude.{◌≡◌};

use crate::ask::Member;
use rq_statement::Res;
use rq_values::{Bytes, Seq, Text};

/// What a node says to an ask.
pub enum Say {
    /// The results of a list of statements, in order.
    Results(Seq<Res>),
    /// The queued write of this sequence number is in the queue, or, where the ask waited, its batch is applied.
    Queued(u64),
    /// The statements of a load were run.
    Loaded,
    /// The database as SQL text.
    Backup(Text),
    /// The servers of the cluster, and of each whether it is the leader that is known.
    Nodes(Seq<(Member, bool)>),
    /// The node leads, or knows who does.
    Ready,
    /// The member has joined, or is removed.
    Changed,
    /// Another node leads; the same request at that node is this address.
    Moved(Bytes),
    Refused(NodeRefusal),
}

impl Drop for Say {
    fn drop(self) {
        match self {
            Say::Results(results) => drop(results),
            Say::Queued(_) => (),
            Say::Loaded => (),
            Say::Backup(sql) => drop(sql),
            Say::Nodes(members) => drop(members),
            Say::Ready => (),
            Say::Changed => (),
            Say::Moved(address) => drop(address),
            Say::Refused(_) => (),
        }
    }
}

/// Why a node doesn't do what it is asked. Moments and limits are in milliseconds.
#[derive(Clone, Copy)]
pub enum NodeRefusal {
    /// The node heard of its leader at this moment, longer ago than the ask's limit.
    Stale {
        contact: Option<u64>,
        now: u64,
        limit: u64,
    },
    /// The node doesn't lead this term, and knows no leader.
    NoLeader {
        term: u64,
    },
    /// The entry of the ask's list would have so many bytes, more than an entry may have.
    EntryTooLarge(u64),
    /// The queued list, spelled as a command, would have so many bytes, more than a queued list may have.
    QueuedTooLarge(u64),
    /// The queue holds as many lists as it may, which is this number.
    QueueFull(u64),
    /// The ask waited at the leader of this term, which has left that role or term; its term is now this one. The outcome isn't known.
    Lost {
        term: u64,
        now: u64,
    },
    /// The ask has waited as long as it may. The outcome isn't known.
    Timeout {
        asked: u64,
        now: u64,
    },
}

/// An answer to the ask of this number.
#[derive(Drop)]
pub struct Answer {
    pub number: u64,
    pub say: Say,
}

impl Say {
    ghost use Rattle.rq_request.specs.Say.{status_of};

    /// The status of the reply, as HTTP has it.
    pub fn status(&self) -> u16
        ensures { result ≡ status_of self.now }
    {
        match self {
            Say::Refused(refusal) => refusal.status(),
            Say::Moved(_) => 301,
            _ => 200,
        }
    }
}

impl NodeRefusal {
    ghost use Rattle.rq_request.specs.Say.{refusal_status};

    /// The status of the reply, as HTTP has it.
    pub fn status(self) -> u16
        ensures { result ≡ refusal_status self }
    {
        match self {
            NodeRefusal::EntryTooLarge(_) | NodeRefusal::QueuedTooLarge(_) => 413,
            _ => 503,
        }
    }
}
