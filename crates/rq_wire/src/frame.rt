//! Frames: what is added to a log.
use crate::entry::Entry;
use rq_values::{Id, Seq};

/// One change of what a log file stands for.
pub enum Frame {
    /// The term and the vote.
    Vote { term: u64, vote: Option<Id> },
    /// The entries from an index on: those from there on are dropped, and these stand there.
    Splice { from: u64, entries: Seq<Entry> },
    /// How often the node was started.
    Boot { boot: u64 },
}

impl Drop for Frame {
    fn drop(self) {
        match self {
            Frame::Vote { term: _, vote: _ } | Frame::Boot { boot: _ } => (),
            Frame::Splice { from: _, entries } => drop(entries),
        }
    }
}
