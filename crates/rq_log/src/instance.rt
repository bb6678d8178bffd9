//! The entries of rq_wire in a core.
use crate::entry::LogEntry;
use crate::fitting::fitting;
use rq_wire::{Body, Entry, Member};

impl LogEntry for Entry {
    ghost use Rattle.rq_log.specs.OfWire.{wire_entries, wire_right};

    ghost entries = { wire_entries };

    fn term(&self) -> u64 {
        self.term
    }

    fn members(&self) -> Option<&[Member]> {
        match &self.body {
            Body::NoOp => None,
            Body::Config(config) => Some(config.members()),
            Body::Data(_) => None,
        }
    }

    fn empty(term: u64) -> Entry {
        Entry {
            term,
            body: Body::NoOp,
        }
    }

    fn fit(list: &[Entry]) -> usize {
        fitting(list)
    }

    ghost right = { wire_right };
}
