//! What a node has stored.
use crate::net::{id_of, voters};
use rq_core::Core;
use rq_values::{Id, NoMemory, TryCopy};
use rq_wire::Entry;
use std::alloc::Global;
use std::test::Fail;

fn add_copies(alloc: Global, entries: &[Entry], into: &mut Vec<Entry>) -> Result<(), NoMemory> {
    for entry in entries {
        into.push(entry.copy(alloc)?)?;
    }
    Ok(())
}

/// The term, the vote and the log that a node has stored.
pub struct Kept {
    pub term: u64,
    pub vote: Option<Id>,
    pub log: Vec<Entry>,
}

impl Drop for Kept {
    fn drop(self) {
        let Kept {
            term: _,
            vote: _,
            log,
        } = self;
        drop(log);
    }
}

impl Kept {
    /// The log from that index on is these entries.
    pub fn splice(&mut self, alloc: Global, from: u64, entries: &[Entry]) -> Result<(), NoMemory> {
        self.log.truncate(from.saturating_sub(1) as usize);
        add_copies(alloc, entries, &mut self.log)
    }

    /// One of so many nodes starts with what it has stored.
    pub fn started(&self, alloc: Global, node: usize, count: usize) -> Result<Core<Entry>, Fail> {
        let id = id_of(node).ok_or("no id")?;
        let mut log = Vec::new(alloc);
        match add_copies(alloc, &self.log, &mut log) {
            Ok(()) => {}
            Err(error) => {
                drop(log);
                return Err(error.into());
            }
        }
        match voters(alloc, count) {
            Ok(first) => Ok(Core::new(id, first, self.term, self.vote, log)),
            Err(error) => {
                drop(log);
                Err(error.into())
            }
        }
    }
}
