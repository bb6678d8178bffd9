//! What a log file begins with, and what it stands for.
ghost use Rattle.std.specs.Prelude.{◌≡◌};
ghost use Rattle.rq_wal.specs.Stored.{started};

use rq_values::{Bytes, Id, NoMemory, Seq, TryCopy};
use rq_wire::{Config, Entry};
use std::alloc::Global;

/// The start of a log file: what stands for the log up to an index.
#[derive(Drop)]
pub struct Base {
    pub term: u64,
    pub vote: Option<Id>,
    /// How often the node was started.
    pub boot: u64,
    /// The index of the last entry that the state stands for.
    pub index: u64,
    /// The term of that entry.
    pub last_term: u64,
    /// The configuration at that entry.
    pub config: Config,
    /// The image of the state.
    pub state: Bytes,
}

impl TryCopy for Base {
    fn copy(&self, alloc: Global) -> Result<Base, NoMemory> {
        Ok(Base {
            term: self.term,
            vote: self.vote,
            boot: self.boot,
            index: self.index,
            last_term: self.last_term,
            config: self.config.copy(alloc)?,
            state: self.state.copy(alloc)?,
        })
    }
}

/// What a log file stands for.
#[derive(Drop)]
pub struct Stored {
    pub base: Base,
    pub term: u64,
    pub vote: Option<Id>,
    pub boot: u64,
    /// The entries behind the base.
    pub entries: Seq<Entry>,
}

/// What a base alone stands for.
pub fn start(alloc: Global, base: Base) -> Stored
    ensures { result ≡ started base }
{
    let term = base.term;
    let vote = base.vote;
    let boot = base.boot;
    Stored {
        base,
        term,
        vote,
        boot,
        entries: Seq::new(alloc),
    }
}
