//! What a node is besides its name and its log.
ghost use Rattle.std.specs.Prelude.{[], None, ◌≡◌, OnOk, OnErr};
ghost use Rattle.rq_raft.specs.declared.role.Role.TheVariants.{Follower};

use crate::table::Table;
use rq_raft::{Peer, Role};
use rq_values::{Id, NoMemory, TryCopy};
use std::alloc::Global;

/// What a node is besides its name and its log.
#[derive(Drop)]
pub struct State {
    pub term: u64,
    pub vote: Option<Id>,
    pub commit: u64,
    pub applied: u64,
    pub role: Role,
    pub leader: Option<Id>,
    pub contact: Option<u64>,
    pub votes: Table<Id>,
    pub first_index: u64,
    pub probe: u64,
    pub peers: Table<Peer>,
}

impl State {
    /// A follower that knows of no leader and of no commit.
    pub fn new(alloc: Global, term: u64, vote: Option<Id>) -> State
        ensures { result ≡ record { term = term; vote = vote; commit = 0; applied = 0; role = Follower; leader = None; contact = None; votes = []; first_index = 0; probe = 0; peers = [] } }
    {
        State {
            term,
            vote,
            commit: 0,
            applied: 0,
            role: Role::Follower,
            leader: None,
            contact: None,
            votes: Table::new(alloc),
            first_index: 0,
            probe: 0,
            peers: Table::new(alloc),
        }
    }

    /// This becomes the same as the other one. With no memory it keeps its commit and applied indexes.
    pub fn copy_from(&mut self, other: &State) -> Result<(), NoMemory>
        ensures ok { OnOk result (self.new ≡ other.now) }
        ensures commit { OnErr result (self.new.commit ≡ self.old.commit) }
        ensures applied { OnErr result (self.new.applied ≡ self.old.applied) }
    {
        self.votes.copy_from(&other.votes)?;
        self.peers.copy_from(&other.peers)?;
        self.term = other.term;
        self.vote = other.vote;
        self.commit = other.commit;
        self.applied = other.applied;
        self.role = other.role;
        self.leader = other.leader;
        self.contact = other.contact;
        self.first_index = other.first_index;
        self.probe = other.probe;
        Ok(())
    }

    /// The two change places.
    pub fn swap(&mut self, other: &mut State)
        ensures here { self.new ≡ other.old }
        ensures there { other.new ≡ self.old }
    {
        std::mem::swap(self, other);
    }
}

impl TryCopy for State {
    fn copy(&self, alloc: Global) -> Result<State, NoMemory> {
        let mut state = State::new(alloc, 0, None);
        match state.copy_from(self) {
            Ok(()) => Ok(state),
            Err(error) => {
                drop(state);
                Err(error)
            }
        }
    }
}
