//! The consensus core: a node, its rules, and its way back.
ghost use Rattle.std.specs.Prelude.{◌≡◌, ◌==◌, min, ◌||◌, ◌&&◌, ◌+◌, ◌-◌, ◌<◌, [], ◌∷◌, length, take, drop, OnOk, OnErr, IfOk, List, true, false, Some, None};
ghost use Rattle.rq_history.specs.History.{term_at, last_term};
ghost use Rattle.rq_raft.specs.Entries.{entry_view, configuration};
ghost use Rattle.rq_raft.specs.Node.{packet, unchanged, is_leader, same_vote, say, started};
ghost use Rattle.rq_raft.specs.Lead.{holds, committed};
ghost use Rattle.rq_raft.specs.Deliver.{applied_next, applied_times};
ghost use Rattle.rq_core.specs.Fast.{agrees};
ghost use Rattle.rq_log.specs.Views.{CoreView, Gives, is_moved, HasRoom};

mod appending;
mod delivering;
mod electing;
mod leading;
mod lookups;

use rq_log::{Log, LogEntry, Moves, Outgoing, Saying, State, Table};
use rq_raft::{Peer, Role};
use rq_values::{Id, NoMemory, TryCopy};
use rq_wire::{Config, Member};
use std::alloc::Global;
use std::marker::Model;

/// A node as far as it agrees with others.
#[derive(Drop)]
pub struct Core<E: LogEntry> {
    id: Id,
    first: Config,
    log: Log<E>,
    state: State,
    before: State,
}

impl<E: LogEntry> Model for Core<E> {
    ghost use Rattle.std.specs.Prelude.{List, length};
    ghost use Rattle.rq_log.specs.Views.{CoreView, node_of, IsSound};

    ghost Value = { CoreView E };

    ghost view = { λ core. record { node = node_of core.id core.state core.log.0; before = node_of core.id core.before core.log.1; first = core.first } };

    ghost invariant = { λ core. IsSound (length core.log.0) core.state.commit core.state.applied × IsSound (length core.log.1) core.before.commit core.before.applied };
}

impl<E: LogEntry> Core<E> {
    /// The members of the newest configuration in the log, else the first ones.
    pub fn members(&self) -> &[Member]
        ensures { result.now ≡ configuration E.entries self.now.first self.now.node.log }
    {
        match self.log.entry(self.log.config_at()) {
            None => self.first.members(),
            Some(entry) => match entry.members() {
                None => self.first.members(),
                Some(members) => members,
            },
        }
    }

    pub fn id(&self) -> Id
        ensures { result ≡ self.now.node.id }
    {
        self.id
    }

    /// With the vote and the log, what a node stores.
    pub fn term(&self) -> u64
        ensures { result ≡ self.now.node.term }
    {
        self.state.term
    }

    pub fn vote(&self) -> Option<Id>
        ensures { result ≡ self.now.node.vote }
    {
        self.state.vote
    }

    pub fn role(&self) -> Role
        ensures { result ≡ self.now.node.role }
    {
        self.state.role
    }

    /// The leader that is known in this term.
    pub fn leader(&self) -> Option<Id>
        ensures { result ≡ self.now.node.leader }
    {
        self.state.leader
    }

    /// When the leader was last heard.
    pub fn contact(&self) -> Option<u64>
        ensures { result ≡ self.now.node.contact }
    {
        self.state.contact
    }

    pub fn applied(&self) -> u64
        ensures { result ≡ self.now.node.applied }
    {
        self.state.applied
    }

    /// A leader's first entry of its term.
    pub fn first_index(&self) -> u64
        ensures { result ≡ self.now.node.first_index }
    {
        self.state.first_index
    }

    /// How many packets a leader sent.
    pub fn probe(&self) -> u64
        ensures { result ≡ self.now.node.probe }
    {
        self.state.probe
    }

    /// A leader's tables of the other members.
    pub fn peers(&self) -> &[Peer]
        ensures { result.now ≡ self.now.node.peers }
    {
        self.state.peers.as_slice()
    }

    pub fn commit(&self) -> u64
        ensures { result ≡ self.now.node.commit }
    {
        self.state.commit
    }

    pub fn last(&self) -> u64
        ensures { result ≡ length self.now.node.log }
    {
        self.log.len()
    }

    pub fn term_at(&self, index: u64) -> u64
        ensures { result ≡ term_at (entry_view E.entries) self.now.node.log index }
    {
        self.log.term_at(index)
    }

    pub fn last_term(&self) -> u64
        ensures { result ≡ last_term (entry_view E.entries) self.now.node.log }
    {
        self.log.term_at(self.log.len())
    }

    /// The way back leads here.
    fn remember(&mut self) -> Result<(), NoMemory>
        ensures ok { OnOk result (self.new ≡ record self.old { before = self.old.node }) }
        ensures err { OnErr result (self.new.node ≡ self.old.node) }
        ensures first { self.new.first ≡ self.old.first }
    {
        self.before.copy_from(&self.state)?;
        self.log.remember();
        Ok(())
    }

    /// The core is what it was before its last change.
    pub fn take_back(&mut self)
        ensures node { self.new.node ≡ self.old.before }
        ensures first { self.new.first ≡ self.old.first }
    {
        self.log.take_back();
        self.state.swap(&mut self.before);
        self.before.commit = 0;
        self.before.applied = 0;
    }

    fn packet(&self, to: Id, saying: Saying) -> Outgoing
        ensures { result ≡ record { term = self.now.node.term; from = self.now.node.id; to = to; saying = saying } }
    {
        Outgoing {
            term: self.state.term,
            from: self.id,
            to,
            saying,
        }
    }

    fn no_packets(&self) -> Table<Outgoing>
        ensures { result ≡ [] }
    {
        Table::new(self.log.allocator())
    }

    /// One packet.
    fn say(&self, to: Id, saying: Saying) -> Result<Table<Outgoing>, NoMemory>
        ensures { IfOk result (λ packets. packets ≡ (record { term = self.now.node.term; from = self.now.node.id; to = to; saying = saying }) ∷ []) }
    {
        let mut packets = self.no_packets();
        packets.push(self.packet(to, saying))?;
        Ok(packets)
    }

    pub fn leads(&self) -> bool
        ensures { result ≡ is_leader self.now.node.role }
    {
        match self.state.role {
            Role::Leader => true,
            Role::Candidate => false,
            Role::Follower => false,
        }
    }

    /// Whether a count is at its end. No memory holds that much.
    fn is_full(&self) -> bool
        ensures { result ≡ false → HasRoom self.now.node }
    {
        self.log.len() >= 1 << 62
            || self.state.probe >= 1 << 62
            || self.state.peers.len() >= 1 << 62
    }

    /// Whether term or vote changed.
    fn is_moved(&self) -> bool
        ensures { result ≡ is_moved self.now.before self.now.node }
    {
        !(self.before.term == self.state.term && same_vote(self.before.vote, self.state.vote))
    }

    fn finish(&self, moves: Moves) -> Moves
        ensures { result ≡ record moves { vote = is_moved self.now.before self.now.node } }
    {
        let Moves {
            vote: _,
            splice,
            packets,
        } = moves;
        Moves {
            vote: self.is_moved(),
            splice,
            packets,
        }
    }

    /// Nothing is stored but these are sent.
    fn only(&self, packets: Table<Outgoing>) -> Moves
        ensures { result ≡ record { vote = false; splice = None; packets = packets } }
    {
        Moves {
            vote: false,
            splice: None,
            packets,
        }
    }

    /// A call that changes nothing.
    fn leave_unchanged(&mut self) -> Result<Moves, NoMemory>
        ensures ok { IfOk result (λ moves. Gives (unchanged self.old.node) self.new.node moves) }
        ensures vote { IfOk result (λ moves. moves.vote ≡ is_moved self.new.before self.new.node) }
        ensures err { OnErr result (self.new.node ≡ self.old.node) }
        ensures before { OnOk result (self.new.before ≡ self.old.node) }
        ensures first { self.new.first ≡ self.old.first }
    {
        self.remember()?;
        Ok(self.finish(self.only(self.no_packets())))
    }

    /// A node that starts with what it keeps.
    pub fn new(id: Id, first: Config, term: u64, vote: Option<Id>, entries: Vec<E>) -> Core<E>
        ensures node { result.node ≡ started id (record { term = term; vote = vote; boot = 0; base = 0; log = entries.items }) }
        ensures first { result.first ≡ first }
    {
        let log = Log::new(entries);
        let alloc = log.allocator();
        let state = State::new(alloc, term, vote);
        let before = State::new(alloc, 0, None);
        Core {
            id,
            first,
            log,
            state,
            before,
        }
    }

    /// The entries of a packet that is sent.
    pub fn entries_of(&self, prev: u64, count: usize) -> &[E]
        ensures { result.now ≡ take count (drop prev self.now.node.log) }
    {
        let rest = self.log.behind(prev);
        &rest[..count.min(rest.len())]
    }

    /// What is stored of a splice.
    pub fn entries_from(&self, from: u64) -> &[E]
        ensures { result.now ≡ drop (from - 1) self.now.node.log }
    {
        self.log.behind(from.saturating_sub(1))
    }

    /// Entries up to this index are applied, as far as they are committed.
    #[tactic(auto, using(crate::proofs::Applying::applied_some))]
    pub fn applied_to(&mut self, index: u64)
        ensures node { self.new.node ≡ applied_times (index - self.old.node.applied) self.old.node }
        ensures before { self.new.before ≡ self.old.before }
        ensures first { self.new.first ≡ self.old.first }
    {
        self.state.applied = self.state.applied.max(index.min(self.state.commit));
    }

    /// One entry more is applied, where it is committed.
    pub fn apply_next(&mut self)
        ensures node { self.new.node ≡ applied_next self.old.node }
        ensures before { self.new.before ≡ self.old.before }
        ensures first { self.new.first ≡ self.old.first }
    {
        if self.state.applied < self.state.commit {
            self.state.applied += 1;
        }
    }
}

impl<E: LogEntry + TryCopy> TryCopy for Core<E> {
    fn copy(&self, alloc: Global) -> Result<Core<E>, NoMemory> {
        let first = self.first.copy(alloc)?;
        let state = match self.state.copy(alloc) {
            Ok(state) => state,
            Err(error) => {
                drop(first);
                return Err(error);
            }
        };
        let before = match self.before.copy(alloc) {
            Ok(before) => before,
            Err(error) => {
                drop(first);
                drop(state);
                return Err(error);
            }
        };
        match self.log.copy(alloc) {
            Ok(log) => Ok(Core {
                id: self.id,
                first,
                log,
                state,
                before,
            }),
            Err(error) => {
                drop(first);
                drop(state);
                drop(before);
                Err(error)
            }
        }
    }
}

fn same_vote(one: Option<Id>, other: Option<Id>) -> bool
    ensures { result ≡ same_vote one other }
{
    match (one, other) {
        (None, None) => true,
        (Some(a), Some(b)) => a == b,
        (None, Some(_)) => false,
        (Some(_), None) => false,
    }
}
