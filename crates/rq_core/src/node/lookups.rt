//! What a core tells when it is asked, besides its fields: entries and members at an index, a member's table, votes.
ghost use Rattle.std.specs.Prelude.{◌≡◌, take};
ghost use Rattle.std.specs.Option.{option_copied};
ghost use Rattle.rq_history.specs.History.{entry_at};
ghost use Rattle.rq_raft.specs.Entries.{configuration};
ghost use Rattle.rq_raft.specs.Node.{is_leader};
ghost use Rattle.rq_raft.specs.Vote.{higher_term, grants};
ghost use Rattle.rq_log.specs.Incoming.{packet_in};
ghost use Rattle.rq_core.specs.Fast.{signed};
ghost use Rattle.rq_core.specs.Lookups.{peer_of, lost_term, grants_packet};

use super::Core;
use rq_log::{LogEntry, Message, Packet};
use rq_raft::{Peer, Role};
use rq_values::Id;
use rq_wire::Member;

impl<E: LogEntry> Core<E> {
    /// Up to this index the entries are in a snapshot; there is none yet.
    pub fn base(&self) -> u64
        ensures { result ≡ self.now.node.base }
    {
        let _ = &self.id;
        0
    }

    /// The entry at an index, counted from 1.
    pub fn entry(&self, index: u64) -> Option<&E>
        ensures { option_copied result ≡ entry_at self.now.node.log index }
    {
        self.log.entry(index)
    }

    /// The members of the newest configuration at or below an index, else the first ones.
    pub fn members_at(&self, index: u64) -> &[Member]
        ensures { result.now ≡ configuration E.entries self.now.first (take index self.now.node.log) }
    {
        match self.log.entry(self.log.config_upto(index)) {
            None => self.first.members(),
            Some(entry) => match entry.members() {
                None => self.first.members(),
                Some(members) => members,
            },
        }
    }

    /// A candidate's votes, its own among them.
    pub fn votes(&self) -> &[Id]
        ensures { result.now ≡ self.now.node.votes }
    {
        self.state.votes.as_slice()
    }

    /// A leader's table of a member.
    pub fn peer(&self, id: Id) -> Option<&Peer>
        ensures { option_copied result ≡ peer_of self.now.node.peers id }
    {
        peer_of(self.state.peers.as_slice(), id)
    }

    /// The term whose leadership the last change left, if it did.
    pub fn lost_term(&self) -> Option<u64>
        ensures { result ≡ lost_term self.now.before self.now.node }
    {
        if !self.led() || self.leads() {
            return None;
        }
        Some(self.before.term)
    }

    fn led(&self) -> bool
        ensures { result ≡ is_leader self.now.before.role }
    {
        match self.before.role {
            Role::Leader => true,
            Role::Candidate => false,
            Role::Follower => false,
        }
    }

    /// Whether the node, when this packet comes in, grants the vote that it asks for.
    pub fn grants(&self, ask: &Packet<E>) -> bool
        ensures { result ≡ grants_packet E.entries self.now.first self.now.node (packet_in ask.now) }
    {
        match &ask.message {
            Message::VoteAsk {
                last_index,
                last_term,
            } => self.grants_vote(ask.from, ask.term, *last_index, *last_term),
            Message::VoteSay { granted: _ } => false,
            Message::Append {
                prev: _,
                prev_term: _,
                commit: _,
                probe: _,
                entries: _,
            } => false,
            Message::AppendSay {
                ok: _,
                at: _,
                probe: _,
            } => false,
        }
    }

    #[tactic(auto, using(crate::proofs::Lookups::higher_grants, crate::proofs::Lookups::same_grants))]
    fn grants_vote(&self, from: Id, term: u64, last_index: u64, of_term: u64) -> bool
        ensures { result ≡ grants E.entries self.now.first (higher_term self.now.node term) (signed from term) last_index of_term }
    {
        if self.state.term < term {
            self.is_newer(last_index, of_term)
        } else {
            self.grants_in_term(from, term, last_index, of_term)
        }
    }
}

#[tactic(auto, using(crate::proofs::Lookups::peer_yes, crate::proofs::Lookups::peer_no))]
fn peer_of(peers: &[Peer], id: Id) -> Option<&Peer>
    ensures { option_copied result ≡ peer_of peers.now id }
{
    for peer in peers {
        if peer.id == id {
            return Some(peer);
        }
    }
    None
}
