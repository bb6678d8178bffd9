//! Elections: docs/RAFT.md, "Elect", "Vote", "Vote reply".
ghost use Rattle.std.specs.Prelude.{◌≡◌, ◌==◌, ◌||◌, ◌&&◌, not, ◌+◌, ◌-◌, ◌<◌, ◌^◌, ◌∷◌, length, OnOk, OnErr, IfOk, true, false, Some, None};
ghost use Rattle.rq_history.specs.History.{last_term};
ghost use Rattle.rq_raft.specs.Entries.{entry_view, configuration};
ghost use Rattle.rq_raft.specs.Node.{packet, is_leader, is_candidate, one_of, VoteAsk, say};
ghost use Rattle.rq_raft.specs.Lead.{voters_now};
ghost use Rattle.rq_raft.specs.Vote.{becomes_candidate, is_elected, campaigns, elect, vote_asks, may_vote, is_newer, grants, vote_request, counts, counted, vote_reply};
ghost use Rattle.rq_core.specs.Asks.{asks};
ghost use Rattle.rq_core.specs.Fast.{signed};
ghost use Rattle.rq_log.specs.Views.{Gives, packet_of, spell, is_moved};

use super::Core;
use rq_log::{LogEntry, Moves, Outgoing, Saying, Table, are_quorum, is_one_of, is_voter};
use rq_raft::Role;
use rq_values::{Id, NoMemory};
use rq_wire::Member;

impl<E: LogEntry> Core<E> {
    /// A candidate asks each other voter.
    #[tactic(auto, using(crate::proofs::Electing::asks_on, crate::proofs::Electing::asks_off))]
    fn vote_asks(&self) -> Result<Table<Outgoing>, NoMemory>
        ensures { IfOk result (λ packets. spell self.now.node.log packets ≡ asks (entry_view E.entries) self.now.node (configuration E.entries self.now.first self.now.node.log)) }
    {
        let mut packets = self.no_packets();
        let members = self.members();
        for member in members {
            if !(member.voter && !(member.id == self.id)) {
                continue;
            }
            packets.push(self.ask(member))?;
        }
        Ok(packets)
    }

    fn ask(&self, member: &Member) -> Outgoing
        ensures { packet_of self.now.node.log result ≡ packet self.now.node member.now.id (VoteAsk (length self.now.node.log) (last_term (entry_view E.entries) self.now.node.log)) }
    {
        self.packet(
            member.id,
            Saying::VoteAsk {
                last_index: self.last(),
                last_term: self.last_term(),
            },
        )
    }

    fn become_candidate(&mut self) -> Result<(), NoMemory>
        requires { self.old.node.term < 2 ^ 64 - 1 }
        ensures ok { OnOk result (self.new ≡ record self.old { node = becomes_candidate self.old.node }) }
        ensures before { self.new.before ≡ self.old.before }
        ensures first { self.new.first ≡ self.old.first }
    {
        self.state.votes.clear();
        self.state.votes.push(self.id)?;
        self.state.term += 1;
        self.state.vote = Some(self.id);
        self.state.leader = None;
        self.state.role = Role::Candidate;
        Ok(())
    }

    fn is_elected(&self) -> bool
        ensures { result ≡ is_elected E.entries self.now.first self.now.node }
    {
        are_quorum(self.members(), self.state.votes.as_slice())
    }

    fn elect_here(&mut self) -> Result<Moves, NoMemory>
        requires term { self.old.node.term < 2 ^ 64 - 1 }
        requires fresh { self.old.before.log ≡ self.old.node.log }
        requires short { length self.old.node.log < 2 ^ 62 }
        ensures ok { IfOk result (λ moves. Gives (campaigns E.entries self.old.first (becomes_candidate self.old.node)) self.new.node moves) }
        ensures before { self.new.before ≡ self.old.before }
        ensures first { self.new.first ≡ self.old.first }
    {
        self.become_candidate()?;
        self.campaigns()
    }

    fn campaigns(&mut self) -> Result<Moves, NoMemory>
        requires fresh { self.old.before.log ≡ self.old.node.log }
        requires short { length self.old.node.log < 2 ^ 62 }
        ensures ok { IfOk result (λ moves. Gives (campaigns E.entries self.old.first self.old.node) self.new.node moves) }
        ensures before { self.new.before ≡ self.old.before }
        ensures first { self.new.first ≡ self.old.first }
    {
        if self.is_elected() {
            self.lead()
        } else {
            self.ask_all()
        }
    }

    fn ask_all(&mut self) -> Result<Moves, NoMemory>
        ensures ok { IfOk result (λ moves. Gives (vote_asks E.entries self.old.first self.old.node) self.new.node moves) }
        ensures before { self.new.before ≡ self.old.before }
        ensures first { self.new.first ≡ self.old.first }
    {
        let packets = self.vote_asks()?;
        Ok(self.only(packets))
    }

    /// Whether an election changes nothing.
    fn must_not_stand(&self) -> bool
        ensures value { result ≡ (is_leader self.now.node.role || not (one_of (voters_now E.entries self.now.first self.now.node) self.now.node.id) || (self.now.node.term == 2 ^ 64 - 1)) }
        ensures term { result ≡ false → self.now.node.term < 2 ^ 64 - 1 }
    {
        self.leads() || !self.is_voter() || self.state.term == u64::MAX
    }

    fn is_voter(&self) -> bool
        ensures { result ≡ one_of (voters_now E.entries self.now.first self.now.node) self.now.node.id }
    {
        is_voter(self.members(), self.id)
    }

    /// The next term, a vote for itself, and a request to every other voter; with its own vote a quorum, the node leads.
    pub fn elect(&mut self) -> Result<Moves, NoMemory>
        ensures ok { IfOk result (λ moves. Gives (elect E.entries self.old.first self.old.node) self.new.node moves) }
        ensures vote { IfOk result (λ moves. moves.vote ≡ is_moved self.new.before self.new.node) }
        ensures err { OnErr result (self.new.node ≡ self.old.node) }
        ensures before { OnOk result (self.new.before ≡ self.old.node) }
        ensures first { self.new.first ≡ self.old.first }
    {
        if self.must_not_stand() {
            return self.leave_unchanged();
        }
        if self.is_full() {
            return Err(NoMemory);
        }
        self.remember()?;
        match self.elect_here() {
            Ok(moves) => Ok(self.finish(moves)),
            Err(error) => {
                self.take_back();
                Err(error)
            }
        }
    }

    fn may_vote(&self, from: Id) -> bool
        ensures { result ≡ may_vote self.now.node.vote from }
    {
        match self.state.vote {
            None => true,
            Some(vote) => vote == from,
        }
    }

    pub(super) fn is_newer(&self, last_index: u64, of_term: u64) -> bool
        ensures { result ≡ is_newer E.entries self.now.first self.now.node last_index of_term }
    {
        let own = self.last_term();
        own < of_term || (own == of_term && self.last() <= last_index)
    }

    pub(super) fn grants_in_term(&self, from: Id, term: u64, last_index: u64, of_term: u64) -> bool
        ensures { result ≡ grants E.entries self.now.first self.now.node (signed from term) last_index of_term }
    {
        self.state.term == term && self.may_vote(from) && self.is_newer(last_index, of_term)
    }

    pub(crate) fn vote_request(
        &mut self,
        from: Id,
        term: u64,
        last_index: u64,
        of_term: u64,
    ) -> Result<Moves, NoMemory>
        ensures ok { IfOk result (λ moves. Gives (vote_request E.entries self.old.first self.old.node (signed from term) last_index of_term) self.new.node moves) }
        ensures before { self.new.before ≡ self.old.before }
        ensures first { self.new.first ≡ self.old.first }
    {
        if self.grants_in_term(from, term, last_index, of_term) {
            let packets = self.say(from, Saying::VoteSay { granted: true })?;
            self.state.vote = Some(from);
            Ok(self.only(packets))
        } else {
            let packets = self.say(from, Saying::VoteSay { granted: false })?;
            Ok(self.only(packets))
        }
    }

    fn is_candidate(&self) -> bool
        ensures { result ≡ is_candidate self.now.node.role }
    {
        match self.state.role {
            Role::Candidate => true,
            Role::Leader => false,
            Role::Follower => false,
        }
    }

    fn counts(&self, from: Id, term: u64, granted: bool) -> bool
        ensures { result ≡ counts E.entries self.now.first self.now.node (signed from term) granted }
    {
        self.is_candidate()
            && self.state.term == term
            && granted
            && is_voter(self.members(), from)
            && !is_one_of(self.state.votes.as_slice(), from)
    }

    fn count(&mut self, from: Id) -> Result<(), NoMemory>
        ensures ok { OnOk result (self.new ≡ record self.old { node = record self.old.node { votes = from ∷ self.old.node.votes } }) }
        ensures err { OnErr result (self.new ≡ self.old) }
    {
        self.state.votes.push_front(from)
    }

    fn counted(&mut self) -> Result<Moves, NoMemory>
        requires fresh { self.old.before.log ≡ self.old.node.log }
        requires short { length self.old.node.log < 2 ^ 62 }
        ensures ok { IfOk result (λ moves. Gives (counted E.entries self.old.first self.old.node) self.new.node moves) }
        ensures before { self.new.before ≡ self.old.before }
        ensures first { self.new.first ≡ self.old.first }
    {
        if self.is_elected() {
            self.lead()
        } else {
            Ok(self.only(self.no_packets()))
        }
    }

    pub(crate) fn vote_reply(
        &mut self,
        from: Id,
        term: u64,
        granted: bool,
    ) -> Result<Moves, NoMemory>
        requires fresh { self.old.before.log ≡ self.old.node.log }
        requires short { length self.old.node.log < 2 ^ 62 }
        ensures ok { IfOk result (λ moves. Gives (vote_reply E.entries self.old.first self.old.node (signed from term) granted) self.new.node moves) }
        ensures before { self.new.before ≡ self.old.before }
        ensures first { self.new.first ≡ self.old.first }
    {
        if self.counts(from, term, granted) {
            self.count(from)?;
            self.counted()
        } else {
            Ok(self.only(self.no_packets()))
        }
    }
}
