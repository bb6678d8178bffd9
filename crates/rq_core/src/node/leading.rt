//! A leader sends, commits, proposes, and comes to lead: docs/RAFT.md, "Send", "Commit", "Leading", "Beat", "Propose".
ghost use Rattle.std.specs.Prelude.{◌≡◌, ◌==◌, ◌+◌, ◌-◌, ◌<◌, ◌≤◌, ◌^◌, [], ◌∷◌, ◌++◌, length, drop, OnOk, OnErr, IfOk, false, Some, None};
ghost use Rattle.rq_raft.specs.Entries.{configuration};
ghost use Rattle.rq_raft.specs.Node.{packet, unchanged, Splice};
ghost use Rattle.rq_raft.specs.Lead.{message_for, sends, in_flight, probe_after, committed, send, appended, followed, propose, beat, tables, becomes_leader, leading};
ghost use Rattle.rq_log.specs.Tally.{wanted_by};
ghost use Rattle.rq_log.specs.declared.recipients.Recipients.TheVariants.{All, Idle};
ghost use Rattle.rq_log.specs.Views.{Gives, message_of, packet_of, spell, stored_of, is_moved, HasRoom};

use super::Core;
use rq_commit::reached;
use rq_log::{LogEntry, Moves, Outgoing, Recipients, Saying, Table, is_wanted, mark, tables_for};
use rq_raft::{Peer, Role};
use rq_values::NoMemory;

impl<E: LogEntry> Core<E> {
    /// What is sent to a peer: the entries from its next index on, as many as fit.
    #[tactic(auto, using(crate::proofs::Sendings::no_snapshot))]
    fn append_for(&self, probe: u64, peer: &Peer) -> Saying
        ensures { message_of self.now.node.log result ≡ message_for E.entries self.now.first self.now.node probe peer.now }
    {
        let prev = peer.next.saturating_sub(1);
        Saying::Append {
            prev,
            prev_term: self.log.term_at(prev),
            commit: self.state.commit,
            probe,
            count: E::fit(self.log.behind(prev)),
        }
    }

    fn packet_for(&self, probe: u64, peer: &Peer) -> Outgoing
        ensures { packet_of self.now.node.log result ≡ packet self.now.node peer.now.id (message_for E.entries self.now.first self.now.node probe peer.now) }
    {
        self.packet(peer.id, self.append_for(probe, peer))
    }

    /// Appends to the peers that are wanted.
    #[tactic(auto, using(crate::proofs::Sendings::sent_on, crate::proofs::Sendings::sent_off))]
    fn sends(&self, to: &Recipients) -> Result<Table<Outgoing>, NoMemory>
        requires { self.now.node.probe + length self.now.node.peers < 2 ^ 64 }
        ensures { IfOk result (λ packets. spell self.now.node.log packets ≡ sends E.entries self.now.first self.now.node (wanted_by to.now) self.now.node.probe self.now.node.peers) }
    {
        let mut packets = self.no_packets();
        let mut probe = self.state.probe;
        for peer in self.state.peers.as_slice() {
            if !is_wanted(to, peer) {
                continue;
            }
            probe += 1;
            packets.push(self.packet_for(probe, peer))?;
        }
        Ok(packets)
    }

    /// What was sent is in flight.
    fn mark_sent(&mut self, to: &Recipients)
        requires { self.old.node.probe + length self.old.node.peers < 2 ^ 64 }
        ensures { self.new ≡ record self.old { node = record self.old.node { probe = probe_after (wanted_by to.now) self.old.node.probe self.old.node.peers; peers = in_flight (wanted_by to.now) self.old.node.probe self.old.node.peers } } }
    {
        self.state.probe = mark(&mut self.state.peers, to, self.state.probe);
    }

    pub(crate) fn send_to(&mut self, to: &Recipients) -> Result<Moves, NoMemory>
        requires room { self.old.node.probe + length self.old.node.peers < 2 ^ 64 }
        ensures ok { IfOk result (λ moves. Gives (send E.entries self.old.first (wanted_by to.now) (unchanged self.old.node)) self.new.node moves) }
        ensures before { self.new.before ≡ self.old.before }
        ensures first { self.new.first ≡ self.old.first }
    {
        let packets = self.sends(to)?;
        self.mark_sent(to);
        Ok(self.only(packets))
    }

    /// The greatest index above the commit index that a quorum holds and whose entry has this term.
    #[tactic(auto, using(crate::proofs::Committing::reached_here))]
    pub(crate) fn commit_held(&mut self)
        ensures { self.new ≡ record self.old { node = (committed E.entries self.old.first (unchanged self.old.node)).node } }
    {
        self.state.commit = reached(
            &self.log,
            self.members(),
            self.state.peers.as_slice(),
            self.id,
            self.state.term,
            self.state.commit,
        );
    }

    /// An entry more. Answers its index.
    #[tactic(auto, using(crate::proofs::Sendings::stored_last))]
    fn append_own(&mut self, entry: E) -> Result<u64, NoMemory>
        requires fresh { self.old.before.log ≡ self.old.node.log }
        requires short { length self.old.node.log < 2 ^ 62 }
        ensures ok { OnOk result (self.new ≡ record self.old { node = record self.old.node { log = self.old.node.log ++ entry ∷ [] } }) }
        ensures stored { IfOk result (λ from. stored_of self.new.node.log (Some from) ≡ Splice (length self.old.node.log + 1) (entry ∷ []) ∷ []) }
        ensures err { OnErr result (self.new ≡ self.old) }
    {
        let from = self.log.len() + 1;
        self.log.push(entry)?;
        Ok(from)
    }

    /// A leader's tables follow a configuration that it appends.
    fn follow(&mut self, entry: &E) -> Result<(), NoMemory>
        requires short { length self.old.node.log < 2 ^ 62 }
        ensures ok { OnOk result (self.new ≡ record self.old { node = followed E.entries self.old.first self.old.node entry.now }) }
        ensures before { self.new.before ≡ self.old.before }
        ensures first { self.new.first ≡ self.old.first }
    {
        match entry.members() {
            None => Ok(()),
            Some(members) => {
                let peers = tables_for(
                    self.log.allocator(),
                    self.id,
                    self.log.len() + 1,
                    self.state.peers.as_slice(),
                    members,
                )?;
                drop(std::mem::replace(&mut self.state.peers, peers));
                Ok(())
            }
        }
    }

    fn send_own(&mut self, entry: E) -> Result<Moves, NoMemory>
        requires fresh { self.old.before.log ≡ self.old.node.log }
        requires room { HasRoom self.old.node }
        ensures ok { IfOk result (λ moves. Gives (committed E.entries self.old.first (send E.entries self.old.first (wanted_by Idle) (appended self.old.node entry))) self.new.node moves) }
        ensures before { self.new.before ≡ self.old.before }
        ensures first { self.new.first ≡ self.old.first }
    {
        let from = self.append_own(entry)?;
        let packets = self.sends(&Recipients::Idle)?;
        self.mark_sent(&Recipients::Idle);
        self.commit_held();
        Ok(Moves {
            vote: false,
            splice: Some(from),
            packets,
        })
    }

    fn propose_here(&mut self, entry: E) -> Result<Moves, NoMemory>
        requires fresh { self.old.before.log ≡ self.old.node.log }
        requires room { HasRoom self.old.node }
        ensures ok { IfOk result (λ moves. Gives (committed E.entries self.old.first (send E.entries self.old.first (wanted_by Idle) (appended (followed E.entries self.old.first self.old.node entry) entry))) self.new.node moves) }
        ensures before { self.new.before ≡ self.old.before }
        ensures first { self.new.first ≡ self.old.first }
    {
        match self.follow(&entry) {
            Ok(()) => {}
            Err(error) => {
                drop(entry);
                return Err(error);
            }
        }
        if self.is_full() {
            drop(entry);
            return Err(NoMemory);
        }
        self.send_own(entry)
    }

    /// A leader appends an entry of its term, and sends it to each peer that waits for nothing.
    pub fn propose(&mut self, entry: E) -> Result<Moves, NoMemory>
        ensures ok { IfOk result (λ moves. Gives (propose E.entries self.old.first self.old.node entry) self.new.node moves) }
        ensures vote { IfOk result (λ moves. moves.vote ≡ is_moved self.new.before self.new.node) }
        ensures err { OnErr result (self.new.node ≡ self.old.node) }
        ensures before { OnOk result (self.new.before ≡ self.old.node) }
        ensures first { self.new.first ≡ self.old.first }
    {
        if !self.leads() {
            drop(entry);
            return self.leave_unchanged();
        }
        if self.is_full() {
            drop(entry);
            return Err(NoMemory);
        }
        match self.remember() {
            Ok(()) => {}
            Err(error) => {
                drop(entry);
                return Err(error);
            }
        }
        match self.propose_here(entry) {
            Ok(moves) => Ok(self.finish(moves)),
            Err(error) => {
                self.take_back();
                Err(error)
            }
        }
    }

    /// Tables of the other members.
    fn tables(&self) -> Result<Table<Peer>, NoMemory>
        requires { length self.now.node.log < 2 ^ 62 }
        ensures { IfOk result (λ peers. peers ≡ tables self.now.node.id (length self.now.node.log + 1) (configuration E.entries self.now.first self.now.node.log)) }
    {
        tables_for(
            self.log.allocator(),
            self.id,
            self.log.len() + 1,
            &[],
            self.members(),
        )
    }

    fn become_leader(&mut self, peers: Table<Peer>)
        requires short { length self.old.node.log < 2 ^ 62 }
        requires peers { peers ≡ tables self.old.node.id (length self.old.node.log + 1) (configuration E.entries self.old.first self.old.node.log) }
        ensures { self.new ≡ record self.old { node = becomes_leader E.entries self.old.first self.old.node } }
    {
        self.state.role = Role::Leader;
        self.state.leader = Some(self.id);
        self.state.probe = 0;
        self.state.first_index = self.log.len() + 1;
        drop(std::mem::replace(&mut self.state.peers, peers));
    }

    pub(crate) fn lead(&mut self) -> Result<Moves, NoMemory>
        requires fresh { self.old.before.log ≡ self.old.node.log }
        requires short { length self.old.node.log < 2 ^ 62 }
        ensures ok { IfOk result (λ moves. Gives (leading E.entries self.old.first self.old.node) self.new.node moves) }
        ensures before { self.new.before ≡ self.old.before }
        ensures first { self.new.first ≡ self.old.first }
    {
        let peers = self.tables()?;
        self.become_leader(peers);
        if self.is_full() {
            return Err(NoMemory);
        }
        let from = self.append_own(E::empty(self.state.term))?;
        let packets = self.sends(&Recipients::All)?;
        self.mark_sent(&Recipients::All);
        self.commit_held();
        Ok(Moves {
            vote: false,
            splice: Some(from),
            packets,
        })
    }

    fn beat_here(&mut self) -> Result<Moves, NoMemory>
        requires room { HasRoom self.old.node }
        ensures ok { IfOk result (λ moves. Gives (send E.entries self.old.first (wanted_by All) (unchanged self.old.node)) self.new.node moves) }
        ensures err { OnErr result (self.new ≡ self.old) }
        ensures before { self.new.before ≡ self.old.before }
        ensures first { self.new.first ≡ self.old.first }
    {
        let packets = self.sends(&Recipients::All)?;
        self.mark_sent(&Recipients::All);
        Ok(self.only(packets))
    }

    /// A leader sends to all.
    pub fn beat(&mut self) -> Result<Moves, NoMemory>
        ensures ok { IfOk result (λ moves. Gives (beat E.entries self.old.first self.old.node) self.new.node moves) }
        ensures vote { IfOk result (λ moves. moves.vote ≡ is_moved self.new.before self.new.node) }
        ensures err { OnErr result (self.new.node ≡ self.old.node) }
        ensures before { OnOk result (self.new.before ≡ self.old.node) }
        ensures first { self.new.first ≡ self.old.first }
    {
        if !self.leads() {
            return self.leave_unchanged();
        }
        if self.is_full() {
            return Err(NoMemory);
        }
        self.remember()?;
        match self.beat_here() {
            Ok(moves) => Ok(self.finish(moves)),
            Err(error) => {
                self.take_back();
                Err(error)
            }
        }
    }
}
