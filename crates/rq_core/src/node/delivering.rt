//! A packet comes in: docs/RAFT.md, "Far", "Higher", "Append reply".
ghost use Rattle.std.specs.Prelude.{◌≡◌, ◌==◌, ◌&&◌, ◌-◌, ◌<◌, ◌^◌, drop, OnOk, OnErr, IfOk, true, false, None};
ghost use Rattle.rq_history.specs.History.{last_term};
ghost use Rattle.rq_raft.specs.Node.{packet, is_leader, VoteAsk, AppendSay, with_peer};
ghost use Rattle.rq_raft.specs.Lead.{replied, takes_reply, append_reply};
ghost use Rattle.rq_raft.specs.Vote.{vote_request, vote_reply, higher_term};
ghost use Rattle.rq_raft.specs.Deliver.{is_far, by_message, receive};
ghost use Rattle.rq_log.specs.Incoming.{message_in, packet_in};
ghost use Rattle.rq_raft.specs.Append.{append};
ghost use Rattle.rq_core.specs.Fast.{signed};
ghost use Rattle.rq_log.specs.Tally.{after_reply};
ghost use Rattle.rq_log.specs.declared.recipients.Recipients.TheVariants.{More, Waits};
ghost use Rattle.rq_log.specs.Views.{Gives, is_moved, HasRoom};

use super::Core;
use rq_log::{LogEntry, Message, Moves, Packet, Recipients, answer, is_peer};
use rq_raft::Role;
use rq_values::{Id, NoMemory};

impl<E: LogEntry> Core<E> {
    fn see_term(&mut self, term: u64)
        ensures { self.new ≡ record self.old { node = higher_term self.old.node term } }
    {
        if self.state.term < term {
            self.state.term = term;
            self.state.vote = None;
            self.state.role = Role::Follower;
            self.state.leader = None;
            self.state.votes.clear();
            self.state.peers.clear();
        }
    }

    fn is_reply(&self, from: Id, term: u64, at: u64) -> bool
        ensures { result ≡ (is_leader self.now.node.role && takes_reply self.now.node (signed from term) at) }
    {
        self.leads()
            && term == self.state.term
            && is_peer(self.state.peers.as_slice(), from)
            && at <= self.log.len()
    }

    fn replied(&mut self, from: Id, ok: bool, at: u64, probe: u64) -> Result<Moves, NoMemory>
        requires room { HasRoom self.old.node }
        requires near { at < 2 ^ 62 }
        ensures ok { IfOk result (λ moves. Gives (replied E.entries self.old.first self.old.node from ok at probe) self.new.node moves) }
        ensures before { self.new.before ≡ self.old.before }
        ensures first { self.new.first ≡ self.old.first }
    {
        if ok {
            self.replied_ok(from, at, probe)
        } else {
            self.replied_no(from, at, probe)
        }
    }

    fn append_reply(
        &mut self,
        from: Id,
        term: u64,
        ok: bool,
        at: u64,
        probe: u64,
    ) -> Result<Moves, NoMemory>
        requires room { HasRoom self.old.node }
        ensures ok { IfOk result (λ moves. Gives (append_reply E.entries self.old.first self.old.node (signed from term) ok at probe) self.new.node moves) }
        ensures before { self.new.before ≡ self.old.before }
        ensures first { self.new.first ≡ self.old.first }
    {
        if !self.is_reply(from, term, at) {
            return Ok(self.only(self.no_packets()));
        }
        if at >= 1 << 62 {
            return Err(NoMemory);
        }
        self.replied(from, ok, at, probe)
    }

    fn answer_peer(&mut self, from: Id, ok: bool, at: u64, probe: u64) -> Result<(), NoMemory>
        requires { at < 2 ^ 62 }
        ensures ok { OnOk result (self.new ≡ record self.old { node = record self.old.node { peers = with_peer (after_reply ok at probe) from self.old.node.peers } }) }
        ensures before { self.new.before ≡ self.old.before }
        ensures first { self.new.first ≡ self.old.first }
    {
        answer(&mut self.state.peers, from, ok, at, probe)
    }

    fn replied_ok(&mut self, from: Id, at: u64, probe: u64) -> Result<Moves, NoMemory>
        requires room { HasRoom self.old.node }
        requires near { at < 2 ^ 62 }
        ensures ok { IfOk result (λ moves. Gives (replied E.entries self.old.first self.old.node from true at probe) self.new.node moves) }
        ensures before { self.new.before ≡ self.old.before }
        ensures first { self.new.first ≡ self.old.first }
    {
        self.answer_peer(from, true, at, probe)?;
        if self.is_full() {
            return Err(NoMemory);
        }
        self.commit_held();
        let last = self.log.len();
        self.send_to(&Recipients::More { from, last })
    }

    fn replied_no(&mut self, from: Id, at: u64, probe: u64) -> Result<Moves, NoMemory>
        requires room { HasRoom self.old.node }
        requires near { at < 2 ^ 62 }
        ensures ok { IfOk result (λ moves. Gives (replied E.entries self.old.first self.old.node from false at probe) self.new.node moves) }
        ensures before { self.new.before ≡ self.old.before }
        ensures first { self.new.first ≡ self.old.first }
    {
        self.answer_peer(from, false, at, probe)?;
        if self.is_full() {
            return Err(NoMemory);
        }
        self.send_to(&Recipients::Waits { from, probe })
    }

    fn by_message(&mut self, packet: Packet<E>, moment: u64) -> Result<Moves, NoMemory>
        requires fresh { self.old.before.log ≡ self.old.node.log }
        requires room { HasRoom self.old.node }
        requires near { is_far (message_in packet.message) ≡ false }
        ensures ok { IfOk result (λ moves. Gives (by_message E.entries self.old.first self.old.node moment (packet_in packet) (message_in packet.message)) self.new.node moves) }
        ensures before { self.new.before ≡ self.old.before }
        ensures first { self.new.first ≡ self.old.first }
    {
        let Packet {
            term,
            from,
            to: _,
            message,
        } = packet;
        match message {
            Message::VoteAsk {
                last_index,
                last_term,
            } => self.vote_request(from, term, last_index, last_term),
            Message::VoteSay { granted } => self.vote_reply(from, term, granted),
            Message::AppendSay { ok, at, probe } => self.append_reply(from, term, ok, at, probe),
            Message::Append {
                prev,
                prev_term,
                commit,
                probe,
                entries,
            } => {
                let mut list = entries.into_vec();
                if list.len() >= 1 << 62 {
                    drop(list);
                    return Err(NoMemory);
                }
                let outcome = self.append(
                    from, term, moment, prev, prev_term, commit, probe, &mut list,
                );
                drop(list);
                outcome
            }
        }
    }

    fn received(&mut self, packet: Packet<E>, moment: u64) -> Result<Moves, NoMemory>
        requires fresh { self.old.before.log ≡ self.old.node.log }
        requires near { is_far (message_in packet.message) ≡ false }
        ensures ok { IfOk result (λ moves. Gives (by_message E.entries self.old.first (higher_term self.old.node packet.term) moment (packet_in packet) (message_in packet.message)) self.new.node moves) }
        ensures before { self.new.before ≡ self.old.before }
        ensures first { self.new.first ≡ self.old.first }
    {
        self.see_term(packet.term);
        if self.is_full() {
            drop(packet);
            return Err(NoMemory);
        }
        self.by_message(packet, moment)
    }

    fn receive(&mut self, packet: Packet<E>, moment: u64) -> Result<Moves, NoMemory>
        requires fresh { self.old.before.log ≡ self.old.node.log }
        ensures ok { IfOk result (λ moves. Gives (receive E.entries self.old.first self.old.node moment (packet_in packet)) self.new.node moves) }
        ensures before { self.new.before ≡ self.old.before }
        ensures first { self.new.first ≡ self.old.first }
    {
        if self.is_far(&packet.message) {
            drop(packet);
            return Ok(self.only(self.no_packets()));
        }
        self.received(packet, moment)
    }

    fn is_far(&self, message: &Message<E>) -> bool
        ensures { result ≡ is_far (message_in message.now) }
    {
        match message {
            Message::Append {
                prev,
                prev_term: _,
                commit: _,
                probe: _,
                entries: _,
            } => *prev >= 1 << 62,
            Message::VoteAsk {
                last_index: _,
                last_term: _,
            } => false,
            Message::VoteSay { granted: _ } => false,
            Message::AppendSay {
                ok: _,
                at: _,
                probe: _,
            } => false,
        }
    }

    /// A packet comes in at a moment.
    pub fn deliver(&mut self, packet: Packet<E>, moment: u64) -> Result<Moves, NoMemory>
        ensures ok { IfOk result (λ moves. Gives (receive E.entries self.old.first self.old.node moment (packet_in packet)) self.new.node moves) }
        ensures vote { IfOk result (λ moves. moves.vote ≡ is_moved self.new.before self.new.node) }
        ensures err { OnErr result (self.new.node ≡ self.old.node) }
        ensures before { OnOk result (self.new.before ≡ self.old.node) }
        ensures first { self.new.first ≡ self.old.first }
    {
        match self.remember() {
            Ok(()) => {}
            Err(error) => {
                drop(packet);
                return Err(error);
            }
        }
        match self.receive(packet, moment) {
            Ok(moves) => Ok(self.finish(moves)),
            Err(error) => {
                self.take_back();
                Err(error)
            }
        }
    }
}
