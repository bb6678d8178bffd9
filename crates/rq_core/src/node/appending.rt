//! A follower takes entries over: docs/RAFT.md, "Append".
ghost use Rattle.std.specs.Prelude.{◌≡◌, ◌==◌, min, ◌||◌, ◌&&◌, ◌+◌, ◌-◌, ◌<◌, ◌≤◌, ◌^◌, [], ◌∷◌, ◌++◌, length, take, OnOk, OnErr, IfOk, true, false, Some};
ghost use Rattle.rq_history.specs.History.{term_at};
ghost use Rattle.rq_raft.specs.Node.{unchanged, Splice, AppendSay, say};
ghost use Rattle.rq_raft.specs.Append.{matching_count, with_commit, append, append_in_term, becomes_follower};
ghost use Rattle.rq_core.specs.Fast.{append_fast, agrees, first_missing, put_rest, signed};
ghost use Rattle.rq_log.specs.Views.{Gives, stored_of};

use super::Core;
use rq_log::{LogEntry, Moves, Saying};
use rq_raft::Role;
use rq_values::{Id, NoMemory};

impl<E: LogEntry> Core<E> {
    // How many of these entries are there already, the first of them at index at + 1.
    #[tactic(auto, using(crate::proofs::Appending::matching_on, crate::proofs::Appending::matching_off))]
    fn matching_count(&self, at: u64, entries: &[E]) -> usize
        requires { at + length entries.now < 2 ^ 64 }
        ensures value { result ≡ matching_count E.entries self.now.node.log at entries.now }
        ensures within { result ≤ length entries.now }
        ensures there { at ≤ length self.now.node.log → at + result ≤ length self.now.node.log }
    {
        let mut place = at;
        for (k, entry) in entries.iter().enumerate() {
            if place >= self.log.len() || self.log.term_at(place + 1) != entry.term() {
                return k;
            }
            place += 1;
        }
        entries.len()
    }

    fn agrees(&self, prev: u64, prev_term: u64) -> bool
        ensures value { result ≡ agrees E.entries self.now.node prev prev_term }
        ensures within { result ≡ true → prev ≤ length self.now.node.log }
        ensures behind { result ≡ false → self.now.node.commit < prev }
    {
        prev <= self.state.commit || (prev <= self.log.len() && self.log.term_at(prev) == prev_term)
    }

    fn first_missing(&self, prev: u64, entries: &[E]) -> usize
        requires near { prev < 2 ^ 62 }
        requires short { length entries.now < 2 ^ 62 }
        requires within { prev ≤ length self.now.node.log }
        ensures value { result ≡ first_missing E.entries self.now.node prev entries.now }
        ensures first { result ≤ length entries.now }
        ensures there { prev + result ≤ length self.now.node.log }
        ensures behind { result < length entries.now → self.now.node.commit ≤ prev + result }
    {
        let own = entries
            .len()
            .min(self.state.commit.saturating_sub(prev) as usize);
        own + self.matching_count(prev + own as u64, &entries[own..])
    }

    fn learn(&mut self, commit: u64, upto: u64)
        requires { upto ≤ length self.old.node.log }
        ensures { self.new ≡ record self.old { node = with_commit self.old.node commit upto } }
    {
        self.state.commit = self.state.commit.max(commit.min(upto));
    }

    /// The entries behind an index become these.
    #[tactic(auto, using(crate::proofs::Appending::stored_tail))]
    fn put(&mut self, at: u64, entries: &mut Vec<E>) -> Result<(), NoMemory>
        requires fresh { self.old.before.log ≡ self.old.node.log }
        requires within { at ≤ length self.old.node.log }
        requires low { self.old.node.commit ≤ at }
        ensures ok { OnOk result (self.new ≡ record self.old { node = record self.old.node { log = take at self.old.node.log ++ entries.old.items } }) }
        ensures stored { OnOk result (stored_of self.new.node.log (Some (at + 1)) ≡ Splice (at + 1) entries.old.items ∷ []) }
        ensures err { OnErr result (self.new ≡ self.old) }
    {
        let _ = &self.state.commit;
        self.log.splice(at, entries)
    }

    fn append_rest(
        &mut self,
        from: Id,
        prev: u64,
        commit: u64,
        probe: u64,
        entries: &mut Vec<E>,
        there: usize,
    ) -> Result<Moves, NoMemory>
        requires fresh { self.old.before.log ≡ self.old.node.log }
        requires near { prev < 2 ^ 62 }
        requires short { length entries.old.items < 2 ^ 62 }
        requires first { there < length entries.old.items }
        requires within { prev + there ≤ length self.old.node.log }
        requires behind { self.old.node.commit ≤ prev + there }
        ensures ok { IfOk result (λ moves. Gives (say (put_rest E.entries self.old.node prev commit entries.old.items there) from (AppendSay true (prev + length entries.old.items) probe)) self.new.node moves) }
        ensures before { self.new.before ≡ self.old.before }
        ensures first_members { self.new.first ≡ self.old.first }
    {
        let upto = prev + entries.len() as u64;
        let packets = self.say(
            from,
            Saying::AppendSay {
                ok: true,
                at: upto,
                probe,
            },
        )?;
        let at = prev + there as u64;
        let mut tail = entries.split_off(there)?;
        self.put(at, &mut tail)?;
        self.learn(commit, upto);
        Ok(Moves {
            vote: false,
            splice: Some(at + 1),
            packets,
        })
    }

    fn refuse(&mut self, from: Id, prev: u64, probe: u64) -> Result<Moves, NoMemory>
        requires { 0 < prev }
        ensures ok { IfOk result (λ moves. Gives (say (unchanged self.old.node) from (AppendSay false (min (prev - 1) (length self.old.node.log)) probe)) self.new.node moves) }
        ensures before { self.new.before ≡ self.old.before }
        ensures first_members { self.new.first ≡ self.old.first }
    {
        let at = self.log.len().min(prev - 1);
        let packets = self.say(
            from,
            Saying::AppendSay {
                ok: false,
                at,
                probe,
            },
        )?;
        Ok(self.only(packets))
    }

    fn append_known(
        &mut self,
        from: Id,
        prev: u64,
        commit: u64,
        probe: u64,
        count: usize,
    ) -> Result<Moves, NoMemory>
        requires near { prev < 2 ^ 62 }
        requires short { count < 2 ^ 62 }
        requires within { prev + count ≤ length self.old.node.log }
        ensures ok { IfOk result (λ moves. Gives (say (unchanged (with_commit self.old.node commit (prev + count))) from (AppendSay true (prev + count) probe)) self.new.node moves) }
        ensures before { self.new.before ≡ self.old.before }
        ensures first_members { self.new.first ≡ self.old.first }
    {
        let upto = prev + count as u64;
        let packets = self.say(
            from,
            Saying::AppendSay {
                ok: true,
                at: upto,
                probe,
            },
        )?;
        self.learn(commit, upto);
        Ok(self.only(packets))
    }

    fn append_fast(
        &mut self,
        from: Id,
        prev: u64,
        prev_term: u64,
        commit: u64,
        probe: u64,
        entries: &mut Vec<E>,
    ) -> Result<Moves, NoMemory>
        requires fresh { self.old.before.log ≡ self.old.node.log }
        requires near { prev < 2 ^ 62 }
        requires short { length entries.old.items < 2 ^ 62 }
        ensures ok { IfOk result (λ moves. Gives (append_fast E.entries self.old.node from prev prev_term commit probe entries.old.items) self.new.node moves) }
        ensures before { self.new.before ≡ self.old.before }
        ensures first_members { self.new.first ≡ self.old.first }
    {
        if !self.agrees(prev, prev_term) {
            return self.refuse(from, prev, probe);
        }
        let there = self.first_missing(prev, entries.as_slice());
        if there == entries.len() {
            self.append_known(from, prev, commit, probe, there)
        } else {
            self.append_rest(from, prev, commit, probe, entries, there)
        }
    }

    #[tactic(auto, using(crate::proofs::Corrected::fast_is))]
    fn append_in_term(
        &mut self,
        from: Id,
        prev: u64,
        prev_term: u64,
        commit: u64,
        probe: u64,
        entries: &mut Vec<E>,
    ) -> Result<Moves, NoMemory>
        requires fresh { self.old.before.log ≡ self.old.node.log }
        requires near { prev < 2 ^ 62 }
        requires short { length entries.old.items < 2 ^ 62 }
        ensures ok { IfOk result (λ moves. Gives (append_in_term E.entries self.old.node from prev prev_term commit probe entries.old.items) self.new.node moves) }
        ensures before { self.new.before ≡ self.old.before }
        ensures first_members { self.new.first ≡ self.old.first }
    {
        let _ = &self.state.commit;
        self.append_fast(from, prev, prev_term, commit, probe, entries)
    }

    fn become_follower(&mut self, from: Id, moment: u64)
        ensures { self.new ≡ record self.old { node = becomes_follower self.old.node from moment } }
    {
        self.state.role = Role::Follower;
        self.state.leader = Some(from);
        self.state.contact = Some(moment);
        self.state.votes.clear();
        self.state.peers.clear();
    }

    fn append_followed(
        &mut self,
        from: Id,
        moment: u64,
        prev: u64,
        prev_term: u64,
        commit: u64,
        probe: u64,
        entries: &mut Vec<E>,
    ) -> Result<Moves, NoMemory>
        requires fresh { self.old.before.log ≡ self.old.node.log }
        requires near { prev < 2 ^ 62 }
        requires short { length entries.old.items < 2 ^ 62 }
        ensures ok { IfOk result (λ moves. Gives (append_in_term E.entries (becomes_follower self.old.node from moment) from prev prev_term commit probe entries.old.items) self.new.node moves) }
        ensures before { self.new.before ≡ self.old.before }
        ensures first_members { self.new.first ≡ self.old.first }
    {
        self.become_follower(from, moment);
        self.append_in_term(from, prev, prev_term, commit, probe, entries)
    }

    fn append_lower(&mut self, from: Id) -> Result<Moves, NoMemory>
        ensures ok { IfOk result (λ moves. Gives (say (unchanged self.old.node) from (AppendSay false 0 0)) self.new.node moves) }
        ensures before { self.new.before ≡ self.old.before }
        ensures first_members { self.new.first ≡ self.old.first }
    {
        let packets = self.say(
            from,
            Saying::AppendSay {
                ok: false,
                at: 0,
                probe: 0,
            },
        )?;
        Ok(self.only(packets))
    }

    pub(crate) fn append(
        &mut self,
        from: Id,
        term: u64,
        moment: u64,
        prev: u64,
        prev_term: u64,
        commit: u64,
        probe: u64,
        entries: &mut Vec<E>,
    ) -> Result<Moves, NoMemory>
        requires fresh { self.old.before.log ≡ self.old.node.log }
        requires near { prev < 2 ^ 62 }
        requires short { length entries.old.items < 2 ^ 62 }
        ensures ok { IfOk result (λ moves. Gives (append E.entries self.old.node moment (signed from term) prev prev_term commit probe entries.old.items) self.new.node moves) }
        ensures before { self.new.before ≡ self.old.before }
        ensures first_members { self.new.first ≡ self.old.first }
    {
        if term < self.state.term {
            return self.append_lower(from);
        }
        if self.leads() {
            return Ok(self.only(self.no_packets()));
        }
        self.append_followed(from, moment, prev, prev_term, commit, probe, entries)
    }
}
