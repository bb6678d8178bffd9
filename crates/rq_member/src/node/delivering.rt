//! A packet comes in: docs/RAFT.md, "Deliver".
ghost use Rattle.std.specs.Prelude.{ℕ, ◌≡◌, ◌⊎◌, ◌&&◌, ◌==◌, if◌then◌else◌, nat_le, length, true, false, Some, IfOk, IfErr, OnOk, OnErr, IsErrOf};
ghost use Rattle.rq_wire.specs.declared.entry.Entry.{Entry as TheEntry};
ghost use Rattle.rq_raft.specs.Node.{is_leader, has_peer};
ghost use Rattle.rq_raft.specs.Deliver.{is_far};
ghost use Rattle.rq_log.specs.Incoming.{message_in, packet_in};
ghost use Rattle.rq_log.specs.declared.packet.Message.{Message as TheMessage};
ghost use Rattle.rq_log.specs.declared.packet.Packet.{Packet as ThePacket};
ghost use Rattle.rq_world.specs.declared.log_entry.LogEntry.{LogEntry as TheLogEntry};
ghost use Rattle.rq_world.specs.Node.{Turn, unchanged};
ghost use Rattle.rq_world.specs.Rules.{due_answers, not_due, reads, receive, with_reads};
ghost use Rattle.rq_member.specs.declared.turn_error.TurnError.TheVariants as failures;
ghost use Rattle.rq_member.specs.Held.{node_before, IsOpen};
ghost use Rattle.rq_member.specs.Counted.{IsCounted};
ghost use Rattle.rq_member.specs.Turned.{Did, IsMessage, IsNear, IsPacket, IsWrongMessage};

use super::{Node, State};
use crate::engine::Engine;
use crate::entry::LogEntry;
use crate::event::Effects;
use crate::reading::packet_of;
use crate::turn_error::TurnError;
use rq_log::{Message, Moves, Packet, is_peer};
use rq_outside::{Disk, DiskPair};
use rq_values::{Id, Seq};
use rq_wal::logs_stand_while_room_is_made;
use rq_wire::Entry;
use std::alloc::Global;

/// Whether it is an append that begins beyond what an index can be.
fn is_far(message: &Message<Entry>) -> bool
    ensures near { result ≡ false → IsNear message.now }
    ensures far { result ≡ true → (m : TheMessage TheLogEntry) → IsMessage message.now m → is_far (message_in m) ≡ true }
{
    match message {
        Message::Append { prev, .. } => *prev >= 1 << 62,
        _ => false,
    }
}

impl<R: Engine> State<R> {
    /// Whether the packet does nothing: it was sent to another node, or begins beyond what an index can be.
    fn skips(&self, packet: &Packet<Entry>) -> bool
        ensures skips { result ≡ true → (q : ThePacket TheLogEntry) (moment : ℕ) → IsPacket packet.now q → receive self.now.first self.now.node moment (Some (packet_in q)) ≡ unchanged self.now.node }
        ensures here { result ≡ false → packet.now.to ≡ self.now.node.raft.id }
        ensures near { result ≡ false → IsNear packet.now.message }
    {
        if packet.to == self.core.id() {
            is_far(&packet.message)
        } else {
            true
        }
    }

    /// Whether the packet is a reply that counts at this leader.
    fn counts(&self, packet: &Packet<LogEntry>) -> bool
        ensures reads { (t : Turn) → with_reads self.now.first self.now.node (packet_in packet.now) (packet_in packet.now).message t ≡ (if result then reads self.now.first t else t) }
        ensures reply { result ≡ true → IsCounted self.now.first self.now.node packet.now }
    {
        match &packet.message {
            Message::AppendSay {
                ok: _,
                at,
                probe: _,
            } => self.counts_reply(packet.term, packet.from, *at),
            _ => false,
        }
    }

    /// Whether a reply of this term from this member counts at this leader.
    fn counts_reply(&self, term: u64, from: Id, at: u64) -> bool
        ensures { result ≡ (is_leader self.now.node.raft.role && ((term == self.now.node.raft.term) && has_peer (λ p. true) self.now.node.raft.peers from && nat_le at (length self.now.node.raft.log))) }
    {
        self.core.leads()
            && (term == self.core.term()
                && is_peer(self.core.peers(), from)
                && at <= self.core.last())
    }
}

impl<R: Engine> Node<R> {
    /// A packet comes in. One to another node, and one that begins beyond what an index can be, do nothing.
    pub(super) fn receive<D: Disk>(
        &mut self,
        alloc: Global,
        disks: &mut DiskPair<D>,
        packet: &Packet<Entry>,
        moment: u64,
    ) -> Result<Effects, TurnError>
        requires open { IsOpen self.old.state.first D.told D.means disks.old self.old.state.node self.old.file }
        ensures did { (q : ThePacket TheLogEntry) → IsPacket packet.now q → Did self.old.state.first D.told D.means (receive self.old.state.first self.old.state.node moment (Some (packet_in q))) disks.old disks.new self.old.state.node self.new.state.node self.new.file result }
        ensures refused { IfErr result (λ e. (e ≡ failures.Disk) ⊎ Did self.old.state.first D.told D.means (unchanged self.old.state.node) disks.old disks.new self.old.state.node self.new.state.node self.new.file result) }
        ensures causes { IfErr result (λ e. (e ≡ failures.Disk) ⊎ (e ≡ failures.NoMemory) ⊎ (e ≡ failures.Engine) ⊎ IsWrongMessage packet.now.message e) }
        ensures open { IsErrOf result failures.Disk ⊎ IsOpen self.new.state.first D.told D.means disks.new self.new.state.node self.new.file }
        ensures first { self.new.state.first ≡ self.old.state.first }
        ensures generation { self.new.generation ≡ self.old.generation }
    {
        logs_stand_while_room_is_made::<D>();
        if self.state.skips(packet) {
            return Ok(self.state.quiet(alloc));
        }
        match packet_of(alloc, packet) {
            Ok(packet) => self.take_in(alloc, disks, packet, moment),
            Err(error) => Err(error),
        }
    }

    /// A packet comes in that was sent to this node.
    fn take_in<D: Disk>(
        &mut self,
        alloc: Global,
        disks: &mut DiskPair<D>,
        packet: Packet<LogEntry>,
        moment: u64,
    ) -> Result<Effects, TurnError>
        requires open { IsOpen self.old.state.first D.told D.means disks.old self.old.state.node self.old.file }
        requires said { (p : ThePacket TheEntry) × IsPacket p packet }
        requires here { packet.to ≡ self.old.state.node.raft.id }
        ensures did { Did self.old.state.first D.told D.means (receive self.old.state.first self.old.state.node moment (Some (packet_in packet))) disks.old disks.new self.old.state.node self.new.state.node self.new.file result }
        ensures refusals { IfErr result (λ e. (e ≡ failures.Disk) ⊎ (e ≡ failures.NoMemory) ⊎ (e ≡ failures.Engine)) }
        ensures first { self.new.state.first ≡ self.old.state.first }
        ensures generation { self.new.generation ≡ self.old.generation }
    {
        logs_stand_while_room_is_made::<D>();
        let counts = self.state.counts(&packet);
        let led = self.state.led();
        let moves = self.state.core.deliver(packet, moment)?;
        if counts {
            self.state.read_on(alloc, moves)
        } else {
            self.settle(alloc, disks, led, moves)
        }
    }
}

impl<R: Engine> State<R> {
    /// Behind a reply that counts, which stores nothing, the reads that are due are answered. On a refusal the core's call is
    /// taken back.
    fn read_on(&mut self, alloc: Global, moves: Moves) -> Result<Effects, TurnError>
        ensures node { OnOk result (self.new ≡ record self.old { node = record self.old.node { pending_reads = not_due self.old.first self.old.node self.old.node.pending_reads } }) }
        ensures effects { IfOk result (λ effects. (effects.stored ≡ 0) × (effects.packets ≡ moves.packets) × (effects.answers ≡ due_answers self.old.first self.old.node self.old.node.pending_reads)) }
        ensures err { OnErr result (self.new.node ≡ node_before self.old) }
        ensures refusals { IfErr result (λ e. (e ≡ failures.NoMemory) ⊎ (e ≡ failures.Engine)) }
        ensures first { self.new.first ≡ self.old.first }
    {
        let Moves {
            vote: _,
            splice: _,
            packets,
        } = moves;
        let mut answers = Vec::new(alloc);
        match self.answer_due(alloc, &mut answers) {
            Ok(()) => {
                self.forget_due();
                Ok(Effects {
                    stored: 0,
                    packets,
                    answers: Seq::from_vec(answers),
                })
            }
            Err(error) => {
                drop((packets, answers));
                self.core.take_back();
                Err(error)
            }
        }
    }
}
