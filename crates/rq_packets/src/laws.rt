//! The laws of reading and writing packets, for the entries of rq_wire.
ghost use Rattle.std.specs.Prelude.{◌≡◌, ℕ, List, Result};
ghost use Rattle.rq_values.specs.declared.error.DecodeError.{DecodeError};
ghost use Rattle.rq_values.specs.Agreement.{Agree};
ghost use Rattle.rq_values.specs.Exact.{IsExact};
ghost use Rattle.rq_values.specs.Local.{IsLocal};
ghost use Rattle.rq_values.specs.Place.{IsAnswer, answer_of};
ghost use Rattle.rq_wire.specs.declared.entry.Entry.{Entry};
ghost use Rattle.rq_wire.specs.Spelling.{entry_bytes};
ghost use Rattle.rq_wire.specs.Reading.{entry_at};
ghost use Rattle.rq_wire.specs.Exact.{IsEntry};
ghost use Rattle.rq_log.specs.declared.packet.Packet.{Packet};
ghost use Rattle.rq_packets.specs.Spelling.{packet_bytes};
ghost use Rattle.rq_packets.specs.Reading.{packet_at};
ghost use Rattle.rq_packets.specs.Exact.{IsPacket};

/// A packet is read exactly where its spelling stands, whatever stands behind it.
#[tactic(auto, using(crate::proofs::Exact::exact_wire_packet))]
pub fn packets_are_read_as_spelled()
    ensures { (limit : ℕ) → IsExact (packet_at (entry_at limit) limit) (packet_bytes entry_bytes) (IsPacket limit (IsEntry limit)) }
{}

/// Its reader depends on nothing behind what it reads.
#[tactic(auto, using(crate::proofs::Local::local_wire_packet))]
pub fn packets_are_read_alone()
    ensures { (limit : ℕ) → IsLocal (packet_at (entry_at limit) limit) }
{}

/// Two packets with one spelling are equal.
pub fn packets_have_one_spelling()
    ensures { (limit : ℕ) (a b : Packet Entry) → IsPacket limit (IsEntry limit) a → IsPacket limit (IsEntry limit) b → packet_bytes entry_bytes a ≡ packet_bytes entry_bytes b → a ≡ b }
{}

/// Two answers that meet the contract of `decode_packet` on one input are equal, but for want of memory.
pub fn readings_of_packets_agree()
    ensures { (limit : ℕ) (bytes : List ℕ) (a b : Result (Packet Entry) DecodeError) → IsAnswer a (answer_of (packet_at (entry_at limit) limit) bytes) → IsAnswer b (answer_of (packet_at (entry_at limit) limit) bytes) → Agree a b }
{}
