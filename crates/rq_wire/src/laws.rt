//! The laws of reading and writing, and of quorums.
ghost use Rattle.std.specs.Prelude.{◌≡◌, ℕ, ◌+◌, ◌<◌, List, Option, Result};
ghost use Rattle.rq_values.specs.declared.error.DecodeError.{DecodeError};
ghost use Rattle.rq_values.specs.Agreement.{Agree};
ghost use Rattle.rq_values.specs.Exact.{IsExact};
ghost use Rattle.rq_values.specs.Local.{IsLocal};
ghost use Rattle.rq_values.specs.Place.{IsAnswer, answer_of};
ghost use Rattle.rq_wire.specs.declared.config.Member.{Member};
ghost use Rattle.rq_wire.specs.declared.entry.Entry.{Entry};
ghost use Rattle.rq_wire.specs.Config.{voters, quorum_of};
ghost use Rattle.rq_wire.specs.Spelling.{config_bytes, entry_bytes};
ghost use Rattle.rq_wire.specs.Reading.{member_after, config_at, body_at, entry_at};
ghost use Rattle.rq_wire.specs.Exact.{IsConfig, IsEntry};

/// Configurations and entries are read exactly where their spellings stand.
#[tactic(auto, using(crate::proofs::Exact::exact_config, crate::proofs::Exact::exact_entry))]
pub fn entries_are_read_as_spelled()
    ensures config { (limit : ℕ) → IsExact (config_at limit) config_bytes (IsConfig limit) }
    ensures entry { (limit : ℕ) → IsExact (entry_at limit) entry_bytes (IsEntry limit) }
{}

/// Their readers depend on nothing behind what they read.
#[tactic(auto, using(crate::proofs::Local::local_member, crate::proofs::Local::local_config, crate::proofs::Local::local_body, crate::proofs::Local::local_entry))]
pub fn entries_are_read_alone()
    ensures member { (limit : ℕ) (last : Option Member) → IsLocal (member_after limit last) }
    ensures config { (limit : ℕ) → IsLocal (config_at limit) }
    ensures body { (limit : ℕ) → IsLocal (body_at limit) }
    ensures entry { (limit : ℕ) → IsLocal (entry_at limit) }
{}

/// Two entries with one spelling are equal.
pub fn entries_have_one_spelling()
    ensures { (limit : ℕ) (a b : Entry) → IsEntry limit a → IsEntry limit b → entry_bytes a ≡ entry_bytes b → a ≡ b }
{}

/// Two answers that meet the contract of `decode_entry` on one input are equal, but for want of memory.
#[tactic(auto, using(crate::proofs::Agreeing::answers))]
pub fn readings_of_entries_agree()
    ensures { (limit : ℕ) (bytes : List ℕ) (a b : Result Entry DecodeError) → IsAnswer a (answer_of (entry_at limit) bytes) → IsAnswer b (answer_of (entry_at limit) bytes) → Agree a b }
{}

/// Two quorums of one configuration are more than its voters together, so they share one.
#[tactic(auto, using(crate::proofs::Agreeing::quorums))]
pub fn two_quorums_meet()
    ensures { (config : List Member) → voters config < quorum_of config + quorum_of config }
{}
