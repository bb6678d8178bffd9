//! How many entries of `rq_wire` go into one packet.
ghost use Rattle.std.specs.Prelude.{◌≡◌, ◌-◌, ◌^◌, min, length};
ghost use Rattle.rq_values.specs.Spelling.{list_bytes};
ghost use Rattle.rq_wire.specs.Spelling.{member_bytes, entry_bytes};
ghost use Rattle.rq_log.specs.OfWire.{fit};

use rq_wire::{Body, Entry, Member};

/// The bytes of a member's spelling, or 2^64 - 1 where there are more.
#[tactic(auto, using(crate::proofs::Lengths::member_is))]
fn member_len(member: &Member) -> u64
    ensures { result ≡ min (length (member_bytes member.now)) (2 ^ 64 - 1) }
{
    13_u64
        .saturating_add(member.id.bytes().len() as u64)
        .saturating_add(member.http.bytes().len() as u64)
        .saturating_add(member.raft.bytes().len() as u64)
}

/// The same of a configuration.
#[tactic(auto, using(crate::proofs::Lengths::config_end, crate::proofs::Lengths::config_more))]
fn config_len(members: &[Member]) -> u64
    ensures { result ≡ min (length (list_bytes member_bytes members.now)) (2 ^ 64 - 1) }
{
    let mut len = 4_u64;
    for member in members {
        len = len.saturating_add(member_len(member));
    }
    len
}

/// The same of an entry.
#[tactic(auto, using(crate::proofs::Lengths::plain_is, crate::proofs::Lengths::data_is, crate::proofs::Lengths::of_config))]
fn entry_len(entry: &Entry) -> u64
    ensures { result ≡ min (length (entry_bytes entry.now)) (2 ^ 64 - 1) }
{
    match &entry.body {
        Body::NoOp => 9,
        Body::Config(config) => config_len(config.members()).saturating_add(9),
        Body::Data(data) => 13_u64.saturating_add(data.bytes().len() as u64),
    }
}

/// At most 64 entries, with at most 1,048,576 bytes unless a single one has more.
#[tactic(auto, using(crate::proofs::Lengths::fits_on, crate::proofs::Lengths::full_is, crate::proofs::Lengths::stopped_is, crate::proofs::Lengths::all_fit))]
pub fn fitting(list: &[Entry]) -> usize
    ensures { result ≡ fit list.now }
{
    let mut room = 1_048_576_u64;
    for (k, entry) in list.iter().enumerate() {
        if k == 64 {
            return k;
        }
        let len = entry_len(entry);
        if len > room {
            return k.max(1);
        }
        room -= len;
    }
    list.len()
}
