//! Reading members, configurations and entries.
ghost use Rattle.std.specs.Prelude.{◌≡◌};
ghost use Rattle.rq_values.specs.Reading.{Gives, last_of};
ghost use Rattle.rq_wire.specs.Reading.{id_after, member_rest, member_after, config_at, body_at, entry_at};
ghost use Rattle.rq_values.specs.Place.{IsAnswer, answer_of};

use crate::config::{Config, Member, is_after};
use crate::entry::{Body, Entry};
use rq_values::{
    Bytes, Decode, DecodeAfter, DecodeError, Id, MAX_COMMAND, Seq, decode_whole, next_addr,
    next_bool, next_id, next_kind, next_rising, next_u64,
};
use std::alloc::Global;

/// The id of the member behind those.
#[tactic(auto, unfolding(crate::specs::Reading::id_after))]
fn next_id_after<'a>(
    limit: u32,
    before: &[Member],
    bytes: &'a [u8],
) -> Result<(Id, &'a [u8]), DecodeError>
    ensures { Gives (λ x. (x.0, x.1.now)) result (id_after limit (last_of before.now) bytes.now) }
{
    match next_id(limit, bytes) {
        Err(error) => Err(error),
        Ok((id, rest)) => {
            if is_after(before, &id) {
                Ok((id, rest))
            } else {
                Err(DecodeError::Order(bytes.len()))
            }
        }
    }
}

/// The rest of the member with that id.
#[tactic(auto, unfolding(crate::specs::Reading::member_rest))]
fn next_member(
    alloc: Global,
    limit: u32,
    id: Id,
    bytes: &[u8],
) -> Result<(Member, &[u8]), DecodeError>
    ensures { Gives (λ x. (x.0, x.1.now)) result (member_rest limit id bytes.now) }
{
    let (voter, rest) = next_bool(bytes)?;
    let (http, rest) = next_addr(alloc, limit, rest)?;
    let (raft, rest) = next_addr(alloc, limit, rest)?;
    let member = Member {
        id,
        voter,
        http,
        raft,
    };
    Ok((member, rest))
}

impl DecodeAfter for Member {
    ghost reads_after = { member_after };

    #[tactic(auto, unfolding(crate::specs::Reading::member_after))]
    fn next_after<'a>(
        alloc: Global,
        limit: u32,
        before: &[Member],
        bytes: &'a [u8],
    ) -> Result<(Member, &'a [u8]), DecodeError> {
        match next_id_after(limit, before, bytes) {
            Err(error) => Err(error),
            Ok((id, rest)) => next_member(alloc, limit, id, rest),
        }
    }
}

impl Decode for Config {
    ghost reads = { config_at };

    #[tactic(auto, unfolding(crate::specs::Reading::config_at))]
    fn next(alloc: Global, limit: u32, bytes: &[u8]) -> Result<(Config, &[u8]), DecodeError> {
        let (members, rest) = next_rising::<Member>(alloc, limit, bytes)?;
        Ok((Config::rising(Seq::from_vec(members)), rest))
    }
}

impl Decode for Body {
    ghost reads = { body_at };

    #[tactic(auto, unfolding(crate::specs::Reading::body_at))]
    fn next(alloc: Global, limit: u32, bytes: &[u8]) -> Result<(Body, &[u8]), DecodeError> {
        let (kind, rest) = next_kind(2, bytes)?;
        match kind {
            0 => Ok((Body::NoOp, rest)),
            1 => {
                let (config, rest) = Config::next(alloc, limit, rest)?;
                Ok((Body::Config(config), rest))
            }
            _ => {
                let (command, rest) = Bytes::next(alloc, limit, rest)?;
                Ok((Body::Data(command), rest))
            }
        }
    }
}

impl Decode for Entry {
    ghost reads = { entry_at };

    #[tactic(auto, unfolding(crate::specs::Reading::entry_at))]
    fn next(alloc: Global, limit: u32, bytes: &[u8]) -> Result<(Entry, &[u8]), DecodeError> {
        let (term, rest) = next_u64(bytes)?;
        let (body, rest) = Body::next(alloc, limit, rest)?;
        Ok((Entry { term, body }, rest))
    }
}

/// The entry whose spelling is the whole input.
pub fn decode_entry(alloc: Global, bytes: &[u8]) -> Result<Entry, DecodeError>
    ensures { IsAnswer result (answer_of (entry_at MAX_COMMAND) bytes.now) }
{
    decode_whole(alloc, bytes, MAX_COMMAND)
}
