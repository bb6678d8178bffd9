//! Reading packets.
ghost use Rattle.rq_values.specs.Place.{IsAnswer, answer_of};
ghost use Rattle.rq_values.specs.Reading.{Gives, NeedsNoMemory, made};
ghost use Rattle.rq_packets.specs.Reading.{two_at, format_at, packet_kind_at, append_at, append_say_at, message_at, packet_at};

use rq_log::{Message, Packet};
use rq_values::{
    Decode, DecodeError, Id, MAX_COMMAND, Seq, next_bool, next_id, next_kind, next_list, next_u8,
    next_u64,
};
use std::alloc::Global;

/// Two numbers.
#[tactic(auto, unfolding(crate::specs::Reading::two_at))]
fn next_two(bytes: &[u8]) -> Result<(u64, u64, &[u8]), DecodeError>
    ensures gives { Gives (λ x. ((x.0, x.1), x.2.now)) result (two_at bytes.now) }
    ensures sure { NeedsNoMemory result }
{
    let (first, rest) = next_u64(bytes)?;
    let (second, rest) = next_u64(rest)?;
    Ok((first, second, rest))
}

/// The byte of the format.
#[tactic(auto, unfolding(crate::specs::Reading::format_at))]
fn next_format(bytes: &[u8]) -> Result<(u8, &[u8]), DecodeError>
    ensures gives { Gives (λ x. (x.0, x.1.now)) result (format_at bytes.now) }
    ensures sure { NeedsNoMemory result }
{
    let (format, rest) = next_u8(bytes)?;
    if format == 1 {
        Ok((format, rest))
    } else {
        Err(DecodeError::Kind(bytes.len(), format))
    }
}

/// The byte of the kind, 1 to 4.
#[tactic(auto, unfolding(crate::specs::Reading::packet_kind_at))]
fn next_packet_kind(bytes: &[u8]) -> Result<(u8, &[u8]), DecodeError>
    ensures gives { Gives (λ x. (x.0, x.1.now)) result (packet_kind_at bytes.now) }
    ensures sure { NeedsNoMemory result }
{
    let (kind, rest) = next_kind(4, bytes)?;
    if kind > 0 {
        Ok((kind, rest))
    } else {
        Err(DecodeError::Kind(bytes.len(), kind))
    }
}

#[tactic(auto, unfolding(crate::specs::Reading::append_at))]
fn next_append<E: Decode + Drop>(
    alloc: Global,
    limit: u32,
    bytes: &[u8],
) -> Result<(Message<E>, &[u8]), DecodeError>
    ensures { Gives (λ x. (x.0, x.1.now)) result (append_at (E.reads limit) bytes.now) }
{
    let (prev, prev_term, rest) = next_two(bytes)?;
    let (commit, probe, rest) = next_two(rest)?;
    let (entries, rest) = next_list::<E>(alloc, limit, rest)?;
    let message = Message::Append {
        prev,
        prev_term,
        commit,
        probe,
        entries: Seq::from_vec(entries),
    };
    Ok((message, rest))
}

#[tactic(auto, unfolding(crate::specs::Reading::append_say_at))]
fn next_append_say<E: Drop>(bytes: &[u8]) -> Result<(Message<E>, &[u8]), DecodeError>
    ensures { Gives (λ x. (x.0, x.1.now)) result (append_say_at bytes.now) }
{
    let (ok, rest) = next_bool(bytes)?;
    let (at, probe, rest) = next_two(rest)?;
    Ok((Message::AppendSay { ok, at, probe }, rest))
}

/// The fields of a kind.
#[tactic(auto, unfolding(crate::specs::Reading::message_at))]
fn next_message<E: Decode + Drop>(
    alloc: Global,
    limit: u32,
    kind: u8,
    bytes: &[u8],
) -> Result<(Message<E>, &[u8]), DecodeError>
    ensures { Gives (λ x. (x.0, x.1.now)) result (message_at (E.reads limit) kind bytes.now) }
{
    match kind {
        1 => {
            let (last_index, last_term, rest) = next_two(bytes)?;
            let message = Message::VoteAsk {
                last_index,
                last_term,
            };
            Ok((message, rest))
        }
        2 => {
            let (granted, rest) = next_bool(bytes)?;
            Ok((Message::VoteSay { granted }, rest))
        }
        3 => next_append(alloc, limit, bytes),
        _ => next_append_say(bytes),
    }
}

/// The rest of a packet, behind its sender and its receiver.
fn next_rest<E: Decode + Drop>(
    alloc: Global,
    limit: u32,
    kind: u8,
    term: u64,
    from: Id,
    to: Id,
    bytes: &[u8],
) -> Result<(Packet<E>, &[u8]), DecodeError>
    ensures { Gives (λ x. (x.0, x.1.now)) result (made (message_at (E.reads limit) kind) (λ message. record { term = term; from = from; to = to; message = message }) bytes.now) }
{
    match next_message(alloc, limit, kind, bytes) {
        Err(error) => Err(error),
        Ok((message, rest)) => {
            let packet = Packet {
                term,
                from,
                to,
                message,
            };
            Ok((packet, rest))
        }
    }
}

/// The packet at the start of the bytes, and the bytes after it. Lengths are within `limit`; memory is taken for what was read,
/// never for a length or a count that is only claimed.
#[tactic(auto, unfolding(crate::specs::Reading::packet_at, crate::specs::Reading::header_at))]
pub fn next_packet<E: Decode + Drop>(
    alloc: Global,
    limit: u32,
    bytes: &[u8],
) -> Result<(Packet<E>, &[u8]), DecodeError>
    ensures { Gives (λ x. (x.0, x.1.now)) result (packet_at (E.reads limit) limit bytes.now) }
{
    let (_format, rest) = next_format(bytes)?;
    let (kind, rest) = next_packet_kind(rest)?;
    let (term, rest) = next_u64(rest)?;
    match next_id(limit, rest) {
        Err(error) => Err(error),
        Ok((from, rest)) => match next_id(limit, rest) {
            Err(error) => Err(error),
            Ok((to, rest)) => next_rest(alloc, limit, kind, term, from, to, rest),
        },
    }
}

/// The packet whose spelling is the whole input, or the first fault with its place.
#[tactic(auto, using(rq_values::proofs::Faults::whole_fault))]
pub fn decode_packet<E: Decode + Drop>(
    alloc: Global,
    bytes: &[u8],
) -> Result<Packet<E>, DecodeError>
    ensures { IsAnswer result (answer_of (packet_at (E.reads MAX_COMMAND) MAX_COMMAND) bytes.now) }
{
    match next_packet(alloc, MAX_COMMAND, bytes) {
        Err(error) => Err(error.placed(bytes.len())),
        Ok((packet, rest)) => {
            if rest.is_empty() {
                Ok(packet)
            } else {
                drop(packet);
                Err(DecodeError::Trailing(bytes.len().saturating_sub(rest.len())))
            }
        }
    }
}
