//! Reading a log file: docs/FORMATS.md, "The file pair".
ghost use Rattle.std.specs.Prelude.{◌≡◌, ◌≤◌, ◌+◌, ◌∷◌, ◌++◌, [], length, IfOk, IfErr, OnOk};
ghost use Rattle.rq_values.specs.declared.error.DecodeError.TheVariants as errors;
ghost use Rattle.rq_values.specs.Reading.{Gives, checked, u8_at, u32_at, u64_at};
ghost use Rattle.rq_wal.specs.Spelling.{base_bytes};
ghost use Rattle.rq_wal.specs.Stored.{started, applied};
ghost use Rattle.rq_wal.specs.Reading.{breaks, is_small, is_next, is_some, is_kind, some_entries_at, vote_at, splice_at, boot_at, payload_at, frame_at, frames_at, spelled_at, base_at, log_at};

use crate::base::{Base, Stored, start};
use rq_values::{
    DecodeError, Id, MAX_COMMAND, NoMemory, Seq, TryCopy, next_many, next_option, next_u8,
    next_u32, next_u64,
};
use rq_wire::{Entry, Frame};
use std::alloc::Global;

/// How many entries there are: at least one.
fn next_count(bytes: &[u8]) -> Result<(u32, &[u8]), DecodeError>
    ensures { Gives (λ x. (x.0, x.1.now)) result (checked u32_at is_some breaks bytes.now) }
{
    let (count, rest) = next_u32(bytes)?;
    if count == 0 {
        return Err(DecodeError::Rule(bytes.len()));
    }
    Ok((count, rest))
}

/// At least one entry.
#[tactic(auto, unfolding(crate::specs::Reading::some_entries_at))]
fn next_entries(alloc: Global, bytes: &[u8]) -> Result<(Vec<Entry>, &[u8]), DecodeError>
    ensures { Gives (λ x. (x.0.items, x.1.now)) result (some_entries_at bytes.now) }
{
    let (count, rest) = next_count(bytes)?;
    next_many::<Entry>(alloc, MAX_COMMAND, count, rest)
}

/// Where a Splice begins: above the base, and at most one past the last entry.
fn next_from<'a>(stored: &Stored, bytes: &'a [u8]) -> Result<(u64, &'a [u8]), DecodeError>
    ensures { Gives (λ x. (x.0, x.1.now)) result (checked u64_at (is_next stored.now) breaks bytes.now) }
{
    let (from, rest) = next_u64(bytes)?;
    let index = stored.base.index;
    let count = stored.entries.len() as u64;
    if from > index && from - index - 1 <= count {
        return Ok((from, rest));
    }
    Err(DecodeError::Rule(bytes.len()))
}

#[tactic(auto, unfolding(crate::specs::Reading::vote_at))]
fn next_vote(alloc: Global, bytes: &[u8]) -> Result<(Frame, &[u8]), DecodeError>
    ensures { Gives (λ x. (x.0, x.1.now)) result (vote_at bytes.now) }
{
    let (term, rest) = next_u64(bytes)?;
    match next_option::<Id>(alloc, MAX_COMMAND, rest) {
        Err(error) => Err(error),
        Ok((vote, rest)) => Ok((Frame::Vote { term, vote }, rest)),
    }
}

#[tactic(auto, unfolding(crate::specs::Reading::splice_at))]
fn next_splice<'a>(
    alloc: Global,
    stored: &Stored,
    bytes: &'a [u8],
) -> Result<(Frame, &'a [u8]), DecodeError>
    ensures { Gives (λ x. (x.0, x.1.now)) result (splice_at stored.now bytes.now) }
{
    let (from, rest) = next_from(stored, bytes)?;
    let (entries, rest) = next_entries(alloc, rest)?;
    let entries = Seq::from_vec(entries);
    Ok((Frame::Splice { from, entries }, rest))
}

#[tactic(auto, unfolding(crate::specs::Reading::boot_at))]
fn next_boot(bytes: &[u8]) -> Result<(Frame, &[u8]), DecodeError>
    ensures { Gives (λ x. (x.0, x.1.now)) result (boot_at bytes.now) }
{
    let (boot, rest) = next_u64(bytes)?;
    if boot >= 1 << 63 {
        return Err(DecodeError::Rule(bytes.len()));
    }
    Ok((Frame::Boot { boot }, rest))
}

/// What a frame of this kind says.
#[tactic(auto, unfolding(crate::specs::Reading::payload_at))]
fn next_payload<'a>(
    alloc: Global,
    stored: &Stored,
    kind: u8,
    bytes: &'a [u8],
) -> Result<(Frame, &'a [u8]), DecodeError>
    ensures { Gives (λ x. (x.0, x.1.now)) result (payload_at stored.now kind bytes.now) }
{
    match kind {
        1 => next_vote(alloc, bytes),
        2 => next_splice(alloc, stored, bytes),
        _ => next_boot(bytes),
    }
}

/// Which frame comes.
fn next_frame_kind(bytes: &[u8]) -> Result<(u8, &[u8]), DecodeError>
    ensures gives { Gives (λ x. (x.0, x.1.now)) result (checked u8_at is_kind errors.Kind bytes.now) }
{
    let (kind, rest) = next_u8(bytes)?;
    if kind == 0 || kind > 3 {
        return Err(DecodeError::Kind(bytes.len(), kind));
    }
    Ok((kind, rest))
}

/// A frame, behind what is stored so far.
#[tactic(auto, unfolding(crate::specs::Reading::frame_at, rq_values::specs::Reading::sized_at))]
fn next_frame<'a>(
    alloc: Global,
    stored: &Stored,
    bytes: &'a [u8],
) -> Result<(Frame, &'a [u8]), DecodeError>
    ensures { Gives (λ x. (x.0, x.1.now)) result (frame_at stored.now bytes.now) }
{
    let (kind, sized) = next_frame_kind(bytes)?;
    let (len, payload) = next_u32(sized)?;
    let (frame, rest) = next_payload(alloc, stored, kind, payload)?;
    if payload.len() as u64 == len as u64 + rest.len() as u64 {
        return Ok((frame, rest));
    }
    Err(DecodeError::Rule(sized.len()))
}

/// Adds the items of one list to another.
fn append(more: Vec<Entry>, entries: &mut Vec<Entry>) -> Result<(), NoMemory>
    ensures { OnOk result (entries.new.items ≡ entries.old.items ++ more.items) }
{
    for entry in more {
        entries.push(entry)?;
    }
    Ok(())
}

/// What is stored after one frame more.
fn apply(alloc: Global, stored: Stored, frame: Frame) -> Result<Stored, NoMemory>
    ensures { IfOk result (λ after. after ≡ applied stored frame) }
{
    let mut stored = stored;
    let mut frame = frame;
    match &mut frame {
        Frame::Vote { term, vote } => {
            stored.term = *term;
            stored.vote = *vote;
        }
        Frame::Splice { from, entries } => {
            let kept = from.saturating_sub(stored.base.index).saturating_sub(1);
            let more = std::mem::replace(entries, Seq::new(alloc));
            let mut all = stored.entries.into_vec();
            all.truncate(kept as usize);
            append(more.into_vec(), &mut all)?;
            stored.entries = Seq::from_vec(all);
        }
        Frame::Boot { boot } => stored.boot = *boot,
    }
    Ok(stored)
}

/// A gate, and what stands behind it.
fn next_gate(bytes: &[u8]) -> Result<(u8, &[u8]), DecodeError>
    ensures found { IfOk result (λ x. bytes.now ≡ x.0 ∷ x.1.now) }
    ensures none { IfErr result (λ e. (e ≡ errors.Short 0) × (bytes.now ≡ [])) }
{
    match bytes {
        [] => Err(DecodeError::Short(0)),
        [gate, rest @ ..] => Ok((*gate, rest)),
    }
}

/// Frames behind open gates, up to a closed gate: what is stored then, and the bytes from that gate on.
fn next_frames(alloc: Global, first: Stored, bytes: &[u8]) -> Result<(Stored, &[u8]), DecodeError>
    ensures { Gives (λ x. (x.0, x.1.now)) result (frames_at (length bytes.now + 1) first bytes.now) }
{
    let mut stored = first;
    let mut rest = bytes;
    'frames: loop {
        let (gate, behind) = next_gate(rest)?;
        if gate != 1 {
            return Ok((stored, rest));
        }
        let (frame, after) = next_frame(alloc, &stored, behind)?;
        stored = apply(alloc, stored, frame)?;
        rest = after;
    }
}

/// Just these bytes.
fn next_spelled<'a>(text: &[u8], bytes: &'a [u8]) -> Result<&'a [u8], DecodeError>
    ensures gives { (thing : Base) → Gives (λ rest. (thing, rest.now)) result (spelled_at thing text.now bytes.now) }
    ensures len { IfOk result (λ rest. length bytes.now ≡ length text.now + length rest.now) }
{
    let mut rest = bytes;
    for at in 0..text.len() {
        let (found, after) = next_u8(rest)?;
        if found != text[at] {
            return Err(DecodeError::Rule(rest.len()));
        }
        rest = after;
    }
    Ok(rest)
}

/// The first base, spelled like this, with its length. The bytes after it.
#[tactic(auto, unfolding(crate::specs::Reading::base_at, rq_values::specs::Reading::sized_at))]
fn next_base<'a>(spelled: &[u8], bytes: &'a [u8]) -> Result<&'a [u8], DecodeError>
    ensures { (first : Base) → spelled.now ≡ base_bytes first → Gives (λ rest. (first, rest.now)) result (base_at first bytes.now) }
{
    let (len, base) = next_u64(bytes)?;
    let rest = next_spelled(spelled, base)?;
    if base.len() as u128 == len as u128 + rest.len() as u128 {
        return Ok(rest);
    }
    Err(DecodeError::Rule(bytes.len()))
}

/// A file from its base's length on, with a first base that is spelled like this: what is stored, and the bytes from the
/// closed gate on.
#[tactic(auto, unfolding(crate::specs::Reading::log_at))]
pub fn next_log<'a>(
    alloc: Global,
    first: &Base,
    spelled: &[u8],
    bytes: &'a [u8],
) -> Result<(Stored, &'a [u8]), DecodeError>
    requires { spelled.now ≡ base_bytes first.now }
    ensures { Gives (λ x. (x.0, x.1.now)) result (log_at first.now bytes.now) }
{
    let rest = next_base(spelled, bytes)?;
    let first = first.copy(alloc)?;
    next_frames(alloc, start(alloc, first), rest)
}
