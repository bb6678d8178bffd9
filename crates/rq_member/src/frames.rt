//! What a call of the consensus core stores, as frames.
ghost use Rattle.std.specs.Prelude.{◌≡◌, ◌<◌, ◌≤◌, ◌+◌, ◌-◌, ◌^◌, ◌∷◌, [], true, if◌then◌else◌, List, drop, length, map, IfOk};
ghost use Rattle.rq_values.specs.Exact.{AreProper, IsNoneOr};
ghost use Rattle.rq_values.specs.Text.{is_id};
ghost use Rattle.rq_wire.specs.declared.config.Member.{Member as TheMember};
ghost use Rattle.rq_wire.specs.declared.frame.Frame.TheVariants.{Vote, Splice};
ghost use Rattle.rq_wire.specs.Exact.{IsEntry};
ghost use Rattle.rq_wal.specs.declared.base.Stored.{Stored as TheStored};
ghost use Rattle.rq_wal.specs.Reading.{text_limit};
ghost use Rattle.rq_wal.specs.Rules.{IsAllowed, AreAllowed};
ghost use Rattle.rq_wal.specs.Spelling.{payload_bytes};
ghost use Rattle.rq_raft.specs.Node.{Persistent, all_stored};
ghost use Rattle.rq_log.specs.Views.{is_moved};
ghost use Rattle.rq_world.specs.declared.log_entry.LogEntry.{LogEntry as TheLogEntry};
ghost use Rattle.rq_member.specs.Files.{stored_entry, stored_of, frame_of, AreReadable};
ghost use Rattle.rq_member.specs.Keeping.{IsKeeping, moved};

use crate::entry::{LogEntry, spelled_entry};
use rq_core::Core;
use rq_log::Moves;
use rq_values::{Id, NoMemory, Seq};
use rq_wal::Frame;
use rq_wire::Entry;
use std::alloc::Global;

/// No call of the core stores so many entries: a packet has at most 64.
const MOST_ENTRIES: usize = 512;

/// The entries, as a log file has them.
fn stored_entries(alloc: Global, entries: &[LogEntry]) -> Result<Seq<Entry>, NoMemory>
    ensures stored { IfOk result (λ stored. stored ≡ map stored_entry entries.now) }
    ensures sound { IfOk result (λ stored. AreReadable entries.now → AreProper (IsEntry text_limit) stored) }
{
    let mut stored = Vec::new(alloc);
    for place in 0..entries.len() {
        stored.push(spelled_entry(alloc, &entries[place])?)?;
    }
    Ok(Seq::from_vec(stored))
}

/// The frame of the core's log from an index on.
fn splice_frame(alloc: Global, core: &Core<LogEntry>, from: u64) -> Result<Frame, NoMemory>
    ensures frame { IfOk result (λ frame. frame ≡ Splice from (map stored_entry (drop (from - 1) core.now.node.log))) }
    ensures allowed { IfOk result (λ frame. (stored : TheStored) → stored.base.index ≡ 0 → 0 < from → from ≤ length stored.entries + 1 → 0 < length (drop (from - 1) core.now.node.log) → AreReadable (drop (from - 1) core.now.node.log) → IsAllowed stored frame × (length (payload_bytes frame) < 2 ^ 32)) }
{
    let entries = core.entries_from(from);
    if entries.len() >= MOST_ENTRIES {
        return Err(NoMemory);
    }
    let entries = stored_entries(alloc, entries)?;
    Ok(splice_of(from, entries))
}

fn splice_of(from: u64, entries: Seq<Entry>) -> Frame
    ensures frame { result ≡ Splice from entries }
    ensures fits { from < 2 ^ 64 }
{
    Frame::Splice { from, entries }
}

/// A vote is for an id.
fn know_vote(vote: &Option<Id>)
    ensures { IsNoneOr (λ id. is_id id ≡ true) vote.now }
{
    match vote {
        Some(id) => {
            let _name = id.bytes();
        }
        None => {}
    }
}

/// The frame of the core's term and vote.
fn vote_frame(core: &Core<LogEntry>) -> Frame
    ensures frame { result ≡ Vote core.now.node.term core.now.node.vote }
    ensures allowed { (stored : TheStored) → IsAllowed stored result × (length (payload_bytes result) < 2 ^ 32) }
{
    let vote = core.vote();
    know_vote(&vote);
    vote_of(core.term(), vote)
}

fn vote_of(term: u64, vote: Option<Id>) -> Frame
    ensures frame { result ≡ Vote term vote }
    ensures fits { term < 2 ^ 64 }
{
    Frame::Vote { term, vote }
}

/// The frame of the core's term and vote, if they changed.
fn vote_frames(alloc: Global, core: &Core<LogEntry>, vote: bool) -> Result<Vec<Frame>, NoMemory>
    ensures frames { IfOk result (λ frames. frames.items ≡ (if vote then Vote core.now.node.term core.now.node.vote ∷ [] else [])) }
    ensures allowed { IfOk result (λ frames. (stored : TheStored) → AreAllowed stored frames.items) }
{
    let mut frames = Vec::new(alloc);
    if !vote {
        return Ok(frames);
    }
    frames.push(vote_frame(core))?;
    Ok(frames)
}

/// The frames of what the core's last call left, in order.
pub(crate) fn frames_of(
    alloc: Global,
    core: &Core<LogEntry>,
    moves: &Moves,
) -> Result<Vec<Frame>, NoMemory>
    requires vote { moves.now.vote ≡ is_moved core.now.before core.now.node }
    ensures frames { IfOk result (λ frames. frames.items ≡ map frame_of (all_stored core.now.before (moved core.now.node moves.now))) }
    ensures allowed { IfOk result (λ frames. (first : List TheMember) (kept : Persistent TheLogEntry) → kept.log ≡ core.now.before.log → IsKeeping core.now.before (moved core.now.node moves.now) → AreAllowed (stored_of first kept) frames.items) }
{
    let mut frames = vote_frames(alloc, core, moves.vote)?;
    match moves.splice {
        None => Ok(frames),
        Some(from) => match splice_frame(alloc, core, from) {
            Ok(frame) => {
                frames.push(frame)?;
                Ok(frames)
            }
            Err(error) => {
                drop(frames);
                Err(error)
            }
        },
    }
}
