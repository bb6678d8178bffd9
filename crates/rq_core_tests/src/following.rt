//! A follower of term 1 gets appends of term 2.
use crate::kept::Kept;
use crate::net::id_of;
use rq_core::Core;
use rq_log::{Message, Moves, Packet, Saying};
use rq_values::Seq;
use rq_wire::{Body, Entry};
use std::alloc::Global;
use std::test::Fail;

/// Whether what stands before is there, the index, whether a vote is stored, and from where on entries are.
type Answer = (bool, u64, bool, Option<u64>);

fn entry(term: u64) -> Entry {
    Entry {
        term,
        body: Body::NoOp,
    }
}

fn answer(moves: &Moves) -> Option<Answer> {
    match moves.packets.as_slice() {
        [packet] => match packet.saying {
            Saying::AppendSay { ok, at, probe: _ } => Some((ok, at, moves.vote, moves.splice)),
            _ => None,
        },
        _ => None,
    }
}

/// An append of that term, with the index and the term of the entry before, and at most one entry.
fn append(
    alloc: Global,
    core: &mut Core<Entry>,
    term: u64,
    before: [u64; 2],
    has_entry: bool,
) -> Result<Option<Answer>, Fail> {
    let from = id_of(1).ok_or("no id")?;
    let mut entries = Seq::new(alloc);
    if has_entry {
        match entries.push(entry(term)) {
            Ok(()) => {}
            Err(error) => {
                drop(entries);
                return Err(error.into());
            }
        }
    }
    let moves = core.deliver(
        Packet {
            term,
            from,
            to: core.id(),
            message: Message::Append {
                prev: before[0],
                prev_term: before[1],
                commit: 1,
                probe: 1,
                entries,
            },
        },
        0,
    )?;
    let answer = answer(&moves);
    drop(moves);
    Ok(answer)
}

/// Its log has two entries of term 1, of which the first is committed.
fn started(alloc: Global) -> Result<Core<Entry>, Fail> {
    let mut kept = Kept {
        term: 1,
        vote: None,
        log: Vec::new(alloc),
    };
    let stored = kept.splice(alloc, 1, &[entry(1), entry(1)]);
    let core = match stored {
        Ok(()) => kept.started(alloc, 2, 3),
        Err(error) => Err(error.into()),
    };
    drop(kept);
    core
}

fn are_right(alloc: Global, core: &mut Core<Entry>) -> Result<bool, Fail> {
    let known = append(alloc, core, 1, [2, 1], false)?;
    if known != Some((true, 2, false, None)) || core.commit() != 1 {
        return Ok(false);
    }
    let lacks = append(alloc, core, 2, [2, 2], true)?;
    core.take_back();
    let has = append(alloc, core, 2, [1, 1], true)?;
    Ok(lacks == Some((false, 1, true, None)) && has == Some((true, 2, true, Some(2))))
}

/// Whether it lacks the entry before at index 2, and takes one entry behind index 1.
pub fn answers_are_right(alloc: Global) -> Result<bool, Fail> {
    let mut core = started(alloc)?;
    let are_right = are_right(alloc, &mut core);
    drop(core);
    are_right
}
