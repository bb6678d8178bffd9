//! What a core tells when it is asked: members and entries at an index, tables, votes, a leadership that is lost.
use crate::kept::Kept;
use crate::net::{id_of, voters};
use rq_core::Core;
use rq_log::{Message, Packet};
use rq_wire::{Body, Config, Entry};
use std::alloc::Global;
use std::test::Fail;

/// A packet of a node to the first one.
fn packet(node: usize, term: u64, message: Message<Entry>) -> Result<Packet<Entry>, Fail> {
    match (id_of(node), id_of(1)) {
        (Some(from), Some(to)) => Ok(Packet {
            term,
            from,
            to,
            message,
        }),
        _ => {
            drop(message);
            Err("no id".into())
        }
    }
}

fn ask(node: usize, term: u64, last: [u64; 2]) -> Result<Packet<Entry>, Fail> {
    let message = Message::VoteAsk {
        last_index: last[0],
        last_term: last[1],
    };
    packet(node, term, message)
}

fn come(core: &mut Core<Entry>, packet: Packet<Entry>) -> Result<(), Fail> {
    let moves = core.deliver(packet, 0)?;
    drop(moves);
    Ok(())
}

/// Whether the node grants a vote in that term to a log with that last index and term, and whether it has it then; it is given up.
fn grants(
    core: &mut Core<Entry>,
    node: usize,
    term: u64,
    last: [u64; 2],
) -> Result<[bool; 2], Fail> {
    let asked = ask(node, term, last)?;
    let grants = core.grants(&asked);
    come(core, asked)?;
    let has = core.term() == term && core.vote() == id_of(node);
    core.take_back();
    Ok([grants, has])
}

fn stored(alloc: Global, kept: &mut Kept, config: Config) -> Result<(), Fail> {
    let entry = |body| Entry { term: 1, body };
    let entries = [
        entry(Body::NoOp),
        entry(Body::Config(config)),
        entry(Body::NoOp),
    ];
    let done = kept.splice(alloc, 1, &entries);
    drop(entries);
    done?;
    Ok(())
}

/// The first of three, in term 1. The entry at index 2 of three makes the first two nodes the members.
fn started(alloc: Global) -> Result<Core<Entry>, Fail> {
    let config = voters(alloc, 2)?;
    let mut kept = Kept {
        term: 1,
        vote: None,
        log: Vec::new(alloc),
    };
    let core = match stored(alloc, &mut kept, config) {
        Ok(()) => kept.started(alloc, 1, 3),
        Err(error) => Err(error),
    };
    drop(kept);
    core
}

/// How many members there are at an index, and the term of the entry there.
fn at(core: &Core<Entry>, index: u64) -> [u64; 2] {
    let term = match core.entry(index) {
        Some(entry) => entry.term,
        None => 0,
    };
    [core.members_at(index).len() as u64, term]
}

/// Its next index, what is matched and acknowledged, of the table of a node.
fn table(core: &Core<Entry>, node: usize) -> Option<[u64; 3]> {
    match id_of(node) {
        Some(id) => match core.peer(id) {
            Some(peer) => Some([peer.next, peer.matched, peer.acked]),
            None => None,
        },
        None => None,
    }
}

/// Whether what the core tells is right before an election, as a leader, and after it lost that.
fn is_right(core: &mut Core<Entry>) -> Result<bool, Fail> {
    let at = [
        at(core, 0),
        at(core, 1),
        at(core, 2),
        at(core, 3),
        at(core, 9),
    ];
    if at != [[3, 0], [3, 1], [2, 1], [2, 1], [2, 0]] || core.base() != 0 {
        return Ok(false);
    }
    drop(core.elect()?);
    let stood = core.votes().len() == 1 && core.lost_term() == None;
    come(core, packet(2, 2, Message::VoteSay { granted: true })?)?;
    let leads = core.leads() && core.votes().len() == 2 && core.lost_term() == None;
    let tables = [table(core, 2), table(core, 3)];
    let same_term = grants(core, 3, 2, [9, 9])?;
    let older = grants(core, 3, 3, [3, 1])?;
    let newer = grants(core, 3, 3, [4, 2])?;
    come(core, ask(3, 3, [3, 1])?)?;
    Ok(
        stood
            && leads
            && tables == [Some([4, 0, 0]), None]
            && [same_term, older, newer] == [[false, false], [false, false], [true, true]]
            && core.lost_term() == Some(2),
    )
}

/// Whether what a core tells is right.
pub fn lookups_are_right(alloc: Global) -> Result<bool, Fail> {
    let mut core = started(alloc)?;
    let is_right = is_right(&mut core);
    drop(core);
    is_right
}
