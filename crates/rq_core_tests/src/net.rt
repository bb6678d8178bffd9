//! Nodes and the packets between them. A packet is spelled when it is sent, and read when it comes in.
use crate::kept::Kept;
use crate::line::{Line, What};
use rq_core::Core;
use rq_log::{Moves, Outgoing, Saying};
use rq_packets::{decode_packet, encode_outgoing};
use rq_values::{Bytes, DecodeError, Id, MAX_COMMAND, decode_whole};
use rq_wire::{Body, Config, Entry};
use std::alloc::Global;
use std::test::Fail;

const NAMES: [&[u8]; 5] = [b"n1", b"n2", b"n3", b"n4", b"n5"];

/// The id of a node; nodes are counted from 1.
pub fn id_of(node: usize) -> Option<Id> {
    match NAMES.get(node.saturating_sub(1)) {
        Some(name) => Id::new(name),
        None => None,
    }
}

/// The node with that id, or 0.
fn node_of(id: Id) -> usize {
    let mut node = 0_usize;
    for name in &NAMES {
        node = node.saturating_add(1);
        if id.bytes() == *name {
            return node;
        }
    }
    0
}

/// The spellings of the first two, three and five nodes, all of them voters.
const TWO: &[u8] =
    b"\x02\0\0\0\x02\0\0\0n1\x01\x06\0\0\0n:4001\x06\0\0\0n:4002\x02\0\0\0n2\x01\x06\0\0\0n:4001\x06\0\0\0n:4002";

const THREE: &[u8] =
    b"\x03\0\0\0\x02\0\0\0n1\x01\x06\0\0\0n:4001\x06\0\0\0n:4002\x02\0\0\0n2\x01\x06\0\0\0n:4001\x06\0\0\0n:4002\x02\0\0\0n3\x01\x06\0\0\0n:4001\x06\0\0\0n:4002";

const FIVE: &[u8] =
    b"\x05\0\0\0\x02\0\0\0n1\x01\x06\0\0\0n:4001\x06\0\0\0n:4002\x02\0\0\0n2\x01\x06\0\0\0n:4001\x06\0\0\0n:4002\x02\0\0\0n3\x01\x06\0\0\0n:4001\x06\0\0\0n:4002\x02\0\0\0n4\x01\x06\0\0\0n:4001\x06\0\0\0n:4002\x02\0\0\0n5\x01\x06\0\0\0n:4001\x06\0\0\0n:4002";

/// The first two, three or five nodes, all of them voters.
pub fn voters(alloc: Global, count: usize) -> Result<Config, DecodeError> {
    let bytes = match count {
        2 => TWO,
        3 => THREE,
        _ => FIVE,
    };
    decode_whole::<Config>(alloc, bytes, MAX_COMMAND)
}

/// What is sent, as a line.
fn line_of(packet: &Outgoing) -> Line {
    let to = node_of(packet.to);
    match packet.saying {
        Saying::VoteAsk {
            last_index,
            last_term,
        } => (What::Asks, to, [last_index, last_term, 0, 0]),
        Saying::VoteSay { granted } => {
            let what = if granted { What::Grants } else { What::Refuses };
            (what, to, [0; 4])
        }
        Saying::Append {
            prev,
            prev_term,
            commit,
            probe: _,
            count,
        } => (What::Sends, to, [prev, prev_term, commit, count as u64]),
        Saying::AppendSay { ok, at, probe: _ } => {
            let what = if ok { What::Has } else { What::Lacks };
            (what, to, [at, 0, 0, 0])
        }
    }
}

/// The entries of a packet, lent by its sender.
fn entries_of<'a>(core: &'a Core<Entry>, packet: &Outgoing) -> &'a [Entry] {
    match packet.saying {
        Saying::Append {
            prev,
            prev_term: _,
            commit: _,
            probe: _,
            count,
        } => core.entries_of(prev, count),
        _ => core.entries_of(0, 0),
    }
}

/// Nodes and what they have stored, every packet that was sent, and what came of the last events.
pub struct Net {
    pub cores: Vec<Core<Entry>>,
    kept: Vec<Kept>,
    /// In its next event a node stops, behind so many of the things that it stores, and starts again.
    pub stop: Option<usize>,
    pub packets: Vec<Vec<u8>>,
    pub seen: Vec<Line>,
}

impl Drop for Net {
    fn drop(self) {
        let Net {
            cores,
            kept,
            stop: _,
            packets,
            seen,
        } = self;
        drop(cores);
        drop(kept);
        drop(packets);
        drop(seen);
    }
}

impl Net {
    /// So many nodes, in that term, with empty logs.
    pub fn new(alloc: Global, count: usize, term: u64) -> Result<Net, Fail> {
        let mut net = Net {
            cores: Vec::new(alloc),
            kept: Vec::new(alloc),
            stop: None,
            packets: Vec::new(alloc),
            seen: Vec::new(alloc),
        };
        match net.add(alloc, count, term) {
            Ok(()) => Ok(net),
            Err(error) => {
                drop(net);
                Err(error)
            }
        }
    }

    fn add(&mut self, alloc: Global, count: usize, term: u64) -> Result<(), Fail> {
        for node in 0..count {
            let kept = Kept {
                term,
                vote: None,
                log: Vec::new(alloc),
            };
            self.kept.push(kept)?;
            let core = self.started(alloc, node.saturating_add(1), count)?;
            self.cores.push(core)?;
        }
        Ok(())
    }

    /// One of so many nodes, with what it has stored.
    fn started(&self, alloc: Global, node: usize, count: usize) -> Result<Core<Entry>, Fail> {
        let kept = self.kept.get(node.saturating_sub(1)).ok_or("no node")?;
        kept.started(alloc, node, count)
    }

    /// The node starts with what it has stored.
    fn start(&mut self, alloc: Global, node: usize) -> Result<(), Fail> {
        let core = self.started(alloc, node, self.cores.len())?;
        match self.cores.get_mut(node.saturating_sub(1)) {
            Some(place) => {
                drop(std::mem::replace(place, core));
                Ok(())
            }
            None => {
                drop(core);
                Err("no node".into())
            }
        }
    }

    /// What a node leaves is stored, at most so many things of it.
    fn store(
        &mut self,
        alloc: Global,
        node: usize,
        moves: &Moves,
        most: usize,
    ) -> Result<(), Fail> {
        let core = self.cores.get(node.saturating_sub(1)).ok_or("no node")?;
        let kept = self.kept.get_mut(node.saturating_sub(1)).ok_or("no node")?;
        let mut left = most;
        if moves.vote && left > 0 {
            kept.term = core.term();
            kept.vote = core.vote();
            left -= 1;
        }
        match moves.splice {
            Some(from) => {
                if left > 0 {
                    kept.splice(alloc, from, core.entries_from(from))?;
                }
            }
            None => {}
        }
        Ok(())
    }

    /// What a node leaves is stored and then sent, if it doesn't stop meanwhile.
    fn took(&mut self, alloc: Global, node: usize, moves: &Moves) -> Result<(), Fail> {
        match self.stop {
            Some(most) => {
                self.stop = None;
                self.store(alloc, node, moves, most)?;
                self.start(alloc, node)
            }
            None => {
                self.store(alloc, node, moves, 2)?;
                self.send(alloc, node, moves)
            }
        }
    }

    fn send(&mut self, alloc: Global, node: usize, moves: &Moves) -> Result<(), Fail> {
        let core = self.cores.get(node.saturating_sub(1)).ok_or("no node")?;
        if moves.vote {
            self.seen.push((What::Votes, 0, [0; 4]))?;
        }
        if let Some(from) = moves.splice {
            let count = core.entries_from(from).len();
            self.seen
                .push((What::Stores, 0, [from, count as u64, 0, 0]))?;
        }
        for packet in moves.packets.as_slice() {
            let mut bytes = Vec::new(alloc);
            match encode_outgoing(packet, entries_of(core, packet), &mut bytes) {
                Ok(()) => {}
                Err(error) => {
                    drop(bytes);
                    return Err(error.into());
                }
            }
            self.packets.push(bytes)?;
            self.seen.push(line_of(packet))?;
        }
        Ok(())
    }

    /// The packet of that number comes in, again if it came before. Answers the node to which it is.
    pub fn deliver(&mut self, alloc: Global, number: usize) -> Result<usize, Fail> {
        let bytes = self
            .packets
            .get(number.saturating_sub(1))
            .ok_or("no packet")?;
        let packet = decode_packet::<Entry>(alloc, bytes)?;
        let node = node_of(packet.to);
        let moves = match self.cores.get_mut(node.saturating_sub(1)) {
            Some(core) => core.deliver(packet, 0)?,
            None => {
                drop(packet);
                return Err("no node".into());
            }
        };
        let took = self.took(alloc, node, &moves);
        drop(moves);
        took?;
        Ok(node)
    }

    pub fn elect(&mut self, alloc: Global, node: usize) -> Result<(), Fail> {
        let core = self.cores.get_mut(node.saturating_sub(1)).ok_or("no node")?;
        let moves = core.elect()?;
        let took = self.took(alloc, node, &moves);
        drop(moves);
        took
    }

    pub fn beat(&mut self, alloc: Global, node: usize) -> Result<(), Fail> {
        let core = self.cores.get_mut(node.saturating_sub(1)).ok_or("no node")?;
        let moves = core.beat()?;
        let took = self.took(alloc, node, &moves);
        drop(moves);
        took
    }

    /// An entry with that number as its command.
    pub fn propose(&mut self, alloc: Global, node: usize, number: u64) -> Result<(), Fail> {
        let core = self.cores.get_mut(node.saturating_sub(1)).ok_or("no node")?;
        let data = Bytes::new(alloc, &number.to_le_bytes())?;
        let moves = core.propose(Entry {
            term: core.last_term(),
            body: Body::Data(data),
        })?;
        let took = self.took(alloc, node, &moves);
        drop(moves);
        took
    }

    /// How a node stands: whether it leads, its last index, the term there, its commit index.
    pub fn stands(&self, node: usize) -> Option<[u64; 4]> {
        match self.cores.get(node.saturating_sub(1)) {
            Some(core) => Some([
                u64::from(core.leads()),
                core.last(),
                core.last_term(),
                core.commit(),
            ]),
            None => None,
        }
    }
}
