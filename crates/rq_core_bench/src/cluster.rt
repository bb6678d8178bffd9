//! Three nodes in memory.
use rq_core::Core;
use rq_log::{LogEntry, Moves, Outgoing, Saying};
use rq_packets::{decode_packet, encode_outgoing};
use rq_values::{Bytes, Id, MAX_COMMAND, decode_whole};
use rq_wire::{Body, Config, Entry};
use std::alloc::Global;

/// The nodes, and the bytes of the packets that are on their way.
pub struct Cluster {
    cores: Vec<Core<Entry>>,
    packets: Vec<Vec<u8>>,
}

impl Drop for Cluster {
    fn drop(self) {
        let Cluster { cores, packets } = self;
        drop(cores);
        drop(packets);
    }
}

fn id_of(node: usize) -> Option<Id> {
    match node {
        0 => Id::new(b"n1"),
        1 => Id::new(b"n2"),
        _ => Id::new(b"n3"),
    }
}

fn node_of(id: Id) -> usize {
    match id.bytes() {
        b"n1" => 0,
        b"n2" => 1,
        _ => 2,
    }
}

/// The spelling of three voters.
const VOTERS: &[u8] =
    b"\x03\0\0\0\x02\0\0\0n1\x01\x06\0\0\0n:4001\x06\0\0\0n:4002\x02\0\0\0n2\x01\x06\0\0\0n:4001\x06\0\0\0n:4002\x02\0\0\0n3\x01\x06\0\0\0n:4001\x06\0\0\0n:4002";

fn voters(alloc: Global) -> Option<Config> {
    decode_whole::<Config>(alloc, VOTERS, MAX_COMMAND).ok()
}

impl Cluster {
    /// The leader's last index and commit index, and the commit index of a follower, after so many proposals.
    pub fn run(alloc: Global, count: u64) -> Option<[u64; 3]> {
        let mut cluster = Cluster {
            cores: Vec::new(alloc),
            packets: Vec::new(alloc),
        };
        let outcome = cluster.played(alloc, count);
        drop(cluster);
        outcome
    }

    fn played(&mut self, alloc: Global, count: u64) -> Option<[u64; 3]> {
        for node in 0..3 {
            self.cores
                .push(Core::new(id_of(node)?, voters(alloc)?, 0, None, Vec::new(alloc)))
                .ok()?;
        }
        self.elect(alloc)?;
        for number in 0..count {
            self.propose(alloc, number)?;
        }
        let leader = self.cores.get(0)?;
        let second = self.cores.get(1)?;
        Some([leader.last(), leader.commit(), second.commit()])
    }

    fn elect(&mut self, alloc: Global) -> Option<()> {
        let moves = self.cores.get_mut(0)?.elect().ok()?;
        self.took(alloc, 0, moves)?;
        self.deliver_all(alloc)
    }

    /// A command of eight bytes.
    fn propose(&mut self, alloc: Global, number: u64) -> Option<()> {
        let data = Bytes::new(alloc, &number.to_le_bytes()).ok()?;
        let entry = Entry {
            term: 1,
            body: Body::Data(data),
        };
        let moves = match self.cores.get_mut(0) {
            Some(leader) => leader.propose(entry).ok()?,
            None => {
                drop(entry);
                return None;
            }
        };
        self.took(alloc, 0, moves)?;
        self.deliver_all(alloc)
    }

    /// What a node leaves is sent.
    fn took(&mut self, alloc: Global, node: usize, moves: Moves) -> Option<()> {
        let outcome = self.send(alloc, node, &moves);
        drop(moves);
        outcome
    }

    fn send(&mut self, alloc: Global, node: usize, moves: &Moves) -> Option<()> {
        let core = self.cores.get(node)?;
        for packet in moves.packets.as_slice() {
            let mut bytes = Vec::new(alloc);
            match encode_outgoing(packet, entries_of(core, packet), &mut bytes) {
                Ok(()) => self.packets.push(bytes).ok()?,
                Err(_) => {
                    drop(bytes);
                    return None;
                }
            }
        }
        Some(())
    }

    /// Packets are delivered until none is on its way.
    fn deliver_all(&mut self, alloc: Global) -> Option<()> {
        for _ in 0..u64::MAX {
            match self.packets.pop() {
                Some(bytes) => {
                    let outcome = self.deliver(alloc, &bytes);
                    drop(bytes);
                    outcome?;
                }
                None => break,
            }
        }
        Some(())
    }

    fn deliver(&mut self, alloc: Global, bytes: &[u8]) -> Option<()> {
        let packet = decode_packet::<Entry>(alloc, bytes).ok()?;
        let node = node_of(packet.to);
        let moves = match self.cores.get_mut(node) {
            Some(core) => core.deliver(packet, 0).ok()?,
            None => {
                drop(packet);
                return None;
            }
        };
        self.took(alloc, node, moves)
    }
}

/// The entries of a packet, lent by its sender.
fn entries_of<'a>(core: &'a Core<Entry>, packet: &Outgoing) -> &'a [Entry] {
    match packet.saying {
        Saying::Append {
            prev,
            prev_term: _,
            commit: _,
            probe: _,
            count,
        } => core.entries_of(prev, count),
        _ => core.entries_of(0, 0),
    }
}
