//! A random walk of five nodes: elections, beats, proposals, packets that are lost, repeated and late, and stops behind any of the things
//! that an event stores. After each step the laws of docs/RAFT.md are looked at: one leader a term, logs match, what is committed stays, and a later leader has it.
use crate::net::Net;
use rq_core::Core;
use rq_values::TryCopy;
use rq_wire::Entry;
use std::alloc::Global;
use std::test::Fail;

const STEPS: usize = 3_000;

/// Numbers that look random, the same in each run. Source: Marsaglia, "Xorshift RNGs", 2003.
#[derive(Drop)]
struct Numbers {
    state: u64,
}

impl Numbers {
    /// A number below that one, or 0.
    fn below(&mut self, end: usize) -> usize {
        self.state ^= self.state << 13;
        self.state ^= self.state >> 7;
        self.state ^= self.state << 17;
        if end == 0 {
            0
        } else {
            self.state as usize % end
        }
    }
}

/// What was seen so far.
struct Seen {
    /// Who led which term.
    leaders: Vec<(u64, usize)>,
    /// The longest log that was committed.
    committed: Vec<Entry>,
    /// The last term of a leader that committed.
    term: u64,
}

impl Drop for Seen {
    fn drop(self) {
        let Seen {
            leaders,
            committed,
            term: _,
        } = self;
        drop(leaders);
        drop(committed);
    }
}

/// Whether the first so many entries of both are the same.
fn begin_alike(a: &[Entry], b: &[Entry], count: usize) -> bool {
    count <= a.len() && count <= b.len() && a[..count] == b[..count]
}

fn log_of(core: &Core<Entry>) -> &[Entry] {
    core.entries_of(0, core.last() as usize)
}

/// Where two logs have an entry of one term at one index, they are the same up to there.
fn match_up(a: &Core<Entry>, b: &Core<Entry>) -> bool {
    let mut index = a.last().min(b.last());
    for _ in 0..index {
        if a.term_at(index) == b.term_at(index) {
            return begin_alike(log_of(a), log_of(b), index as usize);
        }
        index = index.saturating_sub(1);
    }
    true
}

impl Seen {
    /// Whether no other led that term. It is noted who did.
    fn leads_alone(&mut self, node: usize, term: u64) -> Result<bool, Fail> {
        for (led, leader) in &self.leaders {
            if *led == term {
                return Ok(*leader == node);
            }
        }
        self.leaders.push((term, node))?;
        Ok(true)
    }

    /// Notes what the node has committed beyond what others have.
    fn note(&mut self, alloc: Global, core: &Core<Entry>) -> Result<(), Fail> {
        let known = self.committed.len();
        let more = core.entries_of(known as u64, (core.commit() as usize).saturating_sub(known));
        if !more.is_empty() && core.leads() {
            self.term = self.term.max(core.last_term());
        }
        for entry in more {
            self.committed.push(entry.copy(alloc)?)?;
        }
        Ok(())
    }

    /// Whether the laws hold of the node that the last step was of.
    fn is_lawful(&mut self, alloc: Global, net: &Net, node: usize) -> Result<bool, Fail> {
        let core = net.cores.get(node.saturating_sub(1)).ok_or("no node")?;
        self.note(alloc, core)?;
        for other in &net.cores {
            if !match_up(core, other) {
                return Ok(false);
            }
        }
        let log = log_of(core);
        if !begin_alike(log, &self.committed, core.commit() as usize) {
            return Ok(false);
        }
        if !core.leads() {
            return Ok(true);
        }
        let term = core.last_term();
        let is_late = term < self.term;
        Ok(
            (is_late || begin_alike(log, &self.committed, self.committed.len()))
                && self.leads_alone(node, term)?,
        )
    }
}

/// One step, of the node that is answered.
fn step(alloc: Global, net: &mut Net, numbers: &mut Numbers) -> Result<usize, Fail> {
    let kind = numbers.below(100);
    if numbers.below(100) == 0 {
        net.stop = Some(numbers.below(3));
    }
    let node = numbers.below(net.cores.len()).saturating_add(1);
    let count = net.packets.len();
    if kind < 80 && count > 0 {
        let back = numbers.below(count.min(30));
        return net.deliver(alloc, count.saturating_sub(back));
    }
    if kind < 81 {
        net.elect(alloc, node)?;
    } else if kind < 86 {
        net.beat(alloc, node)?;
    } else {
        net.propose(alloc, node, numbers.below(1 << 30) as u64)?;
    }
    Ok(node)
}

/// How many entries are committed at the end, if the laws hold after each step.
fn walk(alloc: Global, seed: u64) -> Result<Option<usize>, Fail> {
    let mut net = Net::new(alloc, 5, 0)?;
    let mut numbers = Numbers { state: seed };
    let mut seen = Seen {
        leaders: Vec::new(alloc),
        committed: Vec::new(alloc),
        term: 0,
    };
    let mut is_lawful = true;
    for _ in 0..STEPS {
        let node = step(alloc, &mut net, &mut numbers)?;
        net.seen.clear();
        is_lawful = is_lawful && seen.is_lawful(alloc, &net, node)?;
    }
    let count = seen.committed.len();
    drop(net);
    drop(seen);
    Ok(if is_lawful { Some(count) } else { None })
}

#[test]
fn laws_hold_on_random_walks(rt: HostRuntime) -> Result<(), Fail> {
    for seed in [1, 2, 3] {
        match walk(rt.alloc(), seed)? {
            Some(count) => assert!(rt; count >= 10, "{seed}: {count}"),
            None => assert!(rt; false, "{seed}"),
        }
    }
    Ok(())
}
