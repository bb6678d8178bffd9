use crate::fakes::{FewPort, FewThreads, Over};
use crate::words::node;
use rq_outside::{DiskPair, MemDisk, ScriptClock, ScriptDraws};
use rq_serve::serve_node;
use std::alloc::{AllocError, Global};
use std::io::Print;
use std::sync::atomic::{AtomicU64, Ordering};
use std::sync::{Arc, Wait};
use std::test::Fail;
use std::thread::Threads;
use std::time::Clock;

/// What fails in a run of a node.
#[derive(Clone, Copy, Drop)]
struct Failing {
    /// How many connections come before the listener fails, if it does.
    accepts: Option<u64>,
    /// How often a thread can be started.
    threads: u64,
    /// Whether there is a port at all.
    listens: bool,
    /// The call of file one that fails, from 1.
    disk: u64,
    /// The bytes in file one.
    content: &'static [u8],
    /// How often the clock tells the moment.
    moments: u64,
    /// How many random words there are.
    words: u64,
}

const NOTHING: Failing = Failing {
    accepts: None,
    threads: 64,
    listens: true,
    disk: 1_000_000,
    content: b"",
    moments: 1000,
    words: 1000,
};

/// So many numbers, each so much more than the one before.
fn numbers(alloc: Global, count: u64, by: u64) -> Result<Vec<u64>, AllocError> {
    let mut numbers = Vec::new(alloc);
    for k in 0..count {
        numbers.push(k.saturating_mul(by))?;
    }
    Ok(numbers)
}

/// The pair of disks of which file one has these bytes, and fails at this call.
fn disks(alloc: Global, failing: &Failing) -> Option<DiskPair<MemDisk>> {
    let mut fails = Vec::new(alloc);
    fails.push(failing.disk).ok()?;
    let content = Vec::from_slice(alloc, failing.content).ok()?;
    let one = MemDisk::new(alloc, content, fails).ok()?;
    let two = MemDisk::new(alloc, Vec::new(alloc), Vec::new(alloc)).ok()?;
    Some(DiskPair::new(one, two))
}

/// The port of the node.
fn port<R: Drop>(rt: R, alloc: Global, failing: &Failing, over: Over) -> FewPort<R> {
    match (failing.listens, failing.accepts) {
        (false, _) => FewPort::none(),
        (true, Some(left)) => FewPort::new(rt, alloc, left, None),
        (true, None) => FewPort::new(rt, alloc, 0, Some(over)),
    }
}

/// The status with which a node ends in which this fails, 0 where memory is wanting before it starts.
fn status<R: Wait + Threads + Clock + Print + Copy + Drop + Send + Sync + 'static>(
    rt: R,
    alloc: Global,
    failing: &Failing,
) -> Option<u8> {
    let over = Arc::new(alloc, AtomicU64::new(0)).ok()?;
    let words = node(alloc).ok()?;
    let mut port = port(rt, alloc, failing, Arc::try_clone(&over).ok()?);
    let disks = disks(alloc, failing)?;
    let steady = ScriptClock::new(numbers(alloc, failing.moments, 1000).ok()?, Vec::new(alloc));
    let wall = ScriptClock::new(Vec::new(alloc), Vec::new(alloc));
    let draws = ScriptDraws::new(numbers(alloc, failing.words, 7).ok()?, Vec::new(alloc));
    let threads = FewThreads::new(rt, failing.threads);
    let end = serve_node(
        rt, alloc, &words, &mut port, disks, steady, wall, draws, threads,
    );
    over.store(1, Ordering::SeqCst);
    Some(end.status())
}

#[test]
fn each_end_has_its_status(rt: HostRuntime) -> Result<(), Fail> {
    let cases = [
        (
            "no port",
            4,
            Failing {
                listens: false,
                ..NOTHING
            },
        ),
        (
            "no connection",
            4,
            Failing {
                accepts: Some(0),
                ..NOTHING
            },
        ),
        (
            "no third connection",
            4,
            Failing {
                accepts: Some(2),
                ..NOTHING
            },
        ),
        (
            "no words",
            7,
            Failing {
                words: 0,
                ..NOTHING
            },
        ),
        (
            "no second word",
            7,
            Failing {
                words: 1,
                ..NOTHING
            },
        ),
        ("the disk fails at once", 9, Failing { disk: 1, ..NOTHING }),
        (
            "the disk fails in the opening",
            9,
            Failing { disk: 4, ..NOTHING },
        ),
        (
            "the disk fails in the election",
            9,
            Failing {
                disk: 12,
                ..NOTHING
            },
        ),
        (
            "files of another version",
            10,
            Failing {
                content: b"\x01RQWAL\x07 as another program writes it",
                ..NOTHING
            },
        ),
        (
            "no moment",
            11,
            Failing {
                moments: 0,
                ..NOTHING
            },
        ),
        (
            "no second moment",
            11,
            Failing {
                moments: 1,
                ..NOTHING
            },
        ),
        (
            "no thread",
            12,
            Failing {
                threads: 0,
                ..NOTHING
            },
        ),
        (
            "no last thread",
            12,
            Failing {
                threads: 63,
                ..NOTHING
            },
        ),
    ];
    for (name, wanted, failing) in &cases {
        assert!(rt; status(rt, rt.alloc(), failing) == Some(*wanted), "{name}");
    }
    Ok(())
}
