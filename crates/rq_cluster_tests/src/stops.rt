//! Stops within a write, starts, and disks that fail.
ghost use Rattle.std.specs.Prelude.{[]};
ghost use Rattle.rq_outside.specs.Disk.{Only};
ghost use Rattle.rq_outside.specs.Memory.{journal_means};

use crate::calling::status_of;
use rq_cluster::{MakesDisks, nine_pairs};
use rq_outside::{CrashDisk, FileNo, MemDisk, SureSink, SureSource};
use rq_values::NoMemory;
use std::alloc::Global;
use std::test::Fail;

/// What makes empty disks, of which those of the first pair fail at these calls.
#[derive(Drop)]
struct Failing<'a> {
    one: &'a [u64],
    two: &'a [u64],
}

impl MakesDisks<MemDisk> for Failing<'_> {
    ghost made = { λ _ _ _ disk. Only [] (journal_means disk.journal disk.faults.count).images };

    fn disk(&self, alloc: Global, place: usize, file: FileNo) -> Result<MemDisk, NoMemory> {
        let fails = match (place, file) {
            (0, FileNo::One) => self.one,
            (0, FileNo::Two) => self.two,
            _ => &[],
        };
        let mut disk = MemDisk::new(alloc, Vec::new(alloc), fails.to_vec(alloc)?)?;
        disk.crash(0);
        if disk.bytes().is_empty() {
            Ok(disk)
        } else {
            Err(NoMemory)
        }
    }
}

fn writes(
    alloc: Global,
    source: &mut SureSource,
    failing: &Failing,
    status: u8,
    text: &[u8],
) -> Result<bool, Fail> {
    let mut disks = nine_pairs(alloc, failing).ok().ok_or("memory")?;
    let mut sink = SureSink::new(Vec::new(alloc));
    let found = status_of(alloc, &[b"cluster"], source, &mut sink, &mut disks);
    let is_written = sink.bytes() == text;
    drop((sink, disks));
    Ok(found? == status && is_written)
}

/// Whether the script ends with this status and writes this text.
fn gives(
    alloc: Global,
    script: &[u8],
    one: &[u64],
    two: &[u64],
    status: u8,
    text: &[u8],
) -> Result<bool, Fail> {
    let mut source = SureSource::new(script.to_vec(alloc)?);
    let is = writes(alloc, &mut source, &Failing { one, two }, status, text);
    drop(source);
    is
}

/// A stop after `calls` changing calls with this pick, in the write of one entry.
fn stop_within(alloc: Global, calls: u64, pick: u8) -> Result<Vec<u8>, Fail> {
    let script = format!(in alloc;
        "cluster n1\nelect n1\nstop n1 {calls} {pick}\nask n1 POST /db/execute [\"CREATE TABLE t (a INTEGER)\"]\nstart n1\n"
    )?;
    Ok(script.as_bytes().to_vec(alloc)?)
}

const BEFORE: &[u8] =
    b"up n1 boot 1 term 0 last 0\ndown n1\nup n1 boot 2 term 1 last 1\npending 1\n";

const AFTER: &[u8] =
    b"up n1 boot 1 term 0 last 0\ndown n1\nup n1 boot 2 term 1 last 2\npending 1\n";

const RUNNING: &[u8] = b"up n1 boot 1 term 0 last 0\nstopped: line 5\n";

// The write of an entry is four calls: the frame, a sync, its gate, a sync.
#[test]
fn a_stop_within_a_write_leaves_the_entry_or_not(rt: HostRuntime) -> Result<(), Fail> {
    for calls in 0..5 {
        for pick in 0..4 {
            let (status, text) = match calls {
                0 | 1 => (0, BEFORE),
                2 | 3 if pick == 1 || pick == 2 => (0, AFTER),
                2 | 3 => (0, BEFORE),
                _ => (3, RUNNING),
            };
            let script = stop_within(rt.alloc(), calls, pick)?;
            let is = gives(rt.alloc(), &script, &[], &[], status, text);
            drop(script);
            assert!(rt; is?);
        }
    }
    Ok(())
}

const FIRST: &str = "cluster n1\nelect n1\n\
ask n1 POST /db/execute [\"CREATE TABLE foo (id INTEGER PRIMARY KEY, name TEXT, age INTEGER)\"]\n\
ask n1 POST /db/execute [\"INSERT INTO foo(name, age) VALUES('fiona', 20)\"]\napply n1\n\
ask n1 POST /db/query?level=none [\"SELECT * FROM foo\"]\n";

const FIRST_ANSWERS: &str = "up n1 boot 1 term 0 last 0\n\
answer 1 200 {\"results\":[{}]}\n\
answer 2 200 {\"results\":[{\"last_insert_id\":1,\"rows_affected\":1}]}\n\
answer 3 200 {\"results\":[{\"columns\":[\"id\",\"name\",\"age\"],\"types\":[\"integer\",\"text\",\"integer\"],\"values\":[[1,\"fiona\",20]]}]}\n";

/// The first session, then these lines; and its answers, then this text.
#[derive(Clone, Copy)]
struct Later<'a> {
    lines: &'a str,
    status: u8,
    text: &'a str,
}

fn follows(alloc: Global, case: &Later) -> Result<bool, Fail> {
    let script = format!(in alloc; "{FIRST}{}", case.lines)?;
    let text = format!(in alloc; "{FIRST_ANSWERS}{}", case.text)?;
    let is = gives(
        alloc,
        script.as_bytes(),
        &[],
        &[],
        case.status,
        text.as_bytes(),
    );
    drop((script, text));
    is
}

#[test]
fn nodes_stop_and_start_again(rt: HostRuntime) -> Result<(), Fail> {
    let alloc = rt.alloc();
    let cases = [
        Later {
            lines: "stop n1\nstart n1\nelect n1\napply n1\nask n1 POST /db/query?level=none [\"SELECT * FROM foo\"]\nshow n1\n",
            status: 0,
            text: "down n1\nup n1 boot 2 term 1 last 3\nanswer 4 200 {\"results\":[{\"columns\":[\"id\",\"name\",\"age\"],\"types\":[\"integer\",\"text\",\"integer\"],\"values\":[[1,\"fiona\",20]]}]}\nshow n1 leader term 2 base 0 last 4 commit 4 applied 4\n",
        },
        // The tables are there again only when the log was applied again.
        Later {
            lines: "stop n1\nshow n1\nask n1 POST /db/execute []\nstart n1\nshow n1\nask n1 POST /db/query?level=none [\"SELECT * FROM foo\"]\n",
            status: 0,
            text: "down n1\nshow n1 down\nup n1 boot 2 term 1 last 3\nshow n1 follower term 1 base 0 last 3 commit 0 applied 0\nanswer 5 200 {\"results\":[{\"error\":\"no such table: foo\"}]}\npending 4\n",
        },
        // A second line arms anew; a stop at once takes the line away.
        Later {
            lines: "stop n1 0 0\nstop n1 4 0\nask n1 POST /db/execute []\napply n1\nask n1 POST /db/execute []\nstart n1\n",
            status: 0,
            text: "answer 4 200 {\"results\":[]}\ndown n1\nup n1 boot 2 term 1 last 4\npending 5\n",
        },
        Later {
            lines: "stop n1 0 0\nstop n1\nstart n1\nelect n1\nshow n1\n",
            status: 0,
            text: "down n1\nup n1 boot 2 term 1 last 3\nshow n1 leader term 2 base 0 last 4 commit 4 applied 0\n",
        },
        // A number of calls may be as long as it likes.
        Later {
            lines: "stop n1 99999999999999999999999999999999999999999 3\nelect n1\nshow n1\n",
            status: 0,
            text: "show n1 leader term 1 base 0 last 3 commit 3 applied 3\n",
        },
        Later {
            lines: "start n1\n",
            status: 3,
            text: "stopped: line 7\n",
        },
        Later {
            lines: "stop n1\nstop n1\n",
            status: 3,
            text: "down n1\nstopped: line 8\n",
        },
        Later {
            lines: "stop n1\nstop n1 0 0\n",
            status: 3,
            text: "down n1\nstopped: line 8\n",
        },
        Later {
            lines: "stop n2\n",
            status: 3,
            text: "stopped: line 7\n",
        },
        Later {
            lines: "stop n1 1 4\n",
            status: 3,
            text: "stopped: line 7\n",
        },
    ];
    for case in cases {
        assert!(rt; follows(alloc, &case)?);
    }
    Ok(())
}

const NOT_OPENED: &[u8] = b"down n1\npending 1\npending 2\npending 3\n";

const OPENED: &[u8] = b"up n1 boot 1 term 0 last 0\ndown n1\npending 1\npending 2\npending 3\n";

// Opening is a sync, two looks and the eight calls of a new base in file one, a sync and two looks in file two. The boot, the
// election's two frames and the two entries are four calls each.
#[test]
fn each_call_of_a_disk_fails(rt: HostRuntime) -> Result<(), Fail> {
    let alloc = rt.alloc();
    let script = FIRST.as_bytes();
    let all = FIRST_ANSWERS.as_bytes();
    for call in 1..33 {
        let text = match call {
            1..16 => NOT_OPENED,
            16..32 => OPENED,
            _ => all,
        };
        assert!(rt; gives(alloc, script, &[call], &[], 0, text)?);
    }
    for call in 1..5 {
        let text = if call < 4 { NOT_OPENED } else { all };
        assert!(rt; gives(alloc, script, &[], &[call], 0, text)?);
    }
    Ok(())
}

// The twentieth call begins the second frame of the election, so its vote alone stands when the node starts again.
#[test]
fn a_node_starts_again_after_a_disk_failed(rt: HostRuntime) -> Result<(), Fail> {
    let script = b"cluster n1\nelect n1\nstart n1\nshow n1\n";
    let text =
        b"up n1 boot 1 term 0 last 0\ndown n1\nup n1 boot 2 term 1 last 0\nshow n1 follower term 1 base 0 last 0 commit 0 applied 0\n";
    assert!(rt; gives(rt.alloc(), script, &[20], &[], 0, text)?);
    let never = b"cluster n1\nstart n1\nstop n1\n";
    let twice = b"down n1\ndown n1\nstopped: line 3\n";
    assert!(rt; gives(rt.alloc(), never, &[1, 2], &[], 3, twice)?);
    Ok(())
}
