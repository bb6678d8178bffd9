use crate::calling::status_of;
use rq_cluster::empty_pairs;
use rq_outside::{MemSink, MemSource};
use std::alloc::Global;
use std::test::Fail;

const UP: &[u8] = b"up n1 boot 1 term 0 last 0\n";

/// A call, the numbers of the reads and writes that fail in it, and what it must answer and write.
#[derive(Clone, Copy)]
struct Case<'a> {
    words: &'a [&'a [u8]],
    script: &'a [u8],
    reads: &'a [u64],
    writes: &'a [u64],
    status: u8,
    text: &'a [u8],
}

fn writes(alloc: Global, source: &mut MemSource, case: &Case) -> Result<bool, Fail> {
    let mut sink = MemSink::new(Vec::new(alloc), case.writes.to_vec(alloc)?);
    let mut disks = empty_pairs(alloc).ok().ok_or("memory")?;
    let status = status_of(alloc, case.words, source, &mut sink, &mut disks);
    let is_written = sink.bytes() == case.text;
    drop((sink, disks));
    Ok(status? == case.status && is_written)
}

// Whether the call answers and writes what it must.
fn is_right(alloc: Global, case: &Case) -> Result<bool, Fail> {
    let mut source = MemSource::new(case.script.to_vec(alloc)?, case.reads.to_vec(alloc)?);
    let is_right = writes(alloc, &mut source, case);
    drop(source);
    is_right
}

fn plain<'a>(words: &'a [&'a [u8]], script: &'a [u8], status: u8, text: &'a [u8]) -> Case<'a> {
    Case {
        words,
        script,
        reads: &[],
        writes: &[],
        status,
        text,
    }
}

fn faulty<'a>(
    script: &'a [u8],
    reads: &'a [u64],
    writes: &'a [u64],
    status: u8,
    text: &'a [u8],
) -> Case<'a> {
    Case {
        words: &[b"cluster"],
        script,
        reads,
        writes,
        status,
        text,
    }
}

/// Words, a script, a status and what is written.
pub(crate) type Plain = (&'static [&'static [u8]], &'static [u8], u8, &'static [u8]);

/// A script, the numbers of the reads and writes that fail, a status and what is written.
type Faulty = (
    &'static [u8],
    &'static [u64],
    &'static [u64],
    u8,
    &'static [u8],
);

// The place of the first that isn't as it must be.
pub(crate) fn first_wrong(alloc: Global, rows: &[Plain]) -> Result<Option<usize>, Fail> {
    for (place, (words, script, status, text)) in rows.iter().enumerate() {
        if !is_right(alloc, &plain(words, script, *status, text))? {
            return Ok(Some(place));
        }
    }
    Ok(None)
}

fn first_wrong_fault(alloc: Global, rows: &[Faulty]) -> Result<Option<usize>, Fail> {
    for (place, (script, reads, writes, status, text)) in rows.iter().enumerate() {
        if !is_right(alloc, &faulty(script, reads, writes, *status, text))? {
            return Ok(Some(place));
        }
    }
    Ok(None)
}

const WORDS_AND_LINES: [Plain; 12] = [
    (&[b"cluster"], b"cluster n1\n", 0, UP),
    (
        &[b"clutser"],
        b"cluster n1\n",
        2,
        b"stopped: word 1: clutser\n",
    ),
    (&[], b"cluster n1\n", 2, b"stopped: word 1: \n"),
    (
        &[b"cluster", b"x"],
        b"cluster n1\n",
        2,
        b"stopped: word 2: x\n",
    ),
    (
        &[b"cluster", b""],
        b"cluster n1\n",
        2,
        b"stopped: word 2: \n",
    ),
    (
        &[b"\xff\xfe"],
        b"cluster n1\n",
        2,
        b"stopped: word 1: \xff\xfe\n",
    ),
    (&[b"cluster"], b"", 3, b"stopped: line 1\n"),
    (&[b"cluster"], b"\n# x", 3, b"stopped: line 3\n"),
    (&[b"cluster"], b"cluster n1", 0, UP),
    (&[b"cluster"], b"# x\r\n\r\n\ncluster n1\r\n# y", 0, UP),
    (
        &[b"cluster"],
        b"cluster n1\n\nbeat\n# x\n",
        3,
        b"up n1 boot 1 term 0 last 0\nstopped: line 3\n",
    ),
    (&[b"cluster"], b"cluster n1\r", 3, b"stopped: line 1\n"),
];

#[test]
fn words_and_lines(rt: HostRuntime) -> Result<(), Fail> {
    assert_eq!(rt; first_wrong(rt.alloc(), &WORDS_AND_LINES)?, None);
    let wrong_word = Case {
        words: &[b"clutser"],
        script: b"",
        reads: &[1],
        writes: &[1],
        status: 5,
        text: b"",
    };
    assert!(rt; is_right(rt.alloc(), &wrong_word)?);
    Ok(())
}

const FAULTS: [Faulty; 5] = [
    (b"cluster n1\n", &[1], &[], 4, b"stopped: read fault\n"),
    (b"cluster n1\nx\n", &[], &[1], 5, b""),
    (b"cluster n1\nx\n", &[], &[2], 5, UP),
    (
        b"cluster n1\nx\n",
        &[],
        &[3],
        3,
        b"up n1 boot 1 term 0 last 0\nstopped: line 2\n",
    ),
    (b"cluster n1\n", &[1], &[1], 5, b""),
];

// The status is 4 and this is written where the second read of the script fails.
fn breaks_off(alloc: Global, script: &[u8], text: &[u8]) -> Result<bool, Fail> {
    is_right(alloc, &faulty(script, &[2], &[], 4, text))
}

#[test]
fn faults(rt: HostRuntime) -> Result<(), Fail> {
    let alloc = rt.alloc();
    assert_eq!(rt; first_wrong_fault(alloc, &FAULTS)?, None);
    // The second read begins in the third line, and in the first.
    let mut late = b"cluster n1\n# ".to_vec(alloc)?;
    late.extend_from_slice(&[b'x'; 5000])?;
    let told = b"up n1 boot 1 term 0 last 0\nstopped: read fault\n";
    let is = breaks_off(alloc, &late, told);
    drop(late);
    assert!(rt; is?);
    let early = commented(alloc, 4090, b"\ncluster n1\n")?;
    let is = breaks_off(alloc, &early, b"stopped: read fault\n");
    drop(early);
    assert!(rt; is?);
    Ok(())
}

// A comment of so many bytes, and then these.
pub(crate) fn commented(alloc: Global, size: usize, rest: &[u8]) -> Result<Vec<u8>, Fail> {
    let mut script = vec![in alloc; b'#'; size]?;
    script.extend_from_slice(rest)?;
    Ok(script)
}

fn ends_so(alloc: Global, size: usize, rest: &[u8], status: u8, text: &[u8]) -> Result<bool, Fail> {
    let script = commented(alloc, size, rest)?;
    let is = is_right(alloc, &plain(&[b"cluster"], &script, status, text));
    drop(script);
    is
}

#[test]
fn longest_line(rt: HostRuntime) -> Result<(), Fail> {
    let alloc = rt.alloc();
    assert!(rt; ends_so(alloc, 2_097_152, b"\r\ncluster n1\n", 0, UP)?);
    assert!(rt; ends_so(alloc, 2_097_153, b"\ncluster n1\n", 3, b"stopped: line 1\n")?);
    assert!(rt; ends_so(alloc, 2_097_152, b"", 3, b"stopped: line 2\n")?);
    assert!(rt; ends_so(alloc, 2_097_153, b"", 3, b"stopped: line 1\n")?);
    Ok(())
}

const REQUESTS: [Plain; 7] = [
    (
        &[b"cluster"],
        b"cluster n1\nask n1 POST /db/execute [\"CREATE TABLE foo (id INTEGER PRIMARY KEY)\"]\n",
        0,
        b"up n1 boot 1 term 0 last 0\nanswer 1 503 leader not found: term 0\n",
    ),
    (
        &[b"cluster"],
        b"cluster n1\nelect n1\nask n1 POST /db/execute [\"DROP TABLE foo\"]\napply n1\nbeat n1\n",
        3,
        b"up n1 boot 1 term 0 last 0\nanswer 1 200 {\"results\":[{\"error\":\"no such table: foo\"}]}\nstopped: line 5\n",
    ),
    (
        &[b"cluster"],
        b"cluster n1\nelect n1\nask n1 POST /db/execute [\"CREATE TABLE t (a TEXT)\"]\nelect n2\n",
        3,
        b"up n1 boot 1 term 0 last 0\nstopped: line 4\n",
    ),
    (
        &[b"cluster"],
        b"cluster n1\nelect n1\nask n1 POST /db/execute []\napply n1\nask n1 POST /db/execute []\n",
        0,
        b"up n1 boot 1 term 0 last 0\nanswer 1 200 {\"results\":[]}\npending 2\n",
    ),
    (
        &[b"cluster"],
        b"cluster n1\nask n1 POST /db/query?level=none [\"SELECT * FROM foo\"]\n",
        0,
        b"up n1 boot 1 term 0 last 0\nanswer 1 200 {\"results\":[{\"error\":\"no such table: foo\"}]}\n",
    ),
    (
        &[b"cluster"],
        b"cluster n1\nelect n1\nask n1 POST /db/execute [\"DELETE FROM\",\"DROP VIEW v\",\"SELEC 1\",\"SELECT 1.5\"]\napply n1\n",
        0,
        b"up n1 boot 1 term 0 last 0\nanswer 1 200 {\"results\":[{\"error\":\"incomplete input\"},{\"error\":\"not in profile: VIEW\"},{\"error\":\"near \\\"SELEC\\\": syntax error\"},{\"error\":\"not in profile: 1.5\"}]}\n",
    ),
    (
        &[b"cluster"],
        b"cluster n1\nask n1 POST /db/query?level=none [\"SELECT 'abc\",\"SELECT \\u00e9\",\"SELECT * FROM foo; SELECT 1\"]\n",
        0,
        b"up n1 boot 1 term 0 last 0\nanswer 1 200 {\"results\":[{\"error\":\"near \\\"'abc\\\": syntax error\"},{\"error\":\"near \\\"\xc3\xa9\\\": syntax error\"},{\"error\":\"near \\\"SELECT\\\": syntax error\"}]}\n",
    ),
];

#[test]
fn requests(rt: HostRuntime) -> Result<(), Fail> {
    assert_eq!(rt; first_wrong(rt.alloc(), &REQUESTS)?, None);
    Ok(())
}

const FIRST: &[u8] = b"cluster n1\nelect n1\n\
ask n1 POST /db/execute [\"CREATE TABLE foo (id INTEGER PRIMARY KEY, name TEXT, age INTEGER)\"]\n\
ask n1 POST /db/execute [\"INSERT INTO foo(name, age) VALUES('fiona', 20)\"]\napply n1\n\
ask n1 POST /db/query?level=none [\"SELECT * FROM foo\"]\n";

const ANSWERS: &[u8] = b"up n1 boot 1 term 0 last 0\n\
answer 1 200 {\"results\":[{}]}\n\
answer 2 200 {\"results\":[{\"last_insert_id\":1,\"rows_affected\":1}]}\n";

const ALL: &[u8] = b"up n1 boot 1 term 0 last 0\n\
answer 1 200 {\"results\":[{}]}\n\
answer 2 200 {\"results\":[{\"last_insert_id\":1,\"rows_affected\":1}]}\n\
answer 3 200 {\"results\":[{\"columns\":[\"id\",\"name\",\"age\"],\"types\":[\"integer\",\"text\",\"integer\"],\"values\":[[1,\"fiona\",20]]}]}\n";

/// Each write of the first session fails in turn; the third is the last.
const WRITES: [Faulty; 4] = [
    (FIRST, &[], &[1], 5, b""),
    (FIRST, &[], &[2], 5, UP),
    (FIRST, &[], &[3], 5, ANSWERS),
    (FIRST, &[], &[4], 0, ALL),
];

#[test]
fn each_write_fails(rt: HostRuntime) -> Result<(), Fail> {
    assert_eq!(rt; first_wrong_fault(rt.alloc(), &WRITES)?, None);
    Ok(())
}
