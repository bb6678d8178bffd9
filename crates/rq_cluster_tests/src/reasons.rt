//! Why a script is stopped at a line.
use crate::calling::words_of;
use crate::statuses::commented;
use rq_cluster::{Stopped, empty_pairs, run_cluster};
use rq_outside::{SureDraws, SureSink, SureSource};
use std::alloc::Global;
use std::test::Fail;

/// A script, the line at which it is stopped, and why.
const REASONS: [(&[u8], u64, &[u8]); 20] = [
    (b"", 1, b"no cluster line stands before it"),
    (b"# x\n\n# y", 4, b"no cluster line stands before it"),
    (b"elect n1\n", 1, b"no cluster line stands before it"),
    (b"clusters n1\n", 1, b"no line of a script begins so"),
    (b"cluster N1\n", 1, b"not of the form cluster ID"),
    (b"cluster n1\r", 1, b"not of the form cluster ID"),
    (b"cluster n1\ncluster n1\n", 2, b"a second cluster line"),
    (b"cluster n1\ncluster n2\n", 2, b"a second cluster line"),
    (b"cluster n1\nelect n2\n", 2, b"no node n2 in this cluster"),
    (
        b"cluster n1\nelect n2\r\n",
        2,
        b"no node n2 in this cluster",
    ),
    (b"cluster n1\nelect\n", 2, b"not of the form elect ID"),
    (b"cluster n1\nelect n1\r", 2, b"not of the form elect ID"),
    (
        b"cluster n1\nelect n1\r\r\n",
        2,
        b"not of the form elect ID",
    ),
    (b"cluster n1\n\r", 2, b"no line of a script begins so"),
    (
        b"cluster n1\nstop n1 1 4\n",
        2,
        b"not of the form stop ID, or stop ID CALLS PICK",
    ),
    (b"cluster n1\nstop n1\nstop n1\n", 3, b"the node n1 is down"),
    (
        b"cluster n1\nstop n1\nstop n1 0 0\n",
        3,
        b"the node n1 is down",
    ),
    (b"cluster n1\nstart n1\n", 2, b"the node n1 is running"),
    (
        b"cluster n1\nask n1 POST /db/execute [1]\n",
        2,
        b"the body is no JSON list of strings, each a statement without NUL",
    ),
    (
        b"cluster n1\nask n1 POST /db/query []\n",
        2,
        b"not of the form ask ID POST /db/execute BODY, or ask ID POST /db/query?level=none BODY",
    ),
];

fn is_stopped(alloc: Global, found: Option<Stopped>, line: u64, reason: &[u8]) -> bool {
    let mut text = Vec::new(alloc);
    let is = match found {
        Some(stopped) => {
            stopped.line == line
                && stopped.reason.write(&mut text).is_ok()
                && text.as_slice() == reason
        }
        None => false,
    };
    drop(text);
    is
}

/// Whether a script of these bytes is stopped at this line for this reason.
fn stops(alloc: Global, script: &[u8], line: u64, reason: &[u8]) -> Result<bool, Fail> {
    let words = words_of(alloc, &[b"cluster"])?;
    let Ok(mut disks) = empty_pairs(alloc) else {
        drop(words);
        return Err("memory".into());
    };
    let mut sink = SureSink::new(Vec::new(alloc));
    let mut draws = SureDraws::new(Vec::new(alloc));
    let Ok(bytes) = script.to_vec(alloc) else {
        drop((words, disks, sink, draws));
        return Err("memory".into());
    };
    let mut source = SureSource::new(bytes);
    let ended = run_cluster(
        alloc,
        &words,
        &mut source,
        &mut sink,
        &mut disks,
        &mut draws,
    );
    drop((words, disks, sink, draws, source));
    Ok(ended.status == 3 && is_stopped(alloc, ended.stopped, line, reason))
}

#[test]
fn reasons(rt: HostRuntime) -> Result<(), Fail> {
    let alloc = rt.alloc();
    for (script, line, reason) in REASONS.iter() {
        assert!(rt; stops(alloc, script, *line, reason)?);
    }
    for end in [b"".as_slice(), b"\n"] {
        assert!(rt; long_stops(alloc, end)?);
    }
    Ok(())
}

/// Whether a line that is too long is told as such, with this end.
fn long_stops(alloc: Global, end: &[u8]) -> Result<bool, Fail> {
    let script = commented(alloc, 2_097_153, end)?;
    let stops = stops(alloc, &script, 1, b"longer than 2097152 bytes");
    drop(script);
    stops
}
