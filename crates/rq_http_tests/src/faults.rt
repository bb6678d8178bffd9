//! Sources, sinks and ports that fail.
use crate::ports::{Echo, Failing};
use rq_http::{ServeError, Served, serve_connection};
use rq_outside::{MemSink, MemSource};
use std::alloc::Global;
use std::test::Fail;

/// Two requests, of which the second closes the connection.
const INPUT: &[u8] =
    b"POST /db/execute HTTP/1.1\r\nContent-Length: 3\r\n\r\n[1]POST /db/execute HTTP/1.0\r\nContent-Length: 3\r\n\r\n[2]";

const FIRST: &[u8] =
    b"HTTP/1.1 200 OK\r\nContent-Type: application/json; charset=utf-8\r\nContent-Length: 3\r\n\r\n[1]";

const BOTH: &[u8] =
    b"HTTP/1.1 200 OK\r\nContent-Type: application/json; charset=utf-8\r\nContent-Length: 3\r\n\r\n[1]HTTP/1.1 200 OK\r\nContent-Type: application/json; charset=utf-8\r\nContent-Length: 3\r\nConnection: close\r\n\r\n[2]";

/// Calls that fail, and what then is written and answered.
#[derive(Clone, Copy)]
struct Case<'a> {
    reads: &'a [u64],
    writes: &'a [u64],
    /// The port fails after so many answers.
    answers: u64,
    output: &'a [u8],
    served: Result<Served, ServeError>,
}

const CASES: [Case<'static>; 7] = [
    Case {
        reads: &[],
        writes: &[],
        answers: 2,
        output: BOTH,
        served: Ok(Served::Done(2)),
    },
    Case {
        reads: &[1],
        writes: &[],
        answers: 2,
        output: b"",
        served: Err(ServeError::Read),
    },
    // nothing is read while a whole request is held
    Case {
        reads: &[2],
        writes: &[],
        answers: 2,
        output: BOTH,
        served: Ok(Served::Done(2)),
    },
    Case {
        reads: &[],
        writes: &[1],
        answers: 2,
        output: b"",
        served: Err(ServeError::Write),
    },
    Case {
        reads: &[],
        writes: &[2],
        answers: 2,
        output: FIRST,
        served: Err(ServeError::Write),
    },
    Case {
        reads: &[],
        writes: &[],
        answers: 0,
        output: b"",
        served: Err(ServeError::Port),
    },
    Case {
        reads: &[],
        writes: &[],
        answers: 1,
        output: FIRST,
        served: Err(ServeError::Port),
    },
];

fn holds(alloc: Global, case: &Case) -> Result<bool, Fail> {
    let mut source = MemSource::new(INPUT.to_vec(alloc)?, case.reads.to_vec(alloc)?);
    let mut sink = MemSink::new(Vec::new(alloc), case.writes.to_vec(alloc)?);
    let mut port = Failing {
        answers: case.answers,
        faults: 0,
    };
    let served = serve_connection(alloc, &mut source, &mut sink, &mut port);
    let is_written = sink.bytes() == case.output;
    drop((source, sink, port));
    Ok(served == case.served && is_written)
}

fn first_wrong(alloc: Global, cases: &[Case]) -> Result<Option<usize>, Fail> {
    for (i, case) in cases.iter().enumerate() {
        if !holds(alloc, case)? {
            return Ok(Some(i));
        }
    }
    Ok(None)
}

#[test]
fn faults_are_told(rt: HostRuntime) -> Result<(), Fail> {
    assert_eq!(rt; first_wrong(rt.alloc(), &CASES)?, None);
    Ok(())
}

/// One request whose parts take memory: the test that is run with each allocation failing in turn.
#[test]
fn one_request(rt: HostRuntime) -> Result<(), Fail> {
    let alloc = rt.alloc();
    let input = b"GET /db/query?q=SELECT+1&timeout=2s HTTP/1.0\r\nHost: a\r\n\r\n".to_vec(alloc)?;
    let mut source = MemSource::new(input, Vec::new(alloc));
    let mut sink = MemSink::new(Vec::new(alloc), Vec::new(alloc));
    let served = serve_connection(alloc, &mut source, &mut sink, &mut Echo);
    let is_written = sink.bytes().ends_with(b"SELECT 1");
    drop((source, sink));
    assert!(rt; is_written && served == Ok(Served::Done(1)));
    Ok(())
}
