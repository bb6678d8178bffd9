//! Connections with their responses: in one piece, byte by byte, and cut at every place.
ghost use Rattle.std.specs.Prelude.{◌≤◌, length};

use crate::ports::{Echo, Moved};
use crate::sources::{Cut, Drip};
use rq_http::{Port, Served, serve_connection};
use rq_outside::{Source, SureSink, SureSource};
use std::alloc::Global;
use std::test::Fail;

/// What comes in, what is written, and how the connection ends.
#[derive(Clone, Copy)]
pub(crate) struct Case<'a> {
    pub(crate) input: &'a [u8],
    pub(crate) output: &'a [u8],
    pub(crate) served: Served,
}

/// Whether the source's bytes are answered so.
pub(crate) fn gives<S: Source, P: Port>(
    alloc: Global,
    source: &mut S,
    port: &mut P,
    output: &[u8],
    served: Served,
) -> bool {
    let mut sink = SureSink::new(Vec::new(alloc));
    let found = serve_connection(alloc, source, &mut sink, port);
    let is_written = sink.bytes() == output;
    drop(sink);
    is_written && matches!(found, Ok(ending) if ending == served)
}

/// Whether the case holds in one piece.
pub(crate) fn in_one_piece(alloc: Global, case: &Case) -> Result<bool, Fail> {
    let mut source = SureSource::new(case.input.to_vec(alloc)?);
    let holds = gives(alloc, &mut source, &mut Echo, case.output, case.served);
    drop(source);
    Ok(holds)
}

/// Whether the case holds byte by byte.
pub(crate) fn byte_by_byte(alloc: Global, case: &Case) -> Result<bool, Fail> {
    let mut source = Drip {
        bytes: case.input.to_vec(alloc)?,
        at: 0,
    };
    let holds = gives(alloc, &mut source, &mut Echo, case.output, case.served);
    drop(source);
    Ok(holds)
}

fn is_cut(alloc: Global, case: &Case, at: usize) -> Result<bool, Fail>
    requires { at ≤ length case.now.input.now }
{
    let front = case.input[..at].to_vec(alloc)?;
    match case.input[at..].to_vec(alloc) {
        Ok(back) => {
            let mut source = Cut {
                front: SureSource::new(front),
                back: SureSource::new(back),
            };
            let holds = gives(alloc, &mut source, &mut Echo, case.output, case.served);
            drop(source);
            Ok(holds)
        }
        Err(error) => {
            drop(front);
            Err(error.into())
        }
    }
}

/// Whether the case holds cut at every place.
fn cut_anywhere(alloc: Global, case: &Case) -> Result<bool, Fail> {
    for at in 0..case.input.len() {
        if !is_cut(alloc, case, at)? {
            return Ok(false);
        }
    }
    Ok(true)
}

const READY: &[u8] =
    b"HTTP/1.1 200 OK\r\nContent-Type: text/plain; charset=utf-8\r\nContent-Length: 5\r\n\r\nready";

const CASES: [Case<'static>; 24] = [
    Case {
        input: b"GET /readyz HTTP/1.1\r\nHost: a\r\n\r\n",
        output: READY,
        served: Served::Done(1),
    },
    Case {
        input: b"GET /re",
        output: b"",
        served: Served::Short(0, 7),
    },
    Case {
        input: b"",
        output: b"",
        served: Served::Done(0),
    },
    Case {
        input: b"GET /x HTTP/1.1\r\nConnection: close\r\n\r\n",
        output: b"HTTP/1.1 404 Not Found\r\nContent-Type: text/plain; charset=utf-8\r\nContent-Length: 16\r\nConnection: close\r\n\r\nno such path: /x",
        served: Served::Done(1),
    },
    // what follows a request after which the client closes isn't looked at
    Case {
        input: b"GET /x HTTP/1.1\r\nconnection: a, CLOSE ,b\r\n\r\nGET /x",
        output: b"HTTP/1.1 404 Not Found\r\nContent-Type: text/plain; charset=utf-8\r\nContent-Length: 16\r\nConnection: close\r\n\r\nno such path: /x",
        served: Served::Done(1),
    },
    Case {
        input: b"GET /readyz HTTP/1.0\r\nConnection: keep-alive\r\n\r\n",
        output: b"HTTP/1.1 200 OK\r\nContent-Type: text/plain; charset=utf-8\r\nContent-Length: 5\r\nConnection: close\r\n\r\nready",
        served: Served::Done(1),
    },
    Case {
        input: b"GET /readyz HTTP/1.1\r\nConnection: keep-alive\r\n\r\n",
        output: READY,
        served: Served::Done(1),
    },
    // an LF alone ends a line, and empty lines may come first
    Case {
        input: b"\r\n\nGET /readyz HTTP/1.1\nHost: a\n\n",
        output: READY,
        served: Served::Done(1),
    },
    Case {
        input: b"PUT /db/execute HTTP/1.1\r\n\r\n",
        output: b"HTTP/1.1 405 Method Not Allowed\r\nContent-Type: text/plain; charset=utf-8\r\nContent-Length: 23\r\n\r\nmethod not allowed: PUT",
        served: Served::Done(1),
    },
    Case {
        input: b"OPTIONS /db/query HTTP/1.1\r\n\r\n",
        output: b"HTTP/1.1 405 Method Not Allowed\r\nContent-Type: text/plain; charset=utf-8\r\nContent-Length: 27\r\n\r\nmethod not allowed: OPTIONS",
        served: Served::Done(1),
    },
    Case {
        input: b"HEAD /db/query HTTP/1.1\r\n\r\n",
        output: b"HTTP/1.1 405 Method Not Allowed\r\nContent-Type: text/plain; charset=utf-8\r\nContent-Length: 24\r\nConnection: close\r\n\r\nmethod not allowed: HEAD",
        served: Served::Done(1),
    },
    Case {
        input: b"OPTIONS * HTTP/1.1\r\n\r\n",
        output: b"HTTP/1.1 404 Not Found\r\nContent-Type: text/plain; charset=utf-8\r\nContent-Length: 15\r\n\r\nno such path: *",
        served: Served::Done(1),
    },
    Case {
        input: b"POST /db/query?level=auto HTTP/1.1\r\nContent-Length: 2\r\n\r\n[]",
        output: b"HTTP/1.1 400 Bad Request\r\nContent-Type: text/plain; charset=utf-8\r\nContent-Length: 20\r\n\r\nbad parameter: level",
        served: Served::Done(1),
    },
    // the length is looked at with the head, before the path
    Case {
        input: b"POST /x HTTP/1.1\r\nContent-Length: 1048577\r\n\r\n",
        output: b"HTTP/1.1 413 Payload Too Large\r\nContent-Type: text/plain; charset=utf-8\r\nContent-Length: 22\r\nConnection: close\r\n\r\nbody too long: 1048577",
        served: Served::Refused(1),
    },
    // curl sends these fields; no interim response is sent
    Case {
        input: b"POST /db/execute?pretty HTTP/1.1\r\nHost: localhost:4001\r\nUser-Agent: curl/8.5.0\r\nAccept: */*\r\nContent-Length: 3\r\nContent-Type: application/x-www-form-urlencoded\r\nExpect: 100-continue\r\n\r\n[1]",
        output: b"HTTP/1.1 200 OK\r\nContent-Type: application/json; charset=utf-8\r\nContent-Length: 3\r\n\r\n[1]",
        served: Served::Done(1),
    },
    // two requests behind one another, and a part of a third
    Case {
        input: b"POST /db/execute HTTP/1.1\r\nContent-Length: 3\r\nContent-Encoding: Identity\r\n\r\n[1]GET /readyz HTTP/1.1\r\n\r\n\r\n",
        output: b"HTTP/1.1 200 OK\r\nContent-Type: application/json; charset=utf-8\r\nContent-Length: 3\r\n\r\n[1]HTTP/1.1 200 OK\r\nContent-Type: text/plain; charset=utf-8\r\nContent-Length: 5\r\n\r\nready",
        served: Served::Short(2, 2),
    },
    // a body shorter than said
    Case {
        input: b"POST /db/execute HTTP/1.1\r\nContent-Length: 3\r\n\r\n[1",
        output: b"",
        served: Served::Short(0, 50),
    },
    // bytes behind a GET without a length are the next request
    Case {
        input: b"GET /readyz HTTP/1.1\r\n\r\n[1]",
        output: READY,
        served: Served::Short(1, 3),
    },
    Case {
        input: b"GET /readyz HTTP/1.1\r\n\r\nGET  / HTTP/1.1\r\n\r\n",
        output: b"HTTP/1.1 200 OK\r\nContent-Type: text/plain; charset=utf-8\r\nContent-Length: 5\r\n\r\nreadyHTTP/1.1 400 Bad Request\r\nContent-Type: text/plain; charset=utf-8\r\nContent-Length: 8\r\nConnection: close\r\n\r\nbad head",
        served: Served::Refused(2),
    },
    Case {
        input: b"GET http://localhost:4001/db/query?q=SELECT+1%2C%202 HTTP/1.1\r\nHost: localhost:4001\r\n\r\n",
        output: b"HTTP/1.1 200 OK\r\nContent-Type: application/json; charset=utf-8\r\nContent-Length: 11\r\n\r\nSELECT 1, 2",
        served: Served::Done(1),
    },
    Case {
        input: b"GET /db/%71uery?q=1 HTTP/1.1\r\n\r\n",
        output: b"HTTP/1.1 200 OK\r\nContent-Type: application/json; charset=utf-8\r\nContent-Length: 1\r\n\r\n1",
        served: Served::Done(1),
    },
    // the path is shown as it is written, without the query
    Case {
        input: b"GET /%78?a HTTP/1.1\r\n\r\n",
        output: b"HTTP/1.1 404 Not Found\r\nContent-Type: text/plain; charset=utf-8\r\nContent-Length: 18\r\n\r\nno such path: /%78",
        served: Served::Done(1),
    },
    Case {
        input: b"GET /readyz HTTP/1.1\r\nContent-Length: 0\r\n\r\n",
        output: READY,
        served: Served::Done(1),
    },
    Case {
        input: b"GET /readyz HTTP/1.1\r\nContent-Length: 18446744073709551615\r\n\r\n",
        output: b"HTTP/1.1 413 Payload Too Large\r\nContent-Type: text/plain; charset=utf-8\r\nContent-Length: 35\r\nConnection: close\r\n\r\nbody too long: 18446744073709551615",
        served: Served::Refused(1),
    },
];

fn first_wrong(alloc: Global, cases: &[Case]) -> Result<Option<usize>, Fail> {
    for (i, case) in cases.iter().enumerate() {
        if !in_one_piece(alloc, case)?
            || !byte_by_byte(alloc, case)?
            || !cut_anywhere(alloc, case)?
        {
            return Ok(Some(i));
        }
    }
    Ok(None)
}

#[test]
fn connections_in_any_pieces(rt: HostRuntime) -> Result<(), Fail> {
    assert_eq!(rt; first_wrong(rt.alloc(), &CASES)?, None);
    Ok(())
}

const MOVED: &[u8] =
    b"HTTP/1.1 301 Moved Permanently\r\nContent-Type: text/plain; charset=utf-8\r\nContent-Length: 0\r\nLocation: http://n1:4001/db/execute\r\nConnection: close\r\n\r\n";

#[test]
fn a_location_is_written(rt: HostRuntime) -> Result<(), Fail> {
    let alloc = rt.alloc();
    let mut source = SureSource::new(b"GET / HTTP/1.0\r\n\r\n".to_vec(alloc)?);
    let holds = gives(alloc, &mut source, &mut Moved, MOVED, Served::Done(1));
    drop(source);
    assert!(rt; holds);
    Ok(())
}
