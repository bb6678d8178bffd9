//! The longest body, and the most requests of a connection.
use crate::connections::gives;
use crate::ports::Echo;
use rq_http::Served;
use rq_outside::SureSource;
use std::alloc::Global;
use std::test::Fail;

const READY: &[u8] =
    b"HTTP/1.1 200 OK\r\nContent-Type: text/plain; charset=utf-8\r\nContent-Length: 5\r\n\r\nready";

const LAST: &[u8] =
    b"HTTP/1.1 200 OK\r\nContent-Type: text/plain; charset=utf-8\r\nContent-Length: 5\r\nConnection: close\r\n\r\nready";

/// One text so many times.
fn repeated(alloc: Global, text: &[u8], count: usize) -> Result<Vec<u8>, Fail> {
    let mut whole = Vec::new(alloc);
    for _ in 0..count {
        whole.extend_from_slice(text)?;
    }
    Ok(whole)
}

/// Whether so many requests are answered one after another, and end so.
fn answers(alloc: Global, count: usize, served: Served) -> Result<bool, Fail> {
    let input = repeated(alloc, b"GET /readyz HTTP/1.1\r\n\r\n", count)?;
    let mut source = SureSource::new(input);
    let mut output = repeated(alloc, READY, count.min(9999))?;
    if count > 9999 {
        output.extend_from_slice(LAST)?;
    }
    let holds = gives(alloc, &mut source, &mut Echo, &output, served);
    drop((source, output));
    Ok(holds)
}

#[test]
fn the_last_request_closes(rt: HostRuntime) -> Result<(), Fail> {
    let alloc = rt.alloc();
    assert!(rt; answers(alloc, 9999, Served::Done(9999))?);
    assert!(rt; answers(alloc, 10_000, Served::Limit(10_000))?);
    assert!(rt; answers(alloc, 10_001, Served::Limit(10_000))?);
    Ok(())
}

/// A body of 1,048,576 bytes is taken, also in the answer.
#[test]
fn the_longest_body_is_taken(rt: HostRuntime) -> Result<(), Fail> {
    let alloc = rt.alloc();
    let body = repeated(alloc, b"0123456789abcdef", 65_536)?;
    let mut input = b"POST /db/execute HTTP/1.1\r\nContent-Length: 1048576\r\n\r\n".to_vec(alloc)?;
    let mut output =
        b"HTTP/1.1 200 OK\r\nContent-Type: application/json; charset=utf-8\r\nContent-Length: 1048576\r\n\r\n".to_vec(
            alloc,
        )?;
    input.extend_from_slice(&body)?;
    output.extend_from_slice(&body)?;
    drop(body);
    let mut source = SureSource::new(input);
    let holds = gives(alloc, &mut source, &mut Echo, &output, Served::Done(1));
    drop((source, output));
    assert!(rt; holds);
    Ok(())
}
