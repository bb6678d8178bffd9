//! Heads that are refused, each as the whole input of a connection.
use crate::connections::{Case, byte_by_byte, in_one_piece};
use rq_http::Served;
use std::alloc::Global;
use std::test::Fail;

const BAD: &[u8] =
    b"HTTP/1.1 400 Bad Request\r\nContent-Type: text/plain; charset=utf-8\r\nContent-Length: 8\r\nConnection: close\r\n\r\nbad head";

const HEADS: [&[u8]; 37] = [
    // lengths
    b"POST / HTTP/1.1\r\nContent-Length: 3\r\nContent-Length: 3\r\n\r\nabc",
    b"POST / HTTP/1.1\r\nContent-Length: 3\r\nContent-Length: 4\r\n\r\nabcd",
    b"POST / HTTP/1.1\r\nContent-Length: 3, 3\r\n\r\nabc",
    b"POST / HTTP/1.1\r\nContent-Length: +3\r\n\r\nabc",
    b"POST / HTTP/1.1\r\nContent-Length: -1\r\n\r\n",
    b"POST / HTTP/1.1\r\nContent-Length: 03\r\n\r\nabc",
    b"POST / HTTP/1.1\r\nContent-Length: 0x3\r\n\r\nabc",
    b"POST / HTTP/1.1\r\nContent-Length: 3 \t3\r\n\r\nabc",
    b"POST / HTTP/1.1\r\nContent-Length:\r\n\r\n",
    b"POST / HTTP/1.1\r\nContent-Length: 18446744073709551616\r\n\r\n",
    b"GET / HTTP/1.1\r\nCONTENT-LENGTH: 0\r\ncontent-length: 0\r\n\r\n",
    // codings
    b"POST / HTTP/1.1\r\nTransfer-Encoding: chunked\r\n\r\n0\r\n\r\n",
    b"POST / HTTP/1.1\r\ntransfer-encoding: identity\r\n\r\n",
    b"POST / HTTP/1.1\r\nTransfer-Encoding:\r\n\r\n",
    b"POST / HTTP/1.1\r\nTransfer-Encoding: chunked\r\nContent-Length: 3\r\n\r\nabc",
    b"POST / HTTP/1.1\r\nContent-Encoding: gzip\r\nContent-Length: 3\r\n\r\nabc",
    b"POST / HTTP/1.1\r\ncontent-encoding: identity, gzip\r\n\r\n",
    // bytes that no head has, and bytes where they have no place
    b"GET / HTTP/1.1\rHost: a\r\n\r\n",
    b"GET / HTTP/1.1\r\n\rHost: a\r\n\r\n",
    b"GET / HTTP/1.1\r\nHost: a\r\n\rGET / HTTP/1.1\r\n\r\n",
    b"\0",
    b"GET /\0 HTTP/1.1\r\n\r\n",
    b"GET / HTTP/1.1\r\nHost: a\0b\r\n\r\n",
    b"GET / HTTP/1.1\r\nHost: a\x7fb\r\n\r\n",
    b"GET /\t HTTP/1.1\r\n\r\n",
    b"\x16\x03\x01\x02\x00\x01\x00\x01\xfc\x03\x03",
    // lines
    b"GET /\r\n\r\n",
    b"GET / HTTP/0.9\r\n\r\n",
    b"GET / HTTP/2.0\r\n\r\n",
    b"PRI * HTTP/2.0\r\n\r\nSM\r\n\r\n",
    b"GET  / HTTP/1.1\r\n\r\n",
    b" GET / HTTP/1.1\r\n\r\n",
    b"GET / x HTTP/1.1\r\n\r\n",
    b"GET / HTTP/1.1\r\nHost : a\r\n\r\n",
    b"GET / HTTP/1.1\r\nHost\r\n\r\n",
    b"GET / HTTP/1.1\r\n: a\r\n\r\n",
    b"GET / HTTP/1.1\r\nHost: a\r\n folded: b\r\n\r\n",
];

fn is_bad(alloc: Global, head: &[u8]) -> Result<bool, Fail> {
    let case = Case {
        input: head,
        output: BAD,
        served: Served::Refused(1),
    };
    Ok(in_one_piece(alloc, &case)? && byte_by_byte(alloc, &case)?)
}

fn first_taken(alloc: Global, heads: &[&[u8]]) -> Result<Option<usize>, Fail> {
    for (i, head) in heads.iter().enumerate() {
        if !is_bad(alloc, head)? {
            return Ok(Some(i));
        }
    }
    Ok(None)
}

#[test]
fn hostile_heads_are_refused(rt: HostRuntime) -> Result<(), Fail> {
    assert_eq!(rt; first_taken(rt.alloc(), &HEADS)?, None);
    Ok(())
}

/// A head with so many fields, or one more byte of target for each.
fn long_head(alloc: Global, target: usize, fields: usize) -> Result<Vec<u8>, Fail> {
    let mut head = b"GET /".to_vec(alloc)?;
    for _ in 0..target {
        head.push(b'x')?;
    }
    head.extend_from_slice(b" HTTP/1.0\r\n")?;
    for _ in 0..fields {
        head.extend_from_slice(b"A: b\r\n")?;
    }
    head.extend_from_slice(b"\r\n")?;
    Ok(head)
}

fn is_refused(alloc: Global, target: usize, fields: usize) -> Result<bool, Fail> {
    let head = long_head(alloc, target, fields)?;
    let refused = is_bad(alloc, &head);
    drop(head);
    refused
}

/// A head of 64 fields and one of 16,384 bytes are the longest.
#[test]
fn long_heads_are_refused(rt: HostRuntime) -> Result<(), Fail> {
    let alloc = rt.alloc();
    assert!(rt; !is_refused(alloc, 0, 64)?);
    assert!(rt; is_refused(alloc, 0, 65)?);
    assert!(rt; !is_refused(alloc, 16_366, 0)?);
    assert!(rt; is_refused(alloc, 16_367, 0)?);
    Ok(())
}
