// Requests out of bytes that come in any pieces.
ghost use Rattle.std.specs.Prelude.{◌≡◌, ◌≤◌, ◌<◌, ◌+◌, ◌++◌, [], List, ℕ, length, drop, take, IsTrue, IfOk, OnOk, OnErr, IsErrOf, Ok, false};
ghost use Rattle.rq_outside.specs.Counts.{Rose};
ghost use Rattle.rq_http.specs.Streams.{Came};
ghost use Rattle.rq_http.specs.Incoming.{IsFound, IsJudged, IsBrought, EndsFrom, IsNearHead, IsNearRequest};
ghost use Rattle.rq_http.specs.declared.place.Place.{Place as ThePlace};
ghost use Rattle.rq_http.specs.declared.place.Place.TheVariants.{Before};
ghost use Rattle.rq_http.specs.declared.place.Front.TheVariants.{Head, Part};
ghost use Rattle.rq_http.specs.Front.{scan};
ghost use Rattle.rq_http.specs.declared.incoming.ReadError.TheVariants.{Failed as ReadFailed};

use crate::head::{Framing, Refusal, read_head};
use crate::place::{Front, Place};
use crate::scanning::scan;
use httparse::spans::Span;
use rq_outside::Source;
use std::alloc::AllocError;

/// The longest head, in bytes.
pub const MAX_HEAD: usize = 16_384;

/// What one read brings at most, in bytes.
pub const READ: usize = 4096;

/// Why no bytes came.
#[derive(Clone, Copy)]
pub enum ReadError {
    Failed,
    NoMemory,
}

/// A request whose bytes are held, and where its parts are.
#[derive(Clone, Copy)]
pub struct Asked {
    pub method: Span,
    pub target: Span,
    pub body: Span,
    /// Whether the connection ends after it.
    pub closes: bool,
}

/// What a connection's bytes bring next.
#[derive(Clone, Copy)]
pub enum Next {
    Request(Asked),
    Refused(Refusal),
    /// The input ended.
    End,
}

/// Adds the bytes. A read often brings a single one, which is put without a call for copying any number.
fn add(held: &mut Vec<u8>, bytes: &[u8]) -> Result<(), AllocError>
    ensures ok { OnOk result (held.new.items ≡ held.old.items ++ bytes.now) }
    ensures err { OnErr result (held.new.items ≡ held.old.items) }
{
    if bytes.len() == 1 {
        held.push(bytes[0])?;
        Ok(())
    } else {
        held.extend_from_slice(bytes)
    }
}

/// Holds what the source gives in one read, behind what is held, and answers how many bytes.
pub fn read_more<S: Source>(
    held: &mut Vec<u8>,
    source: &mut S,
    buffer: &mut [u8; READ],
) -> Result<usize, ReadError>
    ensures came { OnOk result (Came S.told (S.left source.old) (S.left source.new) held.old.items held.new.items) }
    ensures count { IfOk result (λ n. length held.new.items ≡ length held.old.items + n) }
    ensures most { length held.new.items ≤ length held.old.items + 4096 }
    ensures end { IsTrue S.told → IfOk result (λ n. n ≡ 0 → S.left source.new ≡ []) }
    ensures later { S.faults source.old ≤ S.faults source.new }
    ensures cause { IsErrOf result ReadFailed → Rose (S.faults source.old) (S.faults source.new) }
{
    match source.read(buffer) {
        Ok(count) => match add(held, &buffer[..count]) {
            Ok(()) => Ok(count),
            Err(_) => Err(ReadError::NoMemory),
        },
        Err(_) => Err(ReadError::Failed),
    }
}

/// Goes on over what is held from where it stood, up to the end of the head.
fn scan_on(held: &[u8], scanned: usize, place: Place) -> Front
    requires within { scanned ≤ length held.now }
    requires limit { scanned ≤ 16384 }
    requires stood { scan 0 Before (take scanned held.now) ≡ Part place }
    ensures value { scan 0 Before (take 16384 held.now) ≡ result }
    ensures from { EndsFrom scanned result }
{
    let end = held.len().min(MAX_HEAD);
    match scan(place, &held[scanned..end]) {
        Front::Head(size) => Front::Head(scanned + size),
        Front::Part(next) => Front::Part(next),
        Front::Broken => Front::Broken,
    }
}

/// Reads up to the end of the head at the start.
pub fn find_head<S: Source>(
    held: &mut Vec<u8>,
    source: &mut S,
    buffer: &mut [u8; READ],
) -> Result<Front, ReadError>
    requires { length held.old.items ≤ 4096 }
    ensures came { OnOk result (Came S.told (S.left source.old) (S.left source.new) held.old.items held.new.items) }
    ensures found { IfOk result (IsFound held.new.items) }
    ensures near { IfOk result (IsNearHead held.new.items) }
    ensures most { length held.new.items ≤ 20480 }
    ensures end { (place : ThePlace) → result ≡ Ok (Part place) → IsTrue S.told → S.left source.new ≡ [] }
    ensures later { S.faults source.old ≤ S.faults source.new }
    ensures cause { IsErrOf result ReadFailed → Rose (S.faults source.old) (S.faults source.new) }
{
    let mut place = Place::Before;
    let mut scanned = 0;
    'reading: loop {
        match scan_on(held, scanned, place) {
            Front::Part(next) => place = next,
            Front::Head(size) => return Ok(Front::Head(size)),
            Front::Broken => return Ok(Front::Broken),
        }
        if held.len() >= MAX_HEAD {
            return Ok(Front::Broken);
        }
        scanned = held.len();
        match read_more(held, source, buffer) {
            Ok(0) => return Ok(Front::Part(place)),
            Ok(_) => {}
            Err(error) => return Err(error),
        }
    }
}

/// Reads until so many bytes are held, and answers whether they are.
pub fn fill<S: Source>(
    held: &mut Vec<u8>,
    source: &mut S,
    buffer: &mut [u8; READ],
    size: usize,
) -> Result<bool, ReadError>
    requires { length held.old.items ≤ size + 4096 }
    ensures most { length held.new.items ≤ size + 4096 }
    ensures came { OnOk result (Came S.told (S.left source.old) (S.left source.new) held.old.items held.new.items) }
    ensures filled { IfOk result (λ whole. IsTrue whole → size ≤ length held.new.items) }
    ensures end { IfOk result (λ whole. whole ≡ false → (length held.new.items < size) × (IsTrue S.told → S.left source.new ≡ [])) }
    ensures later { S.faults source.old ≤ S.faults source.new }
    ensures cause { IsErrOf result ReadFailed → Rose (S.faults source.old) (S.faults source.new) }
{
    while held.len() < size {
        match read_more(held, source, buffer) {
            Ok(0) => return Ok(false),
            Ok(_) => {}
            Err(error) => return Err(error),
        }
    }
    Ok(true)
}

/// What a head says of what follows it.
enum Judged {
    /// Its request, whose body is still to come.
    Coming(Asked),
    Refused(Refusal),
}

/// Judges the head of so many bytes at the start.
fn judge(held: &[u8], size: usize) -> Judged
    requires { IsFound held.now (Head size) }
    ensures { IsJudged held.now size result }
{
    match read_head(&held[..size]) {
        Some(head) => match head.framing {
            Framing::Body(count) => Judged::Coming(Asked {
                method: head.method,
                target: head.target,
                body: Span {
                    start: size,
                    end: size + count as usize,
                },
                closes: head.closes,
            }),
            Framing::Long(count) => Judged::Refused(Refusal::LongBody(count)),
            Framing::Bad => Judged::Refused(Refusal::BadHead),
        },
        None => Judged::Refused(Refusal::BadHead),
    }
}

/// Reads up to the end of the request whose head of so many bytes is held.
fn read_request<S: Source>(
    held: &mut Vec<u8>,
    source: &mut S,
    buffer: &mut [u8; READ],
    size: usize,
) -> Result<Next, ReadError>
    requires found { IsFound held.old.items (Head size) }
    requires near { length held.old.items ≤ size + 4096 }
    ensures came { OnOk result (Came S.told (S.left source.old) (S.left source.new) held.old.items held.new.items) }
    ensures next { IfOk result (IsBrought S.told (S.left source.new) held.new.items) }
    ensures near { IfOk result (IsNearRequest held.new.items) }
    ensures most { length held.new.items ≤ 1069056 }
    ensures later { S.faults source.old ≤ S.faults source.new }
    ensures cause { IsErrOf result ReadFailed → Rose (S.faults source.old) (S.faults source.new) }
{
    match judge(held, size) {
        Judged::Coming(asked) => match fill(held, source, buffer, asked.body.end) {
            Ok(true) => Ok(Next::Request(asked)),
            Ok(false) => Ok(Next::End),
            Err(error) => Err(error),
        },
        Judged::Refused(refusal) => Ok(Next::Refused(refusal)),
    }
}

/// Reads up to the end of the next request.
pub fn next_request<S: Source>(
    held: &mut Vec<u8>,
    source: &mut S,
    buffer: &mut [u8; READ],
) -> Result<Next, ReadError>
    requires { length held.old.items ≤ 4096 }
    ensures came { OnOk result (Came S.told (S.left source.old) (S.left source.new) held.old.items held.new.items) }
    ensures next { IfOk result (IsBrought S.told (S.left source.new) held.new.items) }
    ensures near { IfOk result (IsNearRequest held.new.items) }
    ensures most { length held.new.items ≤ 1069056 }
    ensures later { S.faults source.old ≤ S.faults source.new }
    ensures cause { IsErrOf result ReadFailed → Rose (S.faults source.old) (S.faults source.new) }
{
    match find_head(held, source, buffer) {
        Ok(Front::Head(size)) => read_request(held, source, buffer, size),
        Ok(Front::Broken) => Ok(Next::Refused(Refusal::BadHead)),
        Ok(Front::Part(_)) => Ok(Next::End),
        Err(error) => Err(error),
    }
}
