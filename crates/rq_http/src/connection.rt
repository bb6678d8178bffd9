// A connection, served to its end.
ghost use Rattle.std.specs.Prelude.{◌≡◌, ◌≤◌, ◌<◌, ◌+◌, ◌++◌, ◌∷◌, [], List, ℕ, length, drop, IsTrue, IfOk, OnOk, OnErr, IsErrOf, true, if◌then◌else◌, ◌==◌};
ghost use Rattle.rq_outside.specs.Counts.{Rose};
ghost use Rattle.rq_http.specs.Incoming.{IsAsked, IsNearTurn, request_at};
ghost use Rattle.rq_http.specs.Run.{Happens, ComesTo, IsTurn, Finally, IsWholeTurn, IsAnswer, IsPartOfAnswer, Runs, Ends, BrokenOff, IsWhole, plain, refusal_reply};
ghost use Rattle.rq_http.specs.Response.{response};
ghost use Rattle.rq_http.specs.Streams.{Took, IsPrefix};
ghost use Rattle.http.specs.StatusCode.{IsStatusCode};
ghost use Rattle.rq_http.specs.declared.connection.Served.TheVariants.{Done as ServedDone, Short as ServedShort};
ghost use Rattle.rq_http.specs.declared.connection.ServeError.TheVariants.{Read as ServeRead, Write as ServeWrite, Port as ServePort};

use crate::giving::give;
use crate::head::Refusal;
use crate::incoming::{Asked, Next, READ, ReadError, next_request};
use crate::port::{Port, Reply};
use crate::response::response_bytes;
use rq_outside::{Sink, SinkError, Source};
use rq_values::Bytes;
use std::alloc::{AllocError, Global};

/// The most requests that a connection answers.
const MAX_REQUESTS: u64 = 10_000;

/// How a connection was served, with the number of the requests that were answered.
#[derive(Clone, Copy, PartialEq, Eq)]
pub enum Served {
    /// The input ended between two requests, or the connection ended after a request.
    Done(u64),
    /// The input ended within a request, after so many bytes of it.
    Short(u64, u64),
    /// The last answer was to a head that is refused.
    Refused(u64),
    /// The last request that is answered was.
    Limit(u64),
}

/// Why a connection wasn't served to its end.
#[derive(Clone, Copy, PartialEq, Eq)]
pub enum ServeError {
    Read,
    Write,
    Port,
    NoMemory,
}

/// What a turn of a connection came to.
#[derive(Clone, Copy)]
enum Turn {
    On,
    End(Served),
}

/// Drops the first bytes.
fn drop_front(held: &mut Vec<u8>, count: usize)
    requires { count ≤ length held.old.items }
    ensures { held.new.items ≡ drop count held.old.items }
{
    let left = held.len() - count;
    held.copy_within(count.., 0);
    held.truncate(left);
}

fn plain(alloc: Global, status: u16, text: &[u8]) -> Result<Reply, AllocError>
    ensures { IfOk result (λ reply. reply ≡ plain status text.now) }
{
    Ok(Reply {
        status,
        json: false,
        location: None,
        body: Bytes::from_vec(Vec::from_slice(alloc, text)?),
    })
}

fn refusal_reply(alloc: Global, refusal: Refusal) -> Result<Reply, AllocError>
    ensures { IfOk result (λ reply. reply ≡ refusal_reply refusal) }
{
    match refusal {
        Refusal::BadHead => plain(alloc, 400, b"bad head"),
        Refusal::LongBody(count) => {
            let text = format!(in alloc; "body too long: {count}")?;
            plain(alloc, 413, text.as_bytes())
        }
    }
}

/// Writes a response.
fn respond<K: Sink>(
    alloc: Global,
    closes: bool,
    reply: &Reply,
    sink: &mut K,
) -> Result<(), ServeError>
    requires { IsStatusCode reply.now.status }
    ensures ok { OnOk result (IsTrue K.told → K.taken sink.new ≡ K.taken sink.old ++ response closes reply.now) }
    ensures err { OnErr result (Took K.told (K.taken sink.old) (K.taken sink.new) (λ out. IsPrefix out (response closes reply.now))) }
    ensures later { K.faults sink.old ≤ K.faults sink.new }
    ensures write { IsErrOf result ServeWrite → Rose (K.faults sink.old) (K.faults sink.new) }
    ensures other { (IsErrOf result ServeRead → ⊥) × (IsErrOf result ServePort → ⊥) }
{
    match response_bytes(alloc, closes, reply) {
        Ok(bytes) => match give(sink, &bytes) {
            Ok(()) => Ok(()),
            Err(SinkError::Failed) => Err(ServeError::Write),
            Err(SinkError::NoMemory) => Err(ServeError::NoMemory),
        },
        Err(_) => Err(ServeError::NoMemory),
    }
}

/// Asks the port, and writes the response.
fn answer<K: Sink, P: Port>(
    alloc: Global,
    held: &[u8],
    asked: Asked,
    last: bool,
    sink: &mut K,
    port: &mut P,
) -> Result<(), ServeError>
    requires { IsAsked held.now asked }
    ensures ok { OnOk result (Happens (record { source = K.told; sink = K.told; port = P.told }) (record { left = []; taken = K.taken sink.old; asked = P.asked port.old }) (record { left = []; taken = K.taken sink.new; asked = P.asked port.new }) (IsAnswer (request_at held.now asked) last)) }
    ensures err { OnErr result (Happens (record { source = K.told; sink = K.told; port = P.told }) (record { left = []; taken = K.taken sink.old; asked = P.asked port.old }) (record { left = []; taken = K.taken sink.new; asked = P.asked port.new }) (IsPartOfAnswer (request_at held.now asked) last)) }
    ensures silent { IsErrOf result ServePort → (Happens (record { source = K.told; sink = K.told; port = P.told }) (record { left = []; taken = K.taken sink.old; asked = P.asked port.old }) (record { left = []; taken = K.taken sink.new; asked = P.asked port.new }) (λ out done. (out ≡ []) × (done ≡ []))) }
    ensures later { (K.faults sink.old ≤ K.faults sink.new) × (P.faults port.old ≤ P.faults port.new) }
    ensures write { IsErrOf result ServeWrite → Rose (K.faults sink.old) (K.faults sink.new) }
    ensures port { IsErrOf result ServePort → Rose (P.faults port.old) (P.faults port.new) }
    ensures other { IsErrOf result ServeRead → ⊥ }
{
    let method = asked.method.of(held);
    let target = asked.target.of(held);
    let body = asked.body.of(held);
    match port.ask(alloc, method, target, body) {
        Ok(reply) => match respond(alloc, last, &reply, sink) {
            Ok(()) => Ok(()),
            Err(error) => Err(error),
        },
        Err(_) => Err(ServeError::Port),
    }
}

/// Answers a request that is held.
fn serve_request<K: Sink, P: Port>(
    alloc: Global,
    held: &mut Vec<u8>,
    asked: Asked,
    count: u64,
    sink: &mut K,
    port: &mut P,
) -> Result<Turn, ServeError>
    requires asked { IsAsked held.old.items asked }
    requires count { count < 10000 }
    requires near { length held.old.items ≤ asked.body.end + 4096 }
    ensures few { OnOk result (length held.new.items ≤ 4096) }
    ensures most { length held.new.items ≤ length held.old.items }
    ensures ok { IfOk result (IsTurn (record { source = K.told; sink = K.told; port = P.told }) (record { left = []; taken = K.taken sink.old; asked = P.asked port.old }) (record { left = []; taken = K.taken sink.new; asked = P.asked port.new }) held.old.items count held.new.items) }
    ensures err { OnErr result (ComesTo (record { source = K.told; sink = K.told; port = P.told }) (record { left = []; taken = K.taken sink.old; asked = P.asked port.old }) (record { left = []; taken = K.taken sink.new; asked = P.asked port.new }) held.old.items count BrokenOff) }
    ensures silent { IsErrOf result ServePort → (ComesTo (record { source = K.told; sink = K.told; port = P.told }) (record { left = []; taken = K.taken sink.old; asked = P.asked port.old }) (record { left = []; taken = K.taken sink.new; asked = P.asked port.new }) held.old.items count IsWhole) }
    ensures later { (K.faults sink.old ≤ K.faults sink.new) × (P.faults port.old ≤ P.faults port.new) }
    ensures write { IsErrOf result ServeWrite → Rose (K.faults sink.old) (K.faults sink.new) }
    ensures port { IsErrOf result ServePort → Rose (P.faults port.old) (P.faults port.new) }
    ensures other { IsErrOf result ServeRead → ⊥ }
{
    let limit = count + 1 == MAX_REQUESTS;
    let last = asked.closes | limit;
    match answer(alloc, held, asked, last, sink, port) {
        Ok(()) => {}
        Err(error) => return Err(error),
    }
    drop_front(held, asked.body.end);
    if asked.closes {
        Ok(Turn::End(Served::Done(count + 1)))
    } else if limit {
        Ok(Turn::End(Served::Limit(count + 1)))
    } else {
        Ok(Turn::On)
    }
}

/// Answers a head that is refused.
fn refuse<K: Sink>(alloc: Global, refusal: Refusal, sink: &mut K) -> Result<(), ServeError>
    ensures ok { OnOk result (IsTrue K.told → K.taken sink.new ≡ K.taken sink.old ++ response true (refusal_reply refusal)) }
    ensures err { OnErr result (Took K.told (K.taken sink.old) (K.taken sink.new) (λ out. IsPrefix out (response true (refusal_reply refusal)))) }
    ensures later { K.faults sink.old ≤ K.faults sink.new }
    ensures write { IsErrOf result ServeWrite → Rose (K.faults sink.old) (K.faults sink.new) }
    ensures other { (IsErrOf result ServeRead → ⊥) × (IsErrOf result ServePort → ⊥) }
{
    match refusal_reply(alloc, refusal) {
        Ok(reply) => respond(alloc, true, &reply, sink),
        Err(_) => Err(ServeError::NoMemory),
    }
}

fn ended(held: &[u8], count: u64) -> Served
    ensures { result ≡ (if length held.now == 0 then ServedDone count else ServedShort count (length held.now)) }
{
    if held.is_empty() {
        Served::Done(count)
    } else {
        Served::Short(count, held.len() as u64)
    }
}

/// Reads the next request, and answers it.
fn serve_next<S: Source, K: Sink, P: Port>(
    alloc: Global,
    held: &mut Vec<u8>,
    count: u64,
    source: &mut S,
    buffer: &mut [u8; READ],
    sink: &mut K,
    port: &mut P,
) -> Result<Turn, ServeError>
    requires count { count < 10000 }
    requires near { length held.old.items ≤ 4096 }
    ensures near { IfOk result (IsNearTurn held.new.items) }
    ensures most { length held.new.items ≤ 1069056 }
    ensures ok { IfOk result (IsWholeTurn (record { source = S.told; sink = K.told; port = P.told }) (record { left = S.left source.old; taken = K.taken sink.old; asked = P.asked port.old }) (record { left = S.left source.new; taken = K.taken sink.new; asked = P.asked port.new }) held.old.items count held.new.items) }
    ensures err { OnErr result (Finally (record { source = S.told; sink = K.told; port = P.told }) (record { left = S.left source.old; taken = K.taken sink.old; asked = P.asked port.old }) (record { left = S.left source.new; taken = K.taken sink.new; asked = P.asked port.new }) held.old.items count BrokenOff) }
    ensures silent { IsErrOf result ServePort → (Finally (record { source = S.told; sink = K.told; port = P.told }) (record { left = S.left source.old; taken = K.taken sink.old; asked = P.asked port.old }) (record { left = S.left source.new; taken = K.taken sink.new; asked = P.asked port.new }) held.old.items count IsWhole) }
    ensures later { (S.faults source.old ≤ S.faults source.new) × (K.faults sink.old ≤ K.faults sink.new) × (P.faults port.old ≤ P.faults port.new) }
    ensures read { IsErrOf result ServeRead → Rose (S.faults source.old) (S.faults source.new) }
    ensures write { IsErrOf result ServeWrite → Rose (K.faults sink.old) (K.faults sink.new) }
    ensures port { IsErrOf result ServePort → Rose (P.faults port.old) (P.faults port.new) }
{
    match next_request(held, source, buffer) {
        Ok(Next::Request(asked)) => {
            match serve_request(alloc, held, asked, count, sink, port) {
                Ok(Turn::On) => Ok(Turn::On),
                Ok(Turn::End(served)) => Ok(Turn::End(served)),
                Err(error) => Err(error),
            }
        }
        Ok(Next::Refused(refusal)) => match refuse(alloc, refusal, sink) {
            Ok(()) => Ok(Turn::End(Served::Refused(count + 1))),
            Err(error) => Err(error),
        },
        Ok(Next::End) => Ok(Turn::End(ended(held, count))),
        Err(ReadError::Failed) => Err(ServeError::Read),
        Err(ReadError::NoMemory) => Err(ServeError::NoMemory),
    }
}

/// Answers the requests of a connection, one after another, up to its end.
pub fn serve_connection<S: Source, K: Sink, P: Port>(
    alloc: Global,
    source: &mut S,
    sink: &mut K,
    port: &mut P,
) -> Result<Served, ServeError>
    ensures ok { IfOk result (λ served. Runs (record { source = S.told; sink = K.told; port = P.told }) (record { left = S.left source.old; taken = K.taken sink.old; asked = P.asked port.old }) (record { left = S.left source.new; taken = K.taken sink.new; asked = P.asked port.new }) (λ bytes. Ends bytes served)) }
    ensures err { OnErr result (Runs (record { source = S.told; sink = K.told; port = P.told }) (record { left = S.left source.old; taken = K.taken sink.old; asked = P.asked port.old }) (record { left = S.left source.new; taken = K.taken sink.new; asked = P.asked port.new }) BrokenOff) }
    ensures silent { IsErrOf result ServePort → (Runs (record { source = S.told; sink = K.told; port = P.told }) (record { left = S.left source.old; taken = K.taken sink.old; asked = P.asked port.old }) (record { left = S.left source.new; taken = K.taken sink.new; asked = P.asked port.new }) IsWhole) }
    ensures read { IsErrOf result ServeRead → Rose (S.faults source.old) (S.faults source.new) }
    ensures write { IsErrOf result ServeWrite → Rose (K.faults sink.old) (K.faults sink.new) }
    ensures port { IsErrOf result ServePort → Rose (P.faults port.old) (P.faults port.new) }
{
    let mut held = Vec::new(alloc);
    let mut buffer = [0u8; READ];
    let mut count = 0;
    'serving: loop {
        match serve_next(alloc, &mut held, count, source, &mut buffer, sink, port) {
            Ok(Turn::On) => count += 1,
            Ok(Turn::End(served)) => return Ok(served),
            Err(error) => return Err(error),
        }
    }
}
