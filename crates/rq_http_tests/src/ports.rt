//! Ports that answer as a node would.
ghost use Rattle.rq_http.specs.Exchange.{HasPhrase};

use rq_http::{Port, Reply};
use rq_outside::Failed;
use rq_route::{Refusal, Request, Routed, route};
use rq_values::{Bytes, NoMemory};
use std::alloc::Global;

/// Is ready at `/readyz`; elsewhere answers a request that is taken with its statement or its body, and else with
/// its refusal.
#[derive(Drop)]
pub(crate) struct Echo;

impl Port for Echo {
    ghost use Rattle.std.specs.Prelude.{false, []};

    ghost told = { false };

    ghost asked = { λ _. [] };

    ghost faults = { λ _. 0 };

    fn ask(
        &mut self,
        alloc: Global,
        method: &[u8],
        target: &[u8],
        body: &[u8],
    ) -> Result<Reply, Failed> {
        if target == b"/readyz".as_slice() {
            Ok(reply(alloc, 200, false, b"ready"))
        } else {
            Ok(routed_reply(alloc, method, target, body))
        }
    }
}

/// As `Echo`, but after so many answers it fails.
#[derive(Drop)]
pub(crate) struct Failing {
    pub(crate) answers: u64,
    pub(crate) faults: u64,
}

impl Port for Failing {
    ghost use Rattle.std.specs.Prelude.{false, []};

    ghost told = { false };

    ghost asked = { λ _. [] };

    ghost faults = { λ port. port.faults };

    fn ask(
        &mut self,
        alloc: Global,
        method: &[u8],
        target: &[u8],
        body: &[u8],
    ) -> Result<Reply, Failed> {
        if self.answers == 0 {
            self.faults = self.faults.saturating_add(1);
            return Err(Failed);
        }
        self.answers -= 1;
        Ok(routed_reply(alloc, method, target, body))
    }
}

/// Answers every request elsewhere.
#[derive(Drop)]
pub(crate) struct Moved;

impl Port for Moved {
    ghost use Rattle.std.specs.Prelude.{false, []};

    ghost told = { false };

    ghost asked = { λ _. [] };

    ghost faults = { λ _. 0 };

    fn ask(
        &mut self,
        alloc: Global,
        _method: &[u8],
        _target: &[u8],
        _body: &[u8],
    ) -> Result<Reply, Failed> {
        let mut moved = reply(alloc, 301, false, b"");
        drop(std::mem::replace(&mut moved.location, location(alloc)));
        Ok(moved)
    }
}

fn location(alloc: Global) -> Option<Bytes> {
    match Bytes::new(alloc, b"http://n1:4001/db/execute") {
        Ok(location) => Some(location),
        Err(_) => None,
    }
}

fn reply(alloc: Global, status: u16, json: bool, body: &[u8]) -> Reply
    requires { HasPhrase status }
    ensures { HasPhrase result.status }
{
    match Bytes::new(alloc, body) {
        Ok(body) => Reply {
            status,
            json,
            location: None,
            body,
        },
        Err(_) => Reply {
            status: 507,
            json: false,
            location: None,
            body: Bytes::from_vec(Vec::new(alloc)),
        },
    }
}

fn routed_reply(alloc: Global, method: &[u8], target: &[u8], body: &[u8]) -> Reply
    ensures { HasPhrase result.status }
{
    match route(alloc, method, target, body) {
        Ok(Routed::Taken(request)) => taken(alloc, request, body),
        Ok(Routed::Refused(refusal)) => refused(alloc, refusal, method, target),
        Err(NoMemory) => reply(alloc, 507, false, b""),
    }
}

fn taken(alloc: Global, request: Request, body: &[u8]) -> Reply
    ensures { HasPhrase result.status }
{
    let reply = match &request.statement {
        Some(statement) => reply(alloc, 200, true, statement.bytes()),
        None => reply(alloc, 200, true, body),
    };
    drop(request);
    reply
}

/// The status itself, where replies have it.
fn known(status: u16) -> u16
    ensures { HasPhrase result }
{
    match status {
        400 => 400,
        404 => 404,
        405 => 405,
        413 => 413,
        _ => 507,
    }
}

fn refused(alloc: Global, refusal: Refusal, method: &[u8], target: &[u8]) -> Reply
    ensures { HasPhrase result.status }
{
    match refusal.text(alloc, method, target) {
        Ok(text) => reply(alloc, known(refusal.status()), false, &text),
        Err(NoMemory) => reply(alloc, 507, false, b""),
    }
}
