//! The reply to a request.
ghost use Rattle.std.specs.Prelude.{◌≡◌, IsTrue, IfOk};
ghost use Rattle.rq_http.specs.Exchange.{HasPhrase};
ghost use Rattle.rq_asking.specs.Requested.{requested_of};
ghost use Rattle.rq_desk.specs.Asks.{unbuilt_of};
ghost use Rattle.rq_serve.specs.Replies as spec;

use crate::desk::Desk;
use rq_asking::{Defect, Requested, ask_of, read_request};
use rq_desk::{DeskError, Unbuilt, unbuilt_of};
use rq_http::Reply;
use rq_hub::{Naming, Said};
use rq_outside::Draws;
use rq_preparing::PrepareError;
use rq_replies::reply;
use rq_request::{Ask, Say, Shape};
use rq_values::{Bytes, NoMemory};
use std::alloc::{AllocError, Global};

/// Why there is no reply.
#[derive(Clone, Copy, Drop)]
pub enum AskError {
    Desk,
    Draws,
    NoMemory,
}

impl From<NoMemory> for AskError {
    fn from(_error: NoMemory) -> AskError {
        AskError::NoMemory
    }
}

impl From<AllocError> for AskError {
    fn from(_error: AllocError) -> AskError {
        AskError::NoMemory
    }
}

impl From<PrepareError> for AskError {
    fn from(error: PrepareError) -> AskError {
        match error {
            PrepareError::Draws => AskError::Draws,
            PrepareError::NoMemory => AskError::NoMemory,
        }
    }
}

impl From<DeskError> for AskError {
    fn from(error: DeskError) -> AskError {
        match error {
            DeskError::Failed => AskError::Desk,
            DeskError::NoMemory => AskError::NoMemory,
        }
    }
}

/// A reply in plain text.
fn plain(status: u16, text: Vec<u8>) -> Reply
    ensures { result ≡ spec.plain status text.items }
{
    Reply {
        status,
        json: false,
        location: None,
        body: Bytes::from_vec(text),
    }
}

/// A reply in plain text.
fn plain_words(alloc: Global, status: u16, words: &[u8]) -> Result<Reply, AskError>
    ensures { IfOk result (λ reply. reply ≡ spec.plain status words.now) }
{
    Ok(plain(status, Vec::from_slice(alloc, words)?))
}

/// The reply to a request that has a defect.
fn defect_reply(
    alloc: Global,
    defect: Defect,
    method: &[u8],
    target: &[u8],
) -> Result<Reply, AskError>
    ensures { IfOk result (λ reply. reply ≡ spec.defect_reply method.now target.now defect) }
{
    Ok(plain(defect.status(), defect.text(alloc, method, target)?))
}

fn unbuilt_text(unbuilt: Unbuilt) -> &'static [u8]
    ensures { result.now ≡ spec.unbuilt_text unbuilt }
{
    match unbuilt {
        Unbuilt::Transaction => b"bad parameter: transaction",
        Unbuilt::Mixed => b"not built: a list that writes and reads",
        Unbuilt::Level => b"bad parameter: level",
        Unbuilt::Freshness => b"bad parameter: freshness",
        Unbuilt::Kind => b"not built",
    }
}

/// Whether what the node says is written as JSON.
fn is_json(say: &Say) -> bool
    ensures { result ≡ spec.is_json say.now }
{
    match say {
        Say::Refused(_) | Say::Ready | Say::Backup(_) | Say::Moved(_) => false,
        Say::Results(_) | Say::Queued(_) | Say::Loaded | Say::Nodes(_) | Say::Changed => true,
    }
}

/// Where else the same request is to be asked.
fn location_of(alloc: Global, say: &Say) -> Result<Option<Bytes>, NoMemory>
    ensures { IfOk result (λ location. location ≡ spec.location_of say.now) }
{
    match say {
        Say::Moved(address) => Ok(Some(Bytes::new(alloc, address.bytes())?)),
        Say::Results(_)
        | Say::Queued(_)
        | Say::Loaded
        | Say::Backup(_)
        | Say::Nodes(_)
        | Say::Ready
        | Say::Changed
        | Say::Refused(_) => Ok(None),
    }
}

/// The reply that says what the node said.
fn said_reply(alloc: Global, say: &Say, shape: Shape) -> Result<Reply, AskError>
    ensures { IfOk result (λ reply. reply ≡ spec.said_reply shape say.now) }
{
    let mut body = Vec::new(alloc);
    reply(alloc, say, shape, &mut body)?;
    let location = location_of(alloc, say)?;
    Ok(Reply {
        status: say.status(),
        json: is_json(say),
        location,
        body: Bytes::from_vec(body),
    })
}

/// The reply that says an answer of the node.
fn reply_to<J: Naming>(alloc: Global, said: &Said<J>, shape: Shape) -> Result<Reply, AskError>
    ensures { IfOk result (spec.IsSaid J.start said.now.answer.number shape) }
{
    said_reply(alloc, said.say(), shape)
}

/// Puts an ask that is built to the desk, and says the answer to it.
fn put_built<J: Naming, Q: Desk<J>>(
    alloc: Global,
    desk: &mut Q,
    ask: &Ask,
    shape: Shape,
) -> Result<Reply, AskError>
    requires built { unbuilt_of ask.now.op ≡ None }
    ensures { IfOk result (λ reply. spec.PutOne (record { told = Q.told; before = Q.asked desk.old; after = Q.asked desk.new }) ask.now × spec.IsSaid J.start ask.now.number shape reply) }
{
    let said = desk.put(alloc, ask)?;
    match reply_to(alloc, &said, shape) {
        Ok(reply) => Ok(reply),
        Err(error) => Err(error),
    }
}

/// Puts an ask to the desk, and says the answer to it; or says what of it isn't built.
fn put_ask<J: Naming, Q: Desk<J>>(
    alloc: Global,
    desk: &mut Q,
    ask: &Ask,
    shape: Shape,
) -> Result<Reply, AskError>
    ensures { IfOk result (spec.AnswersAsk J.start (record { told = Q.told; before = Q.asked desk.old; after = Q.asked desk.new }) shape ask.now (unbuilt_of ask.now.op)) }
{
    match unbuilt_of(&ask.op) {
        None => put_built(alloc, desk, ask, shape),
        Some(unbuilt) => plain_words(alloc, 400, unbuilt_text(unbuilt)),
    }
}

/// The reply to a request without a defect.
fn answer<J: Naming, Q: Desk<J>, R: Draws>(
    alloc: Global,
    desk: &mut Q,
    draws: &mut R,
    moment: u64,
    requested: Requested,
    target: &[u8],
) -> Result<Reply, AskError>
    ensures { IfOk result (spec.IsAnswered J.start (record { told = Q.told; before = Q.asked desk.old; after = Q.asked desk.new }) (record { told = R.told; before = R.words draws.old; after = R.words draws.new; moment = moment }) target.now requested) }
{
    let shape = requested.request.shape;
    let number = match desk.number() {
        Ok(number) => number,
        Err(error) => {
            drop(requested);
            return Err(AskError::from(error));
        }
    };
    let asked = ask_of(alloc, &requested, target, number, draws, moment);
    drop(requested);
    match asked {
        Ok(ask) => {
            let reply = put_ask(alloc, desk, &ask, shape);
            drop(ask);
            reply
        }
        Err(error) => Err(AskError::from(error)),
    }
}

/// The reply to a request, but for want of memory.
fn reply_of<J: Naming, Q: Desk<J>, R: Draws>(
    alloc: Global,
    desk: &mut Q,
    draws: &mut R,
    moment: u64,
    method: &[u8],
    target: &[u8],
    body: &[u8],
) -> Result<Reply, AskError>
    ensures { IfOk result (spec.IsReplyTo J.start (record { told = Q.told; before = Q.asked desk.old; after = Q.asked desk.new }) (record { told = R.told; before = R.words draws.old; after = R.words draws.new; moment = moment }) method.now target.now (requested_of method.now target.now body.now)) }
{
    match read_request(alloc, method, target, body) {
        Ok(requested) => answer(alloc, desk, draws, moment, requested, target),
        Err(Defect::NoMemory) => Err(AskError::NoMemory),
        Err(defect) => defect_reply(alloc, defect, method, target),
    }
}

/// The reply to a request: its first defect; or what a rule of the node answered to the ask that it asks for, which was put
/// to the desk; or what of it isn't built; or that memory was wanting.
#[tactic(auto, using(crate::proofs::Phrases::reply_phrase, crate::proofs::Phrases::answered_phrase))]
pub fn answer_request<J: Naming, Q: Desk<J>, R: Draws>(
    alloc: Global,
    desk: &mut Q,
    draws: &mut R,
    moment: u64,
    method: &[u8],
    target: &[u8],
    body: &[u8],
) -> Result<Reply, AskError>
    ensures reply { IfOk result (spec.IsReply J.start (record { told = Q.told; before = Q.asked desk.old; after = Q.asked desk.new }) (record { told = R.told; before = R.words draws.old; after = R.words draws.new; moment = moment }) method.now target.now body.now) }
    ensures status { IfOk result (λ reply. HasPhrase reply.status) }
{
    match reply_of(alloc, desk, draws, moment, method, target, body) {
        Ok(reply) => Ok(reply),
        Err(AskError::NoMemory) => plain_words(alloc, 507, b"out of memory"),
        Err(error) => Err(error),
    }
}
