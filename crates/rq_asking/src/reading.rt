//! A request with its statements.
ghost use Rattle.std.specs.Prelude.{◌≡◌, Ok, IfOk, IfErr};
ghost use Rattle.rq_asking.specs.Requested as spec;

use rq_bodies::{BodyError, parse_list};
use rq_request::{Params, Statement};
use rq_route::{Refusal, Request, Routed, route};
use rq_values::{NoMemory, Seq, Text, TryCopy};
use std::alloc::Global;

/// What a request asks for, and its statements in order.
pub struct Requested {
    pub request: Request,
    pub statements: Seq<Statement>,
}

impl Drop for Requested {
    fn drop(self) {
        let Requested {
            request,
            statements,
        } = self;
        drop(request);
        drop(statements);
    }
}

/// Why a request asks for nothing, in the order in which this is looked at.
#[derive(Clone, Copy)]
pub enum Defect {
    /// Its path, its method, the length of its body, or a parameter.
    Routing(Refusal),
    /// Its body.
    Body(BodyError),
    NoMemory,
}

impl From<NoMemory> for Defect {
    ghost use Rattle.std.specs.Prelude.{◌≡◌};
    ghost use Rattle.rq_asking.specs.declared.reading.Defect.TheVariants as defect;

    ghost from_gives = { λ _ e. e ≡ defect.NoMemory };

    fn from(_e: NoMemory) -> Defect {
        Defect::NoMemory
    }
}

/// The statement that a GET names.
fn named(alloc: Global, text: &Text) -> Result<Seq<Statement>, NoMemory>
    ensures { IfOk result (λ list. list ≡ spec.named text.now) }
{
    let text = text.copy(alloc)?;
    let mut list = Seq::new(alloc);
    match list.push(Statement {
        text,
        params: Params::None,
    }) {
        Ok(()) => Ok(list),
        Err(error) => {
            drop(list);
            Err(error)
        }
    }
}

/// The statements of a request with this body.
fn statements_of(alloc: Global, request: &Request, body: &[u8]) -> Result<Seq<Statement>, Defect>
    ensures { spec.Answers (spec.listed request.now.statement body.now) result }
{
    match &request.statement {
        Some(text) => Ok(named(alloc, text)?),
        None => match parse_list(alloc, body) {
            Ok(list) => Ok(list),
            Err(BodyError::NoMemory) => Err(Defect::NoMemory),
            Err(error) => Err(Defect::Body(error)),
        },
    }
}

/// What a request asks for with its statements, or its first defect: its path, its method, the length of its body, its
/// parameters, its body.
pub fn read_request(
    alloc: Global,
    method: &[u8],
    target: &[u8],
    body: &[u8],
) -> Result<Requested, Defect>
    ensures { spec.Answers (spec.requested_of method.now target.now body.now) result }
{
    match route(alloc, method, target, body)? {
        Routed::Refused(refusal) => Err(Defect::Routing(refusal)),
        Routed::Taken(request) => match statements_of(alloc, &request, body) {
            Ok(statements) => Ok(Requested {
                request,
                statements,
            }),
            Err(error) => {
                drop(request);
                Err(error)
            }
        },
    }
}

impl Defect {
    /// The status of the reply, as HTTP has it.
    pub fn status(self) -> u16
        ensures { result ≡ spec.status_of self }
    {
        match self {
            Defect::Routing(refusal) => refusal.status(),
            Defect::Body(error) => error.status(),
            Defect::NoMemory => 507,
        }
    }

    /// The text of the reply to a request with this method and target.
    pub fn text(self, alloc: Global, method: &[u8], target: &[u8]) -> Result<Vec<u8>, NoMemory>
        ensures { IfOk result (λ text. text.items ≡ spec.text_of method.now target.now self) }
    {
        match self {
            Defect::Routing(refusal) => refusal.text(alloc, method, target),
            Defect::Body(error) => {
                let mut text = Vec::new(alloc);
                error.write(alloc, &mut text)?;
                Ok(text)
            }
            Defect::NoMemory => Ok(Vec::from_slice(alloc, b"out of memory")?),
        }
    }
}
