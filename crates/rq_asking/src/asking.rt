//! The ask of a request.
ghost use Rattle.std.specs.Prelude.{◌≡◌, ◌≤◌, IfOk, IfErr, OnOk, All};
ghost use Rattle.rq_preparing.specs.Prepared.{PrepareFaulted};
ghost use Rattle.rq_asking.specs.Asked as spec;

use crate::preparing::{has_write, prepared};
use crate::reading::Requested;
use rq_outside::Draws;
use rq_preparing::PrepareError;
use rq_request::{Ask, Op};
use rq_route::{Path, Request};
use rq_statement::{Item, StatementList};
use rq_values::{Bytes, NoMemory, Seq};
use std::alloc::Global;

/// The items as a list to write.
fn list_of(alloc: Global, transaction: bool, items: Seq<Item>) -> Result<StatementList, NoMemory>
    ensures { IfOk result (λ list. list ≡ record { transaction = transaction; items = items }) }
{
    let mut list = StatementList::new(alloc, transaction);
    for item in items.into_vec() {
        match list.push(item) {
            Ok(()) => {}
            Err(error) => {
                drop(list);
                return Err(error);
            }
        }
    }
    Ok(list)
}

fn written(alloc: Global, request: &Request, items: Seq<Item>, mixed: bool) -> Result<Op, NoMemory>
    ensures { IfOk result (λ op. op ≡ spec.written request.now items mixed) }
{
    let transaction = request.transaction && has_write(items.as_slice());
    match list_of(alloc, transaction, items) {
        Ok(list) => Ok(Op::Write { list, mixed }),
        Err(error) => Err(error),
    }
}

fn read_at(request: &Request, items: Seq<Item>) -> Op
    ensures { result ≡ spec.read_at request.now items }
{
    Op::Read {
        items,
        level: request.level,
        freshness: None,
    }
}

/// What a request asks for with these items.
fn op_of(alloc: Global, request: &Request, items: Seq<Item>) -> Result<Op, NoMemory>
    ensures { IfOk result (λ op. op ≡ spec.op_at request.now.path request.now items) }
{
    match request.path {
        Path::Execute => written(alloc, request, items, false),
        Path::Query => Ok(read_at(request, items)),
        Path::Request => {
            if has_write(items.as_slice()) {
                written(alloc, request, items, true)
            } else {
                Ok(read_at(request, items))
            }
        }
    }
}

fn ask_with(
    alloc: Global,
    request: &Request,
    target: &[u8],
    number: u64,
    items: Seq<Item>,
) -> Result<Ask, NoMemory>
    ensures { IfOk result (λ ask. ask ≡ record { number = number; timeout = request.now.timeout; target = target.now; op = spec.op_at request.now.path request.now items }) }
{
    let op = op_of(alloc, request, items)?;
    match Bytes::new(alloc, target) {
        Ok(target) => Ok(Ask {
            number,
            timeout: request.timeout,
            target,
            op,
        }),
        Err(error) => {
            drop(op);
            Err(error)
        }
    }
}

/// The ask of this number that a request with this target becomes at this moment, with its statements prepared in order.
pub fn ask_of<R: Draws>(
    alloc: Global,
    requested: &Requested,
    target: &[u8],
    number: u64,
    draws: &mut R,
    moment: u64,
) -> Result<Ask, PrepareError>
    ensures asked { IfOk result (spec.IsAsk R.told requested.now target.now number moment (R.words draws.old) (R.words draws.new)) }
    ensures unasked { IfErr result (spec.IsUnasked R.told moment requested.now.statements (R.words draws.old) (R.words draws.new)) }
    ensures cause { IfErr result (PrepareFaulted (R.faults draws.old) (R.faults draws.new)) }
    ensures later { R.faults draws.old ≤ R.faults draws.new }
    ensures ok { OnOk result (R.faults draws.new ≡ R.faults draws.old) }
{
    let items = prepared(alloc, requested.statements.as_slice(), draws, moment)?;
    Ok(ask_with(alloc, &requested.request, target, number, items)?)
}
