//! Statements prepared in order.
ghost use Rattle.std.specs.Prelude.{◌≡◌, ◌≤◌, IfOk, IfErr, OnOk};
ghost use Rattle.rq_preparing.specs.Prepared.{PrepareFaulted};
ghost use Rattle.rq_asking.specs.Asked as spec;

use rq_grammar::Stmt;
use rq_outside::Draws;
use rq_preparing::{PrepareError, prepare};
use rq_request::Statement;
use rq_statement::Item;
use rq_values::Seq;
use std::alloc::Global;

/// The items of the statements, each with the words that those before it left.
#[tactic(auto, using(crate::proofs::Carrying::start, crate::proofs::Carrying::unasked))]
pub fn prepared<R: Draws>(
    alloc: Global,
    statements: &[Statement],
    draws: &mut R,
    moment: u64,
) -> Result<Seq<Item>, PrepareError>
    ensures prepared { IfOk result (spec.ArePrepared R.told moment statements.now (R.words draws.old) (R.words draws.new)) }
    ensures unasked { IfErr result (spec.IsUnasked R.told moment statements.now (R.words draws.old) (R.words draws.new)) }
    ensures cause { IfErr result (PrepareFaulted (R.faults draws.old) (R.faults draws.new)) }
    ensures later { R.faults draws.old ≤ R.faults draws.new }
    ensures ok { OnOk result (R.faults draws.new ≡ R.faults draws.old) }
{
    let mut items = Seq::new(alloc);
    for statement in statements {
        let item = prepare(
            alloc,
            statement.text.bytes(),
            &statement.params,
            draws,
            moment,
        );
        match item {
            Ok(item) => items.push(item)?,
            Err(error) => {
                drop(items);
                return Err(error);
            }
        }
    }
    Ok(items)
}

fn changes(stmt: &Stmt) -> bool
    ensures { result ≡ spec.changes stmt.now }
{
    match stmt {
        Stmt::Select(_) => false,
        Stmt::Create { .. }
        | Stmt::Drop { .. }
        | Stmt::Insert { .. }
        | Stmt::Update { .. }
        | Stmt::Delete { .. } => true,
    }
}

fn is_write(item: &Item) -> bool
    ensures { result ≡ spec.is_write item.now }
{
    match item {
        Item::Run(settled) => changes(settled.stmt()),
        Item::Fail(_) => false,
    }
}

/// Whether one of the items is a write.
pub fn has_write(items: &[Item]) -> bool
    ensures { result ≡ spec.has_write items.now }
{
    for item in items {
        if is_write(item) {
            return true;
        }
    }
    false
}
