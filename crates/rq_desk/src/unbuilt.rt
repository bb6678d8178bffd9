//! What a node that is the one voter doesn't do yet.
ghost use Rattle.std.specs.Prelude.{◌≡◌};
ghost use Rattle.rq_desk.specs.Asks as spec;

use rq_grammar::Stmt;
use rq_request::{Level, Op};
use rq_statement::Item;

/// What of an ask isn't built.
#[derive(Clone, Copy)]
pub enum Unbuilt {
    /// A list that is done whole or not at all.
    Transaction,
    /// A list that writes and reads.
    Mixed,
    /// The level of a read.
    Level,
    /// How long ago the leader may have been heard.
    Freshness,
    /// Its kind.
    Kind,
}

fn is_select(stmt: &Stmt) -> bool
    ensures { result ≡ spec.is_select stmt.now }
{
    match stmt {
        Stmt::Select(_) => true,
        Stmt::Create { .. }
        | Stmt::Drop { .. }
        | Stmt::Insert { .. }
        | Stmt::Update { .. }
        | Stmt::Delete { .. } => false,
    }
}

fn reads(item: &Item) -> bool
    ensures { result ≡ spec.reads item.now }
{
    match item {
        Item::Run(settled) => is_select(settled.stmt()),
        Item::Fail(_) => false,
    }
}

/// Whether one of the items is a query.
fn has_read(items: &[Item]) -> bool
    ensures { result ≡ spec.has_read items.now }
{
    for item in items {
        if reads(item) {
            return true;
        }
    }
    false
}

fn unbuilt_write(transaction: bool, mixed: bool) -> Option<Unbuilt>
    ensures { result ≡ spec.unbuilt_write transaction mixed }
{
    if transaction {
        Some(Unbuilt::Transaction)
    } else if mixed {
        Some(Unbuilt::Mixed)
    } else {
        None
    }
}

fn unbuilt_level(level: Level) -> Option<Unbuilt>
    ensures { result ≡ spec.unbuilt_level level }
{
    match level {
        Level::None | Level::Weak => None,
        Level::Linearizable | Level::Strong => Some(Unbuilt::Level),
    }
}

/// Why the node doesn't do what it is asked, so far.
pub fn unbuilt_of(op: &Op) -> Option<Unbuilt>
    ensures { result ≡ spec.unbuilt_of op.now }
{
    match op {
        Op::Write { list, mixed } => {
            unbuilt_write(list.transaction(), *mixed && has_read(list.items()))
        }
        Op::Read {
            items: _,
            level,
            freshness,
        } => match freshness {
            None => unbuilt_level(*level),
            Some(_) => Some(Unbuilt::Freshness),
        },
        Op::Queue { .. }
        | Op::Backup { .. }
        | Op::Load { .. }
        | Op::Nodes
        | Op::Ready
        | Op::Join { .. }
        | Op::Remove { .. } => Some(Unbuilt::Kind),
    }
}
