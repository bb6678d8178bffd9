//! The nodes of a statement, in source order.
ghost use Rattle.std.specs.Prelude.{◌≡◌, ◌++◌, [], IfOk, OnOk};
ghost use Rattle.rq_binding.specs.Statements as spec;
ghost use Rattle.rq_binding.specs.Nodes.{all_nodes};

use crate::gathering::{gather, gather_list};
use crate::node::{Node, Sort};
use rq_grammar::{Expr, InsertRows, OrderTerm, ResultItem, SelectStmt, Stmt};
use rq_values::{NoMemory, Seq, Text};
use sqlite_items::Items;
use std::alloc::Global;

/// The nodes before ORDER BY, in it, and behind it.
pub struct Places {
    pub before: Seq<Node>,
    pub ordered: Seq<Node>,
    pub behind: Seq<Node>,
}

impl Drop for Places {
    fn drop(self) {
        let Places {
            before,
            ordered,
            behind,
        } = self;
        drop(before);
        drop(ordered);
        drop(behind);
    }
}

fn gather_maybe(
    alloc: Global,
    sort: Sort,
    expr: &Option<Expr>,
    into: &mut Seq<Node>,
) -> Result<(), NoMemory>
    ensures { OnOk result (into.new ≡ into.old ++ spec.maybe_nodes sort expr.now) }
{
    match expr {
        None => Ok(()),
        Some(expr) => gather(alloc, sort, expr, into),
    }
}

fn gather_result(
    alloc: Global,
    sort: Sort,
    item: &ResultItem,
    into: &mut Seq<Node>,
) -> Result<(), NoMemory>
    ensures { OnOk result (into.new ≡ into.old ++ spec.result_nodes sort item.now) }
{
    match item {
        ResultItem::All => Ok(()),
        ResultItem::Value { expr, .. } => gather(alloc, sort, expr, into),
    }
}

fn gather_results(
    alloc: Global,
    sort: Sort,
    results: &[ResultItem],
    into: &mut Seq<Node>,
) -> Result<(), NoMemory>
    ensures { OnOk result (into.new ≡ into.old ++ spec.every (spec.result_nodes sort) results.now) }
{
    for item in results {
        gather_result(alloc, sort, item, into)?;
    }
    Ok(())
}

fn gather_terms(
    alloc: Global,
    sort: Sort,
    order: &[OrderTerm],
    into: &mut Seq<Node>,
) -> Result<(), NoMemory>
    ensures { OnOk result (into.new ≡ into.old ++ spec.every (spec.term_nodes sort) order.now) }
{
    for term in order {
        gather(alloc, sort, &term.expr, into)?;
    }
    Ok(())
}

fn gather_sets(
    alloc: Global,
    sort: Sort,
    sets: &[(Text, Expr)],
    into: &mut Seq<Node>,
) -> Result<(), NoMemory>
    ensures { OnOk result (into.new ≡ into.old ++ spec.every (spec.set_nodes sort) sets.now) }
{
    for set in sets {
        gather(alloc, sort, &set.1, into)?;
    }
    Ok(())
}

fn gather_rows(
    alloc: Global,
    sort: Sort,
    rows: &[Items<Expr>],
    into: &mut Seq<Node>,
) -> Result<(), NoMemory>
    ensures { OnOk result (into.new ≡ into.old ++ spec.every (all_nodes sort) rows.now) }
{
    for row in rows {
        gather_list(alloc, sort, row.as_slice(), into)?;
    }
    Ok(())
}

fn gather_select(
    alloc: Global,
    sort: Sort,
    select: &SelectStmt,
    into: &mut Places,
) -> Result<(), NoMemory>
    requires { into.old ≡ spec.plain [] }
    ensures { OnOk result (into.new ≡ spec.select_nodes sort select.now) }
{
    gather_results(alloc, sort, select.results.as_slice(), &mut into.before)?;
    gather_maybe(alloc, sort, &select.filter, &mut into.before)?;
    gather_terms(alloc, sort, select.order.as_slice(), &mut into.ordered)?;
    gather_maybe(alloc, sort, &select.limit, &mut into.behind)?;
    gather_maybe(alloc, sort, &select.offset, &mut into.behind)
}

fn gather_inserted(
    alloc: Global,
    sort: Sort,
    rows: &InsertRows,
    into: &mut Places,
) -> Result<(), NoMemory>
    requires { into.old ≡ spec.plain [] }
    ensures { OnOk result (into.new ≡ spec.rows_nodes sort rows.now) }
{
    match rows {
        InsertRows::Values(rows) => gather_rows(alloc, sort, rows.as_slice(), &mut into.before),
        InsertRows::Select(select) => gather_select(alloc, sort, select, into),
    }
}

fn gather_stmt(alloc: Global, sort: Sort, stmt: &Stmt, into: &mut Places) -> Result<(), NoMemory>
    requires { into.old ≡ spec.plain [] }
    ensures { OnOk result (into.new ≡ spec.stmt_nodes sort stmt.now) }
{
    match stmt {
        Stmt::Create { .. } | Stmt::Drop { .. } => Ok(()),
        Stmt::Insert { rows, .. } => gather_inserted(alloc, sort, rows, into),
        Stmt::Update { sets, filter, .. } => {
            gather_sets(alloc, sort, sets.as_slice(), &mut into.before)?;
            gather_maybe(alloc, sort, filter, &mut into.before)
        }
        Stmt::Delete { filter, .. } => gather_maybe(alloc, sort, filter, &mut into.before),
        Stmt::Select(select) => gather_select(alloc, sort, select, into),
    }
}

/// The nodes of the statement.
pub fn nodes_of(alloc: Global, sort: Sort, stmt: &Stmt) -> Result<Places, NoMemory>
    ensures { IfOk result (λ places. places ≡ spec.stmt_nodes sort stmt.now) }
{
    let mut places = Places {
        before: Seq::new(alloc),
        ordered: Seq::new(alloc),
        behind: Seq::new(alloc),
    };
    match gather_stmt(alloc, sort, stmt, &mut places) {
        Ok(()) => Ok(places),
        Err(error) => {
            drop(places);
            Err(error)
        }
    }
}

/// The nodes, and more behind them.
fn appended(nodes: Seq<Node>, more: Seq<Node>) -> Result<Seq<Node>, NoMemory>
    ensures { IfOk result (λ all. all ≡ nodes ++ more) }
{
    let mut nodes = nodes.into_vec();
    let mut more = more.into_vec();
    let done = nodes.append(&mut more);
    drop(more);
    match done {
        Ok(()) => Ok(Seq::from_vec(nodes)),
        Err(_) => {
            drop(nodes);
            Err(NoMemory)
        }
    }
}

impl Places {
    /// All of them, in source order.
    pub fn joined(self) -> Result<Seq<Node>, NoMemory>
        ensures { IfOk result (λ nodes. nodes ≡ spec.in_order self) }
    {
        let Places {
            before,
            ordered,
            behind,
        } = self;
        match appended(before, ordered) {
            Ok(front) => appended(front, behind),
            Err(error) => {
                drop(behind);
                Err(error)
            }
        }
    }
}
