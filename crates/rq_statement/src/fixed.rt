//! Statements without parameters, random nodes and time nodes.
ghost use Rattle.std.specs.Prelude.{◌≡◌, map};
ghost use Rattle.rq_grammar.specs.Proper.{all_of};
ghost use Rattle.rq_statement.specs.Fixed as spec;

use crate::sight::{Sight, sight_of};
use rq_grammar::{Expr, InsertRows, OrderTerm, ResultItem, SelectStmt, Stmt};
use rq_values::Text;
use sqlite_items::Items;

fn is_fixed(expr: &Expr) -> bool
    ensures { result ≡ spec.is_fixed expr.now }
{
    match sight_of(expr) {
        Sight::Open => false,
        Sight::Now => true,
        Sight::Fixed => true,
    }
}

fn is_maybe_fixed(expr: &Option<Expr>) -> bool
    ensures { result ≡ spec.maybe_fixed expr.now }
{
    match expr {
        None => true,
        Some(expr) => is_fixed(expr),
    }
}

fn is_row_fixed(row: &[Expr]) -> bool
    ensures { result ≡ spec.row_fixed row.now }
{
    for expr in row {
        if !is_fixed(expr) {
            return false;
        }
    }
    true
}

fn is_result_fixed(item: &ResultItem) -> bool
    ensures { result ≡ spec.result_fixed item.now }
{
    match item {
        ResultItem::All => true,
        ResultItem::Value { expr, .. } => is_fixed(expr),
    }
}

fn are_results_fixed(results: &[ResultItem]) -> bool
    ensures { result ≡ all_of (map spec.result_fixed results.now) }
{
    for item in results {
        if !is_result_fixed(item) {
            return false;
        }
    }
    true
}

fn are_terms_fixed(terms: &[OrderTerm]) -> bool
    ensures { result ≡ all_of (map spec.term_fixed terms.now) }
{
    for term in terms {
        if !is_fixed(&term.expr) {
            return false;
        }
    }
    true
}

fn is_select_fixed(select: &SelectStmt) -> bool
    ensures { result ≡ spec.select_fixed select.now }
{
    are_results_fixed(select.results.as_slice())
        && is_maybe_fixed(&select.filter)
        && are_terms_fixed(select.order.as_slice())
        && is_maybe_fixed(&select.limit)
        && is_maybe_fixed(&select.offset)
}

fn are_rows_fixed(rows: &[Items<Expr>]) -> bool
    ensures { result ≡ all_of (map spec.row_fixed rows.now) }
{
    for row in rows {
        if !is_row_fixed(row.as_slice()) {
            return false;
        }
    }
    true
}

fn is_inserted_fixed(inserted: &InsertRows) -> bool
    ensures { result ≡ spec.rows_fixed inserted.now }
{
    match inserted {
        InsertRows::Values(rows) => are_rows_fixed(rows.as_slice()),
        InsertRows::Select(select) => is_select_fixed(select),
    }
}

fn are_sets_fixed(sets: &[(Text, Expr)]) -> bool
    ensures { result ≡ all_of (map spec.set_fixed sets.now) }
{
    for set in sets {
        if !is_fixed(&set.1) {
            return false;
        }
    }
    true
}

/// Whether the statement has no parameter, no random node and no time node.
pub fn is_fixed_statement(stmt: &Stmt) -> bool
    ensures { result ≡ spec.statement_fixed stmt.now }
{
    match stmt {
        Stmt::Create { .. } => true,
        Stmt::Drop { .. } => true,
        Stmt::Insert { rows, .. } => is_inserted_fixed(rows),
        Stmt::Update { sets, filter, .. } => {
            are_sets_fixed(sets.as_slice()) && is_maybe_fixed(filter)
        }
        Stmt::Delete { filter, .. } => is_maybe_fixed(filter),
        Stmt::Select(select) => is_select_fixed(select),
    }
}
