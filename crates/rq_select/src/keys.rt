//! Conditions that find their row by a key: they fail on no row, and want one value in a column whose values differ.

ghost use Rattle.std.specs.Prelude.{◌≡◌, true, [], ◌∷◌, map, Some, IfOk, IfSome};
ghost use Rattle.rq_eval.specs.Names.{row_of};
ghost use Rattle.rq_operators.specs.declared.operators.UnaryOp.TheVariants as u;
ghost use Rattle.rq_select.specs.Keys as spec;

use crate::table::{Lookup, TableView};
use rq_eval::{ResolvedExpr, RowView};
use rq_grammar::BinaryOp;
use rq_operators::UnaryOp;
use rq_results::push;
use rq_values::{NoMemory, Value};
use std::alloc::Global;

/// Whether a value comes out on each row: a literal or a column.
fn is_plain(expr: &ResolvedExpr) -> bool
    ensures { result ≡ true → spec.AlwaysPlain expr.now }
{
    match expr {
        ResolvedExpr::Literal(_) => true,
        ResolvedExpr::Column(_) => true,
        _ => false,
    }
}

pub fn are_plain(list: &[ResolvedExpr]) -> bool
    ensures { result ≡ true → spec.AllPlain list.now }
{
    for expr in list {
        if !is_plain(expr) {
            return false;
        }
    }
    true
}

fn is_comparison(op: BinaryOp) -> bool
    ensures { result ≡ spec.is_comparison op }
{
    match op {
        BinaryOp::Equal
        | BinaryOp::NotEqual
        | BinaryOp::Is
        | BinaryOp::IsNot
        | BinaryOp::Less
        | BinaryOp::LessEqual
        | BinaryOp::Greater
        | BinaryOp::GreaterEqual => true,
        BinaryOp::Or
        | BinaryOp::And
        | BinaryOp::Like
        | BinaryOp::NotLike
        | BinaryOp::Add
        | BinaryOp::Sub
        | BinaryOp::Mul
        | BinaryOp::Div
        | BinaryOp::Rem
        | BinaryOp::Concat => false,
    }
}

fn is_junction(op: BinaryOp) -> bool
    ensures { result ≡ spec.is_junction op }
{
    match op {
        BinaryOp::Or | BinaryOp::And => true,
        BinaryOp::Equal
        | BinaryOp::NotEqual
        | BinaryOp::Is
        | BinaryOp::IsNot
        | BinaryOp::Like
        | BinaryOp::NotLike
        | BinaryOp::Less
        | BinaryOp::LessEqual
        | BinaryOp::Greater
        | BinaryOp::GreaterEqual
        | BinaryOp::Add
        | BinaryOp::Sub
        | BinaryOp::Mul
        | BinaryOp::Div
        | BinaryOp::Rem
        | BinaryOp::Concat => false,
    }
}

fn is_not(op: UnaryOp) -> bool
    ensures { result ≡ true → op ≡ u.Not }
{
    match op {
        UnaryOp::Not => true,
        UnaryOp::Minus
        | UnaryOp::Abs
        | UnaryOp::Length
        | UnaryOp::Lower
        | UnaryOp::Upper
        | UnaryOp::Hex
        | UnaryOp::TypeOf
        | UnaryOp::Part(_) => false,
    }
}

/// Whether a truth value comes out on each row: comparisons, IS, IN and BETWEEN of columns and literals, and AND, OR and NOT of such.
pub fn is_test(expr: &ResolvedExpr) -> bool
    ensures { result ≡ true → spec.AlwaysTest expr.now }
{
    match expr {
        ResolvedExpr::Unary { op, operand } => {
            if is_not(*op) {
                is_test(operand.get())
            } else {
                false
            }
        }
        ResolvedExpr::Binary { op, left, right } => {
            if is_comparison(*op) {
                is_plain(left.get()) && is_plain(right.get())
            } else if is_junction(*op) {
                is_test(left.get()) && is_test(right.get())
            } else {
                false
            }
        }
        ResolvedExpr::InList { left, list } => is_plain(left.get()) && are_plain(list.as_slice()),
        ResolvedExpr::Between { operand, low, high } => {
            is_plain(operand.get()) && (is_plain(low.get()) && is_plain(high.get()))
        }
        _ => false,
    }
}

/// The place and the value of `column = literal`, or of `literal = column`.
fn equal_part<'a>(left: &'a ResolvedExpr, right: &'a ResolvedExpr) -> Option<(usize, &'a Value)>
    ensures { IfSome result (λ p. spec.EqualWants left.now right.now p.0 p.1.now) }
{
    match left {
        ResolvedExpr::Column(place) => match right {
            ResolvedExpr::Literal(value) => Some((*place, value)),
            _ => None,
        },
        ResolvedExpr::Literal(value) => match right {
            ResolvedExpr::Column(place) => Some((*place, value)),
            _ => None,
        },
        _ => None,
    }
}

fn look_up_equal<'t, T: TableView>(
    left: &ResolvedExpr,
    right: &ResolvedExpr,
    table: &'t T,
) -> Lookup<'t>
    ensures { spec.Tells (T.means table.now) (spec.equal left.now right.now) result }
{
    match equal_part(left, right) {
        Some((place, value)) => table.find(place, value),
        None => Lookup::Unknown,
    }
}

/// What the table tells of the rows for which a condition is true: of the first conjunct `column = literal` of which it knows.
fn look_up<'t, T: TableView>(expr: &ResolvedExpr, table: &'t T) -> Lookup<'t>
    ensures { spec.Tells (T.means table.now) expr.now result }
{
    match expr {
        ResolvedExpr::Binary { op, left, right } => match op {
            BinaryOp::Equal => look_up_equal(left.get(), right.get(), table),
            BinaryOp::And => match look_up(left.get(), table) {
                Lookup::Unknown => look_up(right.get(), table),
                Lookup::NoRow => Lookup::NoRow,
                Lookup::Row(row) => Lookup::Row(row),
            },
            _ => Lookup::Unknown,
        },
        _ => Lookup::Unknown,
    }
}

fn one_row<'t>(alloc: Global, row: RowView<'t>) -> Result<Vec<RowView<'t>>, NoMemory>
    ensures { IfOk result (λ rows. map row_of rows.items ≡ row_of row.entry ∷ []) }
{
    let mut rows = Vec::new(alloc);
    match push(&mut rows, row) {
        Ok(()) => Ok(rows),
        Err(e) => Err(e),
    }
}

/// The rows for which a condition that fails on no row can be true, where the table tells them.
#[tactic(auto, using(crate::proofs::Tests::left_by_none, crate::proofs::Tests::left_by_one))]
fn found_by_test<'t, T: TableView>(
    alloc: Global,
    expr: &ResolvedExpr,
    table: &'t T,
) -> Result<Option<Vec<RowView<'t>>>, NoMemory>
    requires { spec.AlwaysTest expr.now }
    ensures { spec.FindsRows (Some expr.now) (T.means table.now) result }
{
    match look_up(expr, table) {
        Lookup::Unknown => Ok(None),
        Lookup::NoRow => Ok(Some(Vec::new(alloc))),
        Lookup::Row(row) => match one_row(alloc, row) {
            Ok(rows) => Ok(Some(rows)),
            Err(e) => Err(e),
        },
    }
}

/// None or one row, where WHERE fails on no row and the table tells the one that it wants: what WHERE leaves of all rows it leaves of these.
pub fn found_rows<'t, T: TableView>(
    alloc: Global,
    filter: &Option<ResolvedExpr>,
    table: &'t T,
) -> Result<Option<Vec<RowView<'t>>>, NoMemory>
    ensures { spec.FindsRows filter.now (T.means table.now) result }
{
    match filter {
        Some(expr) => {
            if is_test(expr) {
                found_by_test(alloc, expr, table)
            } else {
                Ok(None)
            }
        }
        None => Ok(None),
    }
}

/// The rows that WHERE is to be evaluated over: those that are found, or else all.
pub fn rows_for<'t, T: TableView>(
    alloc: Global,
    filter: &Option<ResolvedExpr>,
    table: &'t T,
) -> Result<Vec<RowView<'t>>, NoMemory>
    ensures { IfOk result (λ rows. spec.Left filter.now (map row_of rows.items) (T.means table.now)) }
{
    match found_rows(alloc, filter, table) {
        Ok(Some(rows)) => Ok(rows),
        Ok(None) => table.rows(alloc, None),
        Err(e) => Err(e),
    }
}
