//! The value of a resolved expression. The recursion is as deep as the expression: what is read has at most 100 levels, and
//! settling makes none deeper.

ghost use Rattle.std.specs.Prelude.{◌≡◌, IfOk, Ok, Err, map};
ghost use Rattle.rq_operators.specs.Aggregates as operator_aggregates;
ghost use Rattle.rq_operators.specs.Functions as functions;
ghost use Rattle.rq_operators.specs.Operators as operators;
ghost use Rattle.rq_eval.specs.Outcome.{Answers, stated};
ghost use Rattle.rq_eval.specs.Aggregates as aggregates;
ghost use Rattle.rq_eval.specs.Names.{row_of, value_at};
ghost use Rattle.rq_eval.specs.Resolved as spec;
ghost use Rattle.rq_eval.specs.Value as meaning;

use crate::error::{EvalError, StmtError};
use crate::resolved::{ResolveError, ResolvedExpr};
use crate::row::RowView;
use rq_grammar::BinaryOp;
use rq_operators::{
    AggregateOp, OperatorError, UnaryOp, ValueError, apply_binary, apply_unary, between, count,
    first_non_null, in_list, one_more, start,
};
use rq_values::{NoMemory, TryCopy, Value};
use sqlite_items::{Items, at};
use std::alloc::Global;

fn unary(alloc: Global, op: UnaryOp, a: &Value) -> Result<Value, EvalError>
    ensures { Answers (stated (functions.unary op a.now)) result }
{
    match apply_unary(alloc, op, a) {
        Ok(value) => Ok(value),
        Err(OperatorError::Says(error)) => Err(EvalError::Says(StmtError::Value(error))),
        Err(OperatorError::NoMemory) => Err(EvalError::NoMemory),
    }
}

fn binary(alloc: Global, op: BinaryOp, a: &Value, b: &Value) -> Result<Value, EvalError>
    ensures { Answers (stated (functions.binary op a.now b.now)) result }
{
    match apply_binary(alloc, op, a, b) {
        Ok(value) => Ok(value),
        Err(OperatorError::Says(error)) => Err(EvalError::Says(StmtError::Value(error))),
        Err(OperatorError::NoMemory) => Err(EvalError::NoMemory),
    }
}

/// What an operator that takes no memory gives.
fn given(outcome: Result<Value, ValueError>) -> Result<Value, EvalError>
    ensures { Answers (stated outcome) result }
{
    match outcome {
        Ok(value) => Ok(value),
        Err(error) => Err(EvalError::Says(StmtError::Value(error))),
    }
}

fn copy_of(alloc: Global, value: &Value) -> Result<Value, EvalError>
    ensures { Answers (Ok value.now) result }
{
    match value.copy(alloc) {
        Ok(value) => Ok(value),
        Err(_) => Err(EvalError::NoMemory),
    }
}

fn first_in(alloc: Global, list: &[Value]) -> Result<Value, EvalError>
    ensures { Answers (Ok (operators.first_non_null list.now)) result }
{
    match first_non_null(list) {
        Some(value) => copy_of(alloc, value),
        None => Ok(Value::Null),
    }
}

/// The value at a place of a row; behind the columns stands the rowid.
fn column(alloc: Global, row: &RowView<'_>, place: usize) -> Result<Value, EvalError>
    ensures { Answers (Ok (value_at (row_of row.now) place)) result }
{
    match at(row.values, place) {
        Some(value) => copy_of(alloc, value),
        None => Ok(Value::Int(row.rowid)),
    }
}

fn error_of(alloc: Global, error: &ResolveError) -> Result<StmtError, NoMemory>
    ensures { IfOk result (λ e. e ≡ spec.error_of error.now) }
{
    match error {
        ResolveError::NoColumn(name) => match name.copy(alloc) {
            Ok(name) => Ok(StmtError::NoColumn(name)),
            Err(e) => Err(e),
        },
        ResolveError::NoQualifiedColumn { table, column } => match table.copy(alloc) {
            Ok(table) => match column.copy(alloc) {
                Ok(column) => Ok(StmtError::NoQualifiedColumn { table, column }),
                Err(e) => {
                    drop(table);
                    Err(e)
                }
            },
            Err(e) => Err(e),
        },
        ResolveError::NoFunction(name) => match name.copy(alloc) {
            Ok(name) => Ok(StmtError::NoFunction(name)),
            Err(e) => Err(e),
        },
        ResolveError::WrongArguments(name) => match name.copy(alloc) {
            Ok(name) => Ok(StmtError::WrongArguments(name)),
            Err(e) => Err(e),
        },
        ResolveError::MisuseOfAggregate => Ok(StmtError::MisuseOfAggregate),
    }
}

fn says(alloc: Global, error: &ResolveError) -> Result<Value, EvalError>
    ensures { Answers (Err (spec.error_of error.now)) result }
{
    match error_of(alloc, error) {
        Ok(error) => Err(EvalError::Says(error)),
        Err(_) => Err(EvalError::NoMemory),
    }
}

/// An operand's value: where it stands in the expression or in the row, or one that was made.
pub enum Operand<'e, 'r> {
    Literal(&'e Value),
    Column(&'r Value),
    Made(Value),
}

impl Drop for Operand<'_, '_> {
    fn drop(self) {
        match self {
            Operand::Literal(_) => {}
            Operand::Column(_) => {}
            Operand::Made(value) => drop(value),
        }
    }
}

impl Operand<'_, '_> {
    fn get(&self) -> &Value
        ensures { result.now ≡ spec.operand_value self.now }
    {
        match self {
            Operand::Literal(value) => value,
            Operand::Column(value) => value,
            Operand::Made(value) => value,
        }
    }
}

/// The value at a place of a row; behind the columns stands the rowid.
fn column_operand<'e, 'r>(row: &RowView<'r>, place: usize) -> Operand<'e, 'r>
    ensures { spec.operand_value result ≡ value_at (row_of row.now) place }
{
    match at(row.values, place) {
        Some(value) => Operand::Column(value),
        None => Operand::Made(Value::Int(row.rowid)),
    }
}

/// The value, not copied where it stands somewhere.
#[cycle(evaluating)]
fn operand_of<'e, 'r>(
    alloc: Global,
    expr: &'e ResolvedExpr,
    row: &RowView<'r>,
    rows: &[RowView<'_>],
) -> Result<Operand<'e, 'r>, EvalError>
    ensures { spec.IsOperand (spec.evaluated (map row_of rows.now) expr.now (row_of row.now)) result }
{
    match expr {
        ResolvedExpr::Literal(value) => Ok(Operand::Literal(value)),
        ResolvedExpr::Column(place) => Ok(column_operand(row, *place)),
        _ => match evaluate(alloc, expr, row, rows) {
            Ok(value) => Ok(Operand::Made(value)),
            Err(e) => Err(e),
        },
    }
}

fn with_one_more(op: AggregateOp, so_far: Value, value: Value) -> Result<Value, EvalError>
    ensures { Answers (stated (operator_aggregates.one_more op so_far value)) result }
{
    given(one_more(op, so_far, value))
}

/// The aggregate over the rows in their order.
#[cycle(evaluating)]
fn over(
    alloc: Global,
    op: AggregateOp,
    operand: &ResolvedExpr,
    rows: &[RowView<'_>],
) -> Result<Value, EvalError>
    ensures { Answers (aggregates.over op (spec.evaluated (map row_of rows.now) operand.now) (operator_aggregates.start op) (map row_of rows.now)) result }
{
    let mut so_far = start(op);
    for row in rows {
        match evaluate(alloc, operand, row, rows) {
            Ok(value) => so_far = with_one_more(op, so_far, value)?,
            Err(e) => {
                drop(so_far);
                return Err(e);
            }
        }
    }
    Ok(so_far)
}

/// The values from left to right, or the first error.
#[cycle(evaluating)]
fn all_evaluated(
    alloc: Global,
    exprs: &[ResolvedExpr],
    row: &RowView<'_>,
    rows: &[RowView<'_>],
) -> Result<Items<Value>, EvalError>
    ensures { Answers (spec.all_evaluated (map row_of rows.now) exprs.now (row_of row.now)) result }
{
    let mut found = Items::new(alloc);
    for expr in exprs {
        match evaluate(alloc, expr, row, rows) {
            Ok(value) => found.push(value)?,
            Err(e) => {
                drop(found);
                return Err(e);
            }
        }
    }
    Ok(found)
}

#[cycle(evaluating)]
fn evaluate_unary(
    alloc: Global,
    op: UnaryOp,
    operand: &ResolvedExpr,
    row: &RowView<'_>,
    rows: &[RowView<'_>],
) -> Result<Value, EvalError>
    ensures { Answers (meaning.on_one op (spec.evaluated (map row_of rows.now) operand.now) (row_of row.now)) result }
{
    let a = operand_of(alloc, operand, row, rows)?;
    unary(alloc, op, a.get())
}

/// The operator on an operand and on what is right of it.
#[cycle(evaluating)]
fn evaluate_right(
    alloc: Global,
    op: BinaryOp,
    a: Operand<'_, '_>,
    right: &ResolvedExpr,
    row: &RowView<'_>,
    rows: &[RowView<'_>],
) -> Result<Value, EvalError>
    ensures { Answers (meaning.on_value op (spec.operand_value a.entry) (spec.evaluated (map row_of rows.now) right.now (row_of row.now))) result }
{
    match operand_of(alloc, right, row, rows) {
        Ok(b) => binary(alloc, op, a.get(), b.get()),
        Err(e) => {
            drop(a);
            Err(e)
        }
    }
}

/// IN of an operand.
#[cycle(evaluating)]
fn evaluate_list(
    alloc: Global,
    a: Operand<'_, '_>,
    list: &[ResolvedExpr],
    row: &RowView<'_>,
    rows: &[RowView<'_>],
) -> Result<Value, EvalError>
    ensures { Answers (meaning.in_values_of (spec.operand_value a.entry) (spec.all_evaluated (map row_of rows.now) list.now (row_of row.now))) result }
{
    match all_evaluated(alloc, list, row, rows) {
        Ok(list) => Ok(in_list(a.get(), list.as_slice())),
        Err(e) => {
            drop(a);
            Err(e)
        }
    }
}

/// BETWEEN of an operand and of its lower bound.
#[cycle(evaluating)]
fn evaluate_high(
    alloc: Global,
    a: Operand<'_, '_>,
    low: Operand<'_, '_>,
    high: &ResolvedExpr,
    row: &RowView<'_>,
    rows: &[RowView<'_>],
) -> Result<Value, EvalError>
    ensures { Answers (meaning.up_to (spec.operand_value a.entry) (spec.operand_value low.entry) (spec.evaluated (map row_of rows.now) high.now (row_of row.now))) result }
{
    match operand_of(alloc, high, row, rows) {
        Ok(high) => Ok(between(a.get(), low.get(), high.get())),
        Err(e) => {
            drop(a);
            drop(low);
            Err(e)
        }
    }
}

#[cycle(evaluating)]
fn evaluate_coalesce(
    alloc: Global,
    list: &[ResolvedExpr],
    row: &RowView<'_>,
    rows: &[RowView<'_>],
) -> Result<Value, EvalError>
    ensures { Answers (meaning.coalesced (map (spec.evaluated (map row_of rows.now)) list.now) (row_of row.now)) result }
{
    let list = all_evaluated(alloc, list, row, rows)?;
    first_in(alloc, list.as_slice())
}

/// The value over a row, with the rows that aggregates are over.
#[cycle(evaluating)]
pub fn evaluate(
    alloc: Global,
    expr: &ResolvedExpr,
    row: &RowView<'_>,
    rows: &[RowView<'_>],
) -> Result<Value, EvalError>
    ensures { Answers (spec.evaluated (map row_of rows.now) expr.now (row_of row.now)) result }
{
    match expr {
        ResolvedExpr::Literal(value) => copy_of(alloc, value),
        ResolvedExpr::Column(place) => column(alloc, row, *place),
        ResolvedExpr::Error(error) => says(alloc, error),
        ResolvedExpr::Unary { op, operand } => evaluate_unary(alloc, *op, operand.get(), row, rows),
        ResolvedExpr::Binary { op, left, right } => {
            let a = operand_of(alloc, left.get(), row, rows)?;
            evaluate_right(alloc, *op, a, right.get(), row, rows)
        }
        ResolvedExpr::InList { left, list } => {
            let a = operand_of(alloc, left.get(), row, rows)?;
            evaluate_list(alloc, a, list.as_slice(), row, rows)
        }
        ResolvedExpr::Between { operand, low, high } => {
            let a = operand_of(alloc, operand.get(), row, rows)?;
            match operand_of(alloc, low.get(), row, rows) {
                Ok(low) => evaluate_high(alloc, a, low, high.get(), row, rows),
                Err(e) => {
                    drop(a);
                    Err(e)
                }
            }
        }
        ResolvedExpr::Coalesce(list) => evaluate_coalesce(alloc, list.as_slice(), row, rows),
        ResolvedExpr::CountAll => given(count(rows.len())),
        ResolvedExpr::Aggregate { op, operand } => over(alloc, *op, operand.get(), rows),
    }
}
