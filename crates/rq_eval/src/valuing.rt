//! The value of an expression over a row, and over all rows.

ghost use Rattle.std.specs.Prelude.{map};
ghost use Rattle.rq_eval.specs.Outcome.{Answers};
ghost use Rattle.rq_eval.specs.Names.{row_of};
ghost use Rattle.rq_eval.specs.Value as spec;

use crate::error::EvalError;
use crate::evaluation::evaluate;
use crate::resolving::resolve;
use crate::row::{RowView, Scope};
use rq_grammar::Expr;
use rq_values::Value;
use std::alloc::Global;

/// The value over one row, for whoever wants it once; over many rows resolve the expression first.
pub fn value(alloc: Global, expr: &Expr, row: &RowView<'_>) -> Result<Value, EvalError>
    ensures { Answers (spec.value row.now.scope.now expr.now (row_of row.now)) result }
{
    match resolve(alloc, row.scope, expr, false) {
        Ok(resolved) => evaluate(alloc, &resolved, row, &[]),
        Err(_) => Err(EvalError::NoMemory),
    }
}

/// The value over all rows, of an expression that may have aggregates.
pub fn aggregate_value(
    alloc: Global,
    scope: &Scope,
    expr: &Expr,
    rows: &[RowView<'_>],
) -> Result<Value, EvalError>
    ensures { Answers (spec.aggregate_value scope.now expr.now (map row_of rows.now)) result }
{
    let no_row = RowView {
        scope,
        rowid: 0,
        values: &[],
    };
    match resolve(alloc, scope, expr, true) {
        Ok(resolved) => evaluate(alloc, &resolved, &no_row, rows),
        Err(_) => Err(EvalError::NoMemory),
    }
}
