//! WHERE.

ghost use Rattle.std.specs.Prelude.{◌≡◌, if◌then◌else◌, [], ◌∷◌, ◌++◌, map, Ok, OnOk};
ghost use Rattle.rq_eval.specs.Names.{row_of};
ghost use Rattle.rq_eval.specs.Outcome.{Answers, then_with};
ghost use Rattle.rq_select.specs.Planned as planned;
ghost use Rattle.rq_select.specs.Select as spec;

use rq_eval::{EvalError, ResolvedExpr, RowView, StmtError, evaluate};
use rq_operators::condition;
use rq_results::push;
use rq_values::{NoMemory, Value};
use std::alloc::Global;

/// Whether a condition is true; NULL is not.
fn is_true(value: &Value) -> Result<bool, EvalError>
    ensures { Answers (spec.judged (Ok value.now)) result }
{
    match condition(value) {
        Ok(Some(is)) => Ok(is),
        Ok(None) => Ok(false),
        Err(error) => Err(EvalError::Says(StmtError::Value(error))),
    }
}

pub fn passes(
    alloc: Global,
    filter: &Option<ResolvedExpr>,
    row: &RowView<'_>,
) -> Result<bool, EvalError>
    ensures { Answers (planned.passes filter.now (row_of row.now)) result }
{
    match filter {
        None => Ok(true),
        Some(expr) => match evaluate(alloc, expr, row, &[]) {
            Ok(value) => {
                let is = is_true(&value);
                drop(value);
                is
            }
            Err(e) => Err(e),
        },
    }
}

/// Adds a row at the end where it passed.
fn keep<'r>(left: &mut Vec<RowView<'r>>, row: RowView<'r>, passed: bool) -> Result<(), NoMemory>
    ensures { OnOk result (map row_of left.new.items ≡ (if passed then map row_of left.old.items ++ row_of row.entry ∷ [] else map row_of left.old.items)) }
{
    if passed { push(left, row) } else { Ok(()) }
}

/// The rows that pass, in their order.
pub fn filtered<'r>(
    alloc: Global,
    filter: &Option<ResolvedExpr>,
    rows: &[RowView<'r>],
) -> Result<Vec<RowView<'r>>, EvalError>
    ensures { planned.LeavesRows (spec.filtered (planned.passes filter.now) [] (map row_of rows.now)) result }
{
    let mut left = Vec::new(alloc);
    for row in rows {
        match passes(alloc, filter, row) {
            Ok(passed) => match keep(&mut left, *row, passed) {
                Ok(()) => {}
                Err(_) => {
                    drop(left);
                    return Err(EvalError::NoMemory);
                }
            },
            Err(e) => {
                drop(left);
                return Err(e);
            }
        }
    }
    Ok(left)
}
