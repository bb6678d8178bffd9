//! Expressions read from their texts, and what they give.
use rq_eval::{EvalError, RowView, aggregate_value, value};
use rq_grammar::{Expr, ResultItem, Stmt};
use rq_sql::read;
use rq_values::{Value, compare};
use std::alloc::Global;
use std::test::Fail;

/// The statement that selects the expression of that text.
fn selected(alloc: Global, text: &str) -> Result<Stmt, Fail> {
    let mut whole = String::from_str(alloc, "SELECT ")?;
    whole.push_str(text)?;
    let stmt = read(alloc, whole.as_bytes());
    drop(whole);
    Ok(stmt?)
}

/// The first expression that a statement selects.
fn first_expr(stmt: &Stmt) -> Option<&Expr> {
    match stmt {
        Stmt::Select(select) => match select.results.as_slice().first() {
            Some(ResultItem::Value { expr, alias: _ }) => Some(expr),
            _ => None,
        },
        _ => None,
    }
}

/// What the expression gives over the row, or, where there are rows, over all of them.
fn answer(
    alloc: Global,
    text: &str,
    row: &RowView<'_>,
    rows: Option<&[RowView<'_>]>,
) -> Result<Result<Value, EvalError>, Fail> {
    let stmt = selected(alloc, text)?;
    let answer = match (first_expr(&stmt), rows) {
        (Some(expr), None) => value(alloc, expr, row),
        (Some(expr), Some(rows)) => aggregate_value(alloc, row.scope, expr, rows),
        (None, _) => Err(EvalError::NoMemory),
    };
    drop(stmt);
    Ok(answer)
}

/// Whether the value is that of the literal that the text spells.
fn is_literal(alloc: Global, value: &Value, text: &str) -> Result<bool, Fail> {
    let stmt = selected(alloc, text)?;
    let is = match first_expr(&stmt) {
        Some(Expr::Literal(literal)) => compare(value, literal).is_eq(),
        _ => false,
    };
    drop(stmt);
    Ok(is)
}

/// Whether the answer is wanted: a literal, or an error behind `!`.
fn is_wanted(alloc: Global, answer: &Result<Value, EvalError>, wanted: &str) -> Result<bool, Fail> {
    match (answer, wanted.strip_prefix("!")) {
        (Ok(value), None) => is_literal(alloc, value, wanted),
        (Err(EvalError::Says(error)), Some(wanted)) => {
            let shown = error.to_text(alloc)?;
            let is = shown.bytes() == wanted.as_bytes();
            drop(shown);
            Ok(is)
        }
        _ => Ok(false),
    }
}

/// Whether the expression gives what is wanted: over the row, or, where there are rows, over all of them.
pub fn gives(
    alloc: Global,
    text: &str,
    row: &RowView<'_>,
    rows: Option<&[RowView<'_>]>,
    wanted: &str,
) -> Result<bool, Fail> {
    let answer = answer(alloc, text, row, rows)?;
    let is = is_wanted(alloc, &answer, wanted);
    drop(answer);
    is
}

/// The first expression of the table that doesn't give what is wanted.
pub fn first_wrong<'t>(
    alloc: Global,
    table: &[(&'t str, &str)],
    row: &RowView<'_>,
    rows: Option<&[RowView<'_>]>,
) -> Result<Option<&'t str>, Fail> {
    for (text, wanted) in table {
        if !gives(alloc, text, row, rows, wanted)? {
            return Ok(Some(text));
        }
    }
    Ok(None)
}
