//! The terms of ORDER BY, and the numbers of LIMIT and OFFSET.

ghost use Rattle.std.specs.Prelude.{◌≡◌, map, None, Ok};
ghost use Rattle.rq_eval.specs.Outcome.{Answers};
ghost use Rattle.rq_eval.specs.Outcome as outcome;
ghost use Rattle.rq_select.specs.Planned as planned;
ghost use Rattle.rq_select.specs.Select as spec;
ghost use Rattle.rq_results.specs.Viewed.{shown};

use rq_eval::{EvalError, ResolvedExpr, Scope, StmtError, resolve};
use rq_grammar::{Expr, OrderTerm};
use rq_results::{Shown, aliased};
use rq_values::Value;
use sqlite_items::Items;
use std::alloc::Global;

/// What a term gives: the value of a result, or one of its own.
pub enum TermBy {
    Result(usize),
    Expression(ResolvedExpr),
}

impl Drop for TermBy {
    fn drop(self) {
        match self {
            TermBy::Result(_) => {}
            TermBy::Expression(expr) => drop(expr),
        }
    }
}

pub struct PlannedTerm {
    pub by: TermBy,
    pub descending: bool,
}

impl Drop for PlannedTerm {
    fn drop(self) {
        let PlannedTerm { by, descending: _ } = self;
        drop(by);
    }
}

/// The integer that an expression is.
fn number_of(expr: &Expr) -> Option<i64>
    ensures { result ≡ spec.number_of expr.now }
{
    match expr {
        Expr::Literal(Value::Int(number)) => Some(*number),
        _ => None,
    }
}

/// The place of the result of that number, which counts from 1.
fn numbered(count: usize, number: i64) -> Result<usize, StmtError>
    ensures { result ≡ spec.numbered count number }
{
    if number < 1 {
        return Err(StmtError::OrderTermOutOfRange);
    }
    let place = (number - 1) as usize;
    if place < count {
        Ok(place)
    } else {
        Err(StmtError::OrderTermOutOfRange)
    }
}

fn expression_term(alloc: Global, scope: &Scope, expr: &Expr) -> Result<TermBy, EvalError>
    ensures { Answers (Ok (planned.named_term scope.now expr.now None)) result }
{
    match resolve(alloc, scope, expr, false) {
        Ok(resolved) => Ok(TermBy::Expression(resolved)),
        Err(_) => Err(EvalError::NoMemory),
    }
}

fn term_by(
    alloc: Global,
    scope: &Scope,
    items: &[Shown<'_>],
    expr: &Expr,
) -> Result<TermBy, EvalError>
    ensures { Answers (planned.term_or scope.now (map shown items.now) expr.now (spec.number_of expr.now)) result }
{
    match number_of(expr) {
        Some(number) => match numbered(items.len(), number) {
            Ok(place) => Ok(TermBy::Result(place)),
            Err(error) => Err(EvalError::Says(error)),
        },
        None => match aliased(items, expr) {
            Some(place) => Ok(TermBy::Result(place)),
            None => expression_term(alloc, scope, expr),
        },
    }
}

fn planned_term(
    alloc: Global,
    scope: &Scope,
    items: &[Shown<'_>],
    term: &OrderTerm,
) -> Result<PlannedTerm, EvalError>
    ensures { Answers (planned.planned_term scope.now (map shown items.now) term.now) result }
{
    let by = term_by(alloc, scope, items, &term.expr)?;
    Ok(PlannedTerm {
        by,
        descending: term.descending,
    })
}

/// The terms, or that one is a number without a result.
pub fn planned_terms(
    alloc: Global,
    scope: &Scope,
    items: &[Shown<'_>],
    order: &[OrderTerm],
) -> Result<Items<PlannedTerm>, EvalError>
    ensures { Answers (outcome.all_of (map (planned.planned_term scope.now (map shown items.now)) order.now)) result }
{
    let mut terms = Items::new(alloc);
    for term in order {
        match planned_term(alloc, scope, items, term) {
            Ok(term) => match terms.push(term) {
                Ok(()) => {}
                Err(_) => {
                    drop(terms);
                    return Err(EvalError::NoMemory);
                }
            },
            Err(e) => {
                drop(terms);
                return Err(e);
            }
        }
    }
    Ok(terms)
}

/// How many rows LIMIT lets through; a negative number lets all.
pub fn limit_of(limit: &Option<Expr>) -> Result<Option<u64>, StmtError>
    ensures { result ≡ spec.limit_of limit.now }
{
    match limit {
        None => Ok(None),
        Some(expr) => match number_of(expr) {
            None => Err(StmtError::DatatypeMismatch),
            Some(number) => {
                if number < 0 {
                    Ok(None)
                } else {
                    Ok(Some(number as u64))
                }
            }
        },
    }
}

/// How many rows OFFSET leaves out; of a negative number none.
pub fn offset_of(offset: &Option<Expr>) -> Result<u64, StmtError>
    ensures { result ≡ spec.offset_of offset.now }
{
    match offset {
        None => Ok(0),
        Some(expr) => match number_of(expr) {
            None => Err(StmtError::DatatypeMismatch),
            Some(number) => { if number < 0 { Ok(0) } else { Ok(number as u64) } }
        },
    }
}
