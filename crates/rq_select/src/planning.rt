//! A select whose names are found.

ghost use Rattle.std.specs.Prelude.{◌≡◌, false, map, Ok, IfOk};
ghost use Rattle.std.specs.Option.{option_map};
ghost use Rattle.rq_eval.specs.Outcome.{Answers, then_with, all_of};
ghost use Rattle.rq_eval.specs.Resolved.{resolved};
ghost use Rattle.rq_select.specs.Planned as spec;
ghost use Rattle.rq_results.specs.Viewed.{shown};

use crate::terms::{PlannedTerm, limit_of, offset_of, planned_terms};
use rq_eval::{EvalError, ResolvedExpr, Scope, resolve};
use rq_grammar::{Expr, SelectStmt};
use rq_results::{Shown, check, is_over_all};
use rq_values::NoMemory;
use sqlite_items::Items;
use std::alloc::Global;

/// A select whose names are found.
pub struct Plan {
    pub results: Items<ResolvedExpr>,
    /// One row over all rows, in place of one for each.
    pub over_all: bool,
    pub filter: Option<ResolvedExpr>,
    pub terms: Items<PlannedTerm>,
    pub limit: Option<u64>,
    pub offset: u64,
}

impl Drop for Plan {
    fn drop(self) {
        let Plan {
            results,
            over_all: _,
            filter,
            terms,
            limit: _,
            offset: _,
        } = self;
        drop(results);
        drop(filter);
        drop(terms);
    }
}

fn planned_result(
    alloc: Global,
    scope: &Scope,
    over_all: bool,
    item: Shown<'_>,
) -> Result<ResolvedExpr, NoMemory>
    ensures { IfOk result (λ x. x ≡ spec.planned_result scope.now over_all (shown item.entry)) }
{
    match item {
        Shown::Column(place) => Ok(ResolvedExpr::Column(place)),
        Shown::Expression { expr, alias: _ } => resolve(alloc, scope, expr, over_all),
    }
}

fn planned_results(
    alloc: Global,
    scope: &Scope,
    over_all: bool,
    items: &[Shown<'_>],
) -> Result<Items<ResolvedExpr>, NoMemory>
    ensures { IfOk result (λ xs. xs ≡ map (spec.planned_result scope.now over_all) (map shown items.now)) }
{
    let mut results = Items::new(alloc);
    for item in items {
        match planned_result(alloc, scope, over_all, *item) {
            Ok(result) => match results.push(result) {
                Ok(()) => {}
                Err(_) => {
                    drop(results);
                    return Err(NoMemory);
                }
            },
            Err(e) => {
                drop(results);
                return Err(e);
            }
        }
    }
    Ok(results)
}

pub fn planned_filter(
    alloc: Global,
    scope: &Scope,
    filter: &Option<Expr>,
) -> Result<Option<ResolvedExpr>, NoMemory>
    ensures { IfOk result (λ x. x ≡ option_map (λ e. resolved scope.now e false) filter.now) }
{
    match filter {
        None => Ok(None),
        Some(expr) => match resolve(alloc, scope, expr, false) {
            Ok(resolved) => Ok(Some(resolved)),
            Err(e) => Err(e),
        },
    }
}

/// The plan, with terms, limit and offset that are there.
fn plan_with(
    alloc: Global,
    scope: &Scope,
    items: &[Shown<'_>],
    stmt: &SelectStmt,
    terms: Items<PlannedTerm>,
    limit: Option<u64>,
    offset: u64,
) -> Result<Plan, EvalError>
    ensures { Answers (Ok (spec.plan_with scope.now (map shown items.now) stmt.now terms limit offset)) result }
{
    let over_all = is_over_all(items);
    let filter = match planned_filter(alloc, scope, &stmt.filter) {
        Ok(filter) => filter,
        Err(_) => {
            drop(terms);
            return Err(EvalError::NoMemory);
        }
    };
    match planned_results(alloc, scope, over_all, items) {
        Ok(results) => Ok(Plan {
            results,
            over_all,
            filter,
            terms,
            limit,
            offset,
        }),
        Err(_) => {
            drop(terms);
            drop(filter);
            Err(EvalError::NoMemory)
        }
    }
}

/// The plan with its terms, where LIMIT and OFFSET are numbers.
fn limited(
    alloc: Global,
    scope: &Scope,
    items: &[Shown<'_>],
    stmt: &SelectStmt,
    terms: Items<PlannedTerm>,
) -> Result<Plan, EvalError>
    ensures { Answers (spec.limited scope.now (map shown items.now) stmt.now terms) result }
{
    match limit_of(&stmt.limit) {
        Ok(limit) => match offset_of(&stmt.offset) {
            Ok(offset) => plan_with(alloc, scope, items, stmt, terms, limit, offset),
            Err(error) => {
                drop(terms);
                Err(EvalError::Says(error))
            }
        },
        Err(error) => {
            drop(terms);
            Err(EvalError::Says(error))
        }
    }
}

/// The plan of a select whose names and calls are right.
fn checked_plan(
    alloc: Global,
    scope: &Scope,
    items: &[Shown<'_>],
    stmt: &SelectStmt,
) -> Result<Plan, EvalError>
    ensures { Answers (then_with (all_of (map (spec.planned_term scope.now (map shown items.now)) stmt.now.order)) (spec.limited scope.now (map shown items.now) stmt.now)) result }
{
    match planned_terms(alloc, scope, items, stmt.order.as_slice()) {
        Ok(terms) => limited(alloc, scope, items, stmt, terms),
        Err(e) => Err(e),
    }
}

/// The plan of a select, or what is wrong with it whatever the rows are.
pub fn plan_of<'a>(
    alloc: Global,
    scope: &Scope,
    items: &[Shown<'a>],
    stmt: &'a SelectStmt,
) -> Result<Plan, EvalError>
    ensures { Answers (spec.planned scope.now (map shown items.now) stmt.now) result }
{
    match check(alloc, scope, is_over_all(items), items, stmt) {
        Ok(()) => checked_plan(alloc, scope, items, stmt),
        Err(e) => Err(e),
    }
}
