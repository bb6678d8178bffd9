//! UPDATE.

ghost use Rattle.std.specs.Prelude.{◌≡◌, List, ℕ, [], map, length, IfOk, IfSome};
ghost use Rattle.std.specs.FinMap as fin;
ghost use Rattle.rq_grammar.specs.declared.expr.Expr.{Expr as Tree};
ghost use Rattle.rq_eval.specs.Outcome.{Answers};
ghost use Rattle.rq_eval.specs.Names.{row_of};
ghost use Rattle.rq_eval.specs.Resolved.{all_evaluated};
ghost use Rattle.rq_results.specs.declared.checking.Allowed.TheVariants as allowed;
ghost use Rattle.rq_results.specs.Checks.{first, names_in, calls_in, optional};
ghost use Rattle.rq_results.specs.Table.{scope_of};
ghost use Rattle.rq_results.specs.Viewed.{Clears};
ghost use Rattle.rq_meaning.specs.Changes as spec;
ghost use Rattle.rq_meaning.specs.Rows.{all_columns};
ghost use Rattle.rq_meaning.specs.Running.{Goes};
ghost use Rattle.rq_meaning.specs.Statements.{updated};
ghost use Rattle.rq_changes.specs.Making.{Makes, IsWithin};
ghost use Rattle.rq_changes.specs.Staged.{now_of};
ghost use Rattle.rq_changes.specs.Stepping as step;

use crate::assigning::{copied_row, set_all};
use crate::entering::enter;
use crate::naming::push_name;
use crate::table::Table;
use rq_eval::{EvalError, ResolvedExpr, RowView, evaluate, names_are_found_once, resolve};
use rq_grammar::Expr;
use rq_meaning::Done;
use rq_results::{check_calls, check_names};
use rq_select::{TableView, rowids_where};
use rq_values::{NoMemory, Seq, Text, Value};
use std::alloc::Global;

/// The places of the names of SET, where they and the names in its expressions are right.
fn places_of_sets(
    alloc: Global,
    table: &Table,
    sets: &[(Text, Expr)],
) -> Result<Seq<usize>, EvalError>
    ensures { Answers (step.sets_listed (now_of table.now) sets.now) result }
{
    let mut places = Seq::new(alloc);
    for set in sets {
        match push_name(alloc, table, &mut places, &set.0) {
            Ok(()) => {}
            Err(e) => {
                drop(places);
                return Err(e);
            }
        }
        match check_names(alloc, table.scope(), &set.1) {
            Ok(()) => {}
            Err(e) => {
                drop(places);
                return Err(e);
            }
        }
    }
    Ok(places)
}

fn check_calls_in_sets(alloc: Global, sets: &[(Text, Expr)]) -> Result<(), EvalError>
    ensures { Clears (first (map (λ (s : List ℕ × Tree). calls_in allowed.Columns s.1) sets.now)) result }
{
    for set in sets {
        match check_calls(alloc, &set.1) {
            Ok(()) => {}
            Err(e) => return Err(e),
        }
    }
    Ok(())
}

fn check_filter_names(alloc: Global, table: &Table, filter: &Option<Expr>) -> Result<(), EvalError>
    ensures { Clears (optional (names_in (scope_of (now_of table.now))) filter.now) result }
{
    match filter {
        None => Ok(()),
        Some(expr) => check_names(alloc, table.scope(), expr),
    }
}

fn check_filter_calls(alloc: Global, filter: &Option<Expr>) -> Result<(), EvalError>
    ensures { Clears (optional (calls_in allowed.Columns) filter.now) result }
{
    match filter {
        None => Ok(()),
        Some(expr) => check_calls(alloc, expr),
    }
}

/// What is wrong with an UPDATE before any row is looked at, behind the names of SET.
fn check_rest(
    alloc: Global,
    table: &Table,
    sets: &[(Text, Expr)],
    filter: &Option<Expr>,
) -> Result<(), EvalError>
    ensures { Clears (step.rest_check (now_of table.now) sets.now filter.now) result }
{
    match check_filter_names(alloc, table, filter) {
        Ok(()) => {}
        Err(e) => return Err(e),
    }
    match check_calls_in_sets(alloc, sets) {
        Ok(()) => check_filter_calls(alloc, filter),
        Err(e) => Err(e),
    }
}

/// The expressions of SET, with their names found.
fn resolved_sets(
    alloc: Global,
    table: &Table,
    sets: &[(Text, Expr)],
) -> Result<Seq<ResolvedExpr>, NoMemory>
    ensures { IfOk result (λ xs. xs ≡ step.sets_resolved (now_of table.now) sets.now) }
{
    let mut all = Seq::new(alloc);
    for set in sets {
        match resolve(alloc, table.scope(), &set.1, false) {
            Ok(expr) => all.push(expr)?,
            Err(e) => {
                drop(all);
                return Err(e);
            }
        }
    }
    Ok(all)
}

fn values_over(
    alloc: Global,
    exprs: &[ResolvedExpr],
    row: &RowView<'_>,
) -> Result<Seq<Value>, EvalError>
    ensures { Answers (all_evaluated [] exprs.now (row_of row.now)) result }
{
    let mut values = Seq::new(alloc);
    for expr in exprs {
        match evaluate(alloc, expr, row, &[]) {
            Ok(value) => values.push(value)?,
            Err(e) => {
                drop(values);
                return Err(e);
            }
        }
    }
    Ok(values)
}

/// The row of a rowid with its new values, for all columns; None where there is no such row.
fn assigned(
    alloc: Global,
    table: &Table,
    places: &[usize],
    exprs: &[ResolvedExpr],
    key: i64,
) -> Result<Option<Seq<Value>>, EvalError>
    ensures assigned { Answers (step.assigned_row (now_of table.now) places.now exprs.now key (fin.get table.now.rows.now key)) result }
    ensures count { IfOk result (λ o. IfSome o (λ row. length row ≡ length (all_columns table.now.rows.columns))) }
{
    let old = match table.get(key) {
        None => return Ok(None),
        Some(old) => old,
    };
    let row = RowView {
        scope: table.scope(),
        rowid: key,
        values: old,
    };
    let values = match values_over(alloc, exprs, &row) {
        Ok(values) => values,
        Err(e) => return Err(e),
    };
    match copied_row(alloc, table, key, old) {
        Ok(row) => {
            let mut row = row;
            set_all(places, values, &mut row);
            Ok(Some(Seq::from_vec(row)))
        }
        Err(_) => {
            drop(values);
            Err(EvalError::NoMemory)
        }
    }
}

/// Takes a row out and lets it come in again with new values.
fn move_row(
    alloc: Global,
    table: &mut Table,
    others: u64,
    key: i64,
    row: Seq<Value>,
) -> Result<(), EvalError>
    requires within { IsWithin others (now_of table.old) }
    requires count { length row ≡ length (all_columns table.old.rows.columns) }
    ensures within { IsWithin others (now_of table.new) }
    ensures goes { Goes (step.moved others (now_of table.old) key row) (now_of table.new) result }
    ensures rest { table.new ≡ record table.old { rows = record table.old.rows { now = table.new.rows.now } } }
{
    match table.take_row(key) {
        Ok(()) => {}
        Err(_) => {
            drop(row);
            return Err(EvalError::NoMemory);
        }
    }
    match enter(alloc, table, others, Some(key), row) {
        Ok(_) => Ok(()),
        Err(e) => Err(e),
    }
}

fn update_row(
    alloc: Global,
    table: &mut Table,
    others: u64,
    places: &[usize],
    exprs: &[ResolvedExpr],
    key: i64,
) -> Result<(), EvalError>
    requires within { IsWithin others (now_of table.old) }
    ensures within { IsWithin others (now_of table.new) }
    ensures goes { Goes (step.updated_by others places.now exprs.now (now_of table.old) key) (now_of table.new) result }
    ensures rest { table.new ≡ record table.old { rows = record table.old.rows { now = table.new.rows.now } } }
{
    match assigned(alloc, table, places, exprs, key) {
        Ok(Some(row)) => move_row(alloc, table, others, key, row),
        Ok(None) => Ok(()),
        Err(e) => Err(e),
    }
}

fn update_rows(
    alloc: Global,
    table: &mut Table,
    others: u64,
    places: &[usize],
    exprs: &[ResolvedExpr],
    keys: &[i64],
) -> Result<(), EvalError>
    requires within { IsWithin others (now_of table.old) }
    ensures within { IsWithin others (now_of table.new) }
    ensures goes { Goes (spec.in_turn (step.updated_by others places.now exprs.now) keys.now (now_of table.old)) (now_of table.new) result }
    ensures rest { table.new ≡ record table.old { rows = record table.old.rows { now = table.new.rows.now } } }
{
    for key in keys {
        match update_row(alloc, table, others, places, exprs, *key) {
            Ok(()) => {}
            Err(e) => return Err(e),
        }
    }
    Ok(())
}

/// The rows of a WHERE take their new values.
fn update_where(
    alloc: Global,
    table: &mut Table,
    others: u64,
    places: &[usize],
    exprs: &[ResolvedExpr],
    filter: &Option<Expr>,
) -> Result<Done, EvalError>
    requires within { IsWithin others (now_of table.old) }
    ensures within { IsWithin others (now_of table.new) }
    ensures makes { Makes (step.where_updated others places.now exprs.now filter.now (now_of table.old)) (now_of table.new) result }
    ensures rest { table.new ≡ record table.old { rows = record table.old.rows { now = table.new.rows.now } } }
{
    let keys = match rowids_where(alloc, filter, table) {
        Ok(keys) => keys,
        Err(e) => return Err(e),
    };
    match update_rows(alloc, table, others, places, exprs, keys.as_slice()) {
        Ok(()) => Ok(Done {
            last_insert_id: 0,
            rows_affected: keys.len() as u64,
        }),
        Err(e) => Err(e),
    }
}

/// UPDATE. `others` is what the other tables take, in bytes.
pub fn update(
    alloc: Global,
    table: &mut Table,
    others: u64,
    sets: &[(Text, Expr)],
    filter: &Option<Expr>,
) -> Result<Done, EvalError>
    requires within { IsWithin others (now_of table.old) }
    ensures makes { Makes (updated sets.now filter.now others (now_of table.old)) (now_of table.new) result }
    ensures within { IsWithin others (now_of table.new) }
    ensures rest { table.new ≡ record table.old { rows = record table.old.rows { now = table.new.rows.now } } }
{
    let places = match places_of_sets(alloc, table, sets) {
        Ok(places) => places,
        Err(e) => return Err(e),
    };
    match check_rest(alloc, table, sets, filter) {
        Ok(()) => {}
        Err(e) => return Err(e),
    }
    names_are_found_once();
    match resolved_sets(alloc, table, sets) {
        Ok(exprs) => update_where(
            alloc,
            table,
            others,
            places.as_slice(),
            exprs.as_slice(),
            filter,
        ),
        Err(_) => Err(EvalError::NoMemory),
    }
}
