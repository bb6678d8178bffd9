//! SELECT.

ghost use Rattle.std.specs.Prelude.{map, Ok, IfSome};
ghost use Rattle.std.specs.Option.{option_map, option_copied};
ghost use Rattle.rq_eval.specs.Names.{row_of};
ghost use Rattle.rq_eval.specs.Outcome.{Answers};
ghost use Rattle.rq_results.specs.Results.{no_source, table_source, no_such_table};
ghost use Rattle.rq_select.specs.Planned as planned;
ghost use Rattle.rq_select.specs.Select as spec;
ghost use Rattle.rq_select.specs.Stopping.{IsEnough, LeavesEnough};
ghost use Rattle.rq_results.specs.Table.{scope_of, rows_of};
ghost use Rattle.rq_results.specs.Viewed.{shown, IsSaid};

use crate::filtering::filtered;
use crate::keys::found_rows;
use crate::planning::{Plan, plan_of};
use crate::showing::{rows_planned, shown_rows};
use crate::stopping::enough_rows;
use crate::table::TableView;
use rq_eval::{EvalError, RowView, Scope, StmtError, names_are_found_once};
use rq_grammar::{ColumnDef, SelectStmt};
use rq_results::{Shown, headings, spread, types};
use rq_statement::Res;
use rq_values::{Seq, Text, TryCopy, Value};
use std::alloc::Global;

/// How many times as many rows are asked for, where WHERE left too few; and how often.
const GROWTH: usize = 4;

const ROUNDS: u32 = 32;

/// The rows with headings and types.
fn with_headings(
    alloc: Global,
    scope: &Scope,
    columns: &[ColumnDef],
    items: &[Shown<'_>],
    values: Seq<Seq<Value>>,
) -> Result<Res, EvalError>
    ensures { Answers (Ok (spec.with_headings scope.now columns.now (map shown items.now) values)) result }
{
    match headings(alloc, scope, columns, items) {
        Ok(headings) => match types(alloc, scope, columns, items) {
            Ok(types) => Ok(Res::Rows {
                columns: headings,
                types,
                values,
            }),
            Err(_) => {
                drop(headings);
                drop(values);
                Err(EvalError::NoMemory)
            }
        },
        Err(_) => {
            drop(values);
            Err(EvalError::NoMemory)
        }
    }
}

/// What a select shows of rows, where its results are spread.
fn rows_selected(
    alloc: Global,
    scope: &Scope,
    items: &[Shown<'_>],
    stmt: &SelectStmt,
    rows: &[RowView<'_>],
) -> Result<Seq<Seq<Value>>, EvalError>
    ensures { Answers (spec.rows_selected stmt.now scope.now (map row_of rows.now) (map shown items.now)) result }
{
    names_are_found_once();
    match plan_of(alloc, scope, items, stmt) {
        Ok(plan) => rows_planned(alloc, &plan, rows),
        Err(e) => Err(e),
    }
}

/// What a select without FROM shows.
pub fn rows_of_nothing(
    alloc: Global,
    items: &[Shown<'_>],
    stmt: &SelectStmt,
) -> Result<Seq<Seq<Value>>, EvalError>
    ensures { Answers (spec.rows_selected stmt.now no_source.scope no_source.rows (map shown items.now)) result }
{
    let scope = Scope::Empty;
    let no_row = RowView {
        scope: &scope,
        rowid: 0,
        values: &[],
    };
    rows_selected(alloc, &scope, items, stmt, &[no_row])
}

fn answered_from_nothing(
    alloc: Global,
    items: &[Shown<'_>],
    stmt: &SelectStmt,
) -> Result<Res, EvalError>
    ensures { Answers (spec.answered_by stmt.now no_source (map shown items.now)) result }
{
    match rows_of_nothing(alloc, items, stmt) {
        Ok(values) => with_headings(alloc, &Scope::Empty, &[], items, values),
        Err(e) => Err(e),
    }
}

/// Without FROM: over one row that has no column.
fn selected_from_nothing(alloc: Global, stmt: &SelectStmt) -> Result<Res, EvalError>
    ensures { Answers (spec.selected_from stmt.now no_source) result }
{
    match spread(alloc, 0, stmt.results.as_slice()) {
        Ok(items) => answered_from_nothing(alloc, items.as_slice(), stmt),
        Err(_) => Err(EvalError::NoMemory),
    }
}

/// What a plan shows of rows, where WHERE leaves enough of them.
fn shown_if_enough(
    alloc: Global,
    plan: &Plan,
    rows: &[RowView<'_>],
    wanted: usize,
) -> Option<Result<Seq<Seq<Value>>, EvalError>>
    ensures { IfSome result (λ shown. LeavesEnough plan.now wanted (map row_of rows.now) × Answers (planned.rows_planned plan.now (map row_of rows.now)) shown) }
{
    match filtered(alloc, &plan.filter, rows) {
        Ok(left) => {
            if left.len() >= wanted {
                Some(shown_rows(alloc, plan, left.as_slice()))
            } else {
                None
            }
        }
        Err(e) => {
            drop(e);
            None
        }
    }
}

/// What a plan shows of a table, where its first rows are enough, or there are no others.
fn shown_of_first<T: TableView>(
    alloc: Global,
    plan: &Plan,
    table: &T,
    wanted: usize,
    most: usize,
) -> Option<Result<Seq<Seq<Value>>, EvalError>>
    requires { IsEnough plan.now wanted }
    ensures { IfSome result (Answers (planned.rows_planned plan.now (rows_of (T.means table.now)))) }
{
    match table.rows(alloc, Some(most)) {
        Ok(rows) => {
            if rows.len() < most {
                Some(rows_planned(alloc, plan, rows.as_slice()))
            } else {
                shown_if_enough(alloc, plan, rows.as_slice(), wanted)
            }
        }
        Err(_) => Some(Err(EvalError::NoMemory)),
    }
}

fn shown_of_all<T: TableView>(
    alloc: Global,
    plan: &Plan,
    table: &T,
) -> Result<Seq<Seq<Value>>, EvalError>
    ensures { Answers (planned.rows_planned plan.now (rows_of (T.means table.now))) result }
{
    match table.rows(alloc, None) {
        Ok(rows) => rows_planned(alloc, plan, rows.as_slice()),
        Err(_) => Err(EvalError::NoMemory),
    }
}

/// What a plan shows of a table, which is asked for more and more rows until WHERE leaves enough.
fn shown_of_enough<T: TableView>(
    alloc: Global,
    plan: &Plan,
    table: &T,
    wanted: usize,
) -> Result<Seq<Seq<Value>>, EvalError>
    requires { IsEnough plan.now wanted }
    ensures { Answers (planned.rows_planned plan.now (rows_of (T.means table.now))) result }
{
    let mut most = wanted;
    for _ in 0..ROUNDS {
        match shown_of_first(alloc, plan, table, wanted, most) {
            Some(shown) => return shown,
            None => most = most.saturating_mul(GROWTH),
        }
    }
    shown_of_all(alloc, plan, table)
}

/// What a plan shows of a table whose rows aren't found by a key.
fn shown_of_walked<T: TableView>(
    alloc: Global,
    plan: &Plan,
    table: &T,
) -> Result<Seq<Seq<Value>>, EvalError>
    ensures { Answers (planned.rows_planned plan.now (rows_of (T.means table.now))) result }
{
    match enough_rows(plan) {
        Some(wanted) => shown_of_enough(alloc, plan, table, wanted),
        None => shown_of_all(alloc, plan, table),
    }
}

/// What a plan shows of a table.
fn shown_of_table<T: TableView>(
    alloc: Global,
    plan: &Plan,
    table: &T,
) -> Result<Seq<Seq<Value>>, EvalError>
    ensures { Answers (planned.rows_planned plan.now (rows_of (T.means table.now))) result }
{
    match found_rows(alloc, &plan.filter, table) {
        Ok(Some(rows)) => rows_planned(alloc, plan, rows.as_slice()),
        Ok(None) => shown_of_walked(alloc, plan, table),
        Err(_) => Err(EvalError::NoMemory),
    }
}

/// What a select from a table shows.
pub fn rows_of_table<T: TableView>(
    alloc: Global,
    items: &[Shown<'_>],
    stmt: &SelectStmt,
    table: &T,
) -> Result<Seq<Seq<Value>>, EvalError>
    ensures { Answers (spec.rows_selected stmt.now (scope_of (T.means table.now)) (rows_of (T.means table.now)) (map shown items.now)) result }
{
    names_are_found_once();
    match plan_of(alloc, table.scope(), items, stmt) {
        Ok(plan) => shown_of_table(alloc, &plan, table),
        Err(e) => Err(e),
    }
}

fn answered_from_table<T: TableView>(
    alloc: Global,
    items: &[Shown<'_>],
    stmt: &SelectStmt,
    table: &T,
) -> Result<Res, EvalError>
    ensures { Answers (spec.answered_by stmt.now (table_source (T.means table.now)) (map shown items.now)) result }
{
    match rows_of_table(alloc, items, stmt, table) {
        Ok(values) => with_headings(alloc, table.scope(), table.columns(), items, values),
        Err(e) => Err(e),
    }
}

fn selected_from_table<T: TableView>(
    alloc: Global,
    stmt: &SelectStmt,
    table: &T,
) -> Result<Res, EvalError>
    ensures { Answers (spec.selected_from stmt.now (table_source (T.means table.now))) result }
{
    match spread(alloc, table.columns().len(), stmt.results.as_slice()) {
        Ok(items) => answered_from_table(alloc, items.as_slice(), stmt, table),
        Err(_) => Err(EvalError::NoMemory),
    }
}

/// FROM names no table.
pub fn no_table(alloc: Global, name: &Text) -> EvalError
    ensures { IsSaid (no_such_table name.now) result }
{
    match name.copy(alloc) {
        Ok(name) => EvalError::Says(StmtError::NoTable(name)),
        Err(_) => EvalError::NoMemory,
    }
}

/// What a SELECT answers over the table that its FROM names; None where it has no FROM, or there is no such table.
pub fn select<T: TableView>(
    alloc: Global,
    stmt: &SelectStmt,
    table: Option<&T>,
) -> Result<Res, EvalError>
    ensures { Answers (spec.selected stmt.now (option_map T.means (option_copied table.entry))) result }
{
    match &stmt.table {
        None => selected_from_nothing(alloc, stmt),
        Some(name) => match table {
            None => Err(no_table(alloc, name)),
            Some(table) => selected_from_table(alloc, stmt, table),
        },
    }
}
