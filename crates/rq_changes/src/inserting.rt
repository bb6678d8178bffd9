//! INSERT.

ghost use Rattle.std.specs.Prelude.{◌≡◌, ℕ, map, length, IfOk};
ghost use Rattle.std.specs.Option.{option_copied, option_map};
ghost use Rattle.rq_eval.specs.Outcome.{Answers, then_with};
ghost use Rattle.rq_eval.specs.declared.row.Scope.TheVariants as seen;
ghost use Rattle.rq_results.specs.declared.checking.Allowed.TheVariants as allowed;
ghost use Rattle.rq_results.specs.Checks.{first, names_in, calls_in};
ghost use Rattle.rq_results.specs.Results.{source_of};
ghost use Rattle.rq_results.specs.Viewed.{Clears};
ghost use Rattle.rq_meaning.specs.Checks as checks;
ghost use Rattle.rq_meaning.specs.Changes as spec;
ghost use Rattle.rq_meaning.specs.Running.{Gives};
ghost use Rattle.rq_meaning.specs.Statements.{values_inserted, from_source};
ghost use Rattle.rq_changes.specs.Making.{Makes, Prepares, IsWithin, Fits, AllFit, ResultsFit, all_inserted, results_inserted};
ghost use Rattle.rq_changes.specs.Staged.{now_of};
ghost use Rattle.rq_changes.specs.Stepping as step;

use crate::assigning::lay_out;
use crate::entering::enter;
use crate::errors::no_table;
use crate::naming::{check_count, places_of};
use crate::table::Table;
use rq_eval::{EvalError, RowView, Scope, value};
use rq_grammar::{Expr, SelectStmt};
use rq_meaning::Done;
use rq_results::{check_calls, check_names};
use rq_select::{result_count, result_rows};
use rq_values::{Seq, Text, Value};
use sqlite_items::Items;
use std::alloc::Global;

/// The places of the names of a list, where there is one.
fn optional_places(
    alloc: Global,
    table: &Table,
    names: Option<&[Text]>,
) -> Result<Option<Seq<usize>>, EvalError>
    ensures { Answers (step.optional_listed (now_of table.now) (option_copied names.entry)) result }
{
    match names {
        None => Ok(None),
        Some(names) => match places_of(alloc, table, names) {
            Ok(places) => Ok(Some(places)),
            Err(e) => Err(e),
        },
    }
}

fn slice_of(places: &Option<Seq<usize>>) -> Option<&[usize]>
    ensures { option_copied result ≡ places.now }
{
    match places {
        None => None,
        Some(places) => Some(places.as_slice()),
    }
}

// ---- VALUES

fn check_names_in_row(alloc: Global, row: &[Expr]) -> Result<(), EvalError>
    ensures { Clears (first (map (names_in seen.Empty) row.now)) result }
{
    let scope = Scope::Empty;
    for expr in row {
        match check_names(alloc, &scope, expr) {
            Ok(()) => {}
            Err(e) => return Err(e),
        }
    }
    Ok(())
}

fn check_names_in_rows(alloc: Global, rows: &[Items<Expr>]) -> Result<(), EvalError>
    ensures { Clears (checks.in_rows (names_in seen.Empty) rows.now) result }
{
    for row in rows {
        match check_names_in_row(alloc, row.as_slice()) {
            Ok(()) => {}
            Err(e) => return Err(e),
        }
    }
    Ok(())
}

fn check_counts(
    alloc: Global,
    table: &Table,
    names: Option<&[Text]>,
    rows: &[Items<Expr>],
) -> Result<(), EvalError>
    ensures { Clears (first (map (λ xs. checks.count_check (now_of table.now) (option_copied names.entry) (length xs)) rows.now)) result }
{
    for row in rows {
        match check_count(alloc, table, names, row.len()) {
            Ok(()) => {}
            Err(e) => return Err(e),
        }
    }
    Ok(())
}

fn check_calls_in_row(alloc: Global, row: &[Expr]) -> Result<(), EvalError>
    ensures { Clears (first (map (calls_in allowed.Columns) row.now)) result }
{
    for expr in row {
        match check_calls(alloc, expr) {
            Ok(()) => {}
            Err(e) => return Err(e),
        }
    }
    Ok(())
}

fn check_calls_in_rows(alloc: Global, rows: &[Items<Expr>]) -> Result<(), EvalError>
    ensures { Clears (checks.in_rows (calls_in allowed.Columns) rows.now) result }
{
    for row in rows {
        match check_calls_in_row(alloc, row.as_slice()) {
            Ok(()) => {}
            Err(e) => return Err(e),
        }
    }
    Ok(())
}

/// What is wrong with the rows before any is evaluated, behind the names of the list.
fn check_rows(
    alloc: Global,
    table: &Table,
    names: Option<&[Text]>,
    rows: &[Items<Expr>],
) -> Result<(), EvalError>
    ensures { Clears (step.rows_check (now_of table.now) (option_copied names.entry) rows.now) result }
{
    match check_names_in_rows(alloc, rows) {
        Ok(()) => {}
        Err(e) => return Err(e),
    }
    match check_counts(alloc, table, names, rows) {
        Ok(()) => check_calls_in_rows(alloc, rows),
        Err(e) => Err(e),
    }
}

/// The values of a row's expressions.
fn values_of(alloc: Global, exprs: &[Expr]) -> Result<Seq<Value>, EvalError>
    ensures { Answers (spec.values_of exprs.now) result }
{
    let scope = Scope::Empty;
    let no_row = RowView {
        scope: &scope,
        rowid: 0,
        values: &[],
    };
    let mut row = Seq::new(alloc);
    for expr in exprs {
        match value(alloc, expr, &no_row) {
            Ok(value) => row.push(value)?,
            Err(e) => {
                drop(row);
                return Err(e);
            }
        }
    }
    Ok(row)
}

/// One row comes in.
fn insert_row(
    alloc: Global,
    table: &mut Table,
    others: u64,
    places: Option<&[usize]>,
    values: Seq<Value>,
) -> Result<i64, EvalError>
    requires within { IsWithin others (now_of table.old) }
    requires fits { Fits table.old.rows.columns (option_copied places) values }
    ensures within { IsWithin others (now_of table.new) }
    ensures gives { Gives (step.row_by others (now_of table.old) (option_copied places.entry) values) (now_of table.new) result }
    ensures rest { table.new ≡ record table.old { rows = record table.old.rows { now = table.new.rows.now } } }
{
    match lay_out(alloc, table, places, values) {
        Ok(row) => enter(alloc, table, others, None, row),
        Err(_) => Err(EvalError::NoMemory),
    }
}

fn insert_expressions(
    alloc: Global,
    table: &mut Table,
    others: u64,
    places: Option<&[usize]>,
    exprs: &[Expr],
) -> Result<i64, EvalError>
    requires within { IsWithin others (now_of table.old) }
    requires fits { Fits table.old.rows.columns (option_copied places) exprs.now }
    ensures within { IsWithin others (now_of table.new) }
    ensures gives { Gives (step.evaluated_by others (now_of table.old) (option_copied places.entry) exprs.now) (now_of table.new) result }
    ensures rest { table.new ≡ record table.old { rows = record table.old.rows { now = table.new.rows.now } } }
{
    match values_of(alloc, exprs) {
        Ok(values) => insert_row(alloc, table, others, places, values),
        Err(e) => Err(e),
    }
}

fn insert_rows(
    alloc: Global,
    table: &mut Table,
    others: u64,
    places: Option<&[usize]>,
    rows: &[Items<Expr>],
) -> Result<Done, EvalError>
    requires within { IsWithin others (now_of table.old) }
    requires fits { AllFit table.old.rows.columns (option_copied places) rows.now }
    ensures within { IsWithin others (now_of table.new) }
    ensures makes { Makes (all_inserted (spec.in_turn (step.expressions_by others (option_copied places.entry)) rows.now (spec.none_inserted (now_of table.old)))) (now_of table.new) result }
    ensures rest { table.new ≡ record table.old { rows = record table.old.rows { now = table.new.rows.now } } }
{
    let mut last = 0;
    for i in 0..rows.len() {
        match insert_expressions(alloc, table, others, places, rows[i].as_slice()) {
            Ok(key) => last = key,
            Err(e) => return Err(e),
        }
    }
    Ok(Done {
        last_insert_id: last,
        rows_affected: rows.len() as u64,
    })
}

/// INSERT of rows of VALUES.
pub fn insert_values(
    alloc: Global,
    table: &mut Table,
    others: u64,
    names: Option<&[Text]>,
    rows: &[Items<Expr>],
) -> Result<Done, EvalError>
    requires within { IsWithin others (now_of table.old) }
    ensures makes { Makes (values_inserted (option_copied names.entry) rows.now others (now_of table.old)) (now_of table.new) result }
    ensures within { IsWithin others (now_of table.new) }
    ensures rest { table.new ≡ record table.old { rows = record table.old.rows { now = table.new.rows.now } } }
{
    let places = match optional_places(alloc, table, names) {
        Ok(places) => places,
        Err(e) => return Err(e),
    };
    match check_rows(alloc, table, names, rows) {
        Ok(()) => insert_rows(alloc, table, others, slice_of(&places), rows),
        Err(e) => Err(e),
    }
}

// ---- a select

fn insert_all(
    alloc: Global,
    table: &mut Table,
    others: u64,
    places: Option<&[usize]>,
    rows: Seq<Seq<Value>>,
) -> Result<Done, EvalError>
    requires within { IsWithin others (now_of table.old) }
    requires fits { AllFit table.old.rows.columns (option_copied places) rows }
    ensures within { IsWithin others (now_of table.new) }
    ensures makes { Makes (all_inserted (spec.in_turn (step.one_by others (option_copied places.entry)) rows (spec.none_inserted (now_of table.old)))) (now_of table.new) result }
    ensures rest { table.new ≡ record table.old { rows = record table.old.rows { now = table.new.rows.now } } }
{
    let count = rows.len() as u64;
    let mut last = 0;
    for row in rows.into_vec() {
        match insert_row(alloc, table, others, places, row) {
            Ok(key) => last = key,
            Err(e) => return Err(e),
        }
    }
    Ok(Done {
        last_insert_id: last,
        rows_affected: count,
    })
}

/// The rows of an INSERT's select, and the places of their values.
pub struct Results {
    pub places: Option<Seq<usize>>,
    pub rows: Seq<Seq<Value>>,
}

impl Drop for Results {
    fn drop(self) {
        let Results { places, rows } = self;
        drop(places);
        drop(rows);
    }
}

impl Results {
    /// The rows come in one after the other.
    fn insert_into(self, alloc: Global, table: &mut Table, others: u64) -> Result<Done, EvalError>
        requires within { IsWithin others (now_of table.old) }
        requires fits { ResultsFit table.old.rows.columns self }
        ensures makes { Makes (results_inserted others (now_of table.old) self) (now_of table.new) result }
        ensures within { IsWithin others (now_of table.new) }
        ensures rest { table.new ≡ record table.old { rows = record table.old.rows { now = table.new.rows.now } } }
    {
        let Results { places, rows } = self;
        insert_all(alloc, table, others, slice_of(&places), rows)
    }
}

fn check_source(alloc: Global, stmt: &SelectStmt, source: Option<&Table>) -> Result<(), EvalError>
    ensures { Clears (step.source_check stmt.now.table (option_map now_of (option_copied source.entry))) result }
{
    match &stmt.table {
        None => Ok(()),
        Some(name) => match source {
            None => Err(no_table(alloc, name)),
            Some(_) => Ok(()),
        },
    }
}

/// The rows of a select that is inserted; `source` is the table that its FROM names, if it is there.
pub fn results_to_insert(
    alloc: Global,
    table: &Table,
    names: Option<&[Text]>,
    stmt: &SelectStmt,
    source: Option<&Table>,
) -> Result<Results, EvalError>
    ensures prepares { (others : ℕ) → Prepares (results_inserted others (now_of table.now)) (then_with (source_of stmt.now.table (option_map now_of (option_copied source.entry))) (from_source (option_copied names.entry) stmt.now others (now_of table.now))) result }
    ensures fits { IfOk result (λ r. ResultsFit table.now.rows.columns r) }
{
    match check_source(alloc, stmt, source) {
        Ok(()) => {}
        Err(e) => return Err(e),
    }
    let places = match optional_places(alloc, table, names) {
        Ok(places) => places,
        Err(e) => return Err(e),
    };
    let count = match result_count(alloc, stmt, source) {
        Ok(count) => count,
        Err(e) => return Err(e),
    };
    match check_count(alloc, table, names, count) {
        Ok(()) => {}
        Err(e) => return Err(e),
    }
    match result_rows(alloc, stmt, source) {
        Ok(rows) => Ok(Results { places, rows }),
        Err(e) => Err(e),
    }
}

/// INSERT of the rows of a select.
pub fn insert_results(
    alloc: Global,
    table: &mut Table,
    others: u64,
    results: Results,
) -> Result<Done, EvalError>
    requires within { IsWithin others (now_of table.old) }
    requires fits { ResultsFit table.old.rows.columns results }
    ensures makes { Makes (results_inserted others (now_of table.old) results) (now_of table.new) result }
    ensures within { IsWithin others (now_of table.new) }
    ensures rest { table.new ≡ record table.old { rows = record table.old.rows { now = table.new.rows.now } } }
{
    results.insert_into(alloc, table, others)
}
