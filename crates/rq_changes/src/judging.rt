//! Whether a row may come into a table.

ghost use Rattle.std.specs.Prelude.{◌≡◌, ◌∷◌, Option, Some, is_some, slice_get, unwrap_or};
ghost use Rattle.std.specs.Option.{option_copied};
ghost use Rattle.rq_eval.specs.declared.error.StmtError.TheVariants as error;
ghost use Rattle.rq_results.specs.Checks.{first};
ghost use Rattle.rq_results.specs.Viewed.{Clears};
ghost use Rattle.rq_values.specs.declared.value.Value.TheVariants.{Null};
ghost use Rattle.rq_meaning.specs.Rows as spec;
ghost use Rattle.rq_changes.specs.Staged.{now_of};
ghost use Rattle.rq_changes.specs.Stepping.{laid_at};

use crate::errors::{is_missing, is_repeated};
use crate::storing::{is_null, set_cell};
use crate::table::Table;
use rq_eval::{EvalError, StmtError};
use rq_grammar::ColumnDef;
use rq_rows::{is_rowid, is_unique};
use rq_select::TableView;
use rq_values::{Text, Value};
use std::alloc::Global;

/// The largest rowid that a row is given.
const LAST: i64 = 9_223_372_036_854_775_806;

// ---- the rowid

/// The value in the column that is the rowid.
pub fn rowid_value<'a>(columns: &[ColumnDef], row: &'a [Value]) -> Option<&'a Value>
    ensures { unwrap_or (option_copied result) Null ≡ spec.rowid_value columns.now row.now }
{
    for i in 0..columns.len() {
        if is_rowid(&columns[i]) {
            return row.get(i);
        }
    }
    None
}

fn given_rowid(key: i64) -> Result<i64, StmtError>
    ensures { result ≡ spec.given_rowid key }
{
    if key > LAST {
        Err(StmtError::RowidOutOfRange)
    } else {
        Ok(key)
    }
}

/// One more than the largest.
fn new_rowid(table: &Table) -> Result<i64, StmtError>
    ensures { result ≡ spec.new_rowid (now_of table.now) }
{
    match table.largest() {
        None => Ok(1),
        Some(key) => {
            if key >= LAST {
                Err(StmtError::Full)
            } else {
                Ok(key + 1)
            }
        }
    }
}

fn missing_rowid(table: &Table, had: Option<i64>) -> Result<i64, StmtError>
    ensures { result ≡ spec.missing_rowid (now_of table.now) had }
{
    match had {
        Some(key) => Ok(key),
        None => new_rowid(table),
    }
}

pub fn rowid_for(table: &Table, had: Option<i64>, value: Option<&Value>) -> Result<i64, StmtError>
    ensures { result ≡ spec.rowid_for (now_of table.now) had (unwrap_or (option_copied value.entry) Null) }
{
    match value {
        Some(Value::Int(key)) => given_rowid(*key),
        _ => missing_rowid(table, had),
    }
}

fn lay_one(column: &ColumnDef, row: &mut Vec<Value>, at: usize, key: i64)
    ensures { row.new.items ≡ laid_at column.now at key row.old.items }
{
    if is_rowid(column) {
        set_cell(row, at, Value::Int(key));
    }
}

/// Puts the rowid into its column.
pub fn lay_rowid(columns: &[ColumnDef], row: &mut Vec<Value>, key: i64)
    ensures { row.new.items ≡ spec.with_rowid key columns.now row.old.items }
{
    for i in 0..columns.len() {
        lay_one(&columns[i], row, i, key);
    }
}

// ---- NOT NULL and UNIQUE

fn is_needed(changed: bool, column: &ColumnDef) -> bool
    ensures { (had : Option _) → changed ≡ is_some had → result ≡ spec.is_needed had column.now }
{
    if is_rowid(column) {
        changed
    } else {
        column.not_null
    }
}

/// Whether no NULL stands where none may.
pub fn check_nulls(
    alloc: Global,
    table: &Text,
    had: Option<i64>,
    columns: &[ColumnDef],
    row: &[Value],
) -> Result<(), EvalError>
    ensures { Clears (first (spec.nulls table.now had columns.now row.now)) result }
{
    for i in 0..columns.len() {
        match row.get(i) {
            None => return Ok(()),
            Some(value) => {
                if is_needed(had.is_some(), &columns[i]) && is_null(value) {
                    return Err(is_missing(alloc, table, &columns[i].name));
                }
            }
        }
    }
    Ok(())
}

/// Whether another row has the rowid, or the row's value in a UNIQUE column.
fn is_repeat(table: &Table, key: i64, row: &[Value], at: usize, column: &ColumnDef) -> bool
    requires { slice_get table.now.rows.columns at ≡ Some column.now }
    ensures { spec.repeat (now_of table.now) key row.now at column.now ≡ spec.if_so result (error.UniqueFailed table.now.name column.now.name) }
{
    if is_rowid(column) {
        table.get(key).is_some()
    } else {
        is_unique(column) && table.is_taken(at, row)
    }
}

fn check_hidden(alloc: Global, table: &Table, key: i64) -> Result<(), EvalError>
    ensures { Clears (spec.hidden_repeat (now_of table.now) key) result }
{
    if table.is_hidden() && table.get(key).is_some() {
        return Err(is_repeated(alloc, table.name(), &table.all_columns()[0].name));
    }
    Ok(())
}

fn check_columns(alloc: Global, table: &Table, key: i64, row: &[Value]) -> Result<(), EvalError>
    ensures { Clears (first (spec.repeats (now_of table.now) key row.now 0 table.now.rows.columns)) result }
{
    let columns = table.columns();
    for i in 0..columns.len() {
        if is_repeat(table, key, row, i, &columns[i]) {
            return Err(is_repeated(alloc, table.name(), &columns[i].name));
        }
    }
    Ok(())
}

/// Whether no other row has what is the row's alone.
pub fn check_repeats(alloc: Global, table: &Table, key: i64, row: &[Value]) -> Result<(), EvalError>
    ensures { Clears (first (spec.hidden_repeat (now_of table.now) key ∷ spec.repeats (now_of table.now) key row.now 0 table.now.rows.columns)) result }
{
    match check_hidden(alloc, table, key) {
        Ok(()) => check_columns(alloc, table, key, row),
        Err(e) => Err(e),
    }
}
