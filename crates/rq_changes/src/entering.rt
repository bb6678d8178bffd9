//! A row comes into a table.

ghost use Rattle.std.specs.Prelude.{◌≡◌, ◌≤◌, ◌+◌, length, IfOk};
ghost use Rattle.rq_rows.specs.Covering.{Free, HasKey};
ghost use Rattle.rq_meaning.specs.Database.{size_limit};
ghost use Rattle.rq_meaning.specs.Rows.{all_columns, own_values, numbered, judged, entered, limit_check};
ghost use Rattle.rq_meaning.specs.Running.{Gives};
ghost use Rattle.rq_changes.specs.Making.{IsWithin};
ghost use Rattle.rq_changes.specs.Staged.{now_of};
ghost use Rattle.rq_changes.specs.Stepping.{Judges, numbered_row};

use crate::judging::{check_nulls, check_repeats, lay_rowid, rowid_for, rowid_value};
use crate::storing::store_all;
use crate::table::Table;
use rq_eval::{EvalError, StmtError};
use rq_select::TableView;
use rq_values::{Seq, Value};
use std::alloc::Global;

/// Leaves the table's own values.
fn leave_own(table: &Table, row: &mut Vec<Value>)
    ensures { row.new.items ≡ own_values table.now.rows.columns row.old.items }
{
    if table.is_hidden() && row.len() > 0 {
        drop(row.remove(0));
    }
}

/// Gives the row its rowid, and checks it in the order of the errors, but for the limit.
fn number(
    alloc: Global,
    table: &Table,
    had: Option<i64>,
    row: &mut Vec<Value>,
) -> Result<i64, EvalError>
    ensures { Gives (numbered_row (now_of table.now) had row.old.items) row.new.items result }
{
    let columns = table.all_columns();
    let key = match rowid_for(table, had, rowid_value(columns, row.as_slice())) {
        Ok(key) => key,
        Err(error) => return Err(EvalError::Says(error)),
    };
    match check_nulls(alloc, table.name(), had, columns, row.as_slice()) {
        Ok(()) => {}
        Err(e) => return Err(e),
    }
    leave_own(table, row);
    lay_rowid(table.columns(), row, key);
    match check_repeats(alloc, table, key, row.as_slice()) {
        Ok(()) => Ok(key),
        Err(e) => Err(e),
    }
}

/// The row as the table takes it: its rowid, and what the table takes with it.
fn judge(
    alloc: Global,
    table: &Table,
    others: u64,
    had: Option<i64>,
    row: &mut Vec<Value>,
) -> Result<(i64, u64), EvalError>
    requires others { others ≤ size_limit }
    requires count { length row.old.items ≡ length (all_columns table.now.rows.columns) }
    ensures judged { Judges (judged others (now_of table.now) had row.old.items) (now_of table.now) row.new.items result }
    ensures free { IfOk result (λ p. Free table.now.rows.columns table.now.rows.now row.new.items) }
    ensures key { IfOk result (λ p. HasKey table.now.rows.columns p.0 row.new.items) }
    ensures limit { IfOk result (λ p. others + p.1 ≤ size_limit) }
{
    match store_all(alloc, table.name(), table.all_columns(), row) {
        Ok(()) => {}
        Err(e) => return Err(e),
    }
    match number(alloc, table, had, row) {
        Ok(key) => match table.size_with(others, row.as_slice()) {
            Some(size) => Ok((key, size)),
            None => Err(EvalError::Says(StmtError::Full)),
        },
        Err(e) => Err(e),
    }
}

/// A row with the values of all columns comes into the table.
pub fn enter(
    alloc: Global,
    table: &mut Table,
    others: u64,
    had: Option<i64>,
    row: Seq<Value>,
) -> Result<i64, EvalError>
    requires within { IsWithin others (now_of table.old) }
    requires count { length row ≡ length (all_columns table.old.rows.columns) }
    ensures within { IsWithin others (now_of table.new) }
    ensures gives { Gives (entered others (now_of table.old) had row) (now_of table.new) result }
    ensures rest { table.new ≡ record table.old { rows = record table.old.rows { now = table.new.rows.now } } }
{
    let mut row = row.into_vec();
    match judge(alloc, table, others, had, &mut row) {
        Ok((key, size)) => match table.put_row(alloc, key, Seq::from_vec(row), size) {
            Ok(()) => Ok(key),
            Err(_) => Err(EvalError::NoMemory),
        },
        Err(e) => {
            drop(row);
            Err(e)
        }
    }
}
