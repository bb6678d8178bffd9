//! DELETE.

ghost use Rattle.std.specs.Prelude.{◌≡◌, ◌≤◌, ℕ, OnOk};
ghost use Rattle.rq_results.specs.Viewed.{Clears};
ghost use Rattle.rq_meaning.specs.Changes.{without_rows};
ghost use Rattle.rq_meaning.specs.Checks.{delete_check};
ghost use Rattle.rq_meaning.specs.Database.{table_size};
ghost use Rattle.rq_meaning.specs.Statements.{deleted};
ghost use Rattle.rq_changes.specs.Making.{Makes};
ghost use Rattle.rq_changes.specs.Staged.{now_of};

use crate::table::Table;
use rq_eval::EvalError;
use rq_grammar::Expr;
use rq_meaning::Done;
use rq_results::{check_calls, check_names};
use rq_select::{TableView, rowids_where};
use rq_values::NoMemory;
use std::alloc::Global;

/// What is wrong with a WHERE before any row is looked at: names, and then calls.
fn check_filter(alloc: Global, table: &Table, filter: &Option<Expr>) -> Result<(), EvalError>
    ensures { Clears (delete_check (now_of table.now) filter.now) result }
{
    match filter {
        None => Ok(()),
        Some(expr) => match check_names(alloc, table.scope(), expr) {
            Ok(()) => check_calls(alloc, expr),
            Err(e) => Err(e),
        },
    }
}

fn delete_rows(table: &mut Table, keys: &[i64]) -> Result<(), NoMemory>
    ensures gives { OnOk result (now_of table.new ≡ without_rows keys.now (now_of table.old)) }
    ensures smaller { table_size (now_of table.new) ≤ table_size (now_of table.old) }
    ensures rest { table.new ≡ record table.old { rows = record table.old.rows { now = table.new.rows.now } } }
{
    for key in keys {
        table.take_row(*key)?;
    }
    Ok(())
}

/// DELETE.
pub fn delete(alloc: Global, table: &mut Table, filter: &Option<Expr>) -> Result<Done, EvalError>
    ensures makes { (others : ℕ) → Makes (deleted filter.now others (now_of table.old)) (now_of table.new) result }
    ensures smaller { table_size (now_of table.new) ≤ table_size (now_of table.old) }
    ensures rest { table.new ≡ record table.old { rows = record table.old.rows { now = table.new.rows.now } } }
{
    match check_filter(alloc, table, filter) {
        Ok(()) => {}
        Err(e) => return Err(e),
    }
    let keys = match rowids_where(alloc, filter, table) {
        Ok(keys) => keys,
        Err(e) => return Err(e),
    };
    match delete_rows(table, keys.as_slice()) {
        Ok(()) => Ok(Done {
            last_insert_id: 0,
            rows_affected: keys.len() as u64,
        }),
        Err(_) => Err(EvalError::NoMemory),
    }
}
