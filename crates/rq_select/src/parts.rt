//! Parts of a select that changes of tables use: the checks of an expression, the rows of a WHERE, and the rows of an INSERT's select.

ghost use Rattle.std.specs.Prelude.{◌≡◌, [], map, length, Ok, IfOk};
ghost use Rattle.std.specs.Option.{option_map, option_copied};
ghost use Rattle.rq_eval.specs.Names.{row_of, Row as SeenRow};
ghost use Rattle.rq_eval.specs.Outcome.{Answers, then_with};
ghost use Rattle.rq_select.specs.Parts as spec;
ghost use Rattle.rq_results.specs.Results.{no_source, table_source, source_of};
ghost use Rattle.rq_select.specs.Planned as planned;
ghost use Rattle.rq_results.specs.Viewed.{shown};
ghost use Rattle.rq_results.specs.Checks.{names_check};
ghost use Rattle.rq_select.specs.Select.{unless, meets, filtered};
ghost use Rattle.rq_results.specs.Table.{rows_of, scope_of};

use crate::filtering::filtered;
use crate::keys::rows_for;
use crate::planning::planned_filter;
use crate::selecting::{no_table, rows_of_nothing, rows_of_table};
use crate::table::TableView;
use rq_eval::{EvalError, ResolvedExpr, RowView, Scope, names_are_found_once};
use rq_grammar::{Expr, SelectStmt};
use rq_results::{Shown, check_all_names, spread};
use rq_values::{NoMemory, Seq, Value};
use std::alloc::Global;

fn rowids(alloc: Global, rows: &[RowView<'_>]) -> Result<Seq<i64>, NoMemory>
    ensures { IfOk result (λ ks. ks ≡ map (λ (r : SeenRow). r.rowid) (map row_of rows.now)) }
{
    let mut all = Seq::new(alloc);
    for row in rows {
        all.push(row.rowid)?;
    }
    Ok(all)
}

fn rowids_left<T: TableView>(
    alloc: Global,
    filter: &Option<ResolvedExpr>,
    table: &T,
) -> Result<Seq<i64>, EvalError>
    ensures { Answers (then_with (filtered (planned.passes filter.now) [] (rows_of (T.means table.now))) (λ rs. Ok (map (λ (r : SeenRow). r.rowid) rs))) result }
{
    match rows_for(alloc, filter, table) {
        Ok(rows) => {
            let left = filtered(alloc, filter, rows.as_slice())?;
            match rowids(alloc, left.as_slice()) {
                Ok(all) => Ok(all),
                Err(_) => Err(EvalError::NoMemory),
            }
        }
        Err(_) => Err(EvalError::NoMemory),
    }
}

/// The rowids of the rows for which a condition is true, in rising order. A condition `column = literal`, also beside others, finds its row
/// by the table's look-up.
pub fn rowids_where<T: TableView>(
    alloc: Global,
    filter: &Option<Expr>,
    table: &T,
) -> Result<Seq<i64>, EvalError>
    ensures { Answers (spec.rowids_where (T.means table.now) filter.now) result }
{
    names_are_found_once();
    match planned_filter(alloc, table.scope(), filter) {
        Ok(filter) => rowids_left(alloc, &filter, table),
        Err(_) => Err(EvalError::NoMemory),
    }
}

fn count_in(
    alloc: Global,
    scope: &Scope,
    items: &[Shown<'_>],
    stmt: &SelectStmt,
) -> Result<usize, EvalError>
    ensures { Answers (unless (names_check scope.now (map shown items.now) stmt.now) (Ok (length (map shown items.now)))) result }
{
    match check_all_names(alloc, scope, items, stmt) {
        Ok(()) => Ok(items.len()),
        Err(e) => Err(e),
    }
}

fn count_from_nothing(alloc: Global, stmt: &SelectStmt) -> Result<usize, EvalError>
    ensures { Answers (spec.result_count stmt.now no_source) result }
{
    match spread(alloc, 0, stmt.results.as_slice()) {
        Ok(items) => count_in(alloc, &Scope::Empty, items.as_slice(), stmt),
        Err(_) => Err(EvalError::NoMemory),
    }
}

fn count_from_table<T: TableView>(
    alloc: Global,
    stmt: &SelectStmt,
    table: &T,
) -> Result<usize, EvalError>
    ensures { Answers (spec.result_count stmt.now (table_source (T.means table.now))) result }
{
    match spread(alloc, table.columns().len(), stmt.results.as_slice()) {
        Ok(items) => count_in(alloc, table.scope(), items.as_slice(), stmt),
        Err(_) => Err(EvalError::NoMemory),
    }
}

/// How many results a select has, where its FROM names a table and its names are right.
pub fn result_count<T: TableView>(
    alloc: Global,
    stmt: &SelectStmt,
    table: Option<&T>,
) -> Result<usize, EvalError>
    ensures { Answers (then_with (source_of stmt.now.table (option_map T.means (option_copied table.entry))) (spec.result_count stmt.now)) result }
{
    match &stmt.table {
        None => count_from_nothing(alloc, stmt),
        Some(name) => match table {
            None => Err(no_table(alloc, name)),
            Some(table) => count_from_table(alloc, stmt, table),
        },
    }
}

fn rows_from_nothing(alloc: Global, stmt: &SelectStmt) -> Result<Seq<Seq<Value>>, EvalError>
    ensures { Answers (spec.result_rows stmt.now no_source) result }
{
    match spread(alloc, 0, stmt.results.as_slice()) {
        Ok(items) => rows_of_nothing(alloc, items.as_slice(), stmt),
        Err(_) => Err(EvalError::NoMemory),
    }
}

fn rows_from_table<T: TableView>(
    alloc: Global,
    stmt: &SelectStmt,
    table: &T,
) -> Result<Seq<Seq<Value>>, EvalError>
    ensures { Answers (spec.result_rows stmt.now (table_source (T.means table.now))) result }
{
    match spread(alloc, table.columns().len(), stmt.results.as_slice()) {
        Ok(items) => rows_of_table(alloc, items.as_slice(), stmt, table),
        Err(_) => Err(EvalError::NoMemory),
    }
}

/// The rows of a select's answer.
pub fn result_rows<T: TableView>(
    alloc: Global,
    stmt: &SelectStmt,
    table: Option<&T>,
) -> Result<Seq<Seq<Value>>, EvalError>
    ensures { Answers (then_with (source_of stmt.now.table (option_map T.means (option_copied table.entry))) (spec.result_rows stmt.now)) result }
{
    match &stmt.table {
        None => rows_from_nothing(alloc, stmt),
        Some(name) => match table {
            None => Err(no_table(alloc, name)),
            Some(table) => rows_from_table(alloc, stmt, table),
        },
    }
}
