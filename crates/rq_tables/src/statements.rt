//! Statements.

ghost use Rattle.std.specs.Prelude.{◌≡◌, List, ℕ, Some};
ghost use Rattle.std.specs.Option.{option_copied, option_map};
ghost use Rattle.rq_eval.specs.Outcome.{Answers};
ghost use Rattle.rq_meaning.specs.Statements as spec;
ghost use Rattle.rq_changes.specs.Staged.{now_of};
ghost use Rattle.rq_tables.specs.Entries.{Rest, IsThere, IsPlace, now_db};
ghost use Rattle.rq_tables.specs.Running.{Leaves};

use crate::creating::{create, drop_table};
use crate::staged::StagedTables;
use rq_changes::{
    Table, delete, insert_results, insert_values, no_table, results_to_insert, update,
};
use rq_eval::{EvalError, StmtError};
use rq_grammar::{Expr, InsertRows, SelectStmt, Stmt};
use rq_meaning::Done;
use rq_select::select;
use rq_statement::Res;
use rq_values::Text;
use sqlite_items::Items;
use std::alloc::Global;

fn names_of(columns: &Option<Items<Text>>) -> Option<&[Text]>
    ensures { option_copied result ≡ columns.now }
{
    match columns {
        Some(names) => Some(names.as_slice()),
        None => None,
    }
}

/// The table that a select's FROM names.
fn from_table<'t>(tables: &'t StagedTables, stmt: &SelectStmt) -> Option<&'t Table>
    ensures { option_map now_of (option_copied result) ≡ spec.from_table (now_db tables.now) stmt.now }
{
    match &stmt.table {
        None => None,
        Some(name) => tables.find(name),
    }
}

// ---- changes of the table at a place

fn insert_values_at(
    alloc: Global,
    tables: &mut StagedTables,
    place: usize,
    names: Option<&[Text]>,
    rows: &[Items<Expr>],
) -> Result<Done, EvalError>
    requires { IsThere tables.old place }
    ensures leaves { (n : List ℕ) → IsPlace tables.old n (Some place) → Leaves (spec.on_table (now_db tables.old) n (spec.values_inserted (option_copied names.entry) rows.now)) (now_db tables.new) result }
    ensures rest { Rest tables.old tables.new }
{
    let others = tables.others(place);
    insert_values(alloc, &mut tables.entries[place].table, others, names, rows)
}

fn insert_select_at(
    alloc: Global,
    tables: &mut StagedTables,
    place: usize,
    names: Option<&[Text]>,
    stmt: &SelectStmt,
) -> Result<Done, EvalError>
    requires { IsThere tables.old place }
    ensures leaves { (n : List ℕ) → IsPlace tables.old n (Some place) → Leaves (spec.on_table (now_db tables.old) n (spec.select_inserted (now_db tables.old) (option_copied names.entry) stmt.now)) (now_db tables.new) result }
    ensures rest { Rest tables.old tables.new }
{
    let others = tables.others(place);
    match results_to_insert(
        alloc,
        tables.table_at(place),
        names,
        stmt,
        from_table(tables, stmt),
    ) {
        Ok(results) => insert_results(alloc, &mut tables.entries[place].table, others, results),
        Err(e) => Err(e),
    }
}

fn insert_at(
    alloc: Global,
    tables: &mut StagedTables,
    place: usize,
    names: Option<&[Text]>,
    rows: &InsertRows,
) -> Result<Done, EvalError>
    requires { IsThere tables.old place }
    ensures leaves { (n : List ℕ) → IsPlace tables.old n (Some place) → Leaves (spec.on_table (now_db tables.old) n (spec.inserted (now_db tables.old) (option_copied names.entry) rows.now)) (now_db tables.new) result }
    ensures rest { Rest tables.old tables.new }
{
    match rows {
        InsertRows::Values(rows) => insert_values_at(alloc, tables, place, names, rows.as_slice()),
        InsertRows::Select(stmt) => insert_select_at(alloc, tables, place, names, stmt),
    }
}

fn update_at(
    alloc: Global,
    tables: &mut StagedTables,
    place: usize,
    sets: &[(Text, Expr)],
    filter: &Option<Expr>,
) -> Result<Done, EvalError>
    requires { IsThere tables.old place }
    ensures leaves { (n : List ℕ) → IsPlace tables.old n (Some place) → Leaves (spec.on_table (now_db tables.old) n (spec.updated sets.now filter.now)) (now_db tables.new) result }
    ensures rest { Rest tables.old tables.new }
{
    let others = tables.others(place);
    update(
        alloc,
        &mut tables.entries[place].table,
        others,
        sets,
        filter,
    )
}

fn delete_at(
    alloc: Global,
    tables: &mut StagedTables,
    place: usize,
    filter: &Option<Expr>,
) -> Result<Done, EvalError>
    requires { IsThere tables.old place }
    ensures leaves { (n : List ℕ) → IsPlace tables.old n (Some place) → Leaves (spec.on_table (now_db tables.old) n (spec.deleted filter.now)) (now_db tables.new) result }
    ensures rest { Rest tables.old tables.new }
{
    delete(alloc, &mut tables.entries[place].table, filter)
}

// ---- the table of a name

fn insert(
    alloc: Global,
    tables: &mut StagedTables,
    name: &Text,
    names: Option<&[Text]>,
    rows: &InsertRows,
) -> Result<Done, EvalError>
    ensures leaves { Leaves (spec.on_table (now_db tables.old) name.now (spec.inserted (now_db tables.old) (option_copied names.entry) rows.now)) (now_db tables.new) result }
    ensures rest { Rest tables.old tables.new }
{
    match tables.place_of(name) {
        Some(place) => insert_at(alloc, tables, place, names, rows),
        None => Err(no_table(alloc, name)),
    }
}

fn update_table(
    alloc: Global,
    tables: &mut StagedTables,
    name: &Text,
    sets: &[(Text, Expr)],
    filter: &Option<Expr>,
) -> Result<Done, EvalError>
    ensures leaves { Leaves (spec.on_table (now_db tables.old) name.now (spec.updated sets.now filter.now)) (now_db tables.new) result }
    ensures rest { Rest tables.old tables.new }
{
    match tables.place_of(name) {
        Some(place) => update_at(alloc, tables, place, sets, filter),
        None => Err(no_table(alloc, name)),
    }
}

fn delete_from(
    alloc: Global,
    tables: &mut StagedTables,
    name: &Text,
    filter: &Option<Expr>,
) -> Result<Done, EvalError>
    ensures leaves { Leaves (spec.on_table (now_db tables.old) name.now (spec.deleted filter.now)) (now_db tables.new) result }
    ensures rest { Rest tables.old tables.new }
{
    match tables.place_of(name) {
        Some(place) => delete_at(alloc, tables, place, filter),
        None => Err(no_table(alloc, name)),
    }
}

// ---- all of them

/// A statement that is executed. After an error the tables are somewhere on the way.
pub fn execute(alloc: Global, tables: &mut StagedTables, stmt: &Stmt) -> Result<Done, EvalError>
    ensures leaves { Leaves (spec.executed (now_db tables.old) stmt.now) (now_db tables.new) result }
    ensures rest { Rest tables.old tables.new }
{
    match stmt {
        Stmt::Create {
            if_not_exists,
            table,
            columns,
        } => create(alloc, tables, *if_not_exists, table, columns.as_slice()),
        Stmt::Drop { if_exists, table } => drop_table(alloc, tables, *if_exists, table),
        Stmt::Insert {
            table,
            columns,
            rows,
        } => insert(alloc, tables, table, names_of(columns), rows),
        Stmt::Update {
            table,
            sets,
            filter,
        } => update_table(alloc, tables, table, sets.as_slice(), filter),
        Stmt::Delete { table, filter } => delete_from(alloc, tables, table, filter),
        Stmt::Select(_) => Err(EvalError::Says(StmtError::QueryInExecute)),
    }
}

/// A statement that is queried.
pub fn query(alloc: Global, tables: &StagedTables, stmt: &Stmt) -> Result<Res, EvalError>
    ensures { Answers (spec.queried (now_db tables.now) stmt.now) result }
{
    match stmt {
        Stmt::Select(stmt) => select(alloc, stmt, from_table(tables, stmt)),
        Stmt::Create { .. }
        | Stmt::Drop { .. }
        | Stmt::Insert { .. }
        | Stmt::Update { .. }
        | Stmt::Delete { .. } => Err(EvalError::Says(StmtError::ChangeInQuery)),
    }
}
