//! CREATE TABLE and DROP TABLE.

ghost use Rattle.std.specs.Prelude.{◌≡◌, ◌+◌, ◌≤◌, [], None, IfOk};
ghost use Rattle.std.specs.FinMap as fin;
ghost use Rattle.rq_eval.specs.declared.error.StmtError.TheVariants as error;
ghost use Rattle.rq_eval.specs.Names as names;
ghost use Rattle.rq_results.specs.Checks.{first};
ghost use Rattle.rq_results.specs.Viewed.{Clears, IsSaid};
ghost use Rattle.rq_meaning.specs.Checks as checks;
ghost use Rattle.rq_meaning.specs.Database.{table_of, with_table, tables_size, empty_size, size_limit};
ghost use Rattle.rq_meaning.specs.Statements as spec;
ghost use Rattle.rq_tables.specs.Entries.{Rest, now_db};
ghost use Rattle.rq_tables.specs.Running.{Leaves};

use crate::staged::StagedTables;
use rq_changes::{Table, no_table, with_table_size};
use rq_eval::{EvalError, StmtError};
use rq_grammar::ColumnDef;
use rq_meaning::Done;
use rq_values::{NoMemory, Seq, Text, TryCopy};
use std::alloc::Global;

fn nothing_done() -> Done
    ensures { result ≡ spec.nothing_done }
{
    Done {
        last_insert_id: 0,
        rows_affected: 0,
    }
}

// ---- errors

fn is_double(alloc: Global, name: &Text) -> EvalError
    ensures { IsSaid (error.DuplicateColumn name.now) result }
{
    match name.copy(alloc) {
        Ok(name) => EvalError::Says(StmtError::DuplicateColumn(name)),
        Err(_) => EvalError::NoMemory,
    }
}

fn is_second_key(alloc: Global, table: &Text) -> EvalError
    ensures { IsSaid (error.SecondPrimaryKey table.now) result }
{
    match table.copy(alloc) {
        Ok(name) => EvalError::Says(StmtError::SecondPrimaryKey(name)),
        Err(_) => EvalError::NoMemory,
    }
}

fn is_reserved_name(alloc: Global, table: &Text) -> EvalError
    ensures { IsSaid (error.ReservedName table.now) result }
{
    match table.copy(alloc) {
        Ok(name) => EvalError::Says(StmtError::ReservedName(name)),
        Err(_) => EvalError::NoMemory,
    }
}

fn is_there(alloc: Global, table: &Text) -> EvalError
    ensures { IsSaid (error.TableExists table.now) result }
{
    match table.copy(alloc) {
        Ok(name) => EvalError::Says(StmtError::TableExists(name)),
        Err(_) => EvalError::NoMemory,
    }
}

// ---- whether a table can have the name and the columns

fn is_same_name(a: &[u8], b: &[u8]) -> bool
    ensures { result ≡ names.is_same_name a.now b.now }
{
    a.eq_ignore_ascii_case(b)
}

/// Names that begin with `sqlite_` are reserved.
fn is_reserved(name: &[u8]) -> bool
    ensures { result ≡ checks.is_reserved name.now }
{
    if name.len() < 7 {
        return false;
    }
    is_same_name(&name[..7], b"sqlite_")
}

fn is_among(name: &Text, columns: &[ColumnDef]) -> bool
    ensures { result ≡ checks.is_among name.now columns.now }
{
    for column in columns {
        if is_same_name(column.name.bytes(), name.bytes()) {
            return true;
        }
    }
    false
}

fn has_primary(columns: &[ColumnDef]) -> bool
    ensures { result ≡ checks.has_primary columns.now }
{
    for column in columns {
        if column.primary {
            return true;
        }
    }
    false
}

fn check_column(
    alloc: Global,
    table: &Text,
    before: &[ColumnDef],
    column: &ColumnDef,
) -> Result<(), EvalError>
    ensures { Clears (checks.column_check table.now before.now column.now) result }
{
    if is_among(&column.name, before) {
        return Err(is_double(alloc, &column.name));
    }
    if column.primary && has_primary(before) {
        return Err(is_second_key(alloc, table));
    }
    Ok(())
}

fn check_columns(alloc: Global, table: &Text, columns: &[ColumnDef]) -> Result<(), EvalError>
    ensures { Clears (first (checks.column_checks table.now [] columns.now)) result }
{
    for i in 0..columns.len() {
        match check_column(alloc, table, &columns[..i], &columns[i]) {
            Ok(()) => {}
            Err(e) => return Err(e),
        }
    }
    Ok(())
}

fn check_create(alloc: Global, table: &Text, columns: &[ColumnDef]) -> Result<(), EvalError>
    ensures { Clears (checks.create_check table.now columns.now) result }
{
    if is_reserved(table.bytes()) {
        return Err(is_reserved_name(alloc, table));
    }
    check_columns(alloc, table, columns)
}

// ---- the table

fn copied_columns(alloc: Global, columns: &[ColumnDef]) -> Result<Seq<ColumnDef>, NoMemory>
    ensures { IfOk result (λ cs. cs ≡ columns.now) }
{
    let mut all = Seq::new(alloc);
    for column in columns {
        all.push(column.copy(alloc)?)?;
    }
    Ok(all)
}

fn new_table(
    alloc: Global,
    name: &Text,
    columns: &[ColumnDef],
    size: u64,
) -> Result<Table, NoMemory>
    requires size { size ≡ empty_size name.now columns.now }
    requires limit { size ≤ size_limit }
    ensures { IfOk result (λ t. t ≡ record { name = name.now; rows = record { columns = columns.now; start = fin.empty; before = fin.empty; now = fin.empty } }) }
{
    let name = name.copy(alloc)?;
    match copied_columns(alloc, columns) {
        Ok(columns) => Table::new(alloc, name, columns, size),
        Err(e) => {
            drop(name);
            Err(e)
        }
    }
}

/// A table more, which takes so much; it isn't there, and is within the limit.
fn push_new(
    alloc: Global,
    tables: &mut StagedTables,
    name: &Text,
    columns: &[ColumnDef],
    size: u64,
) -> Result<Done, EvalError>
    requires size { size ≡ empty_size name.now columns.now }
    requires new { table_of name.now (now_db tables.old) ≡ None }
    requires within { tables_size (now_db tables.old) + size ≤ size_limit }
    ensures leaves { Leaves (spec.if_within (with_table name.now (spec.no_rows name.now columns.now) (now_db tables.old))) (now_db tables.new) result }
    ensures rest { Rest tables.old tables.new }
{
    match new_table(alloc, name, columns, size) {
        Ok(table) => match tables.push(table) {
            Ok(()) => Ok(nothing_done()),
            Err(_) => Err(EvalError::NoMemory),
        },
        Err(_) => Err(EvalError::NoMemory),
    }
}

/// A table that isn't there.
fn create_new(
    alloc: Global,
    tables: &mut StagedTables,
    name: &Text,
    columns: &[ColumnDef],
) -> Result<Done, EvalError>
    requires new { table_of name.now (now_db tables.old) ≡ None }
    ensures leaves { Leaves (spec.new_created (now_db tables.old) name.now columns.now) (now_db tables.new) result }
    ensures rest { Rest tables.old tables.new }
{
    match check_create(alloc, name, columns) {
        Ok(()) => {}
        Err(e) => return Err(e),
    }
    let size = tables.size();
    match with_table_size(size, name, columns) {
        None => Err(EvalError::Says(StmtError::Full)),
        Some(total) => push_new(alloc, tables, name, columns, total - size),
    }
}

/// CREATE TABLE.
pub fn create(
    alloc: Global,
    tables: &mut StagedTables,
    if_not_exists: bool,
    name: &Text,
    columns: &[ColumnDef],
) -> Result<Done, EvalError>
    ensures leaves { Leaves (spec.created (now_db tables.old) if_not_exists name.now columns.now) (now_db tables.new) result }
    ensures rest { Rest tables.old tables.new }
{
    if tables.find(name).is_some() {
        if if_not_exists {
            return Ok(nothing_done());
        }
        return Err(is_there(alloc, name));
    }
    create_new(alloc, tables, name, columns)
}

/// DROP TABLE.
pub fn drop_table(
    alloc: Global,
    tables: &mut StagedTables,
    if_exists: bool,
    name: &Text,
) -> Result<Done, EvalError>
    ensures leaves { Leaves (spec.dropped (now_db tables.old) if_exists name.now) (now_db tables.new) result }
    ensures rest { Rest tables.old tables.new }
{
    match tables.place_of(name) {
        Some(place) => {
            tables.remove(place);
            Ok(nothing_done())
        }
        None => {
            if if_exists {
                return Ok(nothing_done());
            }
            Err(no_table(alloc, name))
        }
    }
}
