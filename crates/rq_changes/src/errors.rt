//! Errors with their names.

ghost use Rattle.std.specs.Prelude.{◌≡◌, IfOk};
ghost use Rattle.rq_eval.specs.declared.error.StmtError.{StmtError as Error};
ghost use Rattle.rq_eval.specs.declared.error.StmtError.TheVariants as error;
ghost use Rattle.rq_results.specs.Viewed.{IsSaid};

use rq_eval::{EvalError, StmtError};
use rq_grammar::{ColumnDef, ColumnKind};
use rq_values::{NoMemory, Text, TryCopy};
use std::alloc::Global;

/// Two names, copied.
fn both(alloc: Global, a: &Text, b: &Text) -> Result<(Text, Text), NoMemory>
    ensures { IfOk result (λ p. (p.0 ≡ a.now) × (p.1 ≡ b.now)) }
{
    let one = a.copy(alloc)?;
    match b.copy(alloc) {
        Ok(two) => Ok((one, two)),
        Err(e) => {
            drop(one);
            Err(e)
        }
    }
}

pub fn cannot_store(alloc: Global, value: ColumnKind, table: &Text, column: &ColumnDef) -> EvalError
    ensures { IsSaid (error.CannotStore value column.now.kind table.now column.now.name) result }
{
    match both(alloc, table, &column.name) {
        Ok((table, name)) => EvalError::Says(StmtError::CannotStore {
            value,
            kind: column.kind,
            table,
            column: name,
        }),
        Err(_) => EvalError::NoMemory,
    }
}

pub fn is_missing(alloc: Global, table: &Text, column: &Text) -> EvalError
    ensures { IsSaid (error.NotNullFailed table.now column.now) result }
{
    match both(alloc, table, column) {
        Ok((table, column)) => EvalError::Says(StmtError::NotNullFailed { table, column }),
        Err(_) => EvalError::NoMemory,
    }
}

pub fn is_repeated(alloc: Global, table: &Text, column: &Text) -> EvalError
    ensures { IsSaid (error.UniqueFailed table.now column.now) result }
{
    match both(alloc, table, column) {
        Ok((table, column)) => EvalError::Says(StmtError::UniqueFailed { table, column }),
        Err(_) => EvalError::NoMemory,
    }
}

pub fn no_column(alloc: Global, table: &Text, column: &Text) -> EvalError
    ensures { IsSaid (error.NoColumnInTable table.now column.now) result }
{
    match both(alloc, table, column) {
        Ok((table, column)) => EvalError::Says(StmtError::NoColumnInTable { table, column }),
        Err(_) => EvalError::NoMemory,
    }
}

/// There is no table of the name.
pub fn no_table(alloc: Global, name: &Text) -> EvalError
    ensures { IsSaid (error.NoTable name.now) result }
{
    match name.copy(alloc) {
        Ok(name) => EvalError::Says(StmtError::NoTable(name)),
        Err(_) => EvalError::NoMemory,
    }
}

pub fn is_double(alloc: Global, column: &Text) -> EvalError
    ensures { IsSaid (error.DuplicateColumn column.now) result }
{
    match column.copy(alloc) {
        Ok(column) => EvalError::Says(StmtError::DuplicateColumn(column)),
        Err(_) => EvalError::NoMemory,
    }
}

pub fn wrong_value_count(alloc: Global, table: &Text, columns: u64, values: u64) -> EvalError
    ensures { IsSaid (error.WrongValueCount table.now columns values) result }
{
    match table.copy(alloc) {
        Ok(table) => EvalError::Says(StmtError::WrongValueCount {
            table,
            columns,
            values,
        }),
        Err(_) => EvalError::NoMemory,
    }
}
