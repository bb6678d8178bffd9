//! The errors of statements, and why there is no value.

use rq_grammar::ColumnKind;
use rq_operators::ValueError;
use rq_values::{NoMemory, Text};
use std::alloc::AllocError;

/// What a statement is to blame for once it is read, bound and settled, in the order in which it is looked at
/// (docs/SQL.md, "Errors of statements"). `text` shows it.
pub enum StmtError {
    QueryInExecute,
    ChangeInQuery,
    NoTable(Text),
    TableExists(Text),
    ReservedName(Text),
    DuplicateColumn(Text),
    SecondPrimaryKey(Text),
    NoColumnInTable {
        table: Text,
        column: Text,
    },
    NoColumn(Text),
    NoQualifiedColumn {
        table: Text,
        column: Text,
    },
    /// Of an INSERT without a list of columns.
    WrongValueCount {
        table: Text,
        columns: u64,
        values: u64,
    },
    /// Of an INSERT with a list of columns.
    WrongListCount {
        values: u64,
        columns: u64,
    },
    NoFunction(Text),
    WrongArguments(Text),
    MisuseOfAggregate,
    OrderTermOutOfRange,
    DatatypeMismatch,
    /// What an operator or a function says of its values.
    Value(ValueError),
    /// A value of one kind in a column of another.
    CannotStore {
        value: ColumnKind,
        kind: ColumnKind,
        table: Text,
        column: Text,
    },
    RowidOutOfRange,
    Full,
    NotNullFailed {
        table: Text,
        column: Text,
    },
    UniqueFailed {
        table: Text,
        column: Text,
    },
}

/// Lets go of two names.
fn drop_both(a: Text, b: Text) {
    drop(a);
    drop(b);
}

impl Drop for StmtError {
    fn drop(self) {
        match self {
            StmtError::NoTable(name) => drop(name),
            StmtError::TableExists(name) => drop(name),
            StmtError::ReservedName(name) => drop(name),
            StmtError::DuplicateColumn(name) => drop(name),
            StmtError::SecondPrimaryKey(name) => drop(name),
            StmtError::NoColumnInTable { table, column } => drop_both(table, column),
            StmtError::NoColumn(name) => drop(name),
            StmtError::NoQualifiedColumn { table, column } => drop_both(table, column),
            StmtError::WrongValueCount {
                table,
                columns: _,
                values: _,
            } => drop(table),
            StmtError::NoFunction(name) => drop(name),
            StmtError::WrongArguments(name) => drop(name),
            StmtError::CannotStore {
                value: _,
                kind: _,
                table,
                column,
            } => drop_both(table, column),
            StmtError::NotNullFailed { table, column } => drop_both(table, column),
            StmtError::UniqueFailed { table, column } => drop_both(table, column),
            StmtError::QueryInExecute
            | StmtError::ChangeInQuery
            | StmtError::WrongListCount {
                values: _,
                columns: _,
            }
            | StmtError::MisuseOfAggregate
            | StmtError::OrderTermOutOfRange
            | StmtError::DatatypeMismatch
            | StmtError::Value(_)
            | StmtError::RowidOutOfRange
            | StmtError::Full => {}
        }
    }
}

/// Why there is no value.
pub enum EvalError {
    Says(StmtError),
    NoMemory,
}

impl Drop for EvalError {
    fn drop(self) {
        match self {
            EvalError::Says(error) => drop(error),
            EvalError::NoMemory => {}
        }
    }
}

impl From<AllocError> for EvalError {
    ghost use Rattle.std.specs.Prelude.{◌≡◌};
    ghost use Rattle.rq_eval.specs.declared.error.EvalError.TheVariants as e;

    ghost from_gives = { λ _ x. x ≡ e.NoMemory };

    fn from(_error: AllocError) -> EvalError {
        EvalError::NoMemory
    }
}

impl From<NoMemory> for EvalError {
    ghost use Rattle.std.specs.Prelude.{◌≡◌};
    ghost use Rattle.rq_eval.specs.declared.error.EvalError.TheVariants as e;

    ghost from_gives = { λ _ x. x ≡ e.NoMemory };

    fn from(_error: NoMemory) -> EvalError {
        EvalError::NoMemory
    }
}

impl From<StmtError> for EvalError {
    ghost use Rattle.std.specs.Prelude.{◌≡◌};
    ghost use Rattle.rq_eval.specs.declared.error.EvalError.TheVariants as e;

    ghost from_gives = { λ s x. x ≡ e.Says s };

    fn from(error: StmtError) -> EvalError {
        EvalError::Says(error)
    }
}
