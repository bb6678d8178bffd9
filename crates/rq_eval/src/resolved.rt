//! An expression whose names are places in a row and whose calls are operators.

use rq_grammar::BinaryOp;
use rq_operators::{AggregateOp, UnaryOp};
use rq_values::{Text, Value};
use sqlite_items::{Boxed, Items};

/// What is wrong with a name or a call, whatever the rows are.
pub enum ResolveError {
    NoColumn(Text),
    NoQualifiedColumn { table: Text, column: Text },
    NoFunction(Text),
    WrongArguments(Text),
    MisuseOfAggregate,
}

impl Drop for ResolveError {
    fn drop(self) {
        match self {
            ResolveError::NoColumn(name) => drop(name),
            ResolveError::NoQualifiedColumn { table, column } => {
                drop(table);
                drop(column);
            }
            ResolveError::NoFunction(name) => drop(name),
            ResolveError::WrongArguments(name) => drop(name),
            ResolveError::MisuseOfAggregate => {}
        }
    }
}

/// An expression whose names are places in a row and whose calls are operators.
pub enum ResolvedExpr {
    Literal(Value),
    /// The column at this place; behind the columns the rowid.
    Column(usize),
    /// A name or a call that is wrong: evaluation meets its error where it stands.
    Error(ResolveError),
    Unary {
        op: UnaryOp,
        operand: Boxed<ResolvedExpr>,
    },
    Binary {
        op: BinaryOp,
        left: Boxed<ResolvedExpr>,
        right: Boxed<ResolvedExpr>,
    },
    InList {
        left: Boxed<ResolvedExpr>,
        list: Items<ResolvedExpr>,
    },
    Between {
        operand: Boxed<ResolvedExpr>,
        low: Boxed<ResolvedExpr>,
        high: Boxed<ResolvedExpr>,
    },
    Coalesce(Items<ResolvedExpr>),
    CountAll,
    Aggregate {
        op: AggregateOp,
        operand: Boxed<ResolvedExpr>,
    },
}

impl Drop for ResolvedExpr {
    fn drop(self) {
        match self {
            ResolvedExpr::Literal(value) => drop(value),
            ResolvedExpr::Column(_) => {}
            ResolvedExpr::Error(error) => drop(error),
            ResolvedExpr::Unary { op: _, operand } => drop(operand),
            ResolvedExpr::Binary { op: _, left, right } => {
                drop(left);
                drop(right);
            }
            ResolvedExpr::InList { left, list } => {
                drop(left);
                drop(list);
            }
            ResolvedExpr::Between { operand, low, high } => {
                drop(operand);
                drop(low);
                drop(high);
            }
            ResolvedExpr::Coalesce(list) => drop(list),
            ResolvedExpr::CountAll => {}
            ResolvedExpr::Aggregate { op: _, operand } => drop(operand),
        }
    }
}
