//! The value of an expression over a row, or over all rows, and the errors of statements.
//!
//! An expression's names are found once for a statement (`resolve`), and what comes of it is evaluated row by row (`evaluate`). What
//! the value is stands in `specs/Value.antt` as one fold over the expression, and in docs/SQL.md, "The value of an expression".
#![tactic(auto)]

mod error;
mod error_text;
mod evaluation;
mod laws;
mod naming;
mod resolved;
mod resolving;
mod row;
mod valuing;

pub use error::{EvalError, StmtError};
pub use evaluation::evaluate;
pub use laws::{names_are_found_once, one_value};
pub use naming::{find_column, find_qualified_column};
pub use resolved::{ResolveError, ResolvedExpr};
pub use resolving::resolve;
pub use row::{RowView, Scope};
pub use valuing::{aggregate_value, value};
