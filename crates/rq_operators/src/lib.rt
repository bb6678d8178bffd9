//! What operators, functions and aggregates give of values. The definitions stand in `specs/`; in words, docs/SQL.md, "The value of an
//! expression".
#![tactic(auto)]

mod aggregates;
mod applying;
mod arithmetic;
mod comparing;
mod dates;
mod error;
mod functions;
mod logic;
mod operators;
mod texts;

pub use aggregates::{one_more, start};
pub use applying::{apply_binary, apply_unary};
pub use comparing::{between, first_non_null, in_list};
pub use error::{OperatorError, ValueError};
pub use functions::{function_of, takes};
pub use logic::condition;
pub use operators::{AggregateOp, Function, TimePart, UnaryOp};
pub use texts::count;
