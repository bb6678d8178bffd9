//! Statements' texts with their parameters, random words and a moment, made ready for the log: docs/SQL.md, "Settled statements".
#![tactic(auto)]

mod laws;
mod preparing;

pub use laws::each_text_is_prepared_once;
pub use preparing::{PrepareError, prepare};
