//! Statements' texts, made ready for the log: docs/SQL.md, "Settled statements".
#![tactic(auto)]

mod preparing;
mod refusing;
mod showing;

pub use preparing::{each_text_is_prepared, prepare};
