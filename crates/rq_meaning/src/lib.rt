//! What the statements of SQL make of a database, and what they answer: definitions, and laws of them.
//!
//! `specs/Statements.antt` has a line for each statement, `specs/Lists.antt` lists and transactions; in words, docs/SQL.md.
#![tactic(auto)]

mod done;
mod laws;

pub use done::Done;
pub use laws::{one_meaning, statements_keep_a_database_valid, what_fails_changes_nothing};
