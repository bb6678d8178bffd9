//! The statement reader. `specs/Read.antt` says what it answers, to be held against `docs/SQL.md`, "What is refused, and where".
#![tactic(auto)]

mod error;
mod laws;
mod reader;
mod steps;

pub use error::ReadError;
pub use laws::each_text_has_one_answer;
pub use reader::read;
