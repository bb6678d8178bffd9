//! Canonical text: the one text of a statement that enters the log. docs/SQL.md, "Canonical text".
#![tactic(auto)]

mod expressions;
mod laws;
mod pieces;
mod printing;
mod statements;
mod written;

pub use laws::canonical_text_is_read;
pub use printing::{print, print_expr, printed, printed_expr};
pub use written::each_statement_is_written;
