//! The rows of a table, which are found by rowid and by the values of UNIQUE columns, and whose changes can be taken back.
#![tactic(auto)]

mod change;
mod holders;
mod sweeping;
mod table_rows;
mod undo;
mod walking;

pub use change::Change;
pub use holders::Holders;
pub use table_rows::TableRows;
pub use undo::{is_rowid, is_unique, key_at};
