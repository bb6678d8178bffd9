//! Statements as the log has them: settled statements with their canonical text, the items of a list, commands, and what
//! a statement answers.
#![tactic(auto)]

mod command;
mod fixed;
mod item;
mod list;
mod res;
mod settled;
mod sight;

pub use command::{Command, encode_command, encode_execute};
pub use fixed::is_fixed_statement;
pub use item::{Item, know_item, know_items};
pub use list::StatementList;
pub use res::Res;
pub use settled::{Settled, Unsettled};
