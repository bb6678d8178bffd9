//! INSERT, UPDATE and DELETE on one table, whose changes can be taken back.
//!
//! What they make of a table stands in `rq_meaning`.
#![tactic(auto)]

mod assigning;
mod deleting;
mod entering;
mod errors;
mod inserting;
mod judging;
mod naming;
mod sizes;
mod storing;
mod table;
mod updating;

pub use deleting::delete;
pub use errors::no_table;
pub use inserting::{Results, insert_results, insert_values, results_to_insert};
pub use sizes::{SIZE_LIMIT, with_table_size};
pub use table::Table;
pub use updating::update;
