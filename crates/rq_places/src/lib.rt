//! The automaton between expressions, in code: what each token leads to, by statement, and what begins an operand.
//!
//! The definitions are those of rq_automaton.
#![tactic(auto)]

mod clause_start;
mod create_table;
mod delete;
mod drop_table;
mod ended;
mod insert;
mod names;
mod operands;
mod place_weights;
mod places;
mod select;
mod update;

pub use clause_start::inside;
pub use names::{Step, at, behind};
pub use operands::{going_on, operand, pushed, signed};
pub use place_weights::{place_due, place_weight};
pub use places::{place_finish, place_step};
pub use select::tail_at;
