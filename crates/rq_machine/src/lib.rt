//! The machine that reads statements, in code: a state and a token give the next state, within the limits.
//!
//! The definitions are those of rq_automaton; docs/SQL.md, "What is refused, and where".
#![tactic(auto)]

mod clauses;
mod done;
mod ending;
mod laws;
mod limits;
mod modes;
mod operators;
mod reduce;
mod step;
mod stop;
mod within;

pub use laws::each_token_has_one_answer;
pub use limits::open_behind;
pub use stop::Stop;
pub use within::{advance, finish};
