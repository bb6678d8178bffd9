//! The consensus core in code, over the rules of `rq_raft`.
#![tactic(auto)]

mod giving_up;
mod laws;
mod node;

pub use giving_up::{gave_up, tried};
pub use laws::what_is_stored_is_the_rules;
pub use node::Core;
