//! What the commands of a log make of a replica, and what an engine promises of it.
//!
//! The fold of a log stands in `specs/Fold.antt`; what statements mean, in `rq_meaning`.
#![tactic(auto)]

mod laws;
mod outcome;
mod replica;

pub use laws::{commands_keep_a_database_valid, replica_is_valid};
pub use outcome::Outcome;
pub use replica::{Engine, Replica, SharedEngine};
