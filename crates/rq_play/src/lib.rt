//! The cluster of a script over the world: what its lines do, what they say, and what holds of each run of them.
#![tactic(auto)]

pub mod laws;
