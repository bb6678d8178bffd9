//! How nodes agree on one log: the rules of Raft as definitions, and that each turn of a node is a list of moves of `rq_history`.
#![tactic(auto)]

pub mod laws;
mod peer;
mod role;

pub use peer::Peer;
pub use role::Role;
