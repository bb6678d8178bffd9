//! The theory of Raft's safety: what holds of every history of a cluster, whatever its packets did.
//! No code: each function of `laws` has an empty body, and its contract is a theorem about the definitions of `specs/`.
#![tactic(auto)]

pub mod examples;
pub mod laws;
