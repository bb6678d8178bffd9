//! The index up to which a leader may commit.
#![tactic(auto)]

mod index;

pub use index::reached;
