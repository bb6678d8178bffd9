//! Reads by a pass, and freshness.
#![tactic(auto)]

mod pass;

pub use pass::{BeginError, Pass, Stale, begin, freshness, ready};
