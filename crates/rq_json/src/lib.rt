//! Bodies of a script's asks, read as JSON: docs/SCRIPT.md, "Lines".
#![tactic(auto)]

mod bodies;

pub use bodies::statements_of;
