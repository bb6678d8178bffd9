//! Bodies of replies: docs/API.md, "Replies".
#![tactic(auto)]

mod objects;
mod output;
mod refusing;
mod replying;
mod servers;

pub use replying::reply;
