//! Requests' statements, asks, and what a node says to them: docs/RAFT.md, "Ask".
#![tactic(auto)]

mod ask;
mod say;
mod shape;
mod statement;

pub use ask::{Ask, Level, Member, Op};
pub use say::{Answer, NodeRefusal, Say};
pub use shape::Shape;
pub use statement::{Params, Statement};
