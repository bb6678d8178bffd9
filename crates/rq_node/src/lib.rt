//! One node over its pair of log files: what its rules do, what they make durable, and how it starts again.
//!
//! What a rule stores is durable before its answers leave. The rules are in `docs/RAFT.md`.
#![tactic(auto)]

mod error;
mod event;
mod log_entry;
mod node;
mod role;
mod turn_error;
mod waiting;

pub use error::NodeError;
pub use event::{Effects, Event};
pub use log_entry::{Content, LogEntry};
pub use node::{Node, State};
pub use role::Role;
pub use turn_error::TurnError;
pub use waiting::Waiting;
