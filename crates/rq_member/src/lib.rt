//! A node of a cluster over its pair of log files: each event is one rule of the world of several nodes, and what it stores is
//! durable before its packets and answers leave.
#![tactic(auto)]

mod engine;
mod entry;
mod error;
mod event;
mod frames;
mod node;
mod reading;
mod turn_error;
mod waiting;

pub use engine::{Engine, EngineError};
pub use entry::{LogEntry, spelled_entry};
pub use error::NodeError;
pub use event::{Ask, Effects, Event, Op};
pub use node::{Node, Opened, State};
pub use turn_error::TurnError;
pub use waiting::{PendingRead, QueuedWrite};
