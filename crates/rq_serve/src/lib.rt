//! A node served over HTTP: its words, its threads, and why it ends: docs/SERVING.md.
#![tactic(auto)]

mod answering;
mod desk;
mod ends;
mod listening;
mod locked;
mod port;
mod serving;
mod words;

pub use answering::{AskError, answer_request};
pub use desk::{Desk, HubDesk};
pub use ends::NodeEnd;
pub use locked::{LockedClock, LockedDraws};
pub use port::WorkerPort;
pub use serving::serve_node;
pub use words::{NodeWords, WordsError, node_words};
