//! The world of several nodes: what they do, what they sent, what was asked and answered; and what holds of each run of it.
#![tactic(auto)]

pub mod laws;
mod log_entry;
mod waiting;

pub use log_entry::LogEntry;
pub use waiting::Waiting;
