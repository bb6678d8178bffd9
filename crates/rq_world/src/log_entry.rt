//! Entries of the replicated log, as a node keeps them.
use rq_statement::Command;

/// An entry of the log: the term of the leader that appended it, and what it has a replica do.
#[derive(Drop)]
pub struct LogEntry {
    pub term: u64,
    pub command: Command,
}
