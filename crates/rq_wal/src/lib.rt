//! A log file pair: a base, and frames behind gates, written so that a stop at any moment leaves the first of them, each
//! whole. docs/FORMATS.md, "The file pair", has the bytes.
#![tactic(auto)]

mod appending;
mod base;
mod choosing;
mod error;
mod file;
mod framing;
mod laws;
mod opening;
mod reading;
mod replacing;
mod spelling;
mod synced;

pub use base::{Base, Stored};
pub use error::OpenError;
pub use file::{Batch, WalFile};
pub use laws::{current_logs_stand, logs_are_read_as_written, logs_stand_while_room_is_made};
pub use opening::open;
pub use rq_wire::Frame;
