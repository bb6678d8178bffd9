//! What a consensus core keeps and gives: its log with the way back, its tables, packets as ranges of the log, and counts over members.
#![tactic(auto)]

mod entry;
mod fitting;
mod instance;
mod log;
mod moves;
mod packet;
mod peers;
mod recipients;
mod sending;
mod state;
mod table;
mod tally;

pub use entry::LogEntry;
pub use log::Log;
pub use moves::{Moves, Outgoing, Saying};
pub use packet::{Message, Packet};
pub use peers::tables_for;
pub use recipients::Recipients;
pub use sending::{answer, is_flight, is_idle, is_wanted, mark};
pub use state::State;
pub use table::Table;
pub use tally::{
    are_quorum, holds, is_confirmed, is_held, is_one_of, is_peer, is_voter, lower_match,
};
