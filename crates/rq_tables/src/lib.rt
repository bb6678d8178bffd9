//! The engine in memory: the tables of a replica, and the commands that change them.
//!
//! What statements make of a database stands in `rq_meaning`, what commands make of a replica in `rq_engine`.
#![tactic(auto)]

mod all_entries;
mod commands;
mod creating;
mod entry;
mod lists;
mod staged;
mod statements;
mod tables;

pub use tables::Tables;
