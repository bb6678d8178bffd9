//! Log entries, configurations and the changes of a log: their types and their bytes, as docs/FORMATS.md, "Bytes", has them.
#![tactic(auto)]

mod config;
mod decoding;
mod encoding;
mod entry;
mod frame;
mod laws;

pub use config::{Config, Member, quorum};
pub use decoding::decode_entry;
pub use encoding::{encode_config, encode_entry};
pub use entry::{Body, Entry};
pub use frame::Frame;
pub use laws::{
    entries_are_read_alone, entries_are_read_as_spelled, entries_have_one_spelling,
    readings_of_entries_agree, two_quorums_meet,
};
