//! The bytes of packets, as docs/FORMATS.md, "Packets", has them: the four kinds of elections and of replication, over any entries
//! that can be spelled.
#![tactic(auto)]

mod decoding;
mod encoding;
mod laws;

pub use decoding::{decode_packet, next_packet};
pub use encoding::{encode_outgoing, encode_packet};
pub use laws::{
    packets_are_read_alone, packets_are_read_as_spelled, packets_have_one_spelling,
    readings_of_packets_agree,
};
