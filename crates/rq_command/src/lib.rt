//! The command of a log entry, read from its bytes, for a node that starts again: docs/FORMATS.md, "Bytes".
#![tactic(auto)]

mod commands;
mod decoding;
mod laws;
mod texts;

pub use commands::decode_command;
pub use decoding::decode_execute;
pub use laws::{
    each_command_has_one_answer, each_input_is_decoded_as_one, each_text_is_read_as_one,
    items_can_be_read,
};
