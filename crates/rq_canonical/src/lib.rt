//! Canonical text is read as its statement: laws, each the contract of a function that does nothing, and printing and reading in one call.
#![tactic(auto)]

mod laws;
mod rereading;

pub use laws::{
    canonical_text_is_text, few_parentheses_are_open, printed_text_is_read, settled_text_is_read,
    what_is_read_is_proper,
};
pub use rereading::read_printed;
