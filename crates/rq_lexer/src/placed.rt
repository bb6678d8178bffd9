//! Tokens with their places.

use rq_grammar::Token;

/// A token and where it stands in its text: offsets in bytes, the end exclusive.
#[derive(Drop)]
pub struct Placed {
    pub token: Token,
    pub start: usize,
    pub end: usize,
}
