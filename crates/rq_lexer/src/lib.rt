//! The tokens of a text. The definition is `specs/Lex.antt`, to be held against `docs/SQL.md`, Tokens.
#![tactic(auto)]

mod laws;
mod lexer;
mod placed;
mod prefix;
mod scan;
mod words;

pub use laws::{
    at_most_one_token_a_byte, each_call_has_one_answer, tokens_are_read_as_spelled, tokens_in_order,
};
pub use lexer::Lexer;
pub use placed::Placed;
