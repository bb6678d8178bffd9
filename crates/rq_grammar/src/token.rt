//! Tokens.

use crate::word::Word;
use rq_values::{Bytes, Text};

/// A token, without its place.
#[derive(Drop)]
pub enum Token {
    /// A bare word in its spelling, and what it is.
    Word(Text, Word),
    /// A name in double quotes.
    Quoted(Text),
    /// A text in single quotes.
    String(Text),
    /// `X'..'`
    Blob(Bytes),
    /// Plain digits, up to 2^63.
    Numeral(u64),
    /// Any other numeral.
    OtherNumeral(Text),
    /// `?`, or a named parameter.
    Parameter(Option<Text>),
    Equal,
    EqualEqual,
    LessGreater,
    BangEqual,
    Less,
    LessEqual,
    Greater,
    GreaterEqual,
    Plus,
    Minus,
    Star,
    Slash,
    Percent,
    BarBar,
    Dot,
    Comma,
    Open,
    Close,
    Semi,
    /// Stands in no statement.
    Other,
}
