//! The token before a text.
ghost use Rattle.std.specs.Prelude.{◌≡◌, ◌+◌, ◌*◌, ◌<◌, ◌≤◌, ◌∷◌, [], length, true, false, IsTrue, IfOk, Some, None, if◌then◌else◌};
ghost use Rattle.std.specs.List.{list_all};
ghost use Rattle.std.specs.Char.{is_ascii_hexdigit, digit_value};
ghost use Rattle.rq_values.specs.Text.{is_text};
ghost use Rattle.rq_lexer.specs.Lex as spec;

use crate::scan::{begins_word, byte_at, char_len, closing, numeral_len, unquoted_len, word_len};
use crate::words::word_of;
use rq_grammar::Token;
use rq_values::{Bytes, NoMemory, Text};
use std::alloc::Global;

/// A copy of bytes that are known to be a text.
fn known_text(alloc: Global, bytes: &[u8]) -> Result<Text, NoMemory>
    requires { IsTrue (is_text bytes.now) }
    ensures { IfOk result (λ text. text ≡ bytes.now) }
{
    match Text::new(alloc, bytes)? {
        Some(text) => Ok(text),
        None => unreachable!(),
    }
}

#[tactic(auto, using(crate::proofs::Plain::is_text_word), unfolding(crate::specs::Lex::word))]
fn word(alloc: Global, text: &[u8]) -> Result<(Token, usize), NoMemory>
    ensures { IfOk result (λ f. f ≡ spec.word text.now) }
{
    let len = word_len(text);
    let name = &text[..len];
    let word = word_of(name);
    Ok((Token::Word(known_text(alloc, name)?, word), len))
}

#[tactic(auto, using(crate::proofs::Plain::is_text_word, std::proofs::lemmas::List::take_rest), unfolding(crate::specs::Lex::parameter))]
fn parameter(alloc: Global, text: &[u8]) -> Result<(Token, usize), NoMemory>
    requires { 0 < length text.now }
    ensures { IfOk result (λ f. f ≡ spec.parameter text.now) }
{
    let behind = &text[1..];
    let len = word_len(behind);
    let name = known_text(alloc, &behind[..len])?;
    Ok((Token::Parameter(Some(name)), len + 1))
}

/// The greatest numeral that is one: 2^63.
const MOST: u64 = 9_223_372_036_854_775_808;

/// The number that a run spells if it is plain digits, and at most 2^63.
#[tactic(auto, using(crate::proofs::Numbers::grows), unfolding(crate::specs::Lex::is_integer))]
fn integer(run: &[u8]) -> Option<u64>
    ensures { result ≡ (if spec.is_integer run.now then Some (spec.number_of run.now) else None) }
{
    let mut rest = run;
    let mut number: u64 = 0;
    while let [byte, after @ ..] = rest {
        if !byte.is_ascii_digit() || number > MOST / 10 {
            return None;
        }
        number = 10 * number + (*byte - b'0') as u64;
        rest = after;
    }
    if number <= MOST { Some(number) } else { None }
}

#[tactic(auto, using(crate::proofs::Plain::is_text_numeral), unfolding(crate::specs::Lex::numeral))]
fn numeral(alloc: Global, text: &[u8]) -> Result<(Token, usize), NoMemory>
    ensures { IfOk result (λ f. f ≡ spec.numeral text.now) }
{
    let len = numeral_len(text);
    let run = &text[..len];
    match integer(run) {
        Some(number) => Ok((Token::Numeral(number), len)),
        None => Ok((Token::OtherNumeral(known_text(alloc, run)?), len)),
    }
}

/// What stands between quotes, each doubled quote once.
fn undoubled(alloc: Global, quote: u8, inside: &[u8]) -> Result<Vec<u8>, NoMemory>
    ensures { IfOk result (λ bytes. bytes.items ≡ spec.undoubled quote false inside.now) }
{
    let mut bytes = Vec::new(alloc);
    let mut rest = inside;
    let mut is_second = false;
    while let [byte, after @ ..] = rest {
        if is_second {
            is_second = false;
        } else {
            bytes.push(*byte)?;
            is_second = *byte == quote;
        }
        rest = after;
    }
    Ok(bytes)
}

/// Behind an opening quote: what is quoted, None where it isn't closed or is no text; and its length with the closing quote.
#[tactic(auto, using(crate::proofs::Plain::made), unfolding(crate::specs::Lex::quoted))]
fn quoted(alloc: Global, quote: u8, text: &[u8]) -> Result<(Option<Text>, usize), NoMemory>
    ensures value { IfOk result (λ q. q ≡ spec.quoted quote text.now) }
    ensures within { IfOk result (λ q. q.1 ≤ length text.now) }
{
    match closing(quote, text) {
        Some(len) => match undoubled(alloc, quote, &text[..len - 1]) {
            Ok(inside) => Ok((Text::from_vec(inside), len)),
            Err(error) => Err(error),
        },
        None => Ok((None, text.len())),
    }
}

#[tactic(auto, unfolding(crate::specs::Lex::string))]
fn string(alloc: Global, text: &[u8]) -> Result<(Token, usize), NoMemory>
    requires { 0 < length text.now }
    ensures { IfOk result (λ f. f ≡ spec.string text.now) }
{
    let (inside, len) = quoted(alloc, b'\'', &text[1..])?;
    match inside {
        Some(inside) => Ok((Token::String(inside), len + 1)),
        None => Ok((Token::Other, len + 1)),
    }
}

#[tactic(auto, unfolding(crate::specs::Lex::quoted_name))]
fn quoted_name(alloc: Global, text: &[u8]) -> Result<(Token, usize), NoMemory>
    requires { 0 < length text.now }
    ensures { IfOk result (λ f. f ≡ spec.quoted_name text.now) }
{
    let (inside, len) = quoted(alloc, b'"', &text[1..])?;
    match inside {
        Some(inside) => Ok((Token::Quoted(inside), len + 1)),
        None => Ok((Token::Other, len + 1)),
    }
}

fn hex_value(digit: u8) -> u8
    requires { IsTrue (is_ascii_hexdigit digit) }
    ensures value { result ≡ digit_value digit }
    ensures below { result < 16 }
{
    if digit.is_ascii_digit() {
        digit - b'0'
    } else if digit.is_ascii_uppercase() {
        digit - b'A' + 10
    } else {
        digit - b'a' + 10
    }
}

/// The bytes that pairs of hexadecimal digits spell.
fn bytes_of_hex(alloc: Global, digits: &[u8]) -> Result<Vec<u8>, NoMemory>
    requires { IsTrue (list_all is_ascii_hexdigit digits.now) }
    ensures { IfOk result (λ bytes. bytes.items ≡ spec.bytes_of_hex digits.now) }
{
    let mut bytes = Vec::new(alloc);
    let mut rest = digits;
    while let [high, low, after @ ..] = rest {
        bytes.push(16 * hex_value(*high) + hex_value(*low))?;
        rest = after;
    }
    Ok(bytes)
}

fn are_digits(digits: &[u8]) -> bool
    ensures { result ≡ list_all is_ascii_hexdigit digits.now }
{
    digits.iter().all(|digit| digit.is_ascii_hexdigit())
}

#[tactic(auto, unfolding(crate::specs::Lex::is_hex))]
fn is_hex(digits: &[u8]) -> bool
    ensures value { result ≡ spec.is_hex digits.now }
    ensures digits { IsTrue result → IsTrue (list_all is_ascii_hexdigit digits.now) }
{
    are_digits(digits) && digits.len() % 2 == 0
}

#[tactic(auto, unfolding(crate::specs::Lex::blob))]
fn blob(alloc: Global, text: &[u8]) -> Result<(Token, usize), NoMemory>
    requires { 1 < length text.now }
    ensures { IfOk result (λ f. f ≡ spec.blob text.now) }
{
    let inside = &text[2..];
    let len = unquoted_len(inside);
    if len == inside.len() {
        return Ok((Token::Other, text.len()));
    }
    let digits = &inside[..len];
    if !is_hex(digits) {
        return Ok((Token::Other, len + 3));
    }
    let bytes = bytes_of_hex(alloc, digits)?;
    Ok((Token::Blob(Bytes::from_vec(bytes)), len + 3))
}

fn long_mark(first: u8, second: u8) -> Option<Token>
    ensures { result ≡ spec.mark_among spec.long_marks (first ∷ second ∷ []) }
{
    match first {
        b'=' if second == b'=' => Some(Token::EqualEqual),
        b'<' if second == b'>' => Some(Token::LessGreater),
        b'!' if second == b'=' => Some(Token::BangEqual),
        b'<' if second == b'=' => Some(Token::LessEqual),
        b'>' if second == b'=' => Some(Token::GreaterEqual),
        b'|' if second == b'|' => Some(Token::BarBar),
        _ => None,
    }
}

fn short_mark(first: u8) -> Option<Token>
    ensures { result ≡ spec.mark_among spec.short_marks (first ∷ []) }
{
    match first {
        b'=' => Some(Token::Equal),
        b'<' => Some(Token::Less),
        b'>' => Some(Token::Greater),
        b'+' => Some(Token::Plus),
        b'-' => Some(Token::Minus),
        b'*' => Some(Token::Star),
        b'/' => Some(Token::Slash),
        b'%' => Some(Token::Percent),
        b'.' => Some(Token::Dot),
        b',' => Some(Token::Comma),
        b'(' => Some(Token::Open),
        b')' => Some(Token::Close),
        b';' => Some(Token::Semi),
        b'?' => Some(Token::Parameter(None)),
        _ => None,
    }
}

/// A mark, or a token of one character.
#[tactic(auto, unfolding(crate::specs::Lex::mark))]
fn mark(text: &[u8]) -> (Token, usize)
    requires { 0 < length text.now }
    ensures { result ≡ spec.mark text.now }
{
    let first = byte_at(text, 0);
    if let Some(mark) = long_mark(first, byte_at(text, 1)) {
        return (mark, 2);
    }
    match short_mark(first) {
        Some(mark) => (mark, 1),
        None => (Token::Other, char_len(text)),
    }
}

fn is_x(byte: u8) -> bool
    ensures { result ≡ spec.is_x byte }
{
    byte == b'X' || byte == b'x'
}

fn is_sigil(byte: u8) -> bool
    ensures { result ≡ spec.is_sigil byte }
{
    byte == b':' || byte == b'@' || byte == b'$'
}

/// The token before a text that isn't empty and has neither blank nor comment before it, and how long it is.
#[tactic(auto, unfolding(crate::specs::Lex::prefix))]
pub fn prefix(alloc: Global, text: &[u8]) -> Result<(Token, usize), NoMemory>
    requires { 0 < length text.now }
    ensures { IfOk result (λ f. f ≡ spec.prefix text.now) }
{
    let first = byte_at(text, 0);
    let second = byte_at(text, 1);
    if is_x(first) && second == b'\'' {
        blob(alloc, text)
    } else if begins_word(first) {
        word(alloc, text)
    } else if first.is_ascii_digit() {
        numeral(alloc, text)
    } else if first == b'\'' {
        string(alloc, text)
    } else if first == b'"' {
        quoted_name(alloc, text)
    } else if is_sigil(first) && begins_word(second) {
        parameter(alloc, text)
    } else {
        Ok(mark(text))
    }
}
