//! Bytes and runs of bytes.
ghost use Rattle.std.specs.Prelude.{◌≡◌, ◌≢◌, ◌+◌, ◌^◌, ◌<◌, ◌≤◌, length, take, drop, slice_index, false, IfSome};
ghost use Rattle.std.specs.List.{prefix_len};
ghost use Rattle.std.specs.Str as utf8;
ghost use Rattle.rq_grammar.specs.Spelling as words;
ghost use Rattle.rq_lexer.specs.Lex as spec;

/// The byte at a place, 0 behind the end.
pub fn byte_at(text: &[u8], at: usize) -> u8
    ensures value { result ≡ slice_index text.now at }
    ensures within { result ≢ 0 → at < length text.now }
{
    if at < text.len() { text[at] } else { 0 }
}

pub fn begins_word(byte: u8) -> bool
    ensures { result ≡ words.begins_word byte }
{
    byte.is_ascii_alphabetic() || byte == b'_'
}

pub fn is_in_word(byte: u8) -> bool
    ensures { result ≡ words.is_in_word byte }
{
    begins_word(byte) || byte.is_ascii_digit()
}

/// The length of the run of letters, digits and `_` before it.
pub fn word_len(text: &[u8]) -> usize
    ensures value { result ≡ prefix_len words.is_in_word text.now }
    ensures within { result ≤ length text.now }
{
    text.iter().take_while(|byte| is_in_word(**byte)).count()
}

/// The length of the run of letters, digits, `_` and `.` before it.
pub fn numeral_len(text: &[u8]) -> usize
    ensures value { result ≡ prefix_len spec.is_in_numeral text.now }
    ensures within { result ≤ length text.now }
{
    text.iter()
        .take_while(|byte| is_in_word(**byte) || **byte == b'.')
        .count()
}

/// How long the line is, without its LF.
fn line_len(text: &[u8]) -> usize
    ensures value { result ≡ prefix_len spec.is_in_line text.now }
    ensures within { result ≤ length text.now }
{
    text.iter().take_while(|byte| **byte != b'\n').count()
}

/// How much stands before the first single quote.
pub fn unquoted_len(text: &[u8]) -> usize
    ensures value { result ≡ prefix_len spec.is_no_quote text.now }
    ensures within { result ≤ length text.now }
{
    text.iter().take_while(|byte| **byte != b'\'').count()
}

/// How long a comment is whose `/*` stands before the text. One that isn't closed runs to the end.
fn comment_len(text: &[u8]) -> usize
    ensures value { result ≡ spec.behind_comment 2 false text.now }
    ensures within { result ≤ length text.now + 2 }
{
    let mut rest = text;
    let mut at = 2;
    let mut star = false;
    while let [byte, after @ ..] = rest {
        at += 1;
        if star && *byte == b'/' {
            return at;
        }
        star = *byte == b'*';
        rest = after;
    }
    at
}

fn is_blank(byte: u8) -> bool
    ensures { result ≡ spec.is_blank byte }
{
    byte == b' ' || byte == b'\t' || byte == b'\r' || byte == b'\n'
}

/// How long the blank or the comment before it is, 0 where there is none.
#[tactic(auto, unfolding(crate::specs::Lex::blank_len))]
pub fn blank_len(text: &[u8]) -> usize
    ensures value { result ≡ spec.blank_len text.now }
    ensures within { result ≤ length text.now }
{
    let first = byte_at(text, 0);
    let second = byte_at(text, 1);
    if is_blank(first) {
        1
    } else if first == b'-' && second == b'-' {
        line_len(text)
    } else if first == b'/' && second == b'*' {
        comment_len(&text[2..])
    } else {
        0
    }
}

/// How many bytes there are up to the closing quote and with it, None where none closes.
pub fn closing(quote: u8, text: &[u8]) -> Option<usize>
    ensures value { result ≡ spec.closing quote 0 false text.now }
    ensures within { IfSome result (λ n. (1 ≤ n) × (n ≤ length text.now)) }
{
    let mut rest = text;
    let mut n = 0;
    let mut is_open = false;
    while let [byte, after @ ..] = rest {
        if is_open && *byte != quote {
            return Some(n);
        }
        is_open = !is_open && *byte == quote;
        n += 1;
        rest = after;
    }
    if is_open { Some(n) } else { None }
}

/// Whether the bytes are UTF-8.
fn is_utf8(bytes: &[u8]) -> bool
    ensures { result ≡ utf8.is_utf8 bytes.now }
{
    match std::str::from_utf8(bytes) {
        Ok(_) => true,
        Err(_) => false,
    }
}

/// Whether the text's first `len` bytes are UTF-8.
fn is_char(text: &[u8], len: usize) -> bool
    ensures { result ≡ utf8.is_utf8 (take len text.now) }
{
    if len < text.len() {
        is_utf8(&text[..len])
    } else {
        is_utf8(text)
    }
}

/// How long the well-formed character before it is, or 1.
#[tactic(auto, unfolding(crate::specs::Lex::char_len))]
pub fn char_len(text: &[u8]) -> usize
    requires { 0 < length text.now }
    ensures value { result ≡ spec.char_len text.now }
    ensures within { (1 ≤ result) × (result ≤ length text.now) }
{
    if is_char(text, 1) {
        1
    } else if is_char(text, 2) {
        2
    } else if is_char(text, 3) {
        3
    } else if is_char(text, 4) {
        4
    } else {
        1
    }
}
