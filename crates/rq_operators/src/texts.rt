//! Texts: `||`, LIKE, and the functions over texts.

ghost use Rattle.std.specs.Prelude.{◌≡◌, Ok, true, pos};
ghost use Rattle.rq_values.specs.declared.value.Value.TheVariants as values;
ghost use Rattle.rq_values.specs.Text.{is_plain};
ghost use Rattle.rq_operators.specs.Outcome as outcome;
ghost use Rattle.rq_operators.specs.Operators as spec;
ghost use Rattle.rq_operators.specs.Texts as texts;

use crate::comparing::{either_null, is_null};
use crate::error::{OperatorError, ValueError};
use crate::logic::truth;
use rq_texts::{character_count, digit_count, hex_integer, hex_text, is_like_text, plain_text};
use rq_values::{NoMemory, Text, TryCopy, Value};
use std::alloc::Global;

/// A text, or an integer as its decimal text.
fn spelled(alloc: Global, value: &Value) -> Result<Text, OperatorError>
    ensures { outcome.Answers (texts.spelled value.now) result }
{
    match value {
        Value::Null => Err(OperatorError::Says(ValueError::NotText)),
        Value::Int(number) => match Text::of_integer(alloc, *number) {
            Ok(text) => Ok(text),
            Err(_) => Err(OperatorError::NoMemory),
        },
        Value::Text(text) => match text.copy(alloc) {
            Ok(text) => Ok(text),
            Err(_) => Err(OperatorError::NoMemory),
        },
        Value::Blob(_) => Err(OperatorError::Says(ValueError::NotText)),
    }
}

/// What was made, as a value.
pub fn text_value(text: Result<Text, NoMemory>) -> Result<Value, OperatorError>
    ensures { outcome.IsMadeText text result }
{
    match text {
        Ok(text) => Ok(Value::Text(text)),
        Err(_) => Err(OperatorError::NoMemory),
    }
}

fn like_texts(alloc: Global, text: &Text, pattern: &Text) -> Result<Value, OperatorError>
    ensures { outcome.Answers (Ok (texts.like_value text.now pattern.now)) result }
{
    match is_like_text(alloc, text, pattern) {
        Ok(is) => Ok(truth(Some(is))),
        Err(_) => Err(OperatorError::NoMemory),
    }
}

/// `||` or LIKE.
#[derive(Clone, Copy)]
pub enum TextPair {
    Join,
    Like,
}

fn on_pair(alloc: Global, op: TextPair, s: &Text, t: &Text) -> Result<Value, OperatorError>
    ensures { outcome.Answers (Ok (texts.on_pair op s.now t.now)) result }
{
    match op {
        TextPair::Join => text_value(s.joined(alloc, t)),
        TextPair::Like => like_texts(alloc, s, t),
    }
}

/// `||` and LIKE of what isn't two texts.
fn on_spelled(alloc: Global, op: TextPair, a: &Value, b: &Value) -> Result<Value, OperatorError>
    ensures { outcome.Answers (texts.on_texts (texts.on_pair op) a.now b.now) result }
{
    if either_null(a, b) {
        return Ok(Value::Null);
    }
    let s = spelled(alloc, a)?;
    match spelled(alloc, b) {
        Ok(t) => on_pair(alloc, op, &s, &t),
        Err(e) => {
            drop(s);
            Err(e)
        }
    }
}

/// `||` and LIKE
pub fn on_texts(alloc: Global, op: TextPair, a: &Value, b: &Value) -> Result<Value, OperatorError>
    ensures { outcome.Answers (texts.on_texts (texts.on_pair op) a.now b.now) result }
{
    match (a, b) {
        (Value::Text(s), Value::Text(t)) => on_pair(alloc, op, s, t),
        _ => on_spelled(alloc, op, a, b),
    }
}

/// Which letters a text is to have.
#[derive(Clone, Copy)]
pub enum LetterCase {
    Lower,
    Upper,
}

/// LOWER and UPPER
pub fn in_case(alloc: Global, case: LetterCase, a: &Value) -> Result<Value, OperatorError>
    ensures { outcome.Answers (texts.on_text (texts.in_case case) a.now) result }
{
    if is_null(a) {
        return Ok(Value::Null);
    }
    let s = spelled(alloc, a)?;
    match case {
        LetterCase::Lower => text_value(s.lower(alloc)),
        LetterCase::Upper => text_value(s.upper(alloc)),
    }
}

/// A number of things as an integer.
pub fn count(n: usize) -> Result<Value, ValueError>
    ensures { result ≡ spec.in_range (pos n) }
{
    match i64::try_from(n) {
        Ok(n) => Ok(Value::Int(n)),
        Err(_) => Err(ValueError::IntegerOverflow),
    }
}

/// LENGTH
pub fn length(a: &Value) -> Result<Value, ValueError>
    ensures { result ≡ texts.length_of a.now }
{
    match a {
        Value::Null => Ok(Value::Null),
        Value::Int(number) => count(digit_count(*number)),
        Value::Text(text) => count(character_count(text.as_str())),
        Value::Blob(bytes) => count(bytes.bytes().len()),
    }
}

/// HEX
pub fn hex(alloc: Global, a: &Value) -> Result<Value, OperatorError>
    ensures { outcome.Answers (Ok (texts.hex a.now)) result }
{
    match a {
        Value::Null => Ok(Value::Text(Text::empty(alloc))),
        Value::Int(number) => text_value(hex_integer(alloc, *number)),
        Value::Text(text) => text_value(hex_text(alloc, text.bytes())),
        Value::Blob(bytes) => text_value(hex_text(alloc, bytes.bytes())),
    }
}

fn kind(a: &Value) -> &'static [u8]
    ensures kind { result.now ≡ texts.kind_of a.now }
    ensures plain { is_plain result.now ≡ true }
{
    match a {
        Value::Null => b"null",
        Value::Int(_) => b"integer",
        Value::Text(_) => b"text",
        Value::Blob(_) => b"blob",
    }
}

/// TYPEOF
pub fn type_of(alloc: Global, a: &Value) -> Result<Value, OperatorError>
    ensures { outcome.Answers (Ok (texts.type_of a.now)) result }
{
    text_value(plain_text(alloc, kind(a)))
}
