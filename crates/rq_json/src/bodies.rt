//! Bodies of requests: JSON lists of statements.
ghost use Rattle.std.specs.Prelude.{◌≡◌, IfOk, option_map};
ghost use Rattle.serde_json.specs.View.{view, items_view};
ghost use Rattle.rq_json.specs.Body.{json_of, listed_texts, text_in, texts_in, texts_of};

use rq_values::{NoMemory, Seq, Text};
use serde_json::{Category, Value};
use std::alloc::Global;

/// The statements of a body, or None exactly where it is no JSON list of strings without NUL.
pub fn statements_of(alloc: Global, body: &[u8]) -> Result<Option<Seq<Text>>, NoMemory>
    ensures { IfOk result (λ texts. texts ≡ texts_of body.now) }
{
    match json_of(alloc, body)? {
        Some(value) => listed_texts(alloc, &value),
        None => Ok(None),
    }
}

/// The JSON value that the body spells, or None exactly where it spells none.
fn json_of(alloc: Global, body: &[u8]) -> Result<Option<Value>, NoMemory>
    ensures { IfOk result (λ value. option_map view value ≡ json_of body.now) }
{
    match Value::from_slice(alloc, body) {
        Ok(value) => Ok(Some(value)),
        Err(error) => match error.classify() {
            Category::Memory => Err(NoMemory),
            _ => Ok(None),
        },
    }
}

/// The texts of a JSON value, or None exactly where it is no list of strings without NUL.
fn listed_texts(alloc: Global, value: &Value) -> Result<Option<Seq<Text>>, NoMemory>
    ensures { IfOk result (λ texts. texts ≡ listed_texts (view value.now)) }
{
    match value.as_array() {
        Some(list) => texts_in(alloc, list),
        None => Ok(None),
    }
}

/// The texts of a list of JSON values, or None exactly where one of them is no string without NUL.
fn texts_in(alloc: Global, list: &[Value]) -> Result<Option<Seq<Text>>, NoMemory>
    ensures { IfOk result (λ texts. texts ≡ texts_in (items_view list.now)) }
{
    let mut texts = Seq::new(alloc);
    for value in list {
        match text_of(alloc, value)? {
            Some(text) => texts.push(text)?,
            None => return Ok(None),
        }
    }
    Ok(Some(texts))
}

/// The text of a JSON value, or None exactly where it is no string without NUL.
fn text_of(alloc: Global, value: &Value) -> Result<Option<Text>, NoMemory>
    ensures { IfOk result (λ text. text ≡ text_in (view value.now)) }
{
    match value.as_str() {
        Some(text) => Text::new(alloc, text.as_bytes()),
        None => Ok(None),
    }
}
