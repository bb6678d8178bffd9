//! Values as columns take them.

ghost use Rattle.std.specs.Prelude.{◌≡◌, ◌<◌, true, bytes_eq, length, IsTrue, IfOk, IfSome, IsSome, Some, slice_set};
ghost use Rattle.std.specs.Str.Parse.{signed_digits_value};
ghost use Rattle.rq_eval.specs.Outcome.{all_of};
ghost use Rattle.rq_grammar.specs.declared.stmt.ColumnKind.TheVariants as kind;
ghost use Rattle.rq_operators.specs.Operators.{is_null};
ghost use Rattle.rq_meaning.specs.Rows as spec;
ghost use Rattle.rq_meaning.specs.Running.{Goes};
ghost use Rattle.rq_changes.specs.Stepping.{stored_at};

use crate::errors::cannot_store;
use rq_eval::EvalError;
use rq_grammar::{ColumnDef, ColumnKind};
use rq_values::{NoMemory, Text, TryCopy, Value};
use std::alloc::Global;

/// The integer that the text reads as, if it does: it does where it is a plain spelling.
fn read_integer(text: &Text) -> Option<i64>
    ensures value { IfSome result (λ number. number ≡ signed_digits_value 10 text.now) }
    ensures plain { IsTrue (spec.is_plain_integer text.now) → IsSome result }
{
    text.as_str().parse::<i64>().ok()
}

fn is_spelled(number: i64, text: &Text) -> bool
    ensures { result ≡ bytes_eq (spec.signed_decimal number) text.now }
{
    let mut buffer = itoa::Buffer::new();
    buffer.format(number).as_bytes() == text.bytes()
}

/// The integer whose plain decimal spelling the text is, in a column of integers.
fn integer_of_text(text: &Text) -> Option<Value>
    ensures { result ≡ spec.text_stored kind.Integer text.now }
{
    match read_integer(text) {
        None => None,
        Some(number) => {
            if is_spelled(number, text) {
                Some(Value::Int(number))
            } else {
                None
            }
        }
    }
}

pub fn kind_of(value: &Value) -> ColumnKind
    ensures { result ≡ spec.kind_of value.now }
{
    match value {
        Value::Null => ColumnKind::Integer,
        Value::Int(_) => ColumnKind::Integer,
        Value::Text(_) => ColumnKind::Text,
        Value::Blob(_) => ColumnKind::Blob,
    }
}

pub fn is_null(value: &Value) -> bool
    ensures { result ≡ is_null value.now }
{
    match value {
        Value::Null => true,
        Value::Int(_) => false,
        Value::Text(_) => false,
        Value::Blob(_) => false,
    }
}

/// Whether a column takes the value as it is.
fn fits(kind: ColumnKind, value: &Value) -> bool
    ensures { result ≡ true → spec.stored kind value.now ≡ Some value.now }
{
    is_null(value) || kind_of(value) == kind
}

/// What a column makes of a value that it doesn't take as it is.
fn converted(alloc: Global, kind: ColumnKind, value: &Value) -> Result<Option<Value>, NoMemory>
    ensures { IfOk result (λ stored. stored ≡ spec.stored kind value.now) }
{
    match value {
        Value::Null => Ok(Some(Value::Null)),
        Value::Int(number) => match kind {
            ColumnKind::Integer => Ok(Some(Value::Int(*number))),
            ColumnKind::Text => Ok(Some(Value::Text(Text::of_integer(alloc, *number)?))),
            ColumnKind::Blob => Ok(None),
        },
        Value::Text(text) => match kind {
            ColumnKind::Integer => Ok(integer_of_text(text)),
            ColumnKind::Text => Ok(Some(Value::Text(text.copy(alloc)?))),
            ColumnKind::Blob => Ok(None),
        },
        Value::Blob(bytes) => match kind {
            ColumnKind::Blob => Ok(Some(Value::Blob(bytes.copy(alloc)?))),
            _ => Ok(None),
        },
    }
}

/// Puts a value into a place that is there.
pub fn set_cell(row: &mut Vec<Value>, at: usize, value: Value)
    ensures { row.new.items ≡ slice_set row.old.items at value }
{
    if at < row.len() {
        drop(std::mem::replace(&mut row[at], value));
    } else {
        drop(value);
    }
}

fn store_one(
    alloc: Global,
    table: &Text,
    column: &ColumnDef,
    row: &mut Vec<Value>,
    at: usize,
) -> Result<(), EvalError>
    requires { at < length row.old.items }
    ensures { Goes (stored_at table.now column.now at row.old.items) row.new.items result }
{
    if fits(column.kind, &row[at]) {
        return Ok(());
    }
    let kind = kind_of(&row[at]);
    match converted(alloc, column.kind, &row[at]) {
        Ok(Some(value)) => {
            set_cell(row, at, value);
            Ok(())
        }
        Ok(None) => Err(cannot_store(alloc, kind, table, column)),
        Err(_) => Err(EvalError::NoMemory),
    }
}

/// Each value becomes what its column takes.
pub fn store_all(
    alloc: Global,
    table: &Text,
    columns: &[ColumnDef],
    row: &mut Vec<Value>,
) -> Result<(), EvalError>
    requires { length row.old.items ≡ length columns.now }
    ensures { Goes (all_of (spec.all_stored table.now columns.now row.old.items)) row.new.items result }
{
    for i in 0..columns.len() {
        match store_one(alloc, table, &columns[i], row, i) {
            Ok(()) => {}
            Err(e) => return Err(e),
        }
    }
    Ok(())
}
