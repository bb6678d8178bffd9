//! Comparison, IS, IN, BETWEEN and COALESCE.

ghost use Rattle.std.specs.Prelude.{◌≡◌, unwrap_or};
ghost use Rattle.std.specs.Option.{option_copied};
ghost use Rattle.rq_values.specs.declared.value.Value.TheVariants as values;
ghost use Rattle.rq_operators.specs.Operators as spec;

use crate::logic::{and3, or3, truth};
use rq_values::{Value, compare};

pub fn is_null(value: &Value) -> bool
    ensures { result ≡ spec.is_null value.now }
{
    match value {
        Value::Null => true,
        Value::Int(_) => false,
        Value::Text(_) => false,
        Value::Blob(_) => false,
    }
}

pub fn either_null(a: &Value, b: &Value) -> bool
    ensures { result ≡ spec.either_null a.now b.now }
{
    is_null(a) || is_null(b)
}

fn unless_null(a: &Value, b: &Value, holds: bool) -> Option<bool>
    ensures { result ≡ spec.unless_null a.now b.now holds }
{
    if either_null(a, b) { None } else { Some(holds) }
}

fn equal3(a: &Value, b: &Value) -> Option<bool>
    ensures { result ≡ spec.equal3 a.now b.now }
{
    unless_null(a, b, compare(a, b).is_eq())
}

/// IS, for which NULL is a value.
pub fn is_same(a: &Value, b: &Value) -> bool
    ensures { result ≡ spec.is_same a.now b.now }
{
    compare(a, b).is_eq()
}

/// 1 or 0, and NULL where one of the two is NULL.
pub fn compared(a: &Value, b: &Value, holds: bool) -> Value
    ensures { result ≡ spec.truth (spec.unless_null a.now b.now holds) }
{
    truth(unless_null(a, b, holds))
}

/// IN
pub fn in_list(a: &Value, list: &[Value]) -> Value
    ensures { result ≡ spec.in_list a.now list.now }
{
    let mut found = Some(false);
    for b in list {
        found = or3(found, equal3(a, b));
    }
    truth(found)
}

/// BETWEEN
pub fn between(a: &Value, low: &Value, high: &Value) -> Value
    ensures { result ≡ spec.between a.now low.now high.now }
{
    let above = unless_null(a, low, compare(a, low).is_ge());
    let below = unless_null(a, high, compare(a, high).is_le());
    truth(and3(above, below))
}

/// The first that isn't NULL.
pub fn first_non_null(list: &[Value]) -> Option<&Value>
    ensures { unwrap_or (option_copied result) values.Null ≡ spec.first_non_null list.now }
{
    for value in list {
        if !is_null(value) {
            return Some(value);
        }
    }
    None
}
