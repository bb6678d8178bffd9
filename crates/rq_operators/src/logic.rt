//! Three-valued logic.

ghost use Rattle.std.specs.Prelude.{◌≡◌};
ghost use Rattle.rq_operators.specs.Operators as spec;

use crate::error::ValueError;
use rq_values::Value;

pub fn truth(b: Option<bool>) -> Value
    ensures { result ≡ spec.truth b }
{
    match b {
        None => Value::Null,
        Some(true) => Value::Int(1),
        Some(false) => Value::Int(0),
    }
}

/// A condition is an integer, where 0 is false, or NULL.
pub fn condition(value: &Value) -> Result<Option<bool>, ValueError>
    ensures { result ≡ spec.condition value.now }
{
    match value {
        Value::Null => Ok(None),
        Value::Int(n) => Ok(Some(*n != 0)),
        Value::Text(_) => Err(ValueError::NotCondition),
        Value::Blob(_) => Err(ValueError::NotCondition),
    }
}

pub fn or3(a: Option<bool>, b: Option<bool>) -> Option<bool>
    ensures { result ≡ spec.or3 a b }
{
    match (a, b) {
        (Some(true), _) => Some(true),
        (Some(false), b) => b,
        (None, Some(true)) => Some(true),
        (None, _) => None,
    }
}

fn not3(a: Option<bool>) -> Option<bool>
    ensures { result ≡ spec.not3 a }
{
    match a {
        Some(a) => Some(!a),
        None => None,
    }
}

pub fn and3(a: Option<bool>, b: Option<bool>) -> Option<bool>
    ensures { result ≡ spec.and3 a b }
{
    not3(or3(not3(a), not3(b)))
}

/// OR or AND.
#[derive(Clone, Copy)]
pub enum Junction {
    Or,
    And,
}

/// OR and AND. Both operands are judged.
pub fn logical(op: Junction, a: &Value, b: &Value) -> Result<Value, ValueError>
    ensures { result ≡ spec.logical (spec.junction op) a.now b.now }
{
    let a = condition(a)?;
    let b = condition(b)?;
    match op {
        Junction::Or => Ok(truth(or3(a, b))),
        Junction::And => Ok(truth(and3(a, b))),
    }
}

/// NOT
pub fn logical_not(a: &Value) -> Result<Value, ValueError>
    ensures { result ≡ spec.logical_not a.now }
{
    match condition(a) {
        Ok(a) => Ok(truth(not3(a))),
        Err(e) => Err(e),
    }
}
