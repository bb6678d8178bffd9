//! Aggregates: what one has so far, and one more value.

ghost use Rattle.std.specs.Prelude.{◌≡◌, if◌then◌else◌};
ghost use Rattle.rq_operators.specs.Aggregates as spec;

use crate::arithmetic::{Arithmetic, calculate};
use crate::comparing::is_null;
use crate::error::ValueError;
use crate::operators::AggregateOp;
use rq_values::{Value, compare};

fn added(so_far: &Value, value: &Value) -> Result<Value, ValueError>
    ensures { result ≡ spec.added so_far.now value.now }
{
    match so_far {
        Value::Null => calculate(Arithmetic::Add, &Value::Int(0), value),
        Value::Int(_) => calculate(Arithmetic::Add, so_far, value),
        Value::Text(_) => Err(ValueError::NotInteger),
        Value::Blob(_) => Err(ValueError::NotInteger),
    }
}

/// The new value where it is better, else the one so far.
fn chosen(better: bool, so_far: Value, value: Value) -> Value
    ensures { result ≡ (if better then value else so_far) }
{
    if better {
        drop(so_far);
        value
    } else {
        drop(value);
        so_far
    }
}

fn accumulated(op: AggregateOp, so_far: Value, value: Value) -> Result<Value, ValueError>
    ensures { result ≡ spec.accumulated op so_far value }
{
    match op {
        AggregateOp::Count => added(&so_far, &Value::Int(1)),
        AggregateOp::Sum => added(&so_far, &value),
        AggregateOp::Min => {
            let better = is_null(&so_far) || compare(&value, &so_far).is_lt();
            Ok(chosen(better, so_far, value))
        }
        AggregateOp::Max => {
            let better = is_null(&so_far) || compare(&value, &so_far).is_gt();
            Ok(chosen(better, so_far, value))
        }
    }
}

/// What the aggregate has with one more value.
pub fn one_more(op: AggregateOp, so_far: Value, value: Value) -> Result<Value, ValueError>
    ensures { result ≡ spec.one_more op so_far value }
{
    if is_null(&value) {
        drop(value);
        Ok(so_far)
    } else {
        accumulated(op, so_far, value)
    }
}

/// What the aggregate has over no rows.
pub fn start(op: AggregateOp) -> Value
    ensures { result ≡ spec.start op }
{
    match op {
        AggregateOp::Count => Value::Int(0),
        AggregateOp::Sum => Value::Null,
        AggregateOp::Min => Value::Null,
        AggregateOp::Max => Value::Null,
    }
}
