//! Arithmetic.

ghost use Rattle.std.specs.Prelude.{◌≡◌};
ghost use Rattle.rq_operators.specs.Operators as spec;

use crate::comparing::{either_null, is_null};
use crate::error::ValueError;
use rq_values::Value;

/// An operator between two integers.
#[derive(Clone, Copy)]
pub enum Arithmetic {
    Add,
    Sub,
    Mul,
    Div,
    Rem,
}

/// What is done to the sign of an integer.
#[derive(Clone, Copy)]
pub enum Sign {
    Minus,
    Absolute,
}

fn integer(value: &Value) -> Result<i64, ValueError>
    ensures { result ≡ spec.integer value.now }
{
    match value {
        Value::Null => Err(ValueError::NotInteger),
        Value::Int(n) => Ok(*n),
        Value::Text(_) => Err(ValueError::NotInteger),
        Value::Blob(_) => Err(ValueError::NotInteger),
    }
}

fn quotient(m: i64, n: i64) -> Result<Value, ValueError>
    ensures { result ≡ spec.quotient m n }
{
    if n == 0 {
        return Ok(Value::Null);
    }
    match m.checked_div(n) {
        Some(k) => Ok(Value::Int(k)),
        None => Err(ValueError::IntegerOverflow),
    }
}

fn remainder(m: i64, n: i64) -> Result<Value, ValueError>
    ensures { result ≡ spec.remainder m n }
{
    if n == 0 {
        return Ok(Value::Null);
    }
    match m.checked_rem(n) {
        Some(k) => Ok(Value::Int(k)),
        None => Ok(Value::Int(0)),
    }
}

fn negative(n: i64) -> Result<Value, ValueError>
    ensures { result ≡ spec.negative n }
{
    match n.checked_neg() {
        Some(k) => Ok(Value::Int(k)),
        None => Err(ValueError::IntegerOverflow),
    }
}

fn absolute(n: i64) -> Result<Value, ValueError>
    ensures { result ≡ spec.absolute n }
{
    if n < 0 {
        negative(n)
    } else {
        Ok(Value::Int(n))
    }
}

fn calculated(op: Arithmetic, m: i64, n: i64) -> Result<Value, ValueError>
    ensures { result ≡ spec.calculated op m n }
{
    match op {
        Arithmetic::Add => match m.checked_add(n) {
            Some(k) => Ok(Value::Int(k)),
            None => Err(ValueError::IntegerOverflow),
        },
        Arithmetic::Sub => match m.checked_sub(n) {
            Some(k) => Ok(Value::Int(k)),
            None => Err(ValueError::IntegerOverflow),
        },
        Arithmetic::Mul => match m.checked_mul(n) {
            Some(k) => Ok(Value::Int(k)),
            None => Err(ValueError::IntegerOverflow),
        },
        Arithmetic::Div => quotient(m, n),
        Arithmetic::Rem => remainder(m, n),
    }
}

/// `+`, `-`, `*`, `/` and `%`
pub fn calculate(op: Arithmetic, a: &Value, b: &Value) -> Result<Value, ValueError>
    ensures { result ≡ spec.arithmetic op a.now b.now }
{
    if either_null(a, b) {
        return Ok(Value::Null);
    }
    let m = integer(a)?;
    let n = integer(b)?;
    calculated(op, m, n)
}

/// A prefix `-` and ABS
pub fn on_integer(op: Sign, a: &Value) -> Result<Value, ValueError>
    ensures { result ≡ spec.on_integer (spec.signed op) a.now }
{
    if is_null(a) {
        return Ok(Value::Null);
    }
    let n = integer(a)?;
    match op {
        Sign::Minus => negative(n),
        Sign::Absolute => absolute(n),
    }
}
