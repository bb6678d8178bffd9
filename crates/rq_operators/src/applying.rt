//! What each operator and function of one value gives.

ghost use Rattle.rq_operators.specs.Outcome.{Answers};
ghost use Rattle.rq_operators.specs.Functions as spec;

use crate::arithmetic::{Arithmetic, Sign, calculate, on_integer};
use crate::comparing::{compared, is_same};
use crate::dates::time_part;
use crate::error::{OperatorError, ValueError};
use crate::logic::{Junction, logical, logical_not, truth};
use crate::operators::UnaryOp;
use crate::texts::{LetterCase, TextPair, hex, in_case, length, on_texts, type_of};
use rq_grammar::BinaryOp;
use rq_values::{Value, compare};
use std::alloc::Global;

/// What an operator that takes no memory gives.
fn given(outcome: Result<Value, ValueError>) -> Result<Value, OperatorError>
    ensures { Answers outcome result }
{
    match outcome {
        Ok(value) => Ok(value),
        Err(error) => Err(OperatorError::Says(error)),
    }
}

/// An operator or a function of one value.
pub fn apply_unary(alloc: Global, op: UnaryOp, a: &Value) -> Result<Value, OperatorError>
    ensures { Answers (spec.unary op a.now) result }
{
    match op {
        UnaryOp::Minus => given(on_integer(Sign::Minus, a)),
        UnaryOp::Not => given(logical_not(a)),
        UnaryOp::Abs => given(on_integer(Sign::Absolute, a)),
        UnaryOp::Length => given(length(a)),
        UnaryOp::Lower => in_case(alloc, LetterCase::Lower, a),
        UnaryOp::Upper => in_case(alloc, LetterCase::Upper, a),
        UnaryOp::Hex => hex(alloc, a),
        UnaryOp::TypeOf => type_of(alloc, a),
        UnaryOp::Part(part) => time_part(alloc, part, a),
    }
}

fn not_like(alloc: Global, a: &Value, b: &Value) -> Result<Value, OperatorError>
    ensures { Answers (spec.binary spec.not_like a.now b.now) result }
{
    let is = on_texts(alloc, TextPair::Like, a, b)?;
    given(logical_not(&is))
}

/// An operator between two values.
pub fn apply_binary(
    alloc: Global,
    op: BinaryOp,
    a: &Value,
    b: &Value,
) -> Result<Value, OperatorError>
    ensures { Answers (spec.binary op a.now b.now) result }
{
    match op {
        BinaryOp::Or => given(logical(Junction::Or, a, b)),
        BinaryOp::And => given(logical(Junction::And, a, b)),
        BinaryOp::Equal => Ok(compared(a, b, compare(a, b).is_eq())),
        BinaryOp::NotEqual => Ok(compared(a, b, compare(a, b).is_ne())),
        BinaryOp::Is => Ok(truth(Some(is_same(a, b)))),
        BinaryOp::IsNot => Ok(truth(Some(!is_same(a, b)))),
        BinaryOp::Like => on_texts(alloc, TextPair::Like, a, b),
        BinaryOp::NotLike => not_like(alloc, a, b),
        BinaryOp::Less => Ok(compared(a, b, compare(a, b).is_lt())),
        BinaryOp::LessEqual => Ok(compared(a, b, compare(a, b).is_le())),
        BinaryOp::Greater => Ok(compared(a, b, compare(a, b).is_gt())),
        BinaryOp::GreaterEqual => Ok(compared(a, b, compare(a, b).is_ge())),
        BinaryOp::Add => given(calculate(Arithmetic::Add, a, b)),
        BinaryOp::Sub => given(calculate(Arithmetic::Sub, a, b)),
        BinaryOp::Mul => given(calculate(Arithmetic::Mul, a, b)),
        BinaryOp::Div => given(calculate(Arithmetic::Div, a, b)),
        BinaryOp::Rem => given(calculate(Arithmetic::Rem, a, b)),
        BinaryOp::Concat => on_texts(alloc, TextPair::Join, a, b),
    }
}
