//! An operator behind an operand of level `m`.

ghost use Rattle.std.specs.Prelude.{◌≡◌, ◌∷◌, IfOk, false};
ghost use Rattle.rq_automaton.specs.Stack as spec;
ghost use Rattle.rq_grammar.specs.declared.expr.BinaryOp.TheVariants as op;
ghost use Rattle.rq_automaton.specs.declared.frame.Frame.TheVariants as f;
ghost use Rattle.rq_automaton.specs.declared.frame.State.TheVariants as s;

use crate::reduce::{reduce, tied};
use rq_automaton::{Frame, Measured, Stack, State};
use rq_grammar::BinaryOp;
use rq_places::{Step, going_on};
use std::alloc::Global;

pub(crate) fn binary(alloc: Global, op: BinaryOp, m: u8, stack: Stack, expr: Measured) -> Step
    ensures { IfOk result (λ x. x ≡ spec.binary op m stack expr) }
{
    match tied(alloc, op.level(), m, stack, expr) {
        Ok(None) => Ok(None),
        Err(error) => Err(error),
        Ok(Some((stack, left))) => going_on(stack, Frame::Binary { op, left }),
    }
}

pub(crate) fn is(alloc: Global, m: u8, stack: Stack, expr: Measured) -> Step
    ensures { IfOk result (λ x. x ≡ spec.grouped m stack expr s.Is) }
{
    match tied(alloc, 4, m, stack, expr) {
        Ok(None) => Ok(None),
        Err(error) => Err(error),
        Ok(Some((stack, left))) => Ok(Some(State::Is(stack, left))),
    }
}

pub(crate) fn not(alloc: Global, m: u8, stack: Stack, expr: Measured) -> Step
    ensures { IfOk result (λ x. x ≡ spec.grouped m stack expr s.Denied) }
{
    match tied(alloc, 4, m, stack, expr) {
        Ok(None) => Ok(None),
        Err(error) => Err(error),
        Ok(Some((stack, left))) => Ok(Some(State::Denied(stack, left))),
    }
}

pub(crate) fn among(alloc: Global, m: u8, stack: Stack, expr: Measured) -> Step
    ensures { IfOk result (λ x. x ≡ spec.grouped m stack expr (λ st a. s.In st false a)) }
{
    match tied(alloc, 4, m, stack, expr) {
        Ok(None) => Ok(None),
        Err(error) => Err(error),
        Ok(Some((stack, left))) => Ok(Some(State::In(stack, false, left))),
    }
}

pub(crate) fn between(alloc: Global, m: u8, stack: Stack, expr: Measured) -> Step
    ensures { IfOk result (λ x. x ≡ spec.grouped m stack expr (λ st a. s.Operand (f.Low false a ∷ st))) }
{
    match tied(alloc, 4, m, stack, expr) {
        Ok(None) => Ok(None),
        Err(error) => Err(error),
        Ok(Some((stack, left))) => {
            let low = Frame::Low {
                negated: false,
                left,
            };
            going_on(stack, low)
        }
    }
}

/// The AND of a BETWEEN, or the operator.
pub(crate) fn and(alloc: Global, m: u8, stack: Stack, expr: Measured) -> Step
    ensures { IfOk result (λ x. x ≡ spec.split (spec.and_at m) (spec.reduce 2 stack expr)) }
{
    match reduce(alloc, stack, expr, 2) {
        Ok((stack, expr)) => and_at(m, stack, expr),
        Err(error) => Err(error),
    }
}

fn and_at(m: u8, mut stack: Stack, expr: Measured) -> Step
    ensures { IfOk result (λ x. x ≡ spec.and_at m stack expr) }
{
    match stack.pop_low() {
        Some((negated, left)) => going_on(
            stack,
            Frame::High {
                negated,
                left,
                low: expr,
            },
        ),
        None => plain_and(m, stack, expr),
    }
}

/// `AND`, where it ends no low end of a BETWEEN.
fn plain_and(m: u8, stack: Stack, expr: Measured) -> Step
    ensures { IfOk result (λ x. x ≡ spec.tied 2 m (stack, expr) (λ st a. s.Operand (f.Binary op.And a ∷ st))) }
{
    if 2 <= m && stack.room() <= 2 {
        let frame = Frame::Binary {
            op: BinaryOp::And,
            left: expr,
        };
        going_on(stack, frame)
    } else {
        drop(stack);
        drop(expr);
        Ok(None)
    }
}
