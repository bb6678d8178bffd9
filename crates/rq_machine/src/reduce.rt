//! Ending what is open before a token.

ghost use Rattle.std.specs.Prelude.{◌≡◌, IfOk};
ghost use Rattle.rq_automaton.specs.Stack as spec;
ghost use Rattle.rq_machine.specs.Behind.{IsTied, IsOpen};

use rq_automaton::{Frame, Measured, Stack};
use rq_values::NoMemory;
use std::alloc::Global;

/// The expression of a frame whose operand is read.
fn build(alloc: Global, frame: Frame, operand: Measured) -> Result<Measured, NoMemory>
    ensures { IfOk result (λ x. x ≡ spec.build frame operand) }
{
    match frame {
        Frame::Binary { op, left } => Measured::binary(alloc, op, left, operand),
        Frame::Not => Measured::not(alloc, operand),
        Frame::Minus => Measured::minus(alloc, operand),
        Frame::High { negated, left, low } => Measured::between(alloc, negated, left, low, operand),
        other => {
            drop(other);
            Ok(operand)
        }
    }
}

/// Ends what ends before an operator of this level.
pub(crate) fn reduce(
    alloc: Global,
    mut stack: Stack,
    mut expr: Measured,
    level: u8,
) -> Result<(Stack, Measured), NoMemory>
    ensures { IfOk result (λ p. p ≡ spec.reduce level stack expr) }
{
    while let Some(frame) = stack.pop_closing(level) {
        match build(alloc, frame, expr) {
            Ok(built) => expr = built,
            Err(error) => {
                drop(stack);
                return Err(error);
            }
        }
    }
    Ok((stack, expr))
}

/// Behind an operand of level `m`: the stack and the expression before an operator of level `k`, if one may stand here.
pub(crate) fn tied(
    alloc: Global,
    k: u8,
    m: u8,
    stack: Stack,
    expr: Measured,
) -> Result<Option<(Stack, Measured)>, NoMemory>
    ensures { IfOk result (λ r. IsTied k m (spec.reduce k stack expr) r) }
{
    match reduce(alloc, stack, expr, k) {
        Ok((stack, expr)) => {
            if k <= m && stack.room() <= k {
                Ok(Some((stack, expr)))
            } else {
                drop(stack);
                drop(expr);
                Ok(None)
            }
        }
        Err(error) => Err(error),
    }
}

/// What is open behind an operand, before an operator of level `k`.
pub(crate) fn opened(
    alloc: Global,
    k: u8,
    stack: Stack,
    expr: Measured,
) -> Result<(Option<Frame>, Stack, Measured), NoMemory>
    ensures { IfOk result (λ r. IsOpen (spec.reduce k stack expr) r.0 r.1 r.2) }
{
    match reduce(alloc, stack, expr, k) {
        Ok((mut stack, expr)) => {
            let frame = stack.pop();
            Ok((frame, stack, expr))
        }
        Err(error) => Err(error),
    }
}
