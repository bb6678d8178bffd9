//! The token behind an expression that it ends.

ghost use Rattle.std.specs.Prelude.{◌≡◌, IfOk};
ghost use Rattle.rq_automaton.specs.Machine as spec;
ghost use Rattle.rq_automaton.specs.Stack as k;

use crate::clauses::{clause_on, landed_end};
use crate::reduce::opened;
use rq_automaton::{Frame, Measured, MeasuredList, Stack, State};
use rq_grammar::{Stmt, Token};
use rq_places::{Step, going_on};
use rq_values::{NoMemory, Text};
use std::alloc::Global;

fn paren_on(stack: Stack, expr: Measured, token: Token) -> Option<State>
    ensures { result ≡ spec.paren_on stack expr token }
{
    match token {
        Token::Close => Some(State::Done(stack, 9, expr)),
        other => {
            drop(stack);
            drop(expr);
            drop(other);
            None
        }
    }
}

fn args_on(name: Text, mut args: MeasuredList, stack: Stack, expr: Measured, token: Token) -> Step
    ensures { IfOk result (λ x. x ≡ spec.args_on name args stack expr token) }
{
    match token {
        Token::Comma => {
            match args.push(expr) {
                Ok(()) => going_on(stack, Frame::Args { name, args }),
                Err(error) => {
                    drop(name);
                    drop(args);
                    drop(stack);
                    Err(error)
                }
            }
        }
        Token::Close => match args.push(expr) {
            Ok(()) => Ok(Some(State::Done(stack, 9, Measured::call(name, args)))),
            Err(error) => {
                drop(name);
                drop(args);
                drop(stack);
                Err(error)
            }
        },
        other => {
            drop(name);
            drop(args);
            drop(stack);
            drop(expr);
            drop(other);
            Ok(None)
        }
    }
}

fn among_on(
    alloc: Global,
    negated: bool,
    left: Measured,
    mut list: MeasuredList,
    stack: Stack,
    expr: Measured,
    token: Token,
) -> Step
    ensures { IfOk result (λ x. x ≡ spec.among_on negated left list stack expr token) }
{
    match token {
        Token::Comma => match list.push(expr) {
            Ok(()) => going_on(
                stack,
                Frame::Among {
                    negated,
                    left,
                    list,
                },
            ),
            Err(error) => {
                drop(left);
                drop(list);
                drop(stack);
                Err(error)
            }
        },
        Token::Close => match list.push(expr) {
            Ok(()) => match Measured::in_list(alloc, negated, left, list) {
                Ok(expr) => Ok(Some(State::Done(stack, 4, expr))),
                Err(error) => {
                    drop(stack);
                    Err(error)
                }
            },
            Err(error) => {
                drop(left);
                drop(list);
                drop(stack);
                Err(error)
            }
        },
        other => {
            drop(left);
            drop(list);
            drop(stack);
            drop(expr);
            drop(other);
            Ok(None)
        }
    }
}

#[tactic(auto, unfolding(rq_automaton::specs::Machine::ended_on))]
fn ended_on(alloc: Global, token: Token, frame: Option<Frame>, stack: Stack, expr: Measured) -> Step
    ensures { IfOk result (λ x. x ≡ spec.ended_on token frame stack expr) }
{
    match frame {
        Some(Frame::Paren) => Ok(paren_on(stack, expr, token)),
        Some(Frame::Args { name, args }) => args_on(name, args, stack, expr, token),
        Some(
            Frame::Among {
                negated,
                left,
                list,
            },
        ) => among_on(alloc, negated, left, list, stack, expr, token),
        Some(Frame::Clause(clause)) => {
            drop(stack);
            clause_on(alloc, clause.into_inner(), expr, token)
        }
        other => {
            drop(other);
            drop(stack);
            drop(expr);
            drop(token);
            Ok(None)
        }
    }
}

/// The token ends all that stands in its expression.
#[tactic(auto, using(crate::proofs::Small::open_gives))]
pub(crate) fn ended(alloc: Global, stack: Stack, expr: Measured, token: Token) -> Step
    ensures { IfOk result (λ x. x ≡ k.split (spec.ended_at token) (k.reduce 0 stack expr)) }
{
    match opened(alloc, 0, stack, expr) {
        Ok((frame, stack, expr)) => ended_on(alloc, token, frame, stack, expr),
        Err(error) => {
            drop(token);
            Err(error)
        }
    }
}

#[tactic(auto, unfolding(rq_automaton::specs::Machine::end_on))]
fn end_on(frame: Option<Frame>, expr: Measured) -> Result<Option<Stmt>, NoMemory>
    ensures { IfOk result (λ x. (st : k.Stack) → x ≡ spec.end_on frame st expr) }
{
    match frame {
        Some(Frame::Clause(clause)) => landed_end(clause.into_inner(), expr),
        other => {
            drop(other);
            drop(expr);
            Ok(None)
        }
    }
}

/// The statement that ends behind the operand.
#[tactic(auto, using(crate::proofs::Small::open_gives))]
pub(crate) fn end(alloc: Global, stack: Stack, expr: Measured) -> Result<Option<Stmt>, NoMemory>
    ensures { IfOk result (λ x. x ≡ k.split spec.end_at (k.reduce 0 stack expr)) }
{
    match opened(alloc, 0, stack, expr) {
        Ok((frame, stack, expr)) => {
            drop(stack);
            end_on(frame, expr)
        }
        Err(error) => Err(error),
    }
}
