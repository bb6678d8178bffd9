//! The machine within the limits.

ghost use Rattle.std.specs.Prelude.{◌≡◌, suc, ◌+◌, ◌≤◌, ◌&&◌, min, nat_le};
ghost use Rattle.rq_grammar.specs.Depth as spec;
ghost use Rattle.rq_automaton.specs.Weight.{weight, due};

use rq_automaton::{Measured, State};
use rq_grammar::Token;
use rq_places::{place_due, place_weight};

/// One level above the expression, counted up to 101.
fn above(expr: &Measured) -> u8
    ensures { result ≡ min 101 (suc (spec.depth expr.now)) }
{
    expr.levels().saturating_add(1).min(101)
}

/// The least depth of a statement that goes on from the state, counted up to 101.
fn weight(state: &State) -> u8
    ensures { result ≡ min 101 (weight state.now) }
{
    match state {
        State::Flat(place) => place_weight(place.get()),
        State::Operand(stack) => stack.least(1),
        State::Signed(stack) => stack.least(1),
        State::Quoted(stack, _) => stack.least(1),
        State::Named(stack, _, _) => stack.least(1),
        State::Dotted(stack, _) => stack.least(1),
        State::Opened(stack, is_count, _) => stack.least(if *is_count { 1 } else { 2 }),
        State::Counted(stack) => stack.least(1),
        State::Done(stack, _, expr) => stack.least(expr.levels()),
        State::Denied(stack, left) => stack.least(above(left)),
        State::Is(stack, left) => stack.least(above(left).max(2)),
        State::In(stack, _, left) => stack.least(above(left)),
        State::Listed(stack, _, left) => stack.least(above(left)),
    }
}

/// How many `(` must still come.
fn due(state: &State) -> u8
    ensures { result ≡ due state.now }
{
    match state {
        State::Flat(place) => place_due(place.get()),
        State::In(_, _, _) => 1,
        _ => 0,
    }
}

/// Whether the state is within the limits, where so many parentheses are open.
pub(crate) fn fits(opened: u32, state: &State) -> bool
    requires { opened ≤ 251 }
    ensures { result ≡ nat_le (weight state.now) 100 && nat_le (opened + due state.now) 250 }
{
    weight(state) <= 100 && opened + u32::from(due(state)) <= 250
}

/// How many parentheses are open behind the token.
pub fn open_behind(opened: u32, token: &Token) -> u32
    requires { opened ≤ 250 }
    ensures { result ≡ spec.open_behind opened token.now }
{
    match token {
        Token::Open => opened + 1,
        Token::Close => opened.saturating_sub(1),
        _ => opened,
    }
}
