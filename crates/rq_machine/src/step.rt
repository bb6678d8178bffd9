//! The machine: the next state, and the statement at the end.

ghost use Rattle.std.specs.Prelude.{◌≡◌, IfOk};
ghost use Rattle.rq_automaton.specs.Machine as spec;

use crate::done::{done, named, quoted};
use crate::ending::end;
use crate::modes::{among, called, counted, denied, dotted, is, listed};
use rq_automaton::{Measured, State};
use rq_grammar::{Stmt, Token};
use rq_places::{Step, operand, place_finish, place_step, signed};
use rq_values::NoMemory;
use std::alloc::Global;

/// The next state, None where no statement goes on with the token.
#[tactic(auto, unfolding(rq_automaton::specs::Machine::step))]
pub(crate) fn step(alloc: Global, state: State, token: Token) -> Step
    ensures { IfOk result (λ x. x ≡ spec.step state token) }
{
    match state {
        State::Flat(place) => place_step(alloc, place.into_inner(), token),
        State::Operand(stack) => operand(stack, token),
        State::Signed(stack) => signed(stack, token),
        State::Quoted(stack, name) => quoted(alloc, stack, name, token),
        State::Named(stack, is_count, name) => named(alloc, stack, is_count, name, token),
        State::Dotted(stack, table) => Ok(dotted(stack, table, token)),
        State::Opened(stack, is_count, name) => called(alloc, stack, is_count, name, token),
        State::Counted(stack) => Ok(counted(stack, token)),
        State::Done(stack, m, expr) => done(alloc, m, stack, expr, token),
        State::Denied(stack, left) => denied(stack, left, token),
        State::Is(stack, left) => is(stack, left, token),
        State::In(stack, negated, left) => Ok(among(stack, negated, left, token)),
        State::Listed(stack, negated, left) => listed(alloc, stack, negated, left, token),
    }
}

/// The statement, if the tokens end here.
#[tactic(auto, unfolding(rq_automaton::specs::Machine::finish))]
pub(crate) fn finish(alloc: Global, state: State) -> Result<Option<Stmt>, NoMemory>
    ensures { IfOk result (λ x. x ≡ spec.finish state) }
{
    match state {
        State::Flat(place) => Ok(place_finish(place.into_inner())),
        State::Quoted(stack, name) => end(alloc, stack, Measured::name(name)),
        State::Named(stack, _is_count, name) => end(alloc, stack, Measured::name(name)),
        State::Done(stack, _level, expr) => end(alloc, stack, expr),
        other => {
            drop(other);
            Ok(None)
        }
    }
}
