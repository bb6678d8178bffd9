//! `DELETE`, up to its condition.

ghost use Rattle.std.specs.Prelude.{◌≡◌, IfOk};
ghost use Rattle.rq_automaton.specs.Places as spec;
ghost use Rattle.rq_automaton.specs.declared.place.Place.TheVariants as p;
ghost use Rattle.rq_automaton.specs.declared.place.DeletePlace.TheVariants as del;

use crate::clause_start::inside;
use crate::ended::behind_ended;
use crate::names::{Step, at, behind, name_of};
use rq_automaton::{Clause, DeletePlace, MeasuredStmt, Place};
use rq_grammar::{Token, Word};
use rq_values::Text;
use std::alloc::Global;

/// The state behind the token, at a place of a `DELETE`.
#[tactic(auto, unfolding(rq_automaton::specs::Places::delete_step))]
pub(crate) fn delete_step(alloc: Global, place: DeletePlace, token: Token) -> Step
    ensures { IfOk result (λ next. next ≡ spec.delete_step place token) }
{
    match place {
        DeletePlace::Begun => behind(behind_delete(alloc, &token), token),
        DeletePlace::From => delete_named(alloc, token),
        DeletePlace::Table(table) => behind(behind_delete_table(alloc, table, &token), token),
    }
}

/// Behind `DELETE`.
fn behind_delete(alloc: Global, token: &Token) -> Step
    ensures { IfOk result (λ next. next ≡ spec.behind_delete token.now) }
{
    match token {
        Token::Word(_, Word::From) => at(alloc, Place::Delete(DeletePlace::From)),
        _ => Ok(None),
    }
}

/// The table's name is to come.
fn delete_named(alloc: Global, token: Token) -> Step
    ensures { IfOk result (λ next. next ≡ spec.on_name (spec.name_of token) (λ n. p.Delete (del.Table n))) }
{
    match name_of(token) {
        Some(name) => at(alloc, Place::Delete(DeletePlace::Table(name))),
        None => Ok(None),
    }
}

/// Behind `DELETE FROM` and the table.
fn behind_delete_table(alloc: Global, table: Text, token: &Token) -> Step
    ensures { IfOk result (λ next. next ≡ spec.behind_delete_table table token.now) }
{
    match token {
        Token::Word(_, Word::Where) => inside(alloc, Clause::DeleteFilter(table)),
        _ => behind_ended(alloc, MeasuredStmt::delete(table, None), token),
    }
}
