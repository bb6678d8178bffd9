//! `UPDATE`, between its expressions.

ghost use Rattle.std.specs.Prelude.{◌≡◌, IfOk};
ghost use Rattle.rq_automaton.specs.Places as spec;
ghost use Rattle.rq_automaton.specs.declared.place.Place.TheVariants as p;
ghost use Rattle.rq_automaton.specs.declared.place.UpdatePlace.TheVariants as up;

use crate::clause_start::inside;
use crate::ended::behind_ended;
use crate::names::{Step, at, behind, name_of};
use rq_automaton::{Clause, MeasuredSets, MeasuredStmt, Place, UpdatePlace};
use rq_grammar::{Token, Word};
use rq_values::Text;
use std::alloc::Global;

/// The state behind the token, at a place of an `UPDATE`.
#[tactic(auto, unfolding(rq_automaton::specs::Places::update_step))]
pub(crate) fn update_step(alloc: Global, place: UpdatePlace, token: Token) -> Step
    ensures { IfOk result (λ next. next ≡ spec.update_step place token) }
{
    match place {
        UpdatePlace::Begun => update_named(alloc, token),
        UpdatePlace::Table(table) => behind(behind_update(alloc, table, &token), token),
        UpdatePlace::SetStart(table, sets) => set_named(alloc, table, sets, token),
        UpdatePlace::SetName(table, sets, name) => {
            behind(behind_set_name(alloc, table, sets, name, &token), token)
        }
        UpdatePlace::Sets(table, sets) => behind(behind_sets(alloc, table, sets, &token), token),
    }
}

/// The table's name is to come.
fn update_named(alloc: Global, token: Token) -> Step
    ensures { IfOk result (λ next. next ≡ spec.on_name (spec.name_of token) (λ n. p.Update (up.Table n))) }
{
    match name_of(token) {
        Some(name) => at(alloc, Place::Update(UpdatePlace::Table(name))),
        None => Ok(None),
    }
}

/// Behind `UPDATE` and the table.
fn behind_update(alloc: Global, table: Text, token: &Token) -> Step
    ensures { IfOk result (λ next. next ≡ spec.behind_update table token.now) }
{
    match token {
        Token::Word(_, Word::Set) => {
            at(
                alloc,
                Place::Update(UpdatePlace::SetStart(table, MeasuredSets::new(alloc))),
            )
        }
        _ => {
            drop(table);
            Ok(None)
        }
    }
}

/// The name of a column to set is to come.
fn set_named(alloc: Global, table: Text, sets: MeasuredSets, token: Token) -> Step
    ensures { IfOk result (λ next. next ≡ spec.on_name (spec.name_of token) (λ n. p.Update (up.SetName table sets n))) }
{
    match name_of(token) {
        Some(name) => at(
            alloc,
            Place::Update(UpdatePlace::SetName(table, sets, name)),
        ),
        None => {
            drop(table);
            drop(sets);
            Ok(None)
        }
    }
}

/// Behind the name of a column to set.
fn behind_set_name(
    alloc: Global,
    table: Text,
    sets: MeasuredSets,
    name: Text,
    token: &Token,
) -> Step
    ensures { IfOk result (λ next. next ≡ spec.behind_set_name table sets name token.now) }
{
    match token {
        Token::Equal => inside(alloc, Clause::Set { table, sets, name }),
        _ => {
            drop(table);
            drop(sets);
            drop(name);
            Ok(None)
        }
    }
}

/// Behind `name = expression`.
fn behind_sets(alloc: Global, table: Text, sets: MeasuredSets, token: &Token) -> Step
    ensures { IfOk result (λ next. next ≡ spec.behind_sets table sets token.now) }
{
    match token {
        Token::Comma => at(alloc, Place::Update(UpdatePlace::SetStart(table, sets))),
        Token::Word(_, Word::Where) => inside(alloc, Clause::UpdateFilter { table, sets }),
        _ => behind_ended(alloc, MeasuredStmt::update(table, sets, None), token),
    }
}
