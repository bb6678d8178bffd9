//! `DROP TABLE`, up to its end.

ghost use Rattle.std.specs.Prelude.{◌≡◌, IfOk};
ghost use Rattle.rq_automaton.specs.Places as spec;
ghost use Rattle.rq_automaton.specs.declared.place.Place.TheVariants as p;
ghost use Rattle.rq_automaton.specs.declared.place.DropPlace.TheVariants as dp;
ghost use Rattle.rq_grammar.specs.declared.stmt.Stmt.TheVariants as s;
ghost use Rattle.rq_places.specs.Keywords.{is_if};

use crate::ended::behind_ended;
use crate::names::{Step, at, behind, name_of};
use rq_automaton::{DropPlace, MeasuredStmt, Place};
use rq_grammar::{Token, Word};
use rq_values::Text;
use std::alloc::Global;

/// The state behind the token, at a place of a `DROP`.
#[tactic(auto, unfolding(rq_automaton::specs::Places::drop_step))]
pub(crate) fn drop_step(alloc: Global, place: DropPlace, token: Token) -> Step
    ensures { IfOk result (λ next. next ≡ spec.drop_step place token) }
{
    match place {
        DropPlace::Begun => behind(behind_drop(alloc, &token), token),
        DropPlace::Table => behind_drop_table(alloc, token),
        DropPlace::If(table) => behind(behind_drop_if(alloc, table, &token), token),
        DropPlace::IfExists => drop_named(alloc, true, token),
    }
}

/// Behind `DROP`.
fn behind_drop(alloc: Global, token: &Token) -> Step
    ensures { IfOk result (λ next. next ≡ spec.behind_drop token.now) }
{
    match token {
        Token::Word(_, Word::Table) => at(alloc, Place::Drop(DropPlace::Table)),
        _ => Ok(None),
    }
}

/// Whether the token is the word IF.
fn is_if(token: &Token) -> bool
    ensures { result ≡ is_if token.now }
{
    matches!(token, Token::Word(_, Word::If))
}

/// Behind `DROP TABLE`.
#[tactic(auto, using(crate::proofs::Keywords::drop_then, crate::proofs::Keywords::drop_else))]
fn behind_drop_table(alloc: Global, token: Token) -> Step
    ensures { IfOk result (λ next. next ≡ spec.behind_drop_table token) }
{
    if is_if(&token) {
        drop_if(alloc, token)
    } else {
        drop_named(alloc, false, token)
    }
}

/// The name, or the word IF, is to come.
fn drop_if(alloc: Global, token: Token) -> Step
    ensures { IfOk result (λ next. next ≡ spec.on_name (spec.name_of token) (λ n. p.Drop (dp.If n))) }
{
    match name_of(token) {
        Some(name) => at(alloc, Place::Drop(DropPlace::If(name))),
        None => Ok(None),
    }
}

/// The table's name is to come.
fn drop_named(alloc: Global, if_exists: bool, token: Token) -> Step
    ensures { IfOk result (λ next. next ≡ spec.on_name (spec.name_of token) (λ n. p.Ended (s.Drop if_exists n))) }
{
    match name_of(token) {
        Some(table) => at(
            alloc,
            Place::Ended(MeasuredStmt::drop_table(if_exists, table)),
        ),
        None => Ok(None),
    }
}

/// Behind `DROP TABLE IF`.
fn behind_drop_if(alloc: Global, table: Text, token: &Token) -> Step
    ensures { IfOk result (λ next. next ≡ spec.behind_drop_if table token.now) }
{
    match token {
        Token::Word(_, Word::Exists) => {
            drop(table);
            at(alloc, Place::Drop(DropPlace::IfExists))
        }
        _ => behind_ended(alloc, MeasuredStmt::drop_table(false, table), token),
    }
}
