//! `SELECT`, between its expressions.

ghost use Rattle.std.specs.Prelude.{◌≡◌, ◌∷◌, [], Some, IfOk};
ghost use Rattle.rq_automaton.specs.Places as spec;
ghost use Rattle.rq_automaton.specs.declared.place.Place.TheVariants as p;
ghost use Rattle.rq_automaton.specs.declared.place.SelectPlace.TheVariants as sp;
ghost use Rattle.rq_automaton.specs.declared.place.Stage.TheVariants as stage;
ghost use Rattle.rq_grammar.specs.declared.stmt.ResultItem.TheVariants as item;
ghost use Rattle.rq_places.specs.Keywords.{is_from, is_where};

use crate::clause_start::{inside, stack_of};
use crate::ended::behind_ended;
use crate::names::{Step, at, behind, name_of};
use crate::operands::operand;
use rq_automaton::{Clause, Measured, MeasuredQuery, Place, SelectPlace, Stage};
use rq_grammar::{Token, Word};
use std::alloc::Global;

/// The state behind the token, at a place of a select.
#[tactic(auto, unfolding(rq_automaton::specs::Places::select_step))]
pub(crate) fn select_step(alloc: Global, place: SelectPlace, token: Token) -> Step
    ensures { IfOk result (λ next. next ≡ spec.select_step place token) }
{
    match place {
        SelectPlace::Result(query) => result_at(alloc, query, token),
        SelectPlace::Alias(query, expr) => alias_named(alloc, query, expr, token),
        SelectPlace::Tail(stage, query) => behind(tail(alloc, stage, query, &token), token),
        SelectPlace::From(query) => from_named(alloc, query, token),
        SelectPlace::Order(query) => behind(behind_order(alloc, query, &token), token),
    }
}

/// Behind a part of the select.
pub fn tail_at(alloc: Global, stage: Stage, query: MeasuredQuery) -> Step
    ensures { IfOk result (λ next. next ≡ spec.flat (p.Select (sp.Tail stage query))) }
{
    at(alloc, Place::Select(SelectPlace::Tail(stage, query)))
}

/// A result is to come.
fn result_at(alloc: Global, query: MeasuredQuery, token: Token) -> Step
    ensures { IfOk result (λ next. next ≡ spec.result query token) }
{
    match &token {
        Token::Star => {
            drop(token);
            match query.with_all() {
                Ok(query) => tail_at(alloc, Stage::Results, query),
                Err(error) => Err(error),
            }
        }
        _ => match stack_of(alloc, Clause::Results(query)) {
            Ok(stack) => operand(stack, token),
            Err(error) => {
                drop(token);
                Err(error)
            }
        },
    }
}

/// A result's name is to come.
fn alias_named(alloc: Global, query: MeasuredQuery, expr: Measured, token: Token) -> Step
    ensures { IfOk result (λ next. next ≡ spec.on_name (spec.name_of token) (λ n. p.Select (sp.Tail stage.Results (spec.add_result query (item.Value expr (Some n)))))) }
{
    match name_of(token) {
        Some(name) => match query.with_result(expr, Some(name)) {
            Ok(query) => tail_at(alloc, Stage::Results, query),
            Err(error) => Err(error),
        },
        None => {
            drop(query);
            drop(expr);
            Ok(None)
        }
    }
}

/// The table's name is to come.
fn from_named(alloc: Global, query: MeasuredQuery, token: Token) -> Step
    ensures { IfOk result (λ next. next ≡ spec.on_name (spec.name_of token) (λ n. p.Select (sp.Tail stage.Source (spec.with_table query n)))) }
{
    match name_of(token) {
        Some(name) => tail_at(alloc, Stage::Source, query.with_table(name)),
        None => {
            drop(query);
            Ok(None)
        }
    }
}

/// Behind `ORDER`.
fn behind_order(alloc: Global, query: MeasuredQuery, token: &Token) -> Step
    ensures { IfOk result (λ next. next ≡ spec.behind_order query token.now) }
{
    match token {
        Token::Word(_, Word::By) => inside(alloc, Clause::Order(query)),
        _ => {
            drop(query);
            Ok(None)
        }
    }
}

/// Behind the terms of the order.
fn behind_order_by(alloc: Global, query: MeasuredQuery, token: &Token) -> Step
    ensures { IfOk result (λ next. next ≡ spec.behind_order_by query token.now) }
{
    match token {
        Token::Word(_, Word::Limit) => inside(alloc, Clause::Limit(query)),
        _ => behind_ended(alloc, query.into_stmt(), token),
    }
}

/// Behind the condition.
fn behind_where(alloc: Global, query: MeasuredQuery, token: &Token) -> Step
    ensures { IfOk result (λ next. next ≡ spec.behind_where query token.now) }
{
    match token {
        Token::Word(_, Word::Order) => at(alloc, Place::Select(SelectPlace::Order(query))),
        _ => behind_order_by(alloc, query, token),
    }
}

/// Whether the token is the word FROM.
fn is_from(token: &Token) -> bool
    ensures { result ≡ is_from token.now }
{
    matches!(token, Token::Word(_, Word::From))
}

/// Whether the token is the word WHERE.
fn is_where(token: &Token) -> bool
    ensures { result ≡ is_where token.now }
{
    matches!(token, Token::Word(_, Word::Where))
}

/// Behind the table.
#[tactic(auto, using(crate::proofs::Keywords::from_then, crate::proofs::Keywords::from_else))]
fn behind_from(alloc: Global, query: MeasuredQuery, token: &Token) -> Step
    ensures { IfOk result (λ next. next ≡ spec.behind_from query token.now) }
{
    if is_where(token) {
        inside(alloc, Clause::Filter(query))
    } else {
        behind_where(alloc, query, token)
    }
}

/// Behind the results.
#[tactic(auto, using(crate::proofs::Keywords::results_then, crate::proofs::Keywords::results_else))]
fn behind_results(alloc: Global, query: MeasuredQuery, token: &Token) -> Step
    ensures { IfOk result (λ next. next ≡ spec.behind_results query token.now) }
{
    if is_from(token) {
        at(alloc, Place::Select(SelectPlace::From(query)))
    } else {
        behind_from(alloc, query, token)
    }
}

/// Behind a result, where one more may come.
fn behind_result(alloc: Global, query: MeasuredQuery, token: &Token) -> Step
    ensures { IfOk result (λ next. next ≡ spec.tail stage.Results query token.now) }
{
    match token {
        Token::Comma => at(alloc, Place::Select(SelectPlace::Result(query))),
        _ => behind_results(alloc, query, token),
    }
}

/// Behind a term of the order, where one more may come.
fn behind_term(alloc: Global, query: MeasuredQuery, token: &Token) -> Step
    ensures { IfOk result (λ next. next ≡ spec.tail stage.Ordered query token.now) }
{
    match token {
        Token::Comma => inside(alloc, Clause::Order(query)),
        _ => behind_order_by(alloc, query, token),
    }
}

/// Behind a part of a select.
fn tail(alloc: Global, stage: Stage, query: MeasuredQuery, token: &Token) -> Step
    ensures { IfOk result (λ next. next ≡ spec.tail stage query token.now) }
{
    match stage {
        Stage::Results => behind_result(alloc, query, token),
        Stage::Source => behind_from(alloc, query, token),
        Stage::Filtered => behind_where(alloc, query, token),
        Stage::Ordered => behind_term(alloc, query, token),
        Stage::Limited => behind_ended(alloc, query.into_stmt(), token),
    }
}
