//! `INSERT`, up to its rows or its select.

ghost use Rattle.std.specs.Prelude.{◌≡◌, ◌++◌, ◌∷◌, [], IfOk};
ghost use Rattle.rq_automaton.specs.Places as spec;
ghost use Rattle.rq_automaton.specs.declared.place.Place.TheVariants as p;
ghost use Rattle.rq_automaton.specs.declared.place.InsertPlace.TheVariants as ip;

use crate::clause_start::inside;
use crate::ended::behind_ended;
use crate::names::{Step, at, behind, name_of};
use rq_automaton::{
    Clause, InsertPlace, MeasuredList, MeasuredQuery, MeasuredRows, MeasuredStmt, Place,
    SelectPlace, Target,
};
use rq_grammar::{Token, Word};
use rq_values::{NoMemory, Text};
use sqlite_items::Items;
use std::alloc::Global;

/// The state behind the token, at a place of an `INSERT`.
#[tactic(auto, unfolding(rq_automaton::specs::Places::insert_step))]
pub(crate) fn insert_step(alloc: Global, place: InsertPlace, token: Token) -> Step
    ensures { IfOk result (λ next. next ≡ spec.insert_step place token) }
{
    match place {
        InsertPlace::Begun => behind(behind_insert(alloc, &token), token),
        InsertPlace::Into => table_named(alloc, token),
        InsertPlace::Table(table) => behind(behind_table(alloc, table, &token), token),
        InsertPlace::NameStart(table, names) => column_listed(alloc, table, names, token),
        InsertPlace::Names(table, names) => {
            behind(behind_names(alloc, table, names, &token), token)
        }
        InsertPlace::Columns(target) => behind(behind_columns(alloc, target, &token), token),
        InsertPlace::Values(target, rows) => {
            behind(behind_values(alloc, target, rows, &token), token)
        }
        InsertPlace::Rows(target, rows) => behind(behind_rows(alloc, target, rows, &token), token),
    }
}

/// Behind `INSERT`.
fn behind_insert(alloc: Global, token: &Token) -> Step
    ensures { IfOk result (λ next. next ≡ spec.behind_insert token.now) }
{
    match token {
        Token::Word(_, Word::Into) => at(alloc, Place::Insert(InsertPlace::Into)),
        _ => Ok(None),
    }
}

/// The table's name is to come.
fn table_named(alloc: Global, token: Token) -> Step
    ensures { IfOk result (λ next. next ≡ spec.on_name (spec.name_of token) (λ n. p.Insert (ip.Table n))) }
{
    match name_of(token) {
        Some(name) => at(alloc, Place::Insert(InsertPlace::Table(name))),
        None => Ok(None),
    }
}

/// Behind `INSERT INTO` and the table.
fn behind_table(alloc: Global, table: Text, token: &Token) -> Step
    ensures { IfOk result (λ next. next ≡ spec.behind_table table token.now) }
{
    match token {
        Token::Open => at(
            alloc,
            Place::Insert(InsertPlace::NameStart(table, Items::new(alloc))),
        ),
        _ => behind_columns(
            alloc,
            Target {
                table,
                columns: None,
            },
            token,
        ),
    }
}

/// Behind the table and its columns, if there are some.
fn behind_columns(alloc: Global, target: Target, token: &Token) -> Step
    ensures { IfOk result (λ next. next ≡ spec.behind_columns target token.now) }
{
    match token {
        Token::Word(_, Word::Values) => {
            at(
                alloc,
                Place::Insert(InsertPlace::Values(target, MeasuredRows::new(alloc))),
            )
        }
        Token::Word(_, Word::Select) => {
            let query = MeasuredQuery::new(alloc, Some(target));
            at(alloc, Place::Select(SelectPlace::Result(query)))
        }
        _ => {
            drop(target);
            Ok(None)
        }
    }
}

/// The list with one more name at its end.
fn with_name(mut names: Items<Text>, name: Text) -> Result<Items<Text>, NoMemory>
    ensures { IfOk result (λ ns. ns ≡ names ++ name ∷ []) }
{
    match names.push(name) {
        Ok(()) => Ok(names),
        Err(_) => {
            drop(names);
            Err(NoMemory)
        }
    }
}

/// A column's name is to come.
fn column_listed(alloc: Global, table: Text, names: Items<Text>, token: Token) -> Step
    ensures { IfOk result (λ next. next ≡ spec.on_name (spec.name_of token) (λ m. p.Insert (ip.Names table (names ++ m ∷ [])))) }
{
    match name_of(token) {
        Some(name) => match with_name(names, name) {
            Ok(names) => at(alloc, Place::Insert(InsertPlace::Names(table, names))),
            Err(error) => {
                drop(table);
                Err(error)
            }
        },
        None => {
            drop(table);
            drop(names);
            Ok(None)
        }
    }
}

/// Behind a column's name.
fn behind_names(alloc: Global, table: Text, names: Items<Text>, token: &Token) -> Step
    ensures { IfOk result (λ next. next ≡ spec.behind_names table names token.now) }
{
    match token {
        Token::Comma => at(alloc, Place::Insert(InsertPlace::NameStart(table, names))),
        Token::Close => {
            let columns = Some(names);
            at(
                alloc,
                Place::Insert(InsertPlace::Columns(Target { table, columns })),
            )
        }
        _ => {
            drop(table);
            drop(names);
            Ok(None)
        }
    }
}

/// A row is to come.
fn behind_values(alloc: Global, target: Target, rows: MeasuredRows, token: &Token) -> Step
    ensures { IfOk result (λ next. next ≡ spec.behind_values target rows token.now) }
{
    match token {
        Token::Open => {
            let row = MeasuredList::new(alloc);
            inside(alloc, Clause::Row { target, rows, row })
        }
        _ => {
            drop(target);
            drop(rows);
            Ok(None)
        }
    }
}

/// Behind a row.
fn behind_rows(alloc: Global, target: Target, rows: MeasuredRows, token: &Token) -> Step
    ensures { IfOk result (λ next. next ≡ spec.behind_rows target rows token.now) }
{
    match token {
        Token::Comma => at(alloc, Place::Insert(InsertPlace::Values(target, rows))),
        _ => behind_ended(alloc, MeasuredStmt::insert(target, rows), token),
    }
}
