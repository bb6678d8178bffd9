//! `CREATE TABLE`, up to its end.

ghost use Rattle.std.specs.Prelude.{◌≡◌, None, IfOk};
ghost use Rattle.rq_automaton.specs.Places as spec;
ghost use Rattle.rq_grammar.specs.Statements.{plain_column};
ghost use Rattle.rq_automaton.specs.declared.place.Place.TheVariants as p;
ghost use Rattle.rq_automaton.specs.declared.place.CreatePlace.TheVariants as cp;

use crate::names::{Step, at, behind, name_of};
use rq_automaton::{CreatePlace, MeasuredStmt, NewTable, Place};
use rq_grammar::{ColumnDef, ColumnKind, Token, Word};
use rq_values::{NoMemory, Text};
use sqlite_items::Items;
use std::alloc::Global;

/// The state behind the token, at a place of a `CREATE`.
#[tactic(auto, unfolding(rq_automaton::specs::Places::create_step))]
pub(crate) fn create_step(alloc: Global, place: CreatePlace, token: Token) -> Step
    ensures { IfOk result (λ next. next ≡ spec.create_step place token) }
{
    match place {
        CreatePlace::Begun => behind(behind_create(alloc, &token), token),
        CreatePlace::Table => behind_create_table(alloc, token),
        CreatePlace::If(table) => behind(behind_create_if(alloc, table, &token), token),
        CreatePlace::IfNot => behind(behind_create_if_not(alloc, &token), token),
        CreatePlace::IfNotExists => create_named(alloc, true, token),
        CreatePlace::Named(if_not_exists, table) => {
            behind(
                behind_create_named(alloc, if_not_exists, table, &token),
                token,
            )
        }
        CreatePlace::ColumnStart(table) => column_named(alloc, table, token),
        CreatePlace::ColumnNamed(table, name) => {
            behind(behind_column_name(alloc, table, name, &token), token)
        }
        CreatePlace::Column(table, column) => {
            behind(behind_column(alloc, table, column, &token), token)
        }
        CreatePlace::ColumnPrimary(table, column) => {
            behind(behind_primary(alloc, table, column, &token), token)
        }
        CreatePlace::ColumnNot(table, column) => {
            behind(behind_not(alloc, table, column, &token), token)
        }
    }
}

/// Behind `CREATE`.
fn behind_create(alloc: Global, token: &Token) -> Step
    ensures { IfOk result (λ next. next ≡ spec.behind_create token.now) }
{
    match token {
        Token::Word(_, Word::Table) => at(alloc, Place::Create(CreatePlace::Table)),
        _ => Ok(None),
    }
}

/// Behind `CREATE TABLE`.
fn behind_create_table(alloc: Global, token: Token) -> Step
    ensures { IfOk result (λ next. next ≡ spec.behind_create_table token) }
{
    match &token {
        Token::Word(_, Word::If) => create_if(alloc, token),
        _ => create_named(alloc, false, token),
    }
}

/// The name, or the word IF, is to come.
fn create_if(alloc: Global, token: Token) -> Step
    ensures { IfOk result (λ next. next ≡ spec.on_name (spec.name_of token) (λ n. p.Create (cp.If n))) }
{
    match name_of(token) {
        Some(name) => at(alloc, Place::Create(CreatePlace::If(name))),
        None => Ok(None),
    }
}

/// The table's name is to come.
fn create_named(alloc: Global, if_not_exists: bool, token: Token) -> Step
    ensures { IfOk result (λ next. next ≡ spec.on_name (spec.name_of token) (λ n. p.Create (cp.Named if_not_exists n))) }
{
    match name_of(token) {
        Some(name) => at(
            alloc,
            Place::Create(CreatePlace::Named(if_not_exists, name)),
        ),
        None => Ok(None),
    }
}

/// Behind the table's name.
fn behind_create_named(alloc: Global, if_not_exists: bool, table: Text, token: &Token) -> Step
    ensures { IfOk result (λ next. next ≡ spec.behind_create_named if_not_exists table token.now) }
{
    match token {
        Token::Open => at(
            alloc,
            Place::Create(CreatePlace::ColumnStart(NewTable {
                if_not_exists,
                table,
                columns: Items::new(alloc),
            })),
        ),
        _ => {
            drop(table);
            Ok(None)
        }
    }
}

/// Behind `CREATE TABLE IF`.
fn behind_create_if(alloc: Global, table: Text, token: &Token) -> Step
    ensures { IfOk result (λ next. next ≡ spec.behind_create_if table token.now) }
{
    match token {
        Token::Word(_, Word::Not) => {
            drop(table);
            at(alloc, Place::Create(CreatePlace::IfNot))
        }
        _ => behind_create_named(alloc, false, table, token),
    }
}

/// Behind `CREATE TABLE IF NOT`.
fn behind_create_if_not(alloc: Global, token: &Token) -> Step
    ensures { IfOk result (λ next. next ≡ spec.behind_create_if_not token.now) }
{
    match token {
        Token::Word(_, Word::Exists) => at(alloc, Place::Create(CreatePlace::IfNotExists)),
        _ => Ok(None),
    }
}

/// A column's name is to come.
fn column_named(alloc: Global, table: NewTable, token: Token) -> Step
    ensures { IfOk result (λ next. next ≡ spec.on_name (spec.name_of token) (λ n. p.Create (cp.ColumnNamed table n))) }
{
    match name_of(token) {
        Some(name) => at(alloc, Place::Create(CreatePlace::ColumnNamed(table, name))),
        None => {
            drop(table);
            Ok(None)
        }
    }
}

/// Behind a column's name and its kind, of which no rule is read.
fn column_of(alloc: Global, table: NewTable, name: Text, kind: ColumnKind) -> Step
    ensures { IfOk result (λ next. next ≡ spec.flat (p.Create (cp.Column table (plain_column name kind)))) }
{
    let column = ColumnDef {
        name,
        kind,
        primary: false,
        not_null: false,
        unique: false,
    };
    at(alloc, Place::Create(CreatePlace::Column(table, column)))
}

/// Behind a column's name.
fn behind_column_name(alloc: Global, table: NewTable, name: Text, token: &Token) -> Step
    ensures { IfOk result (λ next. next ≡ spec.behind_column_name table name token.now) }
{
    match token {
        Token::Word(_, Word::Integer) => column_of(alloc, table, name, ColumnKind::Integer),
        Token::Word(_, Word::Text) => column_of(alloc, table, name, ColumnKind::Text),
        Token::Word(_, Word::Blob) => column_of(alloc, table, name, ColumnKind::Blob),
        _ => {
            drop(table);
            drop(name);
            Ok(None)
        }
    }
}

/// The table with one more column at its end.
fn add_column(mut table: NewTable, column: ColumnDef) -> Result<NewTable, NoMemory>
    ensures { IfOk result (λ x. x ≡ spec.add_column table column) }
{
    match table.columns.push(column) {
        Ok(()) => Ok(table),
        Err(_) => {
            drop(table);
            Err(NoMemory)
        }
    }
}

/// Behind a column's kind, or one of its rules.
fn behind_column(alloc: Global, table: NewTable, column: ColumnDef, token: &Token) -> Step
    ensures { IfOk result (λ next. next ≡ spec.behind_column table column token.now) }
{
    match token {
        Token::Word(_, Word::Primary) => {
            if column.primary {
                no_column(table, column)
            } else {
                at(
                    alloc,
                    Place::Create(CreatePlace::ColumnPrimary(table, column)),
                )
            }
        }
        Token::Word(_, Word::Not) => {
            if column.not_null {
                no_column(table, column)
            } else {
                at(alloc, Place::Create(CreatePlace::ColumnNot(table, column)))
            }
        }
        Token::Word(_, Word::Unique) => unique(alloc, table, column),
        Token::Comma => match add_column(table, column) {
            Ok(table) => at(alloc, Place::Create(CreatePlace::ColumnStart(table))),
            Err(error) => Err(error),
        },
        Token::Close => match add_column(table, column) {
            Ok(table) => at(alloc, Place::Ended(MeasuredStmt::create(table))),
            Err(error) => Err(error),
        },
        _ => no_column(table, column),
    }
}

/// Lets go of a column behind which no such token may stand.
fn no_column(table: NewTable, column: ColumnDef) -> Step
    ensures { IfOk result (λ next. next ≡ None) }
{
    drop(table);
    drop(column);
    Ok(None)
}

/// Behind a column's `UNIQUE`.
fn unique(alloc: Global, table: NewTable, mut column: ColumnDef) -> Step
    ensures { IfOk result (λ next. next ≡ spec.unset column.unique (p.Create (cp.Column table (spec.with_unique column)))) }
{
    if column.unique {
        no_column(table, column)
    } else {
        column.unique = true;
        at(alloc, Place::Create(CreatePlace::Column(table, column)))
    }
}

/// Behind `PRIMARY`.
fn behind_primary(alloc: Global, table: NewTable, mut column: ColumnDef, token: &Token) -> Step
    ensures { IfOk result (λ next. next ≡ spec.behind_primary table column token.now) }
{
    match token {
        Token::Word(_, Word::Key) => {
            column.primary = true;
            at(alloc, Place::Create(CreatePlace::Column(table, column)))
        }
        _ => no_column(table, column),
    }
}

/// Behind a column's `NOT`.
fn behind_not(alloc: Global, table: NewTable, mut column: ColumnDef, token: &Token) -> Step
    ensures { IfOk result (λ next. next ≡ spec.behind_not table column token.now) }
{
    match token {
        Token::Word(_, Word::Null) => {
            column.not_null = true;
            at(alloc, Place::Create(CreatePlace::Column(table, column)))
        }
        _ => no_column(table, column),
    }
}
