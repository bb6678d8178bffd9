//! Headings and types of results.

ghost use Rattle.std.specs.Prelude.{◌≡◌, true, map, IfOk};
ghost use Rattle.std.specs.Option.{option_copied};
ghost use Rattle.rq_values.specs.Text.{is_plain};
ghost use Rattle.rq_print.specs.Text.{expr_text};
ghost use Rattle.rq_results.specs.Results as spec;
ghost use Rattle.rq_results.specs.Viewed.{shown};

use crate::results::{Shown, column_of};
use rq_eval::Scope;
use rq_grammar::{ColumnDef, ColumnKind, Expr};
use rq_print::printed_expr;
use rq_values::{NoMemory, Seq, Text, TryCopy};
use std::alloc::Global;

/// The canonical text of an expression.
fn canonical(alloc: Global, expr: &Expr) -> Result<Text, NoMemory>
    ensures { IfOk result (λ text. text ≡ expr_text expr.now) }
{
    match printed_expr(alloc, expr) {
        Ok(bytes) => match Text::from_vec(bytes) {
            Some(text) => Ok(text),
            None => Err(NoMemory),
        },
        Err(e) => Err(e),
    }
}

/// The heading of a result: its alias, else the name of the column as declared, else its canonical text.
fn heading(
    alloc: Global,
    scope: &Scope,
    columns: &[ColumnDef],
    item: Shown<'_>,
) -> Result<Text, NoMemory>
    ensures { IfOk result (λ text. text ≡ spec.heading scope.now columns.now (shown item.entry)) }
{
    let column = column_of(scope, columns, item);
    match item {
        Shown::Column(_) => match column {
            Some(column) => column.name.copy(alloc),
            None => Ok(Text::empty(alloc)),
        },
        Shown::Expression { expr, alias } => match alias {
            Some(alias) => alias.copy(alloc),
            None => match column {
                Some(column) => column.name.copy(alloc),
                None => canonical(alloc, expr),
            },
        },
    }
}

fn plain(alloc: Global, word: &[u8]) -> Result<Text, NoMemory>
    requires { is_plain word.now ≡ true }
    ensures { IfOk result (λ text. text ≡ word.now) }
{
    let mut text = Text::empty(alloc);
    match text.push_plain(word) {
        Ok(()) => Ok(text),
        Err(e) => {
            drop(text);
            Err(e)
        }
    }
}

/// The declared type of a column in lower case, and none of what is no column.
fn type_of(alloc: Global, column: Option<&ColumnDef>) -> Result<Text, NoMemory>
    ensures { IfOk result (λ text. text ≡ spec.type_or_none (option_copied column.entry)) }
{
    match column {
        Some(column) => match column.kind {
            ColumnKind::Integer => plain(alloc, b"integer"),
            ColumnKind::Text => plain(alloc, b"text"),
            ColumnKind::Blob => plain(alloc, b"blob"),
        },
        None => Ok(Text::empty(alloc)),
    }
}

pub fn headings(
    alloc: Global,
    scope: &Scope,
    columns: &[ColumnDef],
    items: &[Shown<'_>],
) -> Result<Seq<Text>, NoMemory>
    ensures { IfOk result (λ texts. texts ≡ map (spec.heading scope.now columns.now) (map shown items.now)) }
{
    let mut texts = Seq::new(alloc);
    for item in items {
        match heading(alloc, scope, columns, *item) {
            Ok(text) => match texts.push(text) {
                Ok(()) => {}
                Err(e) => {
                    drop(texts);
                    return Err(e);
                }
            },
            Err(e) => {
                drop(texts);
                return Err(e);
            }
        }
    }
    Ok(texts)
}

pub fn types(
    alloc: Global,
    scope: &Scope,
    columns: &[ColumnDef],
    items: &[Shown<'_>],
) -> Result<Seq<Text>, NoMemory>
    ensures { IfOk result (λ texts. texts ≡ map (spec.type_of scope.now columns.now) (map shown items.now)) }
{
    let mut texts = Seq::new(alloc);
    for item in items {
        match type_of(alloc, column_of(scope, columns, *item)) {
            Ok(text) => match texts.push(text) {
                Ok(()) => {}
                Err(e) => {
                    drop(texts);
                    return Err(e);
                }
            },
            Err(e) => {
                drop(texts);
                return Err(e);
            }
        }
    }
    Ok(texts)
}
