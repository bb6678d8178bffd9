//! The results of a select, one by one.

ghost use Rattle.std.specs.Prelude.{◌≡◌, ◌++◌, map, OnOk, IfOk};
ghost use Rattle.std.specs.Option.{option_copied, option_and_then};
ghost use Rattle.rq_results.specs.Results as spec;
ghost use Rattle.rq_results.specs.Table as table;
ghost use Rattle.rq_results.specs.Viewed.{shown};

use crate::pushing::push;
use rq_eval::{Scope, find_column, find_qualified_column};
use rq_grammar::{ColumnDef, ColumnKind, Expr, ResultItem};
use rq_values::{NoMemory, Text};
use std::alloc::Global;

/// A column of `*`, or an expression with its alias.
#[derive(Clone, Copy)]
pub enum Shown<'a> {
    Column(usize),
    Expression {
        expr: &'a Expr,
        alias: &'a Option<Text>,
    },
}

fn push_columns(columns: usize, into: &mut Vec<Shown<'_>>) -> Result<(), NoMemory>
    ensures { OnOk result (map shown into.new.items ≡ map shown into.old.items ++ spec.columns_before columns) }
{
    for i in 0..columns {
        match push(into, Shown::Column(i)) {
            Ok(()) => {}
            Err(e) => return Err(e),
        }
    }
    Ok(())
}

/// What stands for a result, behind others.
fn push_item<'a>(
    columns: usize,
    item: &'a ResultItem,
    into: &mut Vec<Shown<'a>>,
) -> Result<(), NoMemory>
    ensures { OnOk result (map shown into.new.items ≡ map shown into.old.items ++ spec.in_place columns item.now) }
{
    match item {
        ResultItem::All => push_columns(columns, into),
        ResultItem::Value { expr, alias } => push(into, Shown::Expression { expr, alias }),
    }
}

/// The results, with the columns of the table in place of `*`.
pub fn spread<'a>(
    alloc: Global,
    columns: usize,
    items: &'a [ResultItem],
) -> Result<Vec<Shown<'a>>, NoMemory>
    ensures { IfOk result (λ all. map shown all.items ≡ spec.spread columns items.now) }
{
    let mut all = Vec::new(alloc);
    for item in items {
        match push_item(columns, item, &mut all) {
            Ok(()) => {}
            Err(e) => {
                drop(all);
                return Err(e);
            }
        }
    }
    Ok(all)
}

fn is_integer(kind: ColumnKind) -> bool
    ensures { result ≡ table.is_integer kind }
{
    match kind {
        ColumnKind::Integer => true,
        ColumnKind::Text => false,
        ColumnKind::Blob => false,
    }
}

fn is_rowid(column: &ColumnDef) -> bool
    ensures { result ≡ table.is_rowid column.now }
{
    is_integer(column.kind) && column.primary
}

/// The column that is the rowid.
fn rowid_column(columns: &[ColumnDef]) -> Option<&ColumnDef>
    ensures { option_copied result ≡ table.rowid_column columns.now }
{
    for column in columns {
        if is_rowid(column) {
            return Some(column);
        }
    }
    None
}

/// The column at a place; behind the columns stands the rowid, which is a column where one is the rowid.
fn column_at(columns: &[ColumnDef], place: usize) -> Option<&ColumnDef>
    ensures { option_copied result ≡ table.column_at columns.now place }
{
    match columns.get(place) {
        Some(column) => Some(column),
        None => rowid_column(columns),
    }
}

fn found_column(columns: &[ColumnDef], place: Option<usize>) -> Option<&ColumnDef>
    ensures { option_copied result ≡ option_and_then (table.column_at columns.now) place }
{
    match place {
        Some(place) => column_at(columns, place),
        None => None,
    }
}

/// The column that an expression names, where it is a name alone.
fn named_column<'a>(scope: &Scope, columns: &'a [ColumnDef], expr: &Expr) -> Option<&'a ColumnDef>
    ensures { option_copied result ≡ spec.named_column scope.now columns.now expr.now }
{
    match expr {
        Expr::Name(name) => found_column(columns, find_column(scope, name)),
        Expr::Qualified { table, column } => {
            found_column(columns, find_qualified_column(scope, table, column))
        }
        _ => None,
    }
}

/// The column that a result is.
pub fn column_of<'a>(
    scope: &Scope,
    columns: &'a [ColumnDef],
    item: Shown<'_>,
) -> Option<&'a ColumnDef>
    ensures { option_copied result ≡ spec.column_of scope.now columns.now (shown item.entry) }
{
    match item {
        Shown::Column(place) => column_at(columns, place),
        Shown::Expression { expr, alias: _ } => named_column(scope, columns, expr),
    }
}
