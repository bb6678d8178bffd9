//! The names of INSERT's list and of SET, and how many values a row has.

ghost use Rattle.std.specs.Prelude.{◌≡◌, ◌==◌};
ghost use Rattle.std.specs.List.{list_any};
ghost use Rattle.std.specs.Option.{option_copied};
ghost use Rattle.rq_eval.specs.Outcome.{Answers};
ghost use Rattle.rq_results.specs.Viewed.{Clears};
ghost use Rattle.rq_meaning.specs.Checks as spec;
ghost use Rattle.rq_meaning.specs.Running.{Goes};
ghost use Rattle.rq_changes.specs.Staged.{now_of};
ghost use Rattle.rq_changes.specs.Stepping.{place_pushed, listed};

use crate::errors::{is_double, no_column, wrong_value_count};
use crate::table::Table;
use rq_eval::{EvalError, StmtError, find_column};
use rq_grammar::ColumnDef;
use rq_rows::is_rowid;
use rq_select::TableView;
use rq_values::{Seq, Text};
use std::alloc::Global;

/// The place of the column that is the rowid.
fn rowid_place(columns: &[ColumnDef]) -> usize
    ensures { result ≡ spec.rowid_place columns.now }
{
    for i in 0..columns.len() {
        if is_rowid(&columns[i]) {
            return i;
        }
    }
    columns.len()
}

/// The place among all columns, of a place in an expression's row.
fn in_all(table: &Table, place: usize) -> usize
    ensures { result ≡ spec.in_all table.now.rows.columns place }
{
    if place < table.columns().len() {
        if table.is_hidden() { place + 1 } else { place }
    } else {
        rowid_place(table.all_columns())
    }
}

/// The place among all columns of the one that a name names.
fn place_of(table: &Table, name: &Text) -> Option<usize>
    ensures { result ≡ spec.place_of (now_of table.now) name.now }
{
    match find_column(table.scope(), name) {
        Some(place) => Some(in_all(table, place)),
        None => None,
    }
}

fn is_among(place: usize, places: &[usize]) -> bool
    ensures { result ≡ list_any (λ j. j == place) places.now }
{
    for other in places {
        if *other == place {
            return true;
        }
    }
    false
}

/// The place of a name behind others, which names a column, and none of theirs.
pub fn push_name(
    alloc: Global,
    table: &Table,
    places: &mut Seq<usize>,
    name: &Text,
) -> Result<(), EvalError>
    ensures { Goes (place_pushed (now_of table.now) places.old name.now) places.new result }
{
    match place_of(table, name) {
        None => Err(no_column(alloc, table.name(), name)),
        Some(place) => {
            if is_among(place, places.as_slice()) {
                return Err(is_double(alloc, name));
            }
            match places.push(place) {
                Ok(()) => Ok(()),
                Err(_) => Err(EvalError::NoMemory),
            }
        }
    }
}

/// The places of an INSERT's names.
pub fn places_of(alloc: Global, table: &Table, names: &[Text]) -> Result<Seq<usize>, EvalError>
    ensures { Answers (listed (now_of table.now) names.now) result }
{
    let mut places = Seq::new(alloc);
    for name in names {
        match push_name(alloc, table, &mut places, name) {
            Ok(()) => {}
            Err(e) => {
                drop(places);
                return Err(e);
            }
        }
    }
    Ok(places)
}

/// How many values a row has.
pub fn check_count(
    alloc: Global,
    table: &Table,
    names: Option<&[Text]>,
    values: usize,
) -> Result<(), EvalError>
    ensures { Clears (spec.count_check (now_of table.now) (option_copied names.entry) values) result }
{
    match names {
        None => {
            let columns = table.columns().len();
            if values == columns {
                Ok(())
            } else {
                Err(wrong_value_count(alloc, table.name(), columns as u64, values as u64))
            }
        }
        Some(names) => {
            let columns = names.len();
            if values == columns {
                Ok(())
            } else {
                Err(EvalError::Says(StmtError::WrongListCount {
                    values: values as u64,
                    columns: columns as u64,
                }))
            }
        }
    }
}
