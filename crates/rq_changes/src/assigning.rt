//! Values take their places in a row.

ghost use Rattle.std.specs.Prelude.{◌≡◌, ◌∷◌, None, IfOk, replicate};
ghost use Rattle.std.specs.Option.{option_copied};
ghost use Rattle.rq_values.specs.declared.value.Value.TheVariants.{Null};
ghost use Rattle.rq_meaning.specs.Changes as spec;
ghost use Rattle.rq_meaning.specs.Rows.{all_values};
ghost use Rattle.rq_changes.specs.Staged.{now_of};
ghost use Rattle.rq_changes.specs.Stepping.{laid_by, laid_out_by};

use crate::storing::set_cell;
use crate::table::Table;
use rq_values::{NoMemory, Seq, TryCopy, Value};
use std::alloc::Global;

/// The values take their places.
pub fn set_all(places: &[usize], values: Seq<Value>, row: &mut Vec<Value>)
    ensures { row.new.items ≡ spec.all_set places.now values row.old.items }
{
    let mut left = places;
    for value in values.into_vec() {
        match left {
            [] => drop(value),
            [place, rest @ ..] => {
                set_cell(row, *place, value);
                left = rest;
            }
        }
    }
}

/// So many NULLs.
fn nulls(alloc: Global, count: usize) -> Result<Vec<Value>, NoMemory>
    ensures { IfOk result (λ row. row.items ≡ replicate count Null) }
{
    let mut row = Vec::with_capacity(alloc, count)?;
    for _i in 0..count {
        row.push(Value::Null)?;
    }
    Ok(row)
}

/// NULL before the values.
fn with_null(values: Vec<Value>) -> Result<Seq<Value>, NoMemory>
    ensures { IfOk result (λ row. row ≡ Null ∷ values.items) }
{
    let mut row = values;
    match row.insert(0, Value::Null) {
        Ok(()) => Ok(Seq::from_vec(row)),
        Err(refused) => {
            drop(refused);
            drop(row);
            Err(NoMemory)
        }
    }
}

/// The values at their places among NULLs.
fn at_places(
    alloc: Global,
    table: &Table,
    places: &[usize],
    values: Seq<Value>,
) -> Result<Seq<Value>, NoMemory>
    ensures { IfOk result (λ row. row ≡ laid_by (now_of table.now) places.now values) }
{
    match nulls(alloc, table.all_columns().len()) {
        Ok(row) => {
            let mut row = row;
            set_all(places, values, &mut row);
            Ok(Seq::from_vec(row))
        }
        Err(e) => {
            drop(values);
            Err(e)
        }
    }
}

/// A value for each of all columns, where a value is given for each column.
fn as_given(table: &Table, values: Seq<Value>) -> Result<Seq<Value>, NoMemory>
    ensures { IfOk result (λ row. row ≡ spec.laid_out (now_of table.now) None values) }
{
    if table.is_hidden() {
        with_null(values.into_vec())
    } else {
        Ok(values)
    }
}

/// A value for each of all columns; NULL where none is given.
pub fn lay_out(
    alloc: Global,
    table: &Table,
    places: Option<&[usize]>,
    values: Seq<Value>,
) -> Result<Seq<Value>, NoMemory>
    ensures { IfOk result (λ row. row ≡ laid_out_by (now_of table.now) (option_copied places.entry) values) }
{
    match places {
        None => as_given(table, values),
        Some(places) => at_places(alloc, table, places, values),
    }
}

/// A copy of the values of all columns of a row.
pub fn copied_row(
    alloc: Global,
    table: &Table,
    key: i64,
    values: &[Value],
) -> Result<Vec<Value>, NoMemory>
    ensures { IfOk result (λ row. row.items ≡ all_values table.now.rows.columns key values.now) }
{
    let mut row = Vec::new(alloc);
    if table.is_hidden() {
        row.push(Value::Int(key))?;
    }
    for value in values {
        match value.copy(alloc) {
            Ok(copy) => row.push(copy)?,
            Err(e) => {
                drop(row);
                return Err(e);
            }
        }
    }
    Ok(row)
}
