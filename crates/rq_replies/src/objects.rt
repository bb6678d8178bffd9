//! A read's rows as objects: the headings are the keys.
ghost use Rattle.std.specs.Prelude.{◌≡◌, ◌<◌, [], get_or, map, flat_map, length, true, OnOk, IfOk};
ghost use Rattle.std.specs.Ordering.{nat_cmp};
ghost use Rattle.std.specs.Cmp.Lexicographic.{slice_cmp};
ghost use Rattle.json.specs.Token.{string};
ghost use Rattle.rq_replies.specs.Output.{Adds};
ghost use Rattle.rq_replies.specs.Order as ordered;
ghost use Rattle.rq_replies.specs.Reply as spec;

use crate::output::Output;
use crate::replying::write_value;
use rq_values::{Seq, Text, Value};
use std::alloc::{AllocError, Global};
use std::cmp::Ordering;

/// Where a column's index goes among others.
#[derive(Clone, Copy)]
pub(crate) enum Spot {
    Before(usize),
    At(usize),
    End,
}

/// The members of a read's result whose rows are objects.
pub(crate) fn write_objects(
    alloc: Global,
    columns: &[Text],
    types: &[Text],
    rows: &[Seq<Value>],
    output: &mut Output,
) -> Result<(), AllocError>
    ensures { Adds result output.old output.new (spec.table_members true columns.now types.now rows.now) }
{
    write_rows(alloc, columns, rows, output)?;
    output.key("types")?;
    write_types(alloc, columns, types, output)
}

/// The rows; no rows at all are left output.
fn write_rows(
    alloc: Global,
    columns: &[Text],
    rows: &[Seq<Value>],
    output: &mut Output,
) -> Result<(), AllocError>
    ensures { Adds result output.old output.new (spec.rows_member columns.now rows.now) }
{
    if rows.is_empty() {
        return Ok(());
    }
    output.key("rows")?;
    let order = order_of(alloc, columns, columns.len())?;
    write_each(alloc, columns, &order, rows, output)
}

fn write_each(
    alloc: Global,
    columns: &[Text],
    order: &[usize],
    rows: &[Seq<Value>],
    output: &mut Output,
) -> Result<(), AllocError>
    requires { order.now ≡ ordered.order_to columns.now (length columns.now) }
    ensures { Adds result output.old output.new (spec.array_of (flat_map (spec.row_object columns.now) rows.now)) }
{
    output.begin_array()?;
    for row in rows {
        write_row(alloc, columns, order, row.as_slice(), output)?;
    }
    output.end_array()
}

#[tactic(auto, using(crate::proofs::InOrder::row_in_order))]
fn write_row(
    alloc: Global,
    columns: &[Text],
    order: &[usize],
    row: &[Value],
    output: &mut Output,
) -> Result<(), AllocError>
    requires { order.now ≡ ordered.order_to columns.now (length columns.now) }
    ensures { Adds result output.old output.new (spec.row_object columns.now row.now) }
{
    if row.len() < columns.len() {
        write_short_row(alloc, columns, row, output)
    } else {
        write_values(alloc, columns, order, row, output)
    }
}

/// A row with fewer values than there are columns.
#[tactic(auto, using(crate::proofs::InOrder::short_row_in_order))]
fn write_short_row(
    alloc: Global,
    columns: &[Text],
    row: &[Value],
    output: &mut Output,
) -> Result<(), AllocError>
    requires { length row.now < length columns.now }
    ensures { Adds result output.old output.new (spec.row_object columns.now row.now) }
{
    let order = order_of(alloc, columns, row.len())?;
    write_values(alloc, columns, &order, row, output)
}

fn write_values(
    alloc: Global,
    columns: &[Text],
    order: &[usize],
    row: &[Value],
    output: &mut Output,
) -> Result<(), AllocError>
    ensures { Adds result output.old output.new (spec.object_of (flat_map (ordered.value_under columns.now row.now) order.now)) }
{
    output.begin_object()?;
    for at in order {
        write_member(alloc, columns, row, *at, output)?;
    }
    output.end_object()
}

fn write_member(
    alloc: Global,
    columns: &[Text],
    row: &[Value],
    at: usize,
    output: &mut Output,
) -> Result<(), AllocError>
    ensures { Adds result output.old output.new (ordered.value_under columns.now row.now at) }
{
    output.key(text_at(columns, at))?;
    match row.get(at) {
        Some(value) => write_value(alloc, value, output),
        None => output.null(),
    }
}

#[tactic(auto, using(crate::proofs::InOrder::types_in_order))]
fn write_types(
    alloc: Global,
    columns: &[Text],
    types: &[Text],
    output: &mut Output,
) -> Result<(), AllocError>
    ensures { Adds result output.old output.new (spec.object_under columns.now (map string types.now)) }
{
    let order = order_of(alloc, columns, columns.len().min(types.len()))?;
    write_texts(columns, &order, types, output)
}

fn write_texts(
    columns: &[Text],
    order: &[usize],
    types: &[Text],
    output: &mut Output,
) -> Result<(), AllocError>
    ensures { Adds result output.old output.new (spec.object_of (flat_map (ordered.type_under columns.now types.now) order.now)) }
{
    output.begin_object()?;
    for at in order {
        output.key(text_at(columns, *at))?;
        output.string(text_at(types, *at))?;
    }
    output.end_object()
}

/// The text of this index, or the empty one.
fn text_at(texts: &[Text], at: usize) -> &str
    ensures { result.now ≡ get_or texts.now at [] }
{
    match texts.get(at) {
        Some(text) => text.as_str(),
        None => "",
    }
}

/// The first so many columns in the order of their headings; of equal headings the last.
fn order_of(alloc: Global, headings: &[Text], count: usize) -> Result<Vec<usize>, AllocError>
    ensures { IfOk result (λ order. order.items ≡ ordered.order_to headings.now count) }
{
    let mut order = Vec::with_capacity(alloc, count)?;
    for at in 0..count {
        place(headings, at, &mut order)?;
    }
    Ok(order)
}

fn place(headings: &[Text], at: usize, order: &mut Vec<usize>) -> Result<(), AllocError>
    ensures { OnOk result (order.new.items ≡ ordered.place headings.now at order.old.items) }
{
    match spot_of(headings, at, order) {
        Spot::Before(position) => {
            order.insert(position, at)?;
            Ok(())
        }
        Spot::At(position) => {
            order[position] = at;
            Ok(())
        }
        Spot::End => {
            order.push(at)?;
            Ok(())
        }
    }
}

#[tactic(auto, using(crate::proofs::InOrder::equal_spot))]
fn spot_of(headings: &[Text], at: usize, order: &[usize]) -> Spot
    ensures spot { ordered.place headings.now at order.now ≡ ordered.with_spot result at order.now }
    ensures within { ordered.IsWithin result order.now }
{
    for position in 0..order.len() {
        match compare(text_at(headings, at), text_at(headings, order[position])) {
            Ordering::Less => return Spot::Before(position),
            Ordering::Equal => return Spot::At(position),
            Ordering::Greater => {}
        }
    }
    Spot::End
}

fn compare(a: &str, b: &str) -> Ordering
    ensures { result ≡ slice_cmp nat_cmp a.now b.now }
{
    a.as_bytes().cmp(b.as_bytes())
}
