//! The results and the place in the order of each row.

ghost use Rattle.std.specs.Prelude.{◌≡◌, [], ◌∷◌, map, Ok, IfOk, OnOk, drop as behind};
ghost use Rattle.std.specs.BTreeMap.{insert_entry};
ghost use Rattle.rq_eval.specs.Names.{row_of};
ghost use Rattle.rq_eval.specs.Outcome.{Answers};
ghost use Rattle.rq_eval.specs.Outcome as outcome;
ghost use Rattle.rq_select.specs.Planned as planned;
ghost use Rattle.rq_select.specs.Select as spec;
ghost use Rattle.rq_select.specs.Sorting as sorting;

use crate::filtering::filtered;
use crate::planning::Plan;
use crate::sorting::{SortKey, SortTerm};
use crate::terms::{PlannedTerm, TermBy};
use rq_eval::{EvalError, ResolvedExpr, RowView, Scope, evaluate};
use rq_results::push;
use rq_values::{Seq, TryCopy, Value};
use sqlite_items::at;
use std::alloc::{AllocError, Global};
use std::cmp::Reverse;
use std::collections::BTreeMap;

/// A row's place in the order, and its results.
pub struct Entry {
    pub key: SortKey,
    pub values: Seq<Value>,
}

impl Drop for Entry {
    fn drop(self) {
        let Entry { key, values } = self;
        drop(key);
        drop(values);
    }
}

/// The results of a row, from left to right.
fn results_of(
    alloc: Global,
    results: &[ResolvedExpr],
    row: &RowView<'_>,
    all: &[RowView<'_>],
) -> Result<Seq<Value>, EvalError>
    ensures { Answers (outcome.all_of (map (λ g. g (row_of row.now)) (planned.gives results.now (map row_of all.now)))) result }
{
    let mut values = Seq::new(alloc);
    for expr in results {
        match evaluate(alloc, expr, row, all) {
            Ok(value) => match values.push(value) {
                Ok(()) => {}
                Err(_) => {
                    drop(values);
                    return Err(EvalError::NoMemory);
                }
            },
            Err(e) => {
                drop(values);
                return Err(e);
            }
        }
    }
    Ok(values)
}

fn copied(alloc: Global, value: &Value) -> Result<Value, EvalError>
    ensures { Answers (Ok value.now) result }
{
    match value.copy(alloc) {
        Ok(value) => Ok(value),
        Err(_) => Err(EvalError::NoMemory),
    }
}

fn term_value(
    alloc: Global,
    by: &TermBy,
    row: &RowView<'_>,
    values: &[Value],
) -> Result<Value, EvalError>
    ensures { Answers (planned.ranks_of by.now (row_of row.now) values.now) result }
{
    match by {
        TermBy::Result(place) => match at(values, *place) {
            Some(value) => copied(alloc, value),
            None => Ok(Value::Null),
        },
        TermBy::Expression(expr) => evaluate(alloc, expr, row, &[]),
    }
}

fn sort_term(descending: bool, value: Value) -> SortTerm
    ensures { result ≡ sorting.sort_term descending value }
{
    if descending {
        SortTerm::Falling(Reverse(value))
    } else {
        SortTerm::Rising(value)
    }
}

/// The terms of a row, whose results are there.
fn sort_terms(
    alloc: Global,
    terms: &[PlannedTerm],
    row: &RowView<'_>,
    values: &[Value],
    into: &mut Vec<SortTerm>,
) -> Result<(), EvalError>
    requires { into.old.items ≡ [] }
    ensures { planned.Fills (outcome.all_of (map (spec.sort_value (row_of row.now) values.now) (map planned.term_of terms.now))) into.new.items result }
{
    for term in terms {
        match term_value(alloc, &term.by, row, values) {
            Ok(value) => match push(into, sort_term(term.descending, value)) {
                Ok(()) => {}
                Err(_) => return Err(EvalError::NoMemory),
            },
            Err(e) => return Err(e),
        }
    }
    Ok(())
}

/// The terms of a row with its results.
fn with_terms(
    alloc: Global,
    terms: &[PlannedTerm],
    row: &RowView<'_>,
    values: Seq<Value>,
) -> Result<Entry, EvalError>
    ensures { planned.IsEntry (spec.with_terms (map planned.term_of terms.now) (row_of row.now) values) result }
{
    let mut sorted = Vec::new(alloc);
    match sort_terms(alloc, terms, row, values.as_slice(), &mut sorted) {
        Ok(()) => Ok(Entry {
            key: SortKey {
                terms: sorted,
                rowid: row.rowid,
            },
            values,
        }),
        Err(e) => {
            drop(sorted);
            drop(values);
            Err(e)
        }
    }
}

/// The results of a row, and then its terms.
fn entry_of(
    alloc: Global,
    plan: &Plan,
    row: &RowView<'_>,
    all: &[RowView<'_>],
) -> Result<Entry, EvalError>
    ensures { planned.IsEntry (spec.entry_of (planned.gives plan.now.results (map row_of all.now)) (map planned.term_of plan.now.terms) (row_of row.now)) result }
{
    match results_of(alloc, plan.results.as_slice(), row, all) {
        Ok(values) => with_terms(alloc, plan.terms.as_slice(), row, values),
        Err(e) => Err(e),
    }
}

/// An entry for each row.
fn entries_of(
    alloc: Global,
    plan: &Plan,
    rows: &[RowView<'_>],
    all: &[RowView<'_>],
) -> Result<Vec<Entry>, EvalError>
    ensures { planned.AreEntries (outcome.all_of (map (spec.entry_of (planned.gives plan.now.results (map row_of all.now)) (map planned.term_of plan.now.terms)) (map row_of rows.now))) result }
{
    let mut entries = Vec::new(alloc);
    for row in rows {
        match entry_of(alloc, plan, row, all) {
            Ok(entry) => match push(&mut entries, entry) {
                Ok(()) => {}
                Err(_) => {
                    drop(entries);
                    return Err(EvalError::NoMemory);
                }
            },
            Err(e) => {
                drop(entries);
                return Err(e);
            }
        }
    }
    Ok(entries)
}

impl Entry {
    fn put_in(self, sorted: &mut BTreeMap<SortKey, Seq<Value>>) -> Result<(), AllocError>
        ensures { OnOk result (planned.viewed sorted.new.entries ≡ insert_entry sorting.place_cmp (planned.viewed sorted.old.entries) (planned.entry self).0 (planned.entry self).1) }
    {
        let Entry { key, values } = self;
        match sorted.insert(key, values) {
            Ok(old) => {
                drop(old);
                Ok(())
            }
            Err(refused) => {
                drop(refused);
                Err(AllocError)
            }
        }
    }
}

/// The entries in order: each takes its place in a sorted map.
fn sorted(alloc: Global, entries: Vec<Entry>) -> Result<BTreeMap<SortKey, Seq<Value>>, AllocError>
    ensures { IfOk result (λ m. planned.viewed m.entries ≡ sorting.sorted_among [] (map planned.entry entries.items)) }
{
    let mut sorted = BTreeMap::new(alloc);
    for entry in entries {
        match entry.put_in(&mut sorted) {
            Ok(()) => {}
            Err(e) => {
                drop(sorted);
                return Err(e);
            }
        }
    }
    Ok(sorted)
}

/// The results in order, but for the first ones.
fn results_behind(
    alloc: Global,
    sorted: BTreeMap<SortKey, Seq<Value>>,
    offset: u64,
) -> Result<Vec<Seq<Value>>, AllocError>
    ensures { IfOk result (λ rows. rows.items ≡ behind offset (sorting.results_of (planned.viewed sorted.entries))) }
{
    let mut rows = Vec::new(alloc);
    let mut skipped = 0u64;
    for (key, values) in sorted {
        drop(key);
        if skipped < offset {
            drop(values);
            skipped += 1;
        } else {
            rows.push(values)?;
        }
    }
    Ok(rows)
}

fn at_most(rows: Vec<Seq<Value>>, limit: Option<u64>) -> Seq<Seq<Value>>
    ensures { result ≡ spec.at_most limit rows.items }
{
    let mut rows = rows;
    match limit {
        None => {}
        Some(limit) => rows.truncate(limit as usize),
    }
    Seq::from_vec(rows)
}

/// The results in order, cut.
fn in_order(
    alloc: Global,
    entries: Vec<Entry>,
    limit: Option<u64>,
    offset: u64,
) -> Result<Seq<Seq<Value>>, EvalError>
    ensures { Answers (Ok (spec.cut limit offset (sorting.in_order (map planned.entry entries.items)))) result }
{
    let sorted = sorted(alloc, entries)?;
    match results_behind(alloc, sorted, offset) {
        Ok(rows) => Ok(at_most(rows, limit)),
        Err(_) => Err(EvalError::NoMemory),
    }
}

fn shown(
    alloc: Global,
    plan: &Plan,
    rows: &[RowView<'_>],
    all: &[RowView<'_>],
) -> Result<Seq<Seq<Value>>, EvalError>
    ensures { Answers (planned.shown plan.now (map row_of rows.now) (map row_of all.now)) result }
{
    let entries = entries_of(alloc, plan, rows, all)?;
    in_order(alloc, entries, plan.limit, plan.offset)
}

/// What is shown of the rows that are left by WHERE.
pub fn shown_rows(
    alloc: Global,
    plan: &Plan,
    left: &[RowView<'_>],
) -> Result<Seq<Seq<Value>>, EvalError>
    ensures { Answers (spec.shown_rows (planned.gives plan.now.results) (map planned.term_of plan.now.terms) plan.now.over_all plan.now.limit plan.now.offset (map row_of left.now)) result }
{
    if plan.over_all {
        let scope = Scope::Empty;
        let no_row = RowView {
            scope: &scope,
            rowid: 0,
            values: &[],
        };
        shown(alloc, plan, &[no_row], left)
    } else {
        shown(alloc, plan, left, &[])
    }
}

/// What a plan shows of rows.
pub fn rows_planned(
    alloc: Global,
    plan: &Plan,
    rows: &[RowView<'_>],
) -> Result<Seq<Seq<Value>>, EvalError>
    ensures { Answers (planned.rows_planned plan.now (map row_of rows.now)) result }
{
    let left = filtered(alloc, &plan.filter, rows)?;
    shown_rows(alloc, plan, left.as_slice())
}
