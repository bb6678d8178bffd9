//! What rows that are gone for good leave behind, and how it is taken out: slots that show nothing, entries of the maps by value.

ghost use Rattle.std.specs.Prelude.{◌≡◌, OnOk, length, true, vec_len, vec_capacity, ◌<◌, is_some};
ghost use Rattle.std.specs.FinMap as fin;
ghost use Rattle.rq_rows.specs.Rows as rows;
ghost use Rattle.rq_rows.specs.Slots.{slots_of, live};
ghost use Rattle.rq_rows.specs.Covering.{Cover, Covers, probe_row};

use crate::change::Change;
use crate::holders::Holders;
use crate::undo::{Slots, is_unique, key_at};
use crate::walking::{is_same, row_at};
use rq_grammar::ColumnDef;
use rq_values::{NoMemory, Seq, Value};

/// Makes room for a change, and for its row should it go back.
pub fn make_room(log: &mut Vec<Change>, gone: &mut Vec<Seq<Value>>) -> Result<(), NoMemory>
    ensures items { log.new.items ≡ log.old.items }
    ensures len { vec_len log.new ≡ vec_len log.old }
    ensures ok { OnOk result (vec_len log.new < vec_capacity log.new) }
{
    log.reserve(1)?;
    gone.reserve(log.capacity())?;
    Ok(())
}

/// Lays a row by that a slot had, if there is room.
pub fn lay_by(gone: &mut Vec<Seq<Value>>, content: Option<Option<Seq<Value>>>) {
    match content {
        None => {}
        Some(shown) => match shown {
            None => {}
            Some(row) => match gone.push(row) {
                Ok(()) => {}
                Err(refused) => drop(refused),
            },
        },
    }
}

/// Takes a slot out that shows nothing.
fn sweep(slots: &mut Slots, key: i64)
    ensures { live (slots_of slots.new.entries) ≡ live (slots_of slots.old.entries) }
{
    if let Some(None) = slots.get(&key) {
        drop(slots.remove(&key));
    }
}

/// Takes the slots out that show nothing since the changes.
fn settle(slots: &mut Slots, log: &[Change])
    ensures { live (slots_of slots.new.entries) ≡ live (slots_of slots.old.entries) }
{
    for i in 0..log.len() {
        sweep(slots, log[i].key);
    }
}

/// Whether the row of a rowid has the value.
fn has_value(slots: &Slots, key: i64, at: usize, value: &Value) -> bool
    ensures { result ≡ is_some (probe_row at value.now key (fin.get (live (slots_of slots.now.entries)) key)) }
{
    match row_at(slots, key) {
        None => false,
        Some(row) => is_same(value, key_at(row, at)),
    }
}

/// Takes the entry of a value out that no row has.
fn release(holders: &mut Holders, slots: &Slots, at: usize, value: &Value)
    requires { Cover at holders.old (live (slots_of slots.now.entries)) }
    ensures { Cover at holders.new (live (slots_of slots.now.entries)) }
{
    match holders.get(value) {
        None => {}
        Some(key) => {
            if !has_value(slots, key, at, value) {
                holders.let_go(value);
            }
        }
    }
}

/// The same for the value that a row had at a place.
fn release_one(column: &ColumnDef, holders: &mut Holders, slots: &Slots, row: &[Value], at: usize)
    requires { rows.is_unique column.now ≡ true → Cover at holders.old (live (slots_of slots.now.entries)) }
    ensures { rows.is_unique column.now ≡ true → Cover at holders.new (live (slots_of slots.now.entries)) }
{
    if !is_unique(column) {
        return;
    }
    match key_at(row, at) {
        None => {}
        Some(value) => release(holders, slots, at, value),
    }
}

/// The same for all values that a row had.
fn release_all(columns: &[ColumnDef], holders: &mut Vec<Holders>, slots: &Slots, row: &[Value])
    requires len { vec_len holders.old ≡ length columns.now }
    requires covers { Covers columns.now holders.old.items (live (slots_of slots.now.entries)) }
    ensures covers { Covers columns.now holders.new.items (live (slots_of slots.now.entries)) }
    ensures len { vec_len holders.new ≡ vec_len holders.old }
{
    for i in 0..columns.len() {
        release_one(&columns[i], &mut holders[i], slots, row, i);
    }
}

/// The same for the row that stood before a change.
fn release_old(columns: &[ColumnDef], holders: &mut Vec<Holders>, slots: &Slots, change: &Change)
    requires len { vec_len holders.old ≡ length columns.now }
    requires covers { Covers columns.now holders.old.items (live (slots_of slots.now.entries)) }
    ensures covers { Covers columns.now holders.new.items (live (slots_of slots.now.entries)) }
    ensures len { vec_len holders.new ≡ vec_len holders.old }
{
    if let Some(Some(row)) = &change.old {
        release_all(columns, holders, slots, row.as_slice());
    }
}

/// The same for the rows that stood before changes.
fn release_changed(columns: &[ColumnDef], holders: &mut Vec<Holders>, slots: &Slots, log: &[Change])
    requires len { vec_len holders.old ≡ length columns.now }
    requires covers { Covers columns.now holders.old.items (live (slots_of slots.now.entries)) }
    ensures covers { Covers columns.now holders.new.items (live (slots_of slots.now.entries)) }
    ensures len { vec_len holders.new ≡ vec_len holders.old }
{
    for i in 0..log.len() {
        release_old(columns, holders, slots, &log[i]);
    }
}

/// The same for rows that were laid by.
pub fn release_gone(
    columns: &[ColumnDef],
    holders: &mut Vec<Holders>,
    slots: &Slots,
    gone: &mut Vec<Seq<Value>>,
)
    requires len { vec_len holders.old ≡ length columns.now }
    requires covers { Covers columns.now holders.old.items (live (slots_of slots.now.entries)) }
    ensures covers { Covers columns.now holders.new.items (live (slots_of slots.now.entries)) }
    ensures len { vec_len holders.new ≡ vec_len holders.old }
{
    for i in 0..gone.len() {
        release_all(columns, holders, slots, gone[i].as_slice());
    }
    gone.clear();
}

/// Takes out what changes have left that are to stand.
pub fn let_stand(
    columns: &[ColumnDef],
    slots: &mut Slots,
    holders: &mut Vec<Holders>,
    gone: &mut Vec<Seq<Value>>,
    log: &[Change],
)
    requires len { vec_len holders.old ≡ length columns.now }
    requires covers { Covers columns.now holders.old.items (live (slots_of slots.old.entries)) }
    ensures rows { live (slots_of slots.new.entries) ≡ live (slots_of slots.old.entries) }
    ensures covers { Covers columns.now holders.new.items (live (slots_of slots.new.entries)) }
    ensures len { vec_len holders.new ≡ vec_len holders.old }
{
    settle(slots, log);
    release_changed(columns, holders, slots, log);
    release_gone(columns, holders, slots, gone);
}
