//! Changes of a table's maps, and how they are taken back with no memory.

ghost use Rattle.std.specs.Prelude.{◌≡◌, ◌≤◌, Some, None, OnOk, OnErr, IsSome, length, drop, true, vec_len};
ghost use Rattle.std.specs.Option.{option_copied};
ghost use Rattle.std.specs.Ordering.{int_cmp};
ghost use Rattle.std.specs.Map.{lookup};
ghost use Rattle.std.specs.BTreeMap.{is_at};
ghost use Rattle.rq_values.specs.declared.value.Value.{Value as Val};
ghost use Rattle.rq_rows.specs.Rows as rows;
ghost use Rattle.rq_rows.specs.Slots.{slots_of, joined, put_slot, live, undone};
ghost use Rattle.rq_rows.specs.Covering.{Covers, Valid, HasHolders, More, Points, PointsAll, PointsSome};
ghost use Rattle.rq_rows.specs.Holding.{held};
ghost use Rattle.rq_rows.specs.Staged.{Sound};

use crate::change::Change;
use crate::holders::Holders;
use crate::sweeping::{lay_by, release_gone};
use rq_grammar::{ColumnDef, ColumnKind};
use rq_values::{NoMemory, Seq, Value};
use std::alloc::Global;
use std::collections::BTreeMap;

/// The slots of a table: a rowid has a row, or had one since the command began.
pub type Slots = BTreeMap<i64, Option<Seq<Value>>>;

/// Whether the column is the rowid.
pub fn is_rowid(column: &ColumnDef) -> bool
    ensures { result ≡ rows.is_rowid column.now }
{
    column.primary && column.kind == ColumnKind::Integer
}

/// Whether no two rows have one value in the column, which isn't the rowid.
pub fn is_unique(column: &ColumnDef) -> bool
    ensures { result ≡ rows.is_unique column.now }
{
    !is_rowid(column) && (column.unique || column.primary)
}

/// What is not NULL.
fn known(value: Option<&Value>) -> Option<&Value>
    ensures { option_copied result ≡ rows.known_or (option_copied value.entry) }
{
    match value {
        None => None,
        Some(value) => match value {
            Value::Null => None,
            Value::Int(_) => Some(value),
            Value::Text(_) => Some(value),
            Value::Blob(_) => Some(value),
        },
    }
}

/// The value of a row at a place, unless it is NULL.
pub fn key_at(row: &[Value], at: usize) -> Option<&Value>
    ensures { option_copied result ≡ rows.key_of at row.now }
{
    known(row.get(at))
}

/// Lets the map of a column know the row that comes in at the rowid.
fn hold_one(
    alloc: Global,
    column: &ColumnDef,
    holders: &mut Holders,
    row: &[Value],
    at: usize,
    key: i64,
) -> Result<(), NoMemory>
    ensures ok { OnOk result (Points column.now (rows.key_of at row.now) key holders.old holders.new) }
    ensures err { OnErr result (holders.new ≡ holders.old) }
{
    if !is_unique(column) {
        return Ok(());
    }
    match key_at(row, at) {
        None => Ok(()),
        Some(value) => holders.hold(alloc, value, key),
    }
}

/// The same where the map has an entry for the value.
fn point_one(column: &ColumnDef, holders: &mut Holders, row: &[Value], at: usize, key: i64)
    requires { (v : Val) → rows.is_unique column.now ≡ true → rows.key_of at row.now ≡ Some v → IsSome (held holders.old v) }
    ensures { Points column.now (rows.key_of at row.now) key holders.old holders.new }
{
    if !is_unique(column) {
        return;
    }
    match key_at(row, at) {
        None => {}
        Some(value) => holders.point(value, key),
    }
}

/// Lets the maps know the row that comes in at the rowid. With no memory some of them know it.
pub fn hold_all(
    alloc: Global,
    columns: &[ColumnDef],
    holders: &mut Vec<Holders>,
    row: &[Value],
    key: i64,
) -> Result<(), NoMemory>
    requires { vec_len holders.old ≡ length columns.now }
    ensures ok { OnOk result (PointsAll columns.now row.now key holders.old.items holders.new.items) }
    ensures err { OnErr result (PointsSome columns.now row.now key holders.old.items holders.new.items) }
    ensures len { vec_len holders.new ≡ vec_len holders.old }
{
    for i in 0..columns.len() {
        match hold_one(alloc, &columns[i], &mut holders[i], row, i, key) {
            Ok(()) => {}
            Err(refused) => return Err(refused),
        }
    }
    Ok(())
}

/// The same where the maps have entries for all its values.
fn point_all(columns: &[ColumnDef], holders: &mut Vec<Holders>, row: &[Value], key: i64)
    requires len { vec_len holders.old ≡ length columns.now }
    requires ready { HasHolders columns.now holders.old.items (Some row.now) }
    ensures points { PointsAll columns.now row.now key holders.old.items holders.new.items }
    ensures len { vec_len holders.new ≡ vec_len holders.old }
{
    for i in 0..columns.len() {
        point_one(&columns[i], &mut holders[i], row, i, key);
    }
}

/// Puts a content into a slot that is there, and lays by the row that it had.
fn refill(slots: &mut Slots, gone: &mut Vec<Seq<Value>>, key: i64, content: Option<Seq<Value>>)
    requires { IsSome (lookup (is_at (int_cmp key)) slots.old.entries) }
    ensures { slots_of slots.new.entries ≡ put_slot (slots_of slots.old.entries) key (Some content) }
{
    match slots.insert(key, content) {
        Ok(before) => lay_by(gone, before),
        Err(refused) => {
            drop(refused);
            unreachable!()
        }
    }
}

/// Takes a slot out, and lays by the row that it had.
fn take_out(slots: &mut Slots, gone: &mut Vec<Seq<Value>>, key: i64)
    ensures { slots_of slots.new.entries ≡ put_slot (slots_of slots.old.entries) key None }
{
    lay_by(gone, slots.remove(&key));
}

/// Takes one change back.
fn undo_one(
    columns: &[ColumnDef],
    slots: &mut Slots,
    holders: &mut Vec<Holders>,
    gone: &mut Vec<Seq<Value>>,
    change: Change,
)
    requires len { vec_len holders.old ≡ length columns.now }
    requires slot { IsSome (lookup (is_at (int_cmp change.key)) slots.old.entries) }
    requires ready { HasHolders columns.now holders.old.items (joined change.old) }
    requires covers { Covers columns.now holders.old.items (live (slots_of slots.old.entries)) }
    requires valid { Valid columns.now (live (put_slot (slots_of slots.old.entries) change.key change.old)) }
    ensures shows { slots_of slots.new.entries ≡ put_slot (slots_of slots.old.entries) change.key change.old }
    ensures covers { Covers columns.now holders.new.items (live (slots_of slots.new.entries)) }
    ensures more { More holders.old.items holders.new.items }
    ensures len { vec_len holders.new ≡ vec_len holders.old }
{
    let Change { key, old } = change;
    match old {
        None => take_out(slots, gone, key),
        Some(content) => match content {
            None => refill(slots, gone, key, None),
            Some(row) => {
                point_all(columns, holders, row.as_slice(), key);
                refill(slots, gone, key, Some(row));
            }
        },
    }
}

/// Takes the last changes back, as far as the mark, and lays by the rows that go.
fn undo_to(
    columns: &[ColumnDef],
    slots: &mut Slots,
    holders: &mut Vec<Holders>,
    gone: &mut Vec<Seq<Value>>,
    log: &mut Vec<Change>,
    mark: usize,
)
    requires mark { mark ≤ vec_len log.old }
    requires sound { Sound columns.now holders.old.items (slots_of slots.old.entries) log.old.items }
    ensures sound { Sound columns.now holders.new.items (slots_of slots.new.entries) log.new.items }
    ensures start { undone log.new.items (slots_of slots.new.entries) ≡ undone log.old.items (slots_of slots.old.entries) }
    ensures now { slots_of slots.new.entries ≡ undone (drop mark log.old.items) (slots_of slots.old.entries) }
    ensures len { vec_len log.new ≡ mark }
{
    while log.len() > mark {
        match log.pop() {
            Some(change) => undo_one(columns, slots, holders, gone, change),
            None => unreachable!(),
        }
    }
}

/// The same, and where no change is left the maps lose what those rows left in them.
pub fn go_back_to(
    columns: &[ColumnDef],
    slots: &mut Slots,
    holders: &mut Vec<Holders>,
    gone: &mut Vec<Seq<Value>>,
    log: &mut Vec<Change>,
    mark: usize,
)
    requires mark { mark ≤ vec_len log.old }
    requires sound { Sound columns.now holders.old.items (slots_of slots.old.entries) log.old.items }
    ensures sound { Sound columns.now holders.new.items (slots_of slots.new.entries) log.new.items }
    ensures start { undone log.new.items (slots_of slots.new.entries) ≡ undone log.old.items (slots_of slots.old.entries) }
    ensures now { slots_of slots.new.entries ≡ undone (drop mark log.old.items) (slots_of slots.old.entries) }
    ensures len { vec_len log.new ≡ mark }
{
    undo_to(columns, slots, holders, gone, log, mark);
    if log.is_empty() {
        release_gone(columns, holders, slots, gone);
    }
}
