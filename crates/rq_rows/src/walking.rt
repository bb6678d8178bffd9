//! Looks at the rows of a table.

ghost use Rattle.std.specs.Prelude.{◌≡◌};
ghost use Rattle.std.specs.Option.{option_copied};
ghost use Rattle.std.specs.FinMap as fin;
ghost use Rattle.rq_rows.specs.Rows as spec;
ghost use Rattle.rq_rows.specs.Rows.{walk, largest};
ghost use Rattle.rq_rows.specs.Slots.{slots_of, live};

use crate::undo::Slots;
use rq_values::{Value, compare};

/// The largest rowid of a row.
pub fn largest(slots: &Slots) -> Option<i64>
    ensures { result ≡ largest (walk (live (slots_of slots.now.entries))) }
{
    for (key, slot) in slots.iter().rev() {
        if slot.is_some() {
            return Some(*key);
        }
    }
    None
}

/// The row of a rowid.
pub fn row_at(slots: &Slots, key: i64) -> Option<&[Value]>
    ensures { option_copied result ≡ fin.get (live (slots_of slots.now.entries)) key }
{
    match slots.get(&key) {
        Some(slot) => match slot {
            Some(row) => Some(row.as_slice()),
            None => None,
        },
        None => None,
    }
}

pub fn is_same(value: &Value, other: Option<&Value>) -> bool
    ensures { result ≡ spec.is_same value.now (option_copied other.entry) }
{
    match other {
        None => false,
        Some(other) => compare(value, other).is_eq(),
    }
}
