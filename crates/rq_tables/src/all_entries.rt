//! All entries, and the one of a name.

ghost use Rattle.std.specs.Prelude.{◌≡◌, ◌+◌, ◌≤◌, [], ◌∷◌, ◌++◌, map, bytes_eq, OnOk, OnErr};
ghost use Rattle.std.specs.List.{filter, cons_option};
ghost use Rattle.rq_meaning.specs.Database.{lower, size_limit};
ghost use Rattle.rq_tables.specs.Entries as spec;

use crate::entry::Entry;
use rq_changes::Table;
use rq_values::{NoMemory, Text};

fn is_same_name(a: &[u8], b: &[u8]) -> bool
    ensures { result ≡ bytes_eq (lower a.now) (lower b.now) }
{
    a.eq_ignore_ascii_case(b)
}

/// Whether it is the table of a name.
fn is_named(held: &Entry, name: &Text) -> bool
    ensures { result ≡ spec.is_named held.entry.now name.now }
{
    held.now && is_same_name(held.table.name().bytes(), name.bytes())
}

/// The place of the table of a name.
pub fn place_of(entries: &[Entry], name: &Text) -> Option<usize>
    ensures { spec.IsPlace entries.now name.now result }
{
    for i in 0..entries.len() {
        if is_named(&entries[i], name) {
            return Some(i);
        }
    }
    None
}

/// What a table takes, if it is there.
fn size_now(held: &Entry) -> u64
    ensures { result ≡ spec.sized (cons_option (spec.at_now held.entry.now) []) }
{
    if held.now { held.table.size() } else { 0 }
}

/// What the tables take where they are spelled.
pub fn size_of(entries: &[Entry]) -> u64
    requires { 4 + spec.sized (spec.listed spec.at_now entries.now) ≤ size_limit }
    ensures { result ≡ 4 + spec.sized (spec.listed spec.at_now entries.now) }
{
    let mut size = 4;
    for entry in entries {
        size += size_now(entry);
    }
    size
}

/// A table more. With no memory the entries stay as they were.
pub fn push_entry(entries: &mut Vec<Entry>, table: Table) -> Result<(), NoMemory>
    ensures ok { OnOk result (entries.new.items ≡ entries.old.items ++ spec.fresh table ∷ []) }
    ensures err { OnErr result (entries.new.items ≡ entries.old.items) }
{
    match entries.push(Entry::new(table)) {
        Ok(()) => Ok(()),
        Err(refused) => {
            drop(refused);
            Err(NoMemory)
        }
    }
}

pub fn begin_all(entries: &mut Vec<Entry>)
    ensures { entries.new.items ≡ map spec.begun entries.old.items }
{
    for i in 0..entries.len() {
        entries[i].begin();
    }
}

pub fn take_each_back(entries: &mut Vec<Entry>)
    ensures { entries.new.items ≡ map spec.taken_back entries.old.items }
{
    for i in 0..entries.len() {
        entries[i].take_back();
    }
}

pub fn take_all_back(entries: &mut Vec<Entry>)
    ensures { entries.new.items ≡ map spec.all_taken_back entries.old.items }
{
    for i in 0..entries.len() {
        entries[i].take_all_back();
    }
}

pub fn keep_all(entries: &mut Vec<Entry>)
    ensures { entries.new.items ≡ map spec.kept entries.old.items }
{
    for i in 0..entries.len() {
        entries[i].keep();
    }
}

/// Takes out the tables that aren't there any more, nor were when the command began.
pub fn sweep(entries: &mut Vec<Entry>)
    ensures { entries.new.items ≡ filter spec.is_used entries.old.items }
{
    entries.retain(|entry| entry.start || entry.now);
}
