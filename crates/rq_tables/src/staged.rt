//! Tables whose changes can be taken back.

ghost use Rattle.std.specs.Prelude.{◌≡◌, ◌+◌, ◌≤◌, [], List, ℕ, slice_index_or, Some, None, is_some, OnOk};
ghost use Rattle.std.specs.List.{remove};
ghost use Rattle.std.specs.Option.{option_copied, option_map};
ghost use Rattle.rq_meaning.specs.Database.{table_of, with_table, without_table, table_size, tables_size, size_limit};
ghost use Rattle.rq_meaning.specs.Statements.{others_size};
ghost use Rattle.rq_changes.specs.Staged.{now_of};
ghost use Rattle.rq_changes.specs.Making.{IsWithin};
ghost use Rattle.rq_tables.specs.declared.entry.Entry.{Entry as AnEntry};
ghost use Rattle.rq_tables.specs.Entries as spec;

use crate::all_entries::{
    begin_all, keep_all, place_of, push_entry, size_of, sweep, take_all_back, take_each_back,
};
use crate::entry::Entry;
use rq_changes::Table;
use rq_values::{NoMemory, Text};
use std::alloc::Global;
use std::marker::Model;

/// The tables that are there, and those that were there since the command began.
pub struct StagedTables {
    pub entries: Vec<Entry>,
}

impl Model for StagedTables {
    ghost use Rattle.std.specs.Prelude.{List};
    ghost use Rattle.rq_tables.specs.declared.entry.Entry.{Entry};
    ghost use Rattle.rq_tables.specs.Entries.{Sound, entries_code};
    ghost use Rattle.rq_values.specs.contracts.value.Value as v;
    ghost use Rattle.rq_grammar.specs.contracts.stmt.ColumnDef as c;

    ghost Value = { List Entry };

    ghost coded = { entries_code c.the_row.coded v.the_row.coded };

    ghost view = { λ t. t.entries.items };

    ghost invariant = { λ t. Sound t.entries.items };
}

impl Drop for StagedTables {
    fn drop(self) {
        let StagedTables { entries } = self;
        drop(entries);
    }
}

impl StagedTables {
    pub fn new(alloc: Global) -> StagedTables
        ensures { result ≡ [] }
    {
        StagedTables {
            entries: Vec::new(alloc),
        }
    }

    /// The place of the table of a name.
    pub fn place_of(&self, name: &Text) -> Option<usize>
        ensures place { spec.IsPlace self.now name.now result }
        ensures found { is_some result ≡ is_some (table_of name.now (spec.now_db self.now)) }
    {
        place_of(self.entries.as_slice(), name)
    }

    /// The table at a place.
    pub fn table_at(&self, place: usize) -> &Table
        requires { spec.IsThere self.now place }
        ensures here { (d : AnEntry) → result.now ≡ (slice_index_or self.now place d).table }
        ensures table { (n : List ℕ) → spec.IsPlace self.now n (Some place) → table_of n (spec.now_db self.now) ≡ Some (now_of result.now) }
    {
        &self.entries[place].table
    }

    /// The table of a name.
    pub fn find(&self, name: &Text) -> Option<&Table>
        ensures { option_map now_of (option_copied result) ≡ table_of name.now (spec.now_db self.now) }
    {
        match self.place_of(name) {
            Some(place) => Some(self.table_at(place)),
            None => None,
        }
    }

    /// What the tables take where they are spelled.
    pub fn size(&self) -> u64
        ensures size { result ≡ tables_size (spec.now_db self.now) }
        ensures limit { result ≤ size_limit }
    {
        size_of(self.entries.as_slice())
    }

    /// What the tables but that at a place take.
    pub fn others(&self, place: usize) -> u64
        requires { spec.IsThere self.now place }
        ensures size { result ≡ tables_size (spec.now_db (remove self.now place)) }
        ensures others { (n : List ℕ) → spec.IsPlace self.now n (Some place) → result ≡ others_size n (spec.now_db self.now) }
        ensures within { (d : AnEntry) → IsWithin result (now_of (slice_index_or self.now place d).table) }
    {
        let total = self.size();
        let own = self.entries[place].table.size();
        total - own
    }

    /// A table more. With no memory the tables stay as they were.
    pub fn push(&mut self, table: Table) -> Result<(), NoMemory>
        requires new { table_of table.name (spec.now_db self.old) ≡ None }
        requires within { tables_size (spec.now_db self.old) + table_size (now_of table) ≤ size_limit }
        ensures ok { OnOk result (spec.now_db self.new ≡ with_table table.name (now_of table) (spec.now_db self.old)) }
        ensures rest { spec.Rest self.old self.new }
    {
        push_entry(&mut self.entries, table)
    }

    /// The table at a place is gone.
    pub fn remove(&mut self, place: usize)
        requires { spec.IsThere self.old place }
        ensures gone { (n : List ℕ) → spec.IsPlace self.old n (Some place) → spec.now_db self.new ≡ without_table n (spec.now_db self.old) }
        ensures rest { spec.Rest self.old self.new }
    {
        self.entries[place].now = false;
    }

    /// A statement or a transaction begins.
    pub fn begin(&mut self)
        ensures start { spec.start_db self.new ≡ spec.start_db self.old }
        ensures before { spec.before_db self.new ≡ spec.now_db self.old }
        ensures now { spec.now_db self.new ≡ spec.now_db self.old }
    {
        begin_all(&mut self.entries);
    }

    /// Takes its changes back.
    pub fn take_back(&mut self)
        ensures start { spec.start_db self.new ≡ spec.start_db self.old }
        ensures now { spec.now_db self.new ≡ spec.before_db self.old }
    {
        take_each_back(&mut self.entries);
    }

    /// Takes the command's changes back.
    pub fn take_all_back(&mut self)
        ensures start { spec.start_db self.new ≡ spec.start_db self.old }
        ensures now { spec.now_db self.new ≡ spec.start_db self.old }
    {
        take_all_back(&mut self.entries);
        sweep(&mut self.entries);
    }

    /// Lets the changes stand.
    pub fn keep(&mut self)
        ensures start { spec.start_db self.new ≡ spec.now_db self.old }
        ensures now { spec.now_db self.new ≡ spec.now_db self.old }
    {
        keep_all(&mut self.entries);
        sweep(&mut self.entries);
    }
}
