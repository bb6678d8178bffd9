//! A table, and when it is there.

ghost use Rattle.std.specs.Prelude.{◌≡◌, false, true};
ghost use Rattle.rq_tables.specs.Entries as spec;

use rq_changes::Table;

/// A table, and whether it is there: as the command began, as the statement or the transaction did, and now.
pub struct Entry {
    pub table: Table,
    pub start: bool,
    pub before: bool,
    pub now: bool,
}

impl Drop for Entry {
    fn drop(self) {
        let Entry {
            table,
            start: _,
            before: _,
            now: _,
        } = self;
        drop(table);
    }
}

impl Entry {
    /// A table that wasn't there before.
    pub fn new(table: Table) -> Entry
        ensures { result ≡ record { table = table; start = false; before = false; now = true } }
    {
        Entry {
            table,
            start: false,
            before: false,
            now: true,
        }
    }

    pub fn begin(&mut self)
        ensures { self.new ≡ spec.begun self.old }
    {
        self.before = self.now;
        self.table.begin();
    }

    pub fn take_back(&mut self)
        ensures { self.new ≡ spec.taken_back self.old }
    {
        self.now = self.before;
        self.table.take_back();
    }

    pub fn take_all_back(&mut self)
        ensures { self.new ≡ spec.all_taken_back self.old }
    {
        self.before = self.start;
        self.now = self.start;
        self.table.take_all_back();
    }

    pub fn keep(&mut self)
        ensures { self.new ≡ spec.kept self.old }
    {
        self.start = self.now;
        self.before = self.now;
        self.table.keep();
    }
}
