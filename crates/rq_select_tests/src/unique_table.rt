//! A table in memory that finds its rows by the integers of a UNIQUE column too.

ghost use Rattle.std.specs.Prelude.{◌≡◌};
ghost use Rattle.rq_values.specs.declared.value.Value.TheVariants as value;
ghost use Rattle.rq_eval.specs.Names.{value_at};
ghost use Rattle.rq_results.specs.Table.{as_row};
ghost use Rattle.rq_select.specs.Finding.{Finds};
ghost use Rattle.rq_select_tests.specs.Keyed.{IsHeld, number_of};

use crate::mem_table::MemTable;
use rq_eval::{RowView, Scope};
use rq_grammar::ColumnDef;
use rq_select::{Lookup, TableView};
use rq_values::{NoMemory, Seq, Value};
use std::alloc::Global;
use std::collections::BTreeMap;

/// A table, the place of its UNIQUE column, and the rowid of each integer there.
pub struct UniqueTable {
    table: MemTable,
    place: usize,
    holders: BTreeMap<i64, i64>,

    ghost held: { IsHeld place holders table.rows },
}

impl Drop for UniqueTable {
    fn drop(self) {
        let UniqueTable {
            table,
            place: _,
            holders,
        } = self;
        drop(table);
        drop(holders);
    }
}

/// The integer that a row has at a place, if it has one.
fn number_at(place: usize, rowid: i64, values: &[Value]) -> Option<i64>
    ensures { result ≡ number_of (value_at (as_row (rowid, values.now)) place) }
{
    match values.get(place) {
        Some(Value::Int(number)) => Some(*number),
        Some(_) => None,
        None => Some(rowid),
    }
}

impl UniqueTable {
    /// A table without rows, whose UNIQUE column stands at that place.
    pub fn new(alloc: Global, table: MemTable, place: usize) -> Option<UniqueTable> {
        if table.is_empty() {
            Some(UniqueTable {
                table,
                place,
                holders: BTreeMap::new(alloc),
            })
        } else {
            drop(table);
            None
        }
    }

    fn insert_held(&mut self, number: i64, rowid: i64, values: Seq<Value>) -> Result<bool, NoMemory>
        requires { value_at (as_row (rowid, values)) self.old.place ≡ value.Int number }
    {
        match self.holders.get(&number) {
            Some(_) => {
                drop(values);
                Ok(false)
            }
            None => match self.holders.insert(number, rowid) {
                Ok(_) => self.table.insert(rowid, values),
                Err(_) => {
                    drop(values);
                    Err(NoMemory)
                }
            },
        }
    }

    /// Puts a row in, or answers that another has its integer in the UNIQUE column, or that it doesn't have its rowid in the place for it.
    pub fn insert(&mut self, rowid: i64, values: Seq<Value>) -> Result<bool, NoMemory> {
        match number_at(self.place, rowid, values.as_slice()) {
            Some(number) => self.insert_held(number, rowid, values),
            None => self.table.insert(rowid, values),
        }
    }
}

impl UniqueTable {
    ghost use Rattle.rq_select_tests.specs.Meaning.{table as meaning};

    /// The row that has the integer in the UNIQUE column.
    fn row_of(&self, number: &i64) -> Lookup<'_>
        ensures { Finds (meaning self.now.table) self.now.place (value.Int number.now) result }
    {
        self.table.know_ordered();
        match self.holders.get(number) {
            Some(rowid) => self.table.row_at(rowid),
            None => Lookup::NoRow,
        }
    }
}

impl TableView for UniqueTable {
    ghost use Rattle.rq_select_tests.specs.Meaning.{table as meaning};

    ghost means = { λ t. meaning t.table };

    fn scope(&self) -> &Scope {
        self.table.scope()
    }

    fn columns(&self) -> &[ColumnDef] {
        self.table.columns()
    }

    fn rows(&self, alloc: Global, most: Option<usize>) -> Result<Vec<RowView<'_>>, NoMemory> {
        self.table.rows(alloc, most)
    }

    fn find(&self, place: usize, value: &Value) -> Lookup<'_> {
        if place != self.place {
            return self.table.find(place, value);
        }
        match value {
            Value::Int(number) => self.row_of(number),
            Value::Null => Lookup::Unknown,
            Value::Text(_) => Lookup::Unknown,
            Value::Blob(_) => Lookup::Unknown,
        }
    }
}
