//! A table in memory.

ghost use Rattle.std.specs.Prelude.{◌≡◌, true, [], map, take, IfOk};
ghost use Rattle.std.specs.Ordering.{int_cmp};
ghost use Rattle.std.specs.BTreeMap.{IsOrdered};
ghost use Rattle.rq_values.specs.declared.value.Value.TheVariants as value;
ghost use Rattle.rq_eval.specs.Names.{row_of as view_row, value_at};
ghost use Rattle.rq_results.specs.Table.{as_row};
ghost use Rattle.rq_select.specs.Finding.{Finds};
ghost use Rattle.rq_select_tests.specs.Keyed.{IsKeyed, IsAdded};
ghost use Rattle.rq_select_tests.specs.Naming.{IsNamed, names_of};

use rq_eval::{RowView, Scope};
use rq_grammar::ColumnDef;
use rq_select::{Lookup, TableView};
use rq_values::{NoMemory, Seq, Text, TryCopy, Value};
use std::alloc::Global;
use std::collections::BTreeMap;

/// A table in memory: what names may name, its columns, the place where each row has its rowid, which is that behind the columns where no
/// column is the rowid, and its rows by rowid.
pub struct MemTable {
    scope: Scope,
    columns: Seq<ColumnDef>,
    key: usize,
    rows: BTreeMap<i64, Seq<Value>>,

    ghost named: { IsNamed scope columns },
    ghost keyed: { IsKeyed key rows },
}

impl Drop for MemTable {
    fn drop(self) {
        let MemTable {
            scope,
            columns,
            key: _,
            rows,
        } = self;
        drop(scope);
        drop(columns);
        drop(rows);
    }
}

/// The columns' names.
fn names(alloc: Global, columns: &[ColumnDef]) -> Result<Seq<Text>, NoMemory>
    ensures { IfOk result (λ names. names ≡ names_of columns.now) }
{
    let mut names = Seq::new(alloc);
    for column in columns {
        match column.name.copy(alloc) {
            Ok(name) => names.push(name)?,
            Err(e) => {
                drop(names);
                return Err(e);
            }
        }
    }
    Ok(names)
}

impl MemTable {
    /// A table without rows. `key` is the place of the column that is the rowid, or else that behind the columns.
    pub fn new(
        alloc: Global,
        name: Text,
        columns: Seq<ColumnDef>,
        key: usize,
    ) -> Result<MemTable, NoMemory> {
        match names(alloc, columns.as_slice()) {
            Ok(names) => Ok(MemTable {
                scope: Scope::Table {
                    name,
                    columns: names,
                },
                columns,
                key,
                rows: BTreeMap::new(alloc),
            }),
            Err(e) => {
                drop(name);
                drop(columns);
                Err(e)
            }
        }
    }

    /// Puts a row in, or answers that it doesn't have its rowid in the place for it.
    pub fn insert(&mut self, rowid: i64, values: Seq<Value>) -> Result<bool, NoMemory>
        ensures { IsAdded self.old.rows self.new.rows rowid values }
    {
        if is_keyed(self.key, rowid, values.as_slice()) {
            self.rows.insert(rowid, values)?;
            Ok(true)
        } else {
            drop(values);
            Ok(false)
        }
    }

    pub fn is_empty(&self) -> bool
        ensures { result ≡ true → self.now.rows.entries ≡ [] }
    {
        self.rows.is_empty()
    }

    /// Changes nothing: the rows are in rising rowid.
    pub fn know_ordered(&self)
        ensures { IsOrdered int_cmp self.now.rows }
    {
        let _count = self.rows.len();
    }

    /// The rows in rising rowid, no more than so many.
    fn first_rows(&self, alloc: Global, most: usize) -> Result<Vec<RowView<'_>>, NoMemory>
        ensures { IfOk result (λ rows. map view_row rows.items ≡ take most (map as_row self.now.rows.entries)) }
    {
        let mut rows = Vec::new(alloc);
        let mut left = most;
        for (rowid, values) in self.rows.iter() {
            if left == 0 {
                return Ok(rows);
            }
            left -= 1;
            rows.push(row_of(&self.scope, rowid, values))?;
        }
        Ok(rows)
    }
}

impl MemTable {
    ghost use Rattle.rq_select_tests.specs.Meaning.{table};

    /// The row that has its rowid at the place for it.
    pub fn row_at(&self, rowid: &i64) -> Lookup<'_>
        ensures { Finds (table self.now) self.now.key (value.Int rowid.now) result }
    {
        let _count = self.rows.len();
        match self.rows.get(rowid) {
            Some(values) => Lookup::Row(row_of(&self.scope, rowid, values)),
            None => Lookup::NoRow,
        }
    }
}

/// Whether a row has its rowid in the place for it.
fn is_keyed(key: usize, rowid: i64, values: &[Value]) -> bool
    ensures { result ≡ true → value_at (as_row (rowid, values.now)) key ≡ value.Int rowid }
{
    match values.get(key) {
        Some(Value::Int(number)) => *number == rowid,
        Some(_) => false,
        None => true,
    }
}

fn row_of<'t>(scope: &'t Scope, rowid: &i64, values: &'t Seq<Value>) -> RowView<'t>
    ensures { view_row result ≡ as_row (rowid.now, values.now) }
{
    RowView {
        scope,
        rowid: *rowid,
        values: values.as_slice(),
    }
}

impl TableView for MemTable {
    ghost use Rattle.rq_select_tests.specs.Meaning.{table};

    ghost means = { table };

    fn scope(&self) -> &Scope {
        &self.scope
    }

    fn columns(&self) -> &[ColumnDef] {
        self.columns.as_slice()
    }

    fn rows(&self, alloc: Global, most: Option<usize>) -> Result<Vec<RowView<'_>>, NoMemory> {
        let count = self.rows.len();
        match most {
            Some(most) => self.first_rows(alloc, most),
            None => self.first_rows(alloc, count),
        }
    }

    fn find(&self, place: usize, value: &Value) -> Lookup<'_> {
        if place != self.key {
            return Lookup::Unknown;
        }
        let _count = self.rows.len();
        match value {
            Value::Int(rowid) => self.row_at(rowid),
            Value::Null => Lookup::NoRow,
            Value::Text(_) => Lookup::NoRow,
            Value::Blob(_) => Lookup::NoRow,
        }
    }
}
