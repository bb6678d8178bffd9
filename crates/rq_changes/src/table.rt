//! A table.

ghost use Rattle.std.specs.Prelude.{◌≡◌, ◌+◌, ◌++◌, ◌<◌, ◌≤◌, not, Some, None, true, false, length, slice_get, map, OnOk, OnErr, IfOk, IfSome, SomeIff};
ghost use Rattle.std.specs.Option.{option_copied};
ghost use Rattle.std.specs.FinMap as fin;
ghost use Rattle.rq_eval.specs.declared.row.Scope.TheVariants as seen;
ghost use Rattle.rq_rows.specs.Covering as covering;
ghost use Rattle.rq_rows.specs.Covering.{Free, HasKey, Valid};
ghost use Rattle.rq_rows.specs.Rows as rows;
ghost use Rattle.rq_meaning.specs.Database.{with_row, without_row, row_size, empty_size, table_size, size_limit};
ghost use Rattle.rq_meaning.specs.Rows.{has_rowid, all_columns, hidden};
ghost use Rattle.rq_values.specs.declared.value.Value.TheVariants as v;
ghost use Rattle.rq_eval.specs.Names.{row_of, value_at};
ghost use Rattle.rq_results.specs.Table.{as_row};
ghost use Rattle.rq_select.specs.Finding.{Finds};
ghost use Rattle.rq_changes.specs.Staged.{now_of};
ghost use Rattle.rq_changes.specs.Walking.{are_enough};

use crate::sizes::{SIZE_LIMIT, with_row_size};
use crate::storing::is_null;
use rq_eval::{RowView, Scope};
use rq_grammar::{ColumnDef, ColumnKind};
use rq_rows::{TableRows, is_rowid, is_unique};
use rq_select::{Lookup, TableView};
use rq_values::{NoMemory, Seq, Text, TryCopy, Value};
use std::alloc::Global;
use std::marker::Model;

/// A table, with its changes since the command began.
pub struct Table {
    name: Text,
    scope: Scope,
    /// The columns, and before them the rowid where it is none of them.
    all: Seq<ColumnDef>,
    rows: TableRows,
    /// What it takes where it is spelled: as the command found it, as the statement did, and as it is.
    start_size: u64,
    before_size: u64,
    size: u64,
}

impl Model for Table {
    ghost use Rattle.rq_values.specs.contracts.value.Value as v;
    ghost use Rattle.rq_grammar.specs.contracts.stmt.ColumnDef as c;
    ghost use Rattle.rq_changes.specs.Staged.{StagedTable, Kept, table_code};

    ghost Value = { StagedTable };

    ghost coded = { table_code c.the_row.coded v.the_row.coded };

    ghost view = { λ t. record { name = t.name; rows = t.rows } };

    ghost invariant = { λ t. Kept t.scope t.all t.start_size t.before_size t.size (record { name = t.name; rows = t.rows }) };
}

impl Drop for Table {
    fn drop(self) {
        let Table {
            name,
            scope,
            all,
            rows,
            start_size: _,
            before_size: _,
            size: _,
        } = self;
        drop(name);
        drop(scope);
        drop(all);
        drop(rows);
    }
}

fn copied_names(alloc: Global, columns: &[ColumnDef]) -> Result<Seq<Text>, NoMemory>
    ensures { IfOk result (λ ns. ns ≡ map (λ c. c.name) columns.now) }
{
    let mut names = Seq::new(alloc);
    for column in columns {
        names.push(column.name.copy(alloc)?)?;
    }
    Ok(names)
}

fn has_rowid(columns: &[ColumnDef]) -> bool
    ensures { result ≡ has_rowid columns.now }
{
    for column in columns {
        if is_rowid(column) {
            return true;
        }
    }
    false
}

/// The rowid as a column, where it is none of a table's.
fn hidden(alloc: Global) -> Result<ColumnDef, NoMemory>
    ensures { IfOk result (λ c. c ≡ hidden) }
{
    let mut name = Text::empty(alloc);
    match name.push_plain(b"rowid") {
        Ok(()) => Ok(ColumnDef {
            name,
            kind: ColumnKind::Integer,
            primary: true,
            not_null: false,
            unique: false,
        }),
        Err(e) => {
            drop(name);
            Err(e)
        }
    }
}

/// What stands before the columns of a table.
fn hidden_columns(alloc: Global, columns: &[ColumnDef]) -> Result<Seq<ColumnDef>, NoMemory>
    ensures { IfOk result (λ cs. cs ++ columns.now ≡ all_columns columns.now) }
{
    let mut all = Seq::new(alloc);
    if has_rowid(columns) {
        return Ok(all);
    }
    match hidden(alloc) {
        Ok(column) => all.push(column)?,
        Err(e) => {
            drop(all);
            return Err(e);
        }
    }
    Ok(all)
}

/// All columns of a table.
fn all_columns(alloc: Global, columns: &[ColumnDef]) -> Result<Seq<ColumnDef>, NoMemory>
    ensures { IfOk result (λ cs. cs ≡ all_columns columns.now) }
{
    let mut all = hidden_columns(alloc, columns)?;
    for column in columns {
        all.push(column.copy(alloc)?)?;
    }
    Ok(all)
}

fn scope_of(alloc: Global, name: &Text, columns: &[ColumnDef]) -> Result<Scope, NoMemory>
    ensures { IfOk result (λ s. s ≡ seen.Table name.now (map (λ c. c.name) columns.now)) }
{
    let name = name.copy(alloc)?;
    match copied_names(alloc, columns) {
        Ok(columns) => Ok(Scope::Table { name, columns }),
        Err(e) => {
            drop(name);
            Err(e)
        }
    }
}

impl Table {
    /// A table without rows, which takes so much.
    pub fn new(
        alloc: Global,
        name: Text,
        columns: Seq<ColumnDef>,
        size: u64,
    ) -> Result<Table, NoMemory>
        requires size { size ≡ empty_size name columns }
        requires limit { size ≤ size_limit }
        ensures { IfOk result (λ t. t ≡ record { name = name; rows = record { columns = columns; start = fin.empty; before = fin.empty; now = fin.empty } }) }
    {
        let scope = match scope_of(alloc, &name, columns.as_slice()) {
            Ok(scope) => scope,
            Err(e) => {
                drop(name);
                drop(columns);
                return Err(e);
            }
        };
        let all = match all_columns(alloc, columns.as_slice()) {
            Ok(all) => all,
            Err(e) => {
                drop(name);
                drop(columns);
                drop(scope);
                return Err(e);
            }
        };
        match TableRows::new(alloc, columns) {
            Ok(rows) => Ok(Table {
                name,
                scope,
                all,
                rows,
                start_size: size,
                before_size: size,
                size,
            }),
            Err(e) => {
                drop(name);
                drop(scope);
                drop(all);
                Err(e)
            }
        }
    }

    pub fn name(&self) -> &Text
        ensures { result.now ≡ self.now.name }
    {
        &self.name
    }

    /// The columns, and before them the rowid where it is none of them.
    pub fn all_columns(&self) -> &[ColumnDef]
        ensures { result.now ≡ all_columns self.now.rows.columns }
    {
        self.all.as_slice()
    }

    /// Whether the rowid is none of the columns.
    pub fn is_hidden(&self) -> bool
        ensures { result ≡ not (has_rowid self.now.rows.columns) }
    {
        self.all.len() > self.rows.columns().len()
    }

    /// What the table takes where it is spelled.
    pub fn size(&self) -> u64
        ensures size { result ≡ table_size (now_of self.now) }
        ensures limit { result ≤ size_limit }
    {
        self.size
    }

    /// Each row has a value for each column, no two have one in a UNIQUE column, and the column that is the rowid has it. This changes nothing.
    fn know_valid(&self)
        ensures { Valid self.now.rows.columns self.now.rows.now }
    {
        self.rows.know_valid();
    }

    /// The values of the row of a rowid.
    pub fn get(&self, key: i64) -> Option<&[Value]>
        ensures row { option_copied result ≡ fin.get self.now.rows.now key }
        ensures count { IfSome (option_copied result) (λ vs. length vs ≡ length self.now.rows.columns) }
    {
        self.know_valid();
        self.row(key)
    }

    fn row(&self, key: i64) -> Option<&[Value]>
        ensures { option_copied result ≡ fin.get self.now.rows.now key }
    {
        self.rows.get(key)
    }

    /// The largest rowid.
    pub fn largest(&self) -> Option<i64>
        ensures { result ≡ rows.largest (fin.entries self.now.rows.now) }
    {
        self.rows.largest()
    }

    /// Whether a row has the value that this row has in a UNIQUE column.
    pub fn is_taken(&self, at: usize, row: &[Value]) -> bool
        requires within { at < length self.now.rows.columns }
        requires unique { (c : _) → slice_get self.now.rows.columns at ≡ Some c → rows.is_unique c ≡ true }
        ensures { result ≡ rows.is_taken at self.now.rows.now (rows.key_of at row.now) }
    {
        self.rows.is_taken(at, row)
    }

    /// What the table takes with a row more. None where that and the other tables are over the limit.
    pub fn size_with(&self, others: u64, row: &[Value]) -> Option<u64>
        requires { others ≤ size_limit }
        ensures { SomeIff result (others + (table_size (now_of self.now) + row_size self.now.rows.columns row.now) ≤ size_limit) (table_size (now_of self.now) + row_size self.now.rows.columns row.now) }
    {
        let together = others + self.size;
        if together > SIZE_LIMIT {
            return None;
        }
        match with_row_size(together, self.rows.columns(), row) {
            Some(total) => Some(total - others),
            None => None,
        }
    }

    /// A row comes in. With no memory the table stays as it was.
    pub fn put_row(
        &mut self,
        alloc: Global,
        key: i64,
        row: Seq<Value>,
        size: u64,
    ) -> Result<(), NoMemory>
        requires free { Free self.old.rows.columns self.old.rows.now row }
        requires key { HasKey self.old.rows.columns key row }
        requires size { size ≡ table_size (with_row key row (now_of self.old)) }
        requires limit { size ≤ size_limit }
        ensures ok { OnOk result (self.new ≡ record self.old { rows = record self.old.rows { now = fin.insert self.old.rows.now key row } }) }
        ensures err { OnErr result (self.new ≡ self.old) }
    {
        match self.rows.put_row(alloc, key, row) {
            Ok(()) => {
                self.size = size;
                Ok(())
            }
            Err(e) => Err(e),
        }
    }

    /// What the row of a rowid takes.
    fn size_of(&self, key: i64) -> u64
        ensures { table_size (without_row key (now_of self.now)) + result ≡ table_size (now_of self.now) }
    {
        let _most = self.size();
        match self.get(key) {
            Some(row) => match with_row_size(0, self.columns(), row) {
                Some(size) => size,
                None => 0,
            },
            None => 0,
        }
    }

    /// A row goes. With no memory the table stays as it was.
    pub fn take_row(&mut self, key: i64) -> Result<(), NoMemory>
        ensures ok { OnOk result (self.new ≡ record self.old { rows = record self.old.rows { now = fin.remove self.old.rows.now key } }) }
        ensures smaller { table_size (now_of self.new) ≤ table_size (now_of self.old) }
        ensures err { OnErr result (self.new ≡ self.old) }
    {
        let size = self.size_of(key);
        match self.rows.take_row(key) {
            Ok(()) => {
                self.size -= size;
                Ok(())
            }
            Err(e) => Err(e),
        }
    }

    /// A statement begins.
    pub fn begin(&mut self)
        ensures { self.new ≡ record self.old { rows = record self.old.rows { before = self.old.rows.now } } }
    {
        self.rows.begin();
        self.before_size = self.size;
    }

    /// Takes the statement's changes back.
    pub fn take_back(&mut self)
        ensures { self.new ≡ record self.old { rows = record self.old.rows { now = self.old.rows.before } } }
    {
        self.rows.take_back();
        self.size = self.before_size;
    }

    /// Takes the command's changes back.
    pub fn take_all_back(&mut self)
        ensures { self.new ≡ record self.old { rows = record self.old.rows { before = self.old.rows.start; now = self.old.rows.start } } }
    {
        self.rows.take_all_back();
        self.before_size = self.start_size;
        self.size = self.start_size;
    }

    /// Lets the changes stand.
    pub fn keep(&mut self)
        ensures { self.new ≡ record self.old { rows = record self.old.rows { start = self.old.rows.now; before = self.old.rows.now } } }
    {
        self.rows.keep();
        self.start_size = self.size;
        self.before_size = self.size;
    }

    fn view_of<'t>(&'t self, key: i64, values: &'t [Value]) -> RowView<'t>
        ensures { row_of result ≡ as_row (key, values.now) }
    {
        RowView {
            scope: &self.scope,
            rowid: key,
            values,
        }
    }

    /// The row of a rowid, where the place shows each row's rowid.
    fn row_at(&self, place: usize, key: i64) -> Lookup<'_>
        requires { (k : _) (vs : _) → fin.get self.now.rows.now k ≡ Some vs → value_at (as_row (k, vs)) place ≡ v.Int k }
        ensures { Finds (now_of self.now) place (v.Int key) result }
    {
        match self.get(key) {
            Some(values) => Lookup::Row(self.view_of(key, values)),
            None => Lookup::NoRow,
        }
    }

    /// The rowid of the row with a value in a UNIQUE column.
    fn key_with(&self, place: usize, value: &Value) -> Option<i64>
        requires within { place < length self.now.rows.columns }
        requires unique { (c : _) → slice_get self.now.rows.columns place ≡ Some c → rows.is_unique c ≡ true }
        ensures finds { covering.Finds place value.now self.now.rows.now result }
        ensures none { result ≡ None → (j : _) (r : _) → fin.get self.now.rows.now j ≡ Some r → rows.has place value.now (j, r) ≡ false }
    {
        self.rows.find(place, value)
    }

    /// The row with a value in a UNIQUE column.
    fn row_with(&self, place: usize, value: &Value) -> Lookup<'_>
        requires within { place < length self.now.rows.columns }
        requires unique { (c : _) → slice_get self.now.rows.columns place ≡ Some c → rows.is_unique c ≡ true }
        requires known { rows.known value.now ≡ Some value.now }
        ensures { Finds (now_of self.now) place value.now result }
    {
        self.know_valid();
        match self.key_with(place, value) {
            Some(key) => match self.get(key) {
                Some(values) => Lookup::Row(self.view_of(key, values)),
                None => Lookup::NoRow,
            },
            None => Lookup::NoRow,
        }
    }

    /// The row whose rowid is the value, where the place shows each row's rowid.
    fn row_by_rowid(&self, place: usize, value: &Value) -> Lookup<'_>
        requires { (k : _) (vs : _) → fin.get self.now.rows.now k ≡ Some vs → value_at (as_row (k, vs)) place ≡ v.Int k }
        ensures { Finds (now_of self.now) place value.now result }
    {
        match value {
            Value::Int(key) => self.row_at(place, *key),
            Value::Null => Lookup::NoRow,
            Value::Text(_) => Lookup::NoRow,
            Value::Blob(_) => Lookup::NoRow,
        }
    }

    /// The row with a value in a column.
    fn row_in(&self, place: usize, column: &ColumnDef, value: &Value) -> Lookup<'_>
        requires { slice_get self.now.rows.columns place ≡ Some column.now }
        ensures { Finds (now_of self.now) place value.now result }
    {
        self.know_valid();
        if is_rowid(column) {
            self.row_by_rowid(place, value)
        } else if is_unique(column) && !is_null(value) {
            self.row_with(place, value)
        } else {
            Lookup::Unknown
        }
    }
}

/// Whether so many rows are enough.
fn are_enough(most: Option<usize>, count: usize) -> bool
    ensures { result ≡ are_enough most count }
{
    match most {
        Some(most) => count >= most,
        None => false,
    }
}

impl TableView for Table {
    ghost use Rattle.rq_changes.specs.Staged.{now_of};

    ghost means = { λ t. now_of t };

    fn scope(&self) -> &Scope {
        &self.scope
    }

    fn columns(&self) -> &[ColumnDef] {
        self.rows.columns()
    }

    fn rows(&self, alloc: Global, most: Option<usize>) -> Result<Vec<RowView<'_>>, NoMemory> {
        let mut all = Vec::new(alloc);
        for (key, slot) in self.rows.slots().iter() {
            if are_enough(most, all.len()) {
                return Ok(all);
            }
            match slot {
                Some(row) => all.push(self.view_of(*key, row.as_slice()))?,
                None => {}
            }
        }
        Ok(all)
    }

    fn find(&self, place: usize, value: &Value) -> Lookup<'_> {
        self.know_valid();
        match self.columns().get(place) {
            Some(column) => self.row_in(place, column, value),
            None => self.row_by_rowid(place, value),
        }
    }
}
