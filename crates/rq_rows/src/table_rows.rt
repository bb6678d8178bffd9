//! The rows of a table.

ghost use Rattle.std.specs.Prelude.{◌≡◌, ◌<◌, Some, None, OnOk, OnErr, true, false, length, slice_get, IfOk, vec_len};
ghost use Rattle.std.specs.Option.{option_copied};
ghost use Rattle.std.specs.FinMap as fin;
ghost use Rattle.rq_rows.specs.Rows as spec;
ghost use Rattle.rq_rows.specs.Covering.{Free, HasKey, Cover, Valid, Finds, probe};
ghost use Rattle.rq_rows.specs.Holding.{held};
ghost use Rattle.rq_rows.specs.Slots.{shown, joined};

use crate::change::Change;
use crate::holders::Holders;
use crate::sweeping::{let_stand, make_room};
use crate::undo::{Slots, go_back_to, hold_all, key_at};
use crate::walking::{is_same, largest, row_at};
use rq_grammar::ColumnDef;
use rq_values::{NoMemory, Seq, Value};
use std::alloc::Global;
use std::collections::BTreeMap;
use std::marker::Model;

/// The rows of a table, with their changes since the command began. A row that was taken out keeps its slot, so that taking back
/// needs no memory.
pub struct TableRows {
    columns: Seq<ColumnDef>,
    slots: Slots,
    /// For each column which row holds a value; empty where its values need not differ, and where it is the rowid.
    holders: Vec<Holders>,
    log: Vec<Change>,
    /// Rows that came in since the command began and went back: the maps may still have their values.
    gone: Vec<Seq<Value>>,
    /// Where the statement's changes begin.
    mark: usize,
}

impl Model for TableRows {
    ghost use Rattle.std.specs.Prelude.{◌≤◌, length};
    ghost use Rattle.rq_rows.specs.Slots.{slots_of};
    ghost use Rattle.rq_rows.specs.Staged.{Staged, Sound, staged, staged_code};
    ghost use Rattle.rq_values.specs.contracts.value.Value as v;
    ghost use Rattle.rq_grammar.specs.contracts.stmt.ColumnDef as c;

    ghost Value = { Staged };

    ghost coded = { staged_code c.the_row.coded v.the_row.coded };

    ghost view = { λ t. staged t.columns t.mark (slots_of t.slots.entries) t.log.items };

    ghost invariant = { λ t. (t.mark ≤ length t.log.items) × Sound t.columns t.holders.items (slots_of t.slots.entries) t.log.items };
}

impl Drop for TableRows {
    fn drop(self) {
        let TableRows {
            columns,
            slots,
            holders,
            log,
            gone,
            mark: _,
        } = self;
        drop(columns);
        drop(slots);
        drop(holders);
        drop(log);
        drop(gone);
    }
}

impl TableRows {
    /// No rows.
    pub fn new(alloc: Global, columns: Seq<ColumnDef>) -> Result<TableRows, NoMemory>
        ensures { IfOk result (λ t. t ≡ record { columns = columns; start = fin.empty; before = fin.empty; now = fin.empty }) }
    {
        match no_holders(alloc, columns.len()) {
            Err(e) => {
                drop(columns);
                Err(e)
            }
            Ok(holders) => Ok(TableRows {
                columns,
                slots: BTreeMap::new(alloc),
                holders,
                log: Vec::new(alloc),
                gone: Vec::new(alloc),
                mark: 0,
            }),
        }
    }

    pub fn columns(&self) -> &[ColumnDef]
        ensures { result.now ≡ self.now.columns }
    {
        self.columns.as_slice()
    }

    /// The rows in rising rowid, between slots that show nothing.
    pub fn slots(&self) -> &Slots
        ensures { shown result.now.entries ≡ fin.entries self.now.now }
    {
        // Only a walk says that the slots are in order.
        let _walk = self.slots.iter();
        &self.slots
    }

    /// Each row has a value for each column, no two have one in a UNIQUE column, and the column that is the rowid has it. This changes nothing.
    pub fn know_valid(&self)
        ensures { Valid self.now.columns self.now.now }
    {
        let _columns = self.columns.as_slice();
    }

    /// The row of a rowid.
    pub fn get(&self, key: i64) -> Option<&[Value]>
        ensures { option_copied result ≡ fin.get self.now.now key }
    {
        row_at(&self.slots, key)
    }

    /// The largest rowid.
    pub fn largest(&self) -> Option<i64>
        ensures { result ≡ spec.largest (fin.entries self.now.now) }
    {
        largest(&self.slots)
    }

    /// A row comes in. With no memory the rows stay as they were.
    pub fn put_row(&mut self, alloc: Global, key: i64, row: Seq<Value>) -> Result<(), NoMemory>
        requires free { Free self.old.columns self.old.now row }
        requires key { HasKey self.old.columns key row }
        ensures ok { OnOk result (self.new ≡ record self.old { now = fin.insert self.old.now key row }) }
        ensures err { OnErr result (self.new ≡ self.old) }
    {
        match make_room(&mut self.log, &mut self.gone) {
            Ok(()) => {}
            Err(e) => {
                drop(row);
                return Err(e);
            }
        }
        match hold_all(
            alloc,
            self.columns.as_slice(),
            &mut self.holders,
            row.as_slice(),
            key,
        ) {
            Ok(()) => {}
            Err(e) => {
                drop(row);
                return Err(e);
            }
        }
        match self.slots.insert(key, Some(row)) {
            Ok(old) => {
                self.log.push(Change { key, old })?;
                Ok(())
            }
            Err(refused) => {
                drop(refused);
                Err(NoMemory)
            }
        }
    }

    /// A row goes. With no memory the rows stay as they were.
    pub fn take_row(&mut self, key: i64) -> Result<(), NoMemory>
        ensures ok { OnOk result (self.new ≡ record self.old { now = fin.remove self.old.now key }) }
        ensures err { OnErr result (self.new ≡ self.old) }
    {
        self.log.reserve(1)?;
        match self.slots.insert(key, None) {
            Ok(old) => {
                self.log.push(Change { key, old })?;
                Ok(())
            }
            Err(refused) => {
                drop(refused);
                Err(NoMemory)
            }
        }
    }

    /// A statement begins.
    pub fn begin(&mut self)
        ensures { self.new ≡ record self.old { before = self.old.now } }
    {
        self.mark = self.log.len();
    }

    /// Takes the statement's changes back.
    pub fn take_back(&mut self)
        ensures { self.new ≡ record self.old { now = self.old.before } }
    {
        go_back_to(
            self.columns.as_slice(),
            &mut self.slots,
            &mut self.holders,
            &mut self.gone,
            &mut self.log,
            self.mark,
        );
    }

    /// Takes the command's changes back.
    pub fn take_all_back(&mut self)
        ensures { self.new ≡ record self.old { before = self.old.start; now = self.old.start } }
    {
        self.mark = 0;
        go_back_to(
            self.columns.as_slice(),
            &mut self.slots,
            &mut self.holders,
            &mut self.gone,
            &mut self.log,
            0,
        );
    }

    /// Lets the changes stand.
    pub fn keep(&mut self)
        ensures { self.new ≡ record self.old { start = self.old.now; before = self.old.now } }
    {
        self.mark = 0;
        let_stand(
            self.columns.as_slice(),
            &mut self.slots,
            &mut self.holders,
            &mut self.gone,
            self.log.as_slice(),
        );
        self.log.clear();
    }

    /// The rowid that the map of a column gives for a value.
    fn holder_at(&self, at: usize, value: &Value) -> Option<i64>
        requires within { at < length self.now.columns }
        ensures { (c : _) → slice_get self.now.columns at ≡ Some c → spec.is_unique c ≡ true → (h : _) × (Cover at h self.now.now) × (result ≡ held h value.now) }
    {
        self.holders[at].get(value)
    }

    fn probe(&self, at: usize, value: &Value, holder: Option<i64>) -> Option<i64>
        ensures { result ≡ probe at value.now self.now.now holder }
    {
        let Some(key) = holder else {
            return None;
        };
        let Some(row) = self.get(key) else {
            return None;
        };
        if is_same(value, key_at(row, at)) {
            Some(key)
        } else {
            None
        }
    }

    /// The row with a value in a UNIQUE column.
    pub fn find(&self, at: usize, value: &Value) -> Option<i64>
        requires within { at < length self.now.columns }
        requires unique { (c : _) → slice_get self.now.columns at ≡ Some c → spec.is_unique c ≡ true }
        ensures finds { Finds at value.now self.now.now result }
        ensures none { result ≡ None → (j : _) (r : _) → fin.get self.now.now j ≡ Some r → spec.has at value.now (j, r) ≡ false }
    {
        self.probe(at, value, self.holder_at(at, value))
    }

    /// Whether a row has the value that this row has in a UNIQUE column.
    pub fn is_taken(&self, at: usize, row: &[Value]) -> bool
        requires within { at < length self.now.columns }
        requires unique { (c : _) → slice_get self.now.columns at ≡ Some c → spec.is_unique c ≡ true }
        ensures { result ≡ spec.is_taken at self.now.now (spec.key_of at row.now) }
    {
        match key_at(row, at) {
            None => false,
            Some(value) => self.find(at, value).is_some(),
        }
    }
}

/// A map for each column.
fn no_holders(alloc: Global, count: usize) -> Result<Vec<Holders>, NoMemory>
    ensures { IfOk result (λ hs. vec_len hs ≡ count) }
{
    let mut all = Vec::new(alloc);
    for _i in 0..count {
        all.push(Holders::new(alloc))?;
    }
    Ok(all)
}
