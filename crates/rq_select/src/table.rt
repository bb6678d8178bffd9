//! A table as a SELECT sees it.

ghost use Rattle.std.specs.Prelude.{◌≡◌, map, IfOk};
ghost use Rattle.rq_eval.specs.Names.{row_of};
ghost use Rattle.rq_select.specs.Select.{at_most};
ghost use Rattle.rq_results.specs.Table.{Table, scope_of, rows_of};
ghost use Rattle.rq_select.specs.Finding.{Finds};

use rq_eval::{RowView, Scope};
use rq_grammar::ColumnDef;
use rq_values::{NoMemory, Value};
use std::alloc::Global;

/// What a table tells of the rows that have a value in a column.
#[derive(Clone, Copy)]
pub enum Lookup<'t> {
    /// Nothing: all rows are to be looked at.
    Unknown,
    NoRow,
    /// The one row that has it.
    Row(RowView<'t>),
}

/// A table that lends its columns and rows.
pub trait TableView {
    /// The table of the database that it stands for.
    ghost means: { Self → Table };

    /// Its name and the names of its columns.
    fn scope(&self) -> &Scope
        ensures { result.now ≡ scope_of (means self.now) };

    /// Its columns as declared.
    fn columns(&self) -> &[ColumnDef]
        ensures { result.now ≡ (means self.now).columns };

    /// Its rows in rising rowid, no more than so many where a number is given.
    fn rows(&self, alloc: Global, most: Option<usize>) -> Result<Vec<RowView<'_>>, NoMemory>
        ensures { IfOk result (λ rows. map row_of rows.items ≡ at_most most (rows_of (means self.now))) };

    /// The row with that value in the column at that place, where no two rows have one: the rowid, whose place is also that behind the
    /// columns, or a UNIQUE column.
    fn find(&self, place: usize, value: &Value) -> Lookup<'_>
        ensures { Finds (means self.now) place value.now result };
}
