//! What an expression is evaluated over.

use rq_values::{Seq, Text, Value};

/// What names in an expression may name.
pub enum Scope {
    /// Nothing: there is no FROM.
    Empty,
    /// The columns of a table in their order, and its rowid, as `rowid` where no column has that name.
    Table { name: Text, columns: Seq<Text> },
}

impl Drop for Scope {
    fn drop(self) {
        match self {
            Scope::Empty => {}
            Scope::Table { name, columns } => {
                drop(name);
                drop(columns);
            }
        }
    }
}

/// A row as an expression sees it: what may be named, a rowid, and a value for each column; a column that is the rowid has its value
/// there too. The empty row is one whose scope is empty: nothing is named, so the rest isn't looked at.
#[derive(Clone, Copy)]
pub struct RowView<'a> {
    pub scope: &'a Scope,
    pub rowid: i64,
    pub values: &'a [Value],
}
