//! Keys of tables.

/// The key of a table's row.
#[derive(Clone, Copy, Debug, PartialEq, Eq, PartialOrd, Ord)]
pub struct Rowid(pub i64);
