//! A change of a table.

use rq_values::{Seq, Value};

/// What stood at a rowid before the change: no slot, or one with a row or with nothing.
#[derive(Drop)]
pub struct Change {
    pub key: i64,
    pub old: Option<Option<Seq<Value>>>,
}
