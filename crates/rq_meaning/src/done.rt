//! What a change of a database answers.

/// The rowid of the last row that an INSERT put in, else 0, and how many rows were changed.
#[derive(Clone, Copy)]
pub struct Done {
    pub last_insert_id: i64,
    pub rows_affected: u64,
}
