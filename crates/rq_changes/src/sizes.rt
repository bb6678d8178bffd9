//! How many bytes tables take where they are spelled.

ghost use Rattle.std.specs.Prelude.{◌≡◌, ◌+◌, ◌<◌, ◌≤◌, ◌^◌, SomeIff};
ghost use Rattle.rq_meaning.specs.Database as db;

use rq_grammar::ColumnDef;
use rq_rows::is_rowid;
use rq_values::{Text, Value};

/// What the tables may take.
pub const SIZE_LIMIT: u64 = 268_435_456;

fn value_size(value: &Value) -> u64
    ensures size { result ≡ db.value_size value.now }
    ensures small { result < 2 ^ 63 + 5 }
{
    match value {
        Value::Null => 1,
        Value::Int(_) => 9,
        Value::Text(text) => 5 + text.bytes().len() as u64,
        Value::Blob(bytes) => 5 + bytes.bytes().len() as u64,
    }
}

fn cell_size(column: &ColumnDef, value: &Value) -> u64
    ensures size { result ≡ db.cell_size column.now value.now }
    ensures small { result < 2 ^ 63 + 5 }
{
    if is_rowid(column) {
        0
    } else {
        value_size(value)
    }
}

/// The size, if it is within the limit.
fn within_limit(size: u64) -> Option<u64>
    ensures { SomeIff result (size ≤ SIZE_LIMIT) size }
{
    if size > SIZE_LIMIT { None } else { Some(size) }
}

/// The size with a row more. None where that is over the limit.
pub fn with_row_size(size: u64, columns: &[ColumnDef], row: &[Value]) -> Option<u64>
    requires { size ≤ SIZE_LIMIT }
    ensures { SomeIff result (size + db.row_size columns.now row.now ≤ SIZE_LIMIT) (size + db.row_size columns.now row.now) }
{
    let mut total = size + 8;
    for (i, column) in columns.iter().enumerate() {
        match row.get(i) {
            None => return within_limit(total),
            Some(value) => total += cell_size(column, value),
        }
        if total > SIZE_LIMIT {
            return None;
        }
    }
    within_limit(total)
}

/// The size with a table more that has no rows. None where that is over the limit.
pub fn with_table_size(size: u64, name: &Text, columns: &[ColumnDef]) -> Option<u64>
    requires { size ≤ SIZE_LIMIT }
    ensures { SomeIff result (size + db.empty_size name.now columns.now ≤ SIZE_LIMIT) (size + db.empty_size name.now columns.now) }
{
    let mut total = size + 16 + name.bytes().len() as u64;
    for column in columns {
        if total > SIZE_LIMIT {
            return None;
        }
        total += 6 + column.name.bytes().len() as u64;
    }
    within_limit(total)
}
