//! The table and the rows of the tests.
use crate::reading::gives;
use rq_eval::{RowView, Scope};
use rq_values::{Bytes, Seq, Text, Value};
use std::alloc::Global;
use std::test::Fail;

pub fn text(alloc: Global, bytes: &str) -> Result<Text, Fail> {
    Ok(Text::new(alloc, bytes.as_bytes())?.ok_or("a text")?)
}

/// A table with these columns.
fn table(alloc: Global, name: &str, names: &[&str]) -> Result<Scope, Fail> {
    let mut columns = Seq::new(alloc);
    for column in names {
        columns.push(text(alloc, column)?)?;
    }
    let name = text(alloc, name)?;
    Ok(Scope::Table { name, columns })
}

/// A row of the table `t (id, name, age, tag, gone)`.
fn person(
    alloc: Global,
    id: i64,
    name: &str,
    age: Option<i64>,
    tag: &[u8],
) -> Result<Seq<Value>, Fail> {
    let mut values = Seq::new(alloc);
    values.push(Value::Int(id))?;
    values.push(Value::Text(text(alloc, name)?))?;
    values.push(match age {
        Some(age) => Value::Int(age),
        None => Value::Null,
    })?;
    values.push(Value::Blob(Bytes::new(alloc, tag)?))?;
    values.push(Value::Null)?;
    Ok(values)
}

/// The table `t (id, name, age, tag, gone)` and rows of it.
pub struct People {
    scope: Scope,
    rows: Vec<Seq<Value>>,
}

impl Drop for People {
    fn drop(self) {
        let People { scope, rows } = self;
        drop(scope);
        drop(rows);
    }
}

const PEOPLE: [(i64, &str, Option<i64>, &[u8]); 4] = [
    (7, "Fiona", Some(20), b"\x00\xff"),
    (1, "fiona", Some(20), b"\x00\xff"),
    (2, "sinead", None, b""),
    (3, "declan", Some(30), b"\x00"),
];

pub fn all_people(alloc: Global) -> Result<People, Fail> {
    let mut rows = Vec::new(alloc);
    for (id, name, age, tag) in &PEOPLE {
        rows.push(person(alloc, *id, name, *age, tag)?)?;
    }
    let scope = table(alloc, "t", &["id", "name", "age", "tag", "gone"])?;
    Ok(People { scope, rows })
}

impl People {
    /// A row, by its place in `PEOPLE`.
    pub fn row(&self, at: usize) -> RowView<'_> {
        let values = match self.rows.get(at) {
            Some(values) => values.as_slice(),
            None => &[],
        };
        let rowid = match PEOPLE.get(at) {
            Some(person) => person.0,
            None => 0,
        };
        RowView {
            scope: &self.scope,
            rowid,
            values,
        }
    }
}

/// Whether the expression gives that over `(5, 'x')`: `'x'` in the one column of a table `r`, with rowid 5.
pub fn one_column(alloc: Global, column: &str, expr: &str, wanted: &str) -> Result<bool, Fail> {
    let scope = table(alloc, "r", &[column])?;
    let x = Value::Text(text(alloc, "x")?);
    let values = [x];
    let row = RowView {
        scope: &scope,
        rowid: 5,
        values: values.as_slice(),
    };
    let is = gives(alloc, expr, &row, None, wanted);
    drop(scope);
    is
}
