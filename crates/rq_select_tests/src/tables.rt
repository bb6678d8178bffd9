//! The tables of the tests, made from their CREATE and INSERT.
use crate::mem_table::MemTable;
use crate::unique_table::UniqueTable;
use rq_grammar::{ColumnDef, Expr, InsertRows, Stmt};
use rq_sql::read;
use rq_values::{Seq, TryCopy, Value};
use std::alloc::Global;
use std::test::Fail;

pub const PEOPLE: &str =
    "CREATE TABLE people (id INTEGER PRIMARY KEY, name TEXT, age INTEGER, tag BLOB)";

pub const PEOPLE_ROWS: &str =
    "INSERT INTO people VALUES (1, 'fiona', 20, X'00FF'), (2, 'declan', NULL, NULL), (4, 'Ann', 35, X''), (5, 'bob', 20, X'61'), (7, NULL, -3, X'0A'), (9, 'ann', 35, NULL)";

pub const CODES: &str = "CREATE TABLE codes (k TEXT UNIQUE, v INTEGER)";

pub const CODES_ROWS: &str =
    "INSERT INTO codes VALUES ('b', 2), ('a', 1), (NULL, 3), ('c', 2), (NULL, NULL)";

pub const NONE: &str = "CREATE TABLE none (a INTEGER, b TEXT)";

fn copied(alloc: Global, column: &ColumnDef) -> Result<ColumnDef, Fail> {
    let name = column.name.copy(alloc)?;
    Ok(ColumnDef {
        name,
        kind: column.kind,
        primary: column.primary,
        not_null: column.not_null,
        unique: column.unique,
    })
}

/// An empty table of that CREATE. A row's rowid stands at the place `key`.
pub fn created(alloc: Global, text: &str, key: usize) -> Result<MemTable, Fail> {
    let stmt = read(alloc, text.as_bytes())?;
    match &stmt {
        Stmt::Create {
            if_not_exists: _,
            table,
            columns: defs,
        } => {
            let mut columns = Seq::new(alloc);
            for def in defs.as_slice() {
                columns.push(copied(alloc, def)?)?;
            }
            let name = table.copy(alloc)?;
            Ok(MemTable::new(alloc, name, columns, key)?)
        }
        _ => Err(Fail::from("a CREATE")),
    }
}

/// The values of a row of literals.
pub fn literals(alloc: Global, row: &[Expr]) -> Result<Seq<Value>, Fail> {
    let mut values = Seq::new(alloc);
    for expr in row {
        match expr {
            Expr::Literal(value) => values.push(value.copy(alloc)?)?,
            _ => return Err(Fail::from("a literal")),
        }
    }
    Ok(values)
}

/// The rows of an INSERT's literals.
pub fn rows_in(alloc: Global, text: &str) -> Result<Vec<Seq<Value>>, Fail> {
    let mut found = Vec::new(alloc);
    let stmt = read(alloc, text.as_bytes())?;
    match &stmt {
        Stmt::Insert {
            table: _,
            columns: _,
            rows: InsertRows::Values(rows),
        } => {
            for row in rows.as_slice() {
                found.push(literals(alloc, row.as_slice())?)?;
            }
        }
        _ => return Err(Fail::from("an INSERT")),
    }
    Ok(found)
}

/// The people, whose rowid is their first column.
pub fn people(alloc: Global) -> Result<MemTable, Fail> {
    let mut table = created(alloc, PEOPLE, 0)?;
    for row in rows_in(alloc, PEOPLE_ROWS)? {
        match row.get(0) {
            Some(Value::Int(id)) => {
                let id = *id;
                table.insert(id, row)?;
            }
            _ => return Err(Fail::from("a rowid")),
        }
    }
    Ok(table)
}

/// The codes, with rowids 1, 2, ..
pub fn codes(alloc: Global) -> Result<MemTable, Fail> {
    let mut table = created(alloc, CODES, 2)?;
    let mut rowid = 0i64;
    for row in rows_in(alloc, CODES_ROWS)? {
        rowid = rowid.saturating_add(1);
        table.insert(rowid, row)?;
    }
    Ok(table)
}

pub const TAGS: &str = "CREATE TABLE tags (id INTEGER PRIMARY KEY, code INTEGER UNIQUE, name TEXT)";

pub const TAGS_ROWS: &str =
    "INSERT INTO tags VALUES (1, 30, 'a'), (2, NULL, 'b'), (3, 10, 'c'), (4, NULL, 'd'), (5, 20, 'e')";

/// The tags, which are found by their code.
pub fn tags(alloc: Global) -> Result<UniqueTable, Fail> {
    let empty = created(alloc, TAGS, 0)?;
    let mut table = match UniqueTable::new(alloc, empty, 1) {
        Some(table) => table,
        None => return Err(Fail::from("an empty table")),
    };
    let mut rowid = 0i64;
    for row in rows_in(alloc, TAGS_ROWS)? {
        rowid = rowid.saturating_add(1);
        table.insert(rowid, row)?;
    }
    Ok(table)
}
