//! Selects and what they answer.
use crate::errors::{ERRORS, MORE_ERRORS};
use crate::mem_table::MemTable;
use crate::tables::{NONE, codes, created, people, rows_in};
use rq_eval::EvalError;
use rq_grammar::{SelectStmt, Stmt};
use rq_select::{TableView, select};
use rq_sql::read;
use rq_statement::Res;
use rq_values::{Seq, Text, Value, compare};
use std::alloc::Global;
use std::test::Fail;

/// A select, its headings, and its rows: what SQLite 3.40.1 gives for it (the `sqlite3` of Python 3.11), where ties of ORDER BY go by rowid.
const AS_SQLITE: [(&str, &str, &str); 42] = [
    (
        "SELECT * FROM people",
        "id, name, age, tag",
        "(1, 'fiona', 20, X'00FF'), (2, 'declan', NULL, NULL), (4, 'Ann', 35, X''), (5, 'bob', 20, X'61'), (7, NULL, -3, X'0A'), (9, 'ann', 35, NULL)",
    ),
    (
        "SELECT * FROM codes",
        "k, v",
        "('b', 2), ('a', 1), (NULL, 3), ('c', 2), (NULL, NULL)",
    ),
    ("SELECT * FROM none", "a, b", ""),
    (
        "SELECT id FROM people",
        "id",
        "(1), (2), (4), (5), (7), (9)",
    ),
    (
        "SELECT name, id FROM people",
        "name, id",
        "('fiona', 1), ('declan', 2), ('Ann', 4), ('bob', 5), (NULL, 7), ('ann', 9)",
    ),
    (
        "SELECT *, id FROM people WHERE id < 3",
        "id, name, age, tag, id",
        "(1, 'fiona', 20, X'00FF', 1), (2, 'declan', NULL, NULL, 2)",
    ),
    (
        "SELECT id, *, name FROM people WHERE id = 4",
        "id, id, name, age, tag, name",
        "(4, 4, 'Ann', 35, X'', 'Ann')",
    ),
    (
        "SELECT people.name FROM people WHERE people.id = 5",
        "name",
        "('bob')",
    ),
    (
        "SELECT NAME AS n FROM people WHERE ID = 1",
        "n",
        "('fiona')",
    ),
    (
        "SELECT id AS a, age AS b FROM people WHERE age = 20",
        "a, b",
        "(1, 20), (5, 20)",
    ),
    ("SELECT k FROM codes WHERE v = 2", "k", "('b'), ('c')"),
    (
        "SELECT id FROM people WHERE age",
        "id",
        "(1), (4), (5), (7), (9)",
    ),
    ("SELECT id FROM people WHERE NOT age", "id", ""),
    ("SELECT id FROM people WHERE age IS NULL", "id", "(2)"),
    (
        "SELECT id FROM people WHERE age IS NOT NULL",
        "id",
        "(1), (4), (5), (7), (9)",
    ),
    ("SELECT id FROM people WHERE age = NULL", "id", ""),
    (
        "SELECT id FROM people WHERE age > 0 AND name LIKE 'a%'",
        "id",
        "(4), (9)",
    ),
    (
        "SELECT id FROM people WHERE age > 0 OR name LIKE 'd%'",
        "id",
        "(1), (2), (4), (5), (9)",
    ),
    (
        "SELECT id FROM people WHERE id IN (1, 4, 100)",
        "id",
        "(1), (4)",
    ),
    (
        "SELECT id FROM people WHERE id NOT IN (1, 4, 100)",
        "id",
        "(2), (5), (7), (9)",
    ),
    ("SELECT id FROM people WHERE id IN ()", "id", ""),
    (
        "SELECT id FROM people WHERE id BETWEEN 2 AND 5",
        "id",
        "(2), (4), (5)",
    ),
    (
        "SELECT id FROM people WHERE age NOT BETWEEN 0 AND 30",
        "id",
        "(4), (7), (9)",
    ),
    ("SELECT id FROM people WHERE tag = X'61'", "id", "(5)"),
    (
        "SELECT id FROM people WHERE 1",
        "id",
        "(1), (2), (4), (5), (7), (9)",
    ),
    ("SELECT id FROM people WHERE 0", "id", ""),
    ("SELECT id FROM people WHERE NULL", "id", ""),
    ("SELECT id FROM people WHERE id = 4", "id", "(4)"),
    ("SELECT id FROM people WHERE id = 3", "id", ""),
    ("SELECT id FROM people WHERE 4 = id", "id", "(4)"),
    (
        "SELECT id FROM people WHERE id = 4 AND age = 35",
        "id",
        "(4)",
    ),
    ("SELECT id FROM people WHERE age = 20 AND id = 4", "id", ""),
    ("SELECT id FROM people WHERE id = 1 AND id = 4", "id", ""),
    ("SELECT id FROM people WHERE rowid = 9", "id", "(9)"),
    ("SELECT id FROM people WHERE id IS 9", "id", "(9)"),
    ("SELECT id FROM people WHERE id = NULL", "id", ""),
    ("SELECT v FROM codes WHERE k = 'c'", "v", "(2)"),
    ("SELECT v FROM codes WHERE k = 'nosuch'", "v", ""),
    ("SELECT v FROM codes WHERE k = NULL", "v", ""),
    ("SELECT v FROM codes WHERE k IS NULL", "v", "(3), (NULL)"),
    ("SELECT v FROM codes WHERE k = 'a' AND v = 2", "v", ""),
    ("SELECT k, v FROM codes WHERE rowid = 4", "k, v", "('c', 2)"),
];

/// The same with ORDER BY.
const ORDERED_AS_SQLITE: [(&str, &str, &str); 25] = [
    (
        "SELECT id FROM people ORDER BY age",
        "id",
        "(2), (7), (1), (5), (4), (9)",
    ),
    (
        "SELECT id FROM people ORDER BY age DESC",
        "id",
        "(4), (9), (1), (5), (7), (2)",
    ),
    (
        "SELECT id FROM people ORDER BY age ASC",
        "id",
        "(2), (7), (1), (5), (4), (9)",
    ),
    (
        "SELECT id FROM people ORDER BY name",
        "id",
        "(7), (4), (9), (5), (2), (1)",
    ),
    (
        "SELECT id FROM people ORDER BY name DESC",
        "id",
        "(1), (2), (5), (9), (4), (7)",
    ),
    (
        "SELECT id FROM people ORDER BY tag",
        "id",
        "(2), (9), (4), (1), (7), (5)",
    ),
    (
        "SELECT id FROM people ORDER BY tag DESC",
        "id",
        "(5), (7), (1), (4), (2), (9)",
    ),
    (
        "SELECT id FROM people ORDER BY age, name",
        "id",
        "(2), (7), (5), (1), (4), (9)",
    ),
    (
        "SELECT id FROM people ORDER BY age DESC, name",
        "id",
        "(4), (9), (5), (1), (7), (2)",
    ),
    (
        "SELECT id FROM people ORDER BY age, id DESC",
        "id",
        "(2), (7), (5), (1), (9), (4)",
    ),
    (
        "SELECT id FROM people ORDER BY id DESC",
        "id",
        "(9), (7), (5), (4), (2), (1)",
    ),
    (
        "SELECT name, age FROM people ORDER BY 2, 1",
        "name, age",
        "('declan', NULL), (NULL, -3), ('bob', 20), ('fiona', 20), ('Ann', 35), ('ann', 35)",
    ),
    (
        "SELECT name, age FROM people ORDER BY 2 DESC, 1 DESC",
        "name, age",
        "('ann', 35), ('Ann', 35), ('fiona', 20), ('bob', 20), (NULL, -3), ('declan', NULL)",
    ),
    (
        "SELECT name AS age, id FROM people ORDER BY age",
        "age, id",
        "(NULL, 7), ('Ann', 4), ('ann', 9), ('bob', 5), ('declan', 2), ('fiona', 1)",
    ),
    (
        "SELECT age AS x, id FROM people ORDER BY x DESC, id",
        "x, id",
        "(35, 4), (35, 9), (20, 1), (20, 5), (-3, 7), (NULL, 2)",
    ),
    (
        "SELECT *, age AS y FROM people ORDER BY 5",
        "id, name, age, tag, y",
        "(2, 'declan', NULL, NULL, NULL), (7, NULL, -3, X'0A', -3), (1, 'fiona', 20, X'00FF', 20), (5, 'bob', 20, X'61', 20), (4, 'Ann', 35, X'', 35), (9, 'ann', 35, NULL, 35)",
    ),
    (
        "SELECT * FROM people ORDER BY 3",
        "id, name, age, tag",
        "(2, 'declan', NULL, NULL), (7, NULL, -3, X'0A'), (1, 'fiona', 20, X'00FF'), (5, 'bob', 20, X'61'), (4, 'Ann', 35, X''), (9, 'ann', 35, NULL)",
    ),
    (
        "SELECT id FROM people ORDER BY LENGTH(name)",
        "id",
        "(7), (4), (5), (9), (1), (2)",
    ),
    (
        "SELECT id FROM people ORDER BY age + id",
        "id",
        "(2), (7), (1), (5), (4), (9)",
    ),
    (
        "SELECT id FROM people ORDER BY -(age)",
        "id",
        "(2), (4), (9), (1), (5), (7)",
    ),
    (
        "SELECT id FROM people ORDER BY NULL",
        "id",
        "(1), (2), (4), (5), (7), (9)",
    ),
    (
        "SELECT id FROM people ORDER BY 'x'",
        "id",
        "(1), (2), (4), (5), (7), (9)",
    ),
    (
        "SELECT k FROM codes ORDER BY v",
        "k",
        "(NULL), ('a'), ('b'), ('c'), (NULL)",
    ),
    (
        "SELECT k, v FROM codes ORDER BY v DESC, k",
        "k, v",
        "(NULL, 3), ('b', 2), ('c', 2), ('a', 1), (NULL, NULL)",
    ),
    (
        "SELECT k, v FROM codes ORDER BY rowid DESC",
        "k, v",
        "(NULL, NULL), ('c', 2), (NULL, 3), ('a', 1), ('b', 2)",
    ),
];

/// The same with LIMIT and OFFSET, with aggregates, and without FROM.
const CUT_AND_COUNTED_AS_SQLITE: [(&str, &str, &str); 42] = [
    ("SELECT id FROM people LIMIT 2", "id", "(1), (2)"),
    ("SELECT id FROM people LIMIT 0", "id", ""),
    (
        "SELECT id FROM people LIMIT -1",
        "id",
        "(1), (2), (4), (5), (7), (9)",
    ),
    (
        "SELECT id FROM people LIMIT 100",
        "id",
        "(1), (2), (4), (5), (7), (9)",
    ),
    ("SELECT id FROM people LIMIT 2 OFFSET 1", "id", "(2), (4)"),
    ("SELECT id FROM people LIMIT 2 OFFSET 5", "id", "(9)"),
    ("SELECT id FROM people LIMIT 2 OFFSET 6", "id", ""),
    ("SELECT id FROM people LIMIT 2 OFFSET 100", "id", ""),
    ("SELECT id FROM people LIMIT -1 OFFSET 4", "id", "(7), (9)"),
    ("SELECT id FROM people LIMIT 2 OFFSET -3", "id", "(1), (2)"),
    (
        "SELECT id FROM people WHERE age > 0 LIMIT 2 OFFSET 1",
        "id",
        "(4), (5)",
    ),
    (
        "SELECT id FROM people ORDER BY age DESC LIMIT 2",
        "id",
        "(4), (9)",
    ),
    (
        "SELECT id FROM people ORDER BY age DESC LIMIT 2 OFFSET 1",
        "id",
        "(9), (1)",
    ),
    (
        "SELECT id FROM people LIMIT 9223372036854775807 OFFSET 9223372036854775807",
        "id",
        "",
    ),
    ("SELECT COUNT(*) AS n FROM people", "n", "(6)"),
    ("SELECT COUNT(age) AS n FROM people", "n", "(5)"),
    ("SELECT SUM(age) AS n FROM people", "n", "(107)"),
    (
        "SELECT MIN(name) AS a, MAX(name) AS z FROM people",
        "a, z",
        "('Ann', 'fiona')",
    ),
    (
        "SELECT MIN(tag) AS a, MAX(tag) AS z FROM people",
        "a, z",
        "(X'', X'61')",
    ),
    (
        "SELECT COUNT(*) AS n, SUM(age) AS s, MIN(age) AS a, MAX(age) AS z FROM people WHERE id > 3",
        "n, s, a, z",
        "(4, 87, -3, 35)",
    ),
    (
        "SELECT COUNT(*) AS n, SUM(a) AS s, MIN(b) AS b FROM none",
        "n, s, b",
        "(0, NULL, NULL)",
    ),
    (
        "SELECT SUM(age) AS s, COUNT(*) AS n, MIN(tag) AS b FROM people WHERE age > 100",
        "s, n, b",
        "(NULL, 0, NULL)",
    ),
    ("SELECT COUNT(*) + 1 AS n FROM people", "n", "(7)"),
    (
        "SELECT SUM(age) * 2 AS n FROM people WHERE age > 0",
        "n",
        "(220)",
    ),
    ("SELECT MAX(age) - MIN(age) AS d FROM people", "d", "(38)"),
    ("SELECT COALESCE(SUM(a), 0) AS s FROM none", "s", "(0)"),
    ("SELECT SUM(age + id) AS s FROM people", "s", "(133)"),
    (
        "SELECT COUNT(*) AS n, 5 AS five FROM none",
        "n, five",
        "(0, 5)",
    ),
    ("SELECT COUNT(*) AS n FROM people LIMIT 0", "n", ""),
    ("SELECT COUNT(*) AS n FROM people LIMIT 1 OFFSET 1", "n", ""),
    ("SELECT COUNT(*) AS n FROM people ORDER BY n", "n", "(6)"),
    ("SELECT COUNT(*) AS n FROM people ORDER BY 1", "n", "(6)"),
    (
        "SELECT COUNT(k) AS n, COUNT(v) AS m FROM codes",
        "n, m",
        "(3, 4)",
    ),
    ("SELECT 1 AS one", "one", "(1)"),
    ("SELECT 1 AS one WHERE 0", "one", ""),
    ("SELECT 1 AS one WHERE 1 LIMIT 1", "one", "(1)"),
    ("SELECT COUNT(*) AS n", "n", "(1)"),
    ("SELECT COUNT(*) AS n WHERE 0", "n", "(0)"),
    ("SELECT 2 AS a, 1 AS b ORDER BY b LIMIT 5", "a, b", "(2, 1)"),
    (
        "SELECT UPPER(name) AS u FROM people WHERE id = 1",
        "u",
        "('FIONA')",
    ),
    (
        "SELECT IFNULL(age, -1) AS a FROM people",
        "a",
        "(20), (-1), (35), (20), (-3), (35)",
    ),
    (
        "SELECT id * 10 + 1 AS x FROM people WHERE id > 4 ORDER BY x DESC",
        "x",
        "(91), (71), (51)",
    ),
];

/// Headings and types, which have the canonical text of what is no name.
const HEADINGS: [(&str, &str, &str); 14] = [
    (
        "SELECT * FROM people",
        "id, name, age, tag",
        "integer, text, integer, blob",
    ),
    (
        "SELECT NAME, people.Tag FROM people",
        "name, tag",
        "text, blob",
    ),
    ("SELECT id AS n FROM people", "n", "integer"),
    ("SELECT RowId FROM people", "id", "integer"),
    ("SELECT people.rowid AS r FROM people", "r", "integer"),
    ("SELECT RowId FROM codes", "\"RowId\"", ""),
    ("SELECT codes.rowid FROM codes", "\"codes\".\"rowid\"", ""),
    ("SELECT rowid AS r, k FROM codes", "r, k", ", text"),
    (
        "SELECT a + 1, -a, - 5 FROM none",
        "(\"a\" + 1), -(\"a\"), -5",
        ", , ",
    ),
    (
        "SELECT count(*), Sum(a) FROM none",
        "COUNT(*), SUM(\"a\")",
        ", ",
    ),
    (
        "SELECT 'it''s', X'0a', NULL",
        "'it''s', X'0A', NULL",
        ", , ",
    ),
    ("SELECT (id) FROM people", "id", "integer"),
    ("SELECT 1", "1", ""),
    ("SELECT * WHERE 1", "", ""),
];

/// The tables of the tests.
struct Tables {
    people: MemTable,
    codes: MemTable,
    none: MemTable,
}

impl Drop for Tables {
    fn drop(self) {
        let Tables {
            people,
            codes,
            none,
        } = self;
        drop(people);
        drop(codes);
        drop(none);
    }
}

fn all_tables(alloc: Global) -> Result<Tables, Fail> {
    let people = people(alloc)?;
    let codes = codes(alloc)?;
    let none = created(alloc, NONE, 2)?;
    Ok(Tables {
        people,
        codes,
        none,
    })
}

/// The table that the FROM names.
fn table_of<'t>(tables: &'t Tables, stmt: &SelectStmt) -> Option<&'t MemTable> {
    match &stmt.table {
        None => None,
        Some(name) => {
            if name.bytes() == b"people".as_slice() {
                Some(&tables.people)
            } else if name.bytes() == b"codes".as_slice() {
                Some(&tables.codes)
            } else if name.bytes() == b"none".as_slice() {
                Some(&tables.none)
            } else {
                None
            }
        }
    }
}

/// The texts with a comma and a blank between.
fn joined(alloc: Global, texts: &[Text]) -> Result<Vec<u8>, Fail> {
    let mut all = Vec::new(alloc);
    let mut is_first = true;
    for text in texts {
        if !is_first {
            all.extend_from_slice(b", ")?;
        }
        is_first = false;
        all.extend_from_slice(text.bytes())?;
    }
    Ok(all)
}

fn are_texts(alloc: Global, texts: &Seq<Text>, wanted: &str) -> Result<bool, Fail> {
    let all = joined(alloc, texts.as_slice())?;
    let are = all.as_slice() == wanted.as_bytes();
    drop(all);
    Ok(are)
}

fn is_row(row: &[Value], wanted: &[Value]) -> bool {
    if row.len() != wanted.len() {
        return false;
    }
    for i in 0..row.len() {
        if !compare(&row[i], &wanted[i]).is_eq() {
            return false;
        }
    }
    true
}

/// Whether the rows are those that the text spells as rows of an INSERT.
pub fn are_rows(alloc: Global, rows: &[Seq<Value>], wanted: &str) -> Result<bool, Fail> {
    if wanted.as_bytes().is_empty() {
        return Ok(rows.is_empty());
    }
    let mut text = String::from_str(alloc, "INSERT INTO x VALUES ")?;
    text.push_str(wanted)?;
    let wanted = rows_in(alloc, text.as_str())?;
    drop(text);
    if rows.len() != wanted.len() {
        return Ok(false);
    }
    for i in 0..rows.len() {
        if !is_row(rows[i].as_slice(), wanted[i].as_slice()) {
            return Ok(false);
        }
    }
    Ok(true)
}

fn answer(alloc: Global, tables: &Tables, text: &str) -> Result<Result<Res, EvalError>, Fail> {
    let stmt = read(alloc, text.as_bytes())?;
    match &stmt {
        Stmt::Select(stmt) => Ok(select(alloc, stmt, table_of(tables, stmt))),
        _ => Err(Fail::from("a SELECT")),
    }
}

/// What the select answers over the table.
pub fn selected_from<T: TableView>(
    alloc: Global,
    table: &T,
    text: &str,
) -> Result<Result<Res, EvalError>, Fail> {
    let stmt = read(alloc, text.as_bytes())?;
    match &stmt {
        Stmt::Select(stmt) => Ok(select(alloc, stmt, Some(table))),
        _ => Err(Fail::from("a SELECT")),
    }
}

/// Whether the select answers these headings and rows.
fn answers(
    alloc: Global,
    tables: &Tables,
    text: &str,
    headings: &str,
    rows: &str,
) -> Result<bool, Fail> {
    let answer = answer(alloc, tables, text)?;
    match &answer {
        Ok(
            Res::Rows {
                columns,
                types: _,
                values,
            },
        ) => Ok(are_texts(alloc, columns, headings)? && are_rows(alloc, values.as_slice(), rows)?),
        _ => Ok(false),
    }
}

/// Whether the select has these headings and types.
fn has_headings(
    alloc: Global,
    tables: &Tables,
    text: &str,
    headings: &str,
    types: &str,
) -> Result<bool, Fail> {
    let answer = answer(alloc, tables, text)?;
    match &answer {
        Ok(
            Res::Rows {
                columns,
                types: found,
                values: _,
            },
        ) => Ok(are_texts(alloc, columns, headings)? && are_texts(alloc, found, types)?),
        _ => Ok(false),
    }
}

/// Whether the select has that error.
fn has_error(alloc: Global, tables: &Tables, text: &str, error: &str) -> Result<bool, Fail> {
    let answer = answer(alloc, tables, text)?;
    match &answer {
        Err(EvalError::Says(found)) => {
            let shown = found.to_text(alloc)?;
            Ok(shown.bytes() == error.as_bytes())
        }
        _ => Ok(false),
    }
}

/// The first of the selects that doesn't answer its headings and rows.
fn first_wrong<'t>(alloc: Global, list: &[(&'t str, &str, &str)]) -> Result<Option<&'t str>, Fail> {
    let tables = all_tables(alloc)?;
    for (text, headings, rows) in list {
        if !answers(alloc, &tables, text, headings, rows)? {
            return Ok(Some(text));
        }
    }
    Ok(None)
}

/// The first of the selects that doesn't have its headings and types.
fn first_wrong_heading<'t>(
    alloc: Global,
    list: &[(&'t str, &str, &str)],
) -> Result<Option<&'t str>, Fail> {
    let tables = all_tables(alloc)?;
    for (text, headings, types) in list {
        if !has_headings(alloc, &tables, text, headings, types)? {
            return Ok(Some(text));
        }
    }
    Ok(None)
}

/// The first of the selects that doesn't have its error.
fn first_wrong_error<'t>(alloc: Global, list: &[(&'t str, &str)]) -> Result<Option<&'t str>, Fail> {
    let tables = all_tables(alloc)?;
    for (text, error) in list {
        if !has_error(alloc, &tables, text, error)? {
            return Ok(Some(text));
        }
    }
    Ok(None)
}

#[test]
fn selects_answer_as_sqlite(rt: HostRuntime) -> Result<(), Fail> {
    let wrong = first_wrong(rt.alloc(), &AS_SQLITE)?;
    assert!(rt; wrong == None, "{wrong:?}");
    Ok(())
}

#[test]
fn selects_are_ordered_as_in_sqlite(rt: HostRuntime) -> Result<(), Fail> {
    let wrong = first_wrong(rt.alloc(), &ORDERED_AS_SQLITE)?;
    assert!(rt; wrong == None, "{wrong:?}");
    Ok(())
}

#[test]
fn selects_are_cut_and_counted_as_in_sqlite(rt: HostRuntime) -> Result<(), Fail> {
    let wrong = first_wrong(rt.alloc(), &CUT_AND_COUNTED_AS_SQLITE)?;
    assert!(rt; wrong == None, "{wrong:?}");
    Ok(())
}

#[test]
fn headings_and_types(rt: HostRuntime) -> Result<(), Fail> {
    let wrong = first_wrong_heading(rt.alloc(), &HEADINGS)?;
    assert!(rt; wrong == None, "{wrong:?}");
    Ok(())
}

#[test]
fn errors_in_their_order(rt: HostRuntime) -> Result<(), Fail> {
    let alloc = rt.alloc();
    for list in [ERRORS.as_slice(), MORE_ERRORS.as_slice()] {
        let wrong = first_wrong_error(alloc, list)?;
        assert!(rt; wrong == None, "{wrong:?}");
    }
    Ok(())
}
