//! Statements read, printed and spelled.
use rq_settle::prepare;
use rq_statement::{Item, encode_execute};
use rq_values::NoMemory;
use std::alloc::Global;
use std::test::Fail;

/// The canonical text of what a text spells, or the error's text.
fn canonical(alloc: Global, text: &str) -> Result<String, Fail> {
    let item = prepare(alloc, text.as_bytes())?;
    let mut bytes = Vec::new(alloc);
    let done = match &item {
        Item::Run(settled) => bytes
            .extend_from_slice(settled.text())
            .map_err(NoMemory::from),
        Item::Fail(error) => bytes
            .extend_from_slice(error.bytes())
            .map_err(NoMemory::from),
    };
    drop(item);
    done?;
    Ok(String::from_utf8_lossy(alloc, &bytes)?)
}

const NOT_BUILT: &str = "not built";

/// Texts, and the canonical text of their settled statement, or their error.
const PREPARED: [(&str, &str); 39] = [
    (
        "CREATE TABLE foo (id INTEGER PRIMARY KEY)",
        "CREATE TABLE \"foo\" (\"id\" INTEGER PRIMARY KEY)",
    ),
    (
        "create table \"a\"\"b\"(x text,y Integer) ; ;",
        "CREATE TABLE \"a\"\"b\" (\"x\" TEXT, \"y\" INTEGER)",
    ),
    (
        "INSERT INTO foo(name, age) VALUES('fiona', 20)",
        "INSERT INTO \"foo\" (\"name\", \"age\") VALUES ('fiona', 20)",
    ),
    (
        "/* x */INSERT--y\nINTO t(a)values( 'it''s' )",
        "INSERT INTO \"t\" (\"a\") VALUES ('it''s')",
    ),
    (
        "INSERT INTO t(a, b, c) VALUES (- /**/ 9223372036854775808, 007, 9223372036854775807)/*",
        "INSERT INTO \"t\" (\"a\", \"b\", \"c\") VALUES (-9223372036854775808, 7, 9223372036854775807)",
    ),
    ("SELECT * FROM foo;", "SELECT * FROM \"foo\""),
    ("select*from\"select\"", "SELECT * FROM \"select\""),
    ("SELECT * FROM index", "SELECT * FROM \"index\""),
    ("SELECT * FROM select", "near \"select\": syntax error"),
    ("SELECT id FROM foo", "SELECT \"id\" FROM \"foo\""),
    (
        "SELECT * FROM foo WHERE id = 1",
        "SELECT * FROM \"foo\" WHERE (\"id\" = 1)",
    ),
    ("SELECT * FROM foo /* a */ b", "near \"b\": syntax error"),
    ("SELECT * FROM \"foo", "near \"\"foo\": syntax error"),
    ("DROP TABLE foo", "DROP TABLE \"foo\""),
    ("", "incomplete input"),
    (";", "near \";\": syntax error"),
    ("CREATE TABLE t ()", "near \")\": syntax error"),
    (
        "CREATE TABLE t (a INTEGER NOT NULL)",
        "CREATE TABLE \"t\" (\"a\" INTEGER NOT NULL)",
    ),
    (
        "CREATE TABLE t (a TEXT PRIMARY KEY)",
        "CREATE TABLE \"t\" (\"a\" TEXT PRIMARY KEY)",
    ),
    ("CREATE TABLE t (a BLOB)", "CREATE TABLE \"t\" (\"a\" BLOB)"),
    (
        "CREATE TABLE IF NOT EXISTS t (a TEXT)",
        "CREATE TABLE IF NOT EXISTS \"t\" (\"a\" TEXT)",
    ),
    (
        "INSERT INTO t(a) VALUES (NULL)",
        "INSERT INTO \"t\" (\"a\") VALUES (NULL)",
    ),
    (
        "INSERT INTO t(a) VALUES (X'00')",
        "INSERT INTO \"t\" (\"a\") VALUES (X'00')",
    ),
    (
        "INSERT INTO t(a) VALUES (9223372036854775808)",
        "not in profile: 9223372036854775808",
    ),
    (
        "INSERT INTO t(a) VALUES (-9223372036854775809)",
        "not in profile: 9223372036854775809",
    ),
    (
        "INSERT INTO t(a) VALUES (- -5)",
        "INSERT INTO \"t\" (\"a\") VALUES (-(-5))",
    ),
    ("INSERT INTO t(a) VALUES (1.5)", "not in profile: 1.5"),
    (
        "INSERT INTO t(a) VALUES (1), (2)",
        "INSERT INTO \"t\" (\"a\") VALUES (1), (2)",
    ),
    ("INSERT INTO t VALUES (1)", "INSERT INTO \"t\" VALUES (1)"),
    ("SELECT ?", NOT_BUILT),
    ("SELECT 1 LIMIT :n", NOT_BUILT),
    ("SELECT 1 + ABS(RANDOM())", NOT_BUILT),
    ("INSERT INTO t VALUES (RANDOMBLOB(4))", NOT_BUILT),
    ("SELECT a FROM t WHERE b = CURRENT_TIMESTAMP", NOT_BUILT),
    ("SELECT 1 ORDER BY DATETIME('NoW')", NOT_BUILT),
    ("UPDATE t SET a = TIME()", NOT_BUILT),
    ("SELECT DATE('2000-01-01')", "SELECT DATE('2000-01-01')"),
    ("SELECT DATE('now', 1)", "SELECT DATE('now', 1)"),
    ("SELECT RANDOM(1), 'now'", "SELECT RANDOM(1), 'now'"),
];

#[test]
fn texts_and_their_canonical_text(rt: HostRuntime) -> Result<(), Fail> {
    for (text, printed) in &PREPARED {
        assert_eq!(rt; canonical(rt.alloc(), text)?.as_str(), *printed);
    }
    Ok(())
}

/// A select from a table whose name has so many letters.
fn select_from(alloc: Global, letters: usize) -> Result<String, Fail> {
    Ok(format!(in alloc; "SELECT * FROM {}", "a".repeat(alloc, letters)?)?)
}

#[test]
fn canonical_text_at_its_limit(rt: HostRuntime) -> Result<(), Fail> {
    let alloc = rt.alloc();
    let text = select_from(alloc, 4_194_288)?;
    let longest = canonical(alloc, &text);
    drop(text);
    assert_eq!(rt; longest?.len(), 4_194_304);
    let text = select_from(alloc, 4_194_289)?;
    let longer = canonical(alloc, &text);
    drop(text);
    assert_eq!(rt; longer?.as_str(), "statement too large: 4194305");
    Ok(())
}

#[test]
fn an_execute_is_spelled(rt: HostRuntime) -> Result<(), Fail> {
    let item = prepare(rt.alloc(), b"create table foo (id integer primary key)")?;
    let mut bytes = Vec::new(rt.alloc());
    encode_execute(&[item], &mut bytes)?;
    let spelled = b"\x01\x00\x01\x00\x00\x00\x00\x2d\x00\x00\x00\
        CREATE TABLE \"foo\" (\"id\" INTEGER PRIMARY KEY)";
    assert_eq!(rt; bytes.as_slice(), spelled.as_slice());
    Ok(())
}
