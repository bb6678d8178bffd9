//! Scripts of statements, and their replies.
use crate::running::{differences, reads_and_ids};
use rq_tables::Tables;
use std::test::Fail;

/// CREATE and DROP.
const TABLES: [(&str, &str); 28] = [
    ("CREATE TABLE t (id INTEGER PRIMARY KEY, name TEXT)", "0 @0"),
    ("CREATE TABLE t (a TEXT)", "table t already exists"),
    ("CREATE TABLE T (a TEXT)", "table T already exists"),
    ("CREATE TABLE IF NOT EXISTS T (a TEXT, a TEXT)", "0 @0"),
    ("SELECT * FROM T", "id name:"),
    (
        "CREATE TABLE sqlite_t (a TEXT, a TEXT)",
        "object name reserved for internal use: sqlite_t",
    ),
    (
        "CREATE TABLE SQLITE_ (a TEXT)",
        "object name reserved for internal use: SQLITE_",
    ),
    (
        "CREATE TABLE u (a TEXT, b TEXT, A INTEGER)",
        "duplicate column name: A",
    ),
    (
        "CREATE TABLE u (a TEXT PRIMARY KEY, b TEXT PRIMARY KEY, a TEXT)",
        "table u has more than one primary key",
    ),
    (
        "CREATE TABLE u (a TEXT PRIMARY KEY, A TEXT PRIMARY KEY)",
        "duplicate column name: A",
    ),
    ("DROP TABLE u", "no such table: u"),
    ("DROP TABLE IF EXISTS u", "0 @0"),
    ("INSERT INTO t VALUES (1, 'a')", "1 @1"),
    ("DROP TABLE T", "0 @0"),
    ("SELECT * FROM t", "no such table: t"),
    ("CREATE TABLE t (a TEXT)", "0 @0"),
    ("SELECT * FROM t", "a:"),
    (
        "> DROP TABLE t | CREATE TABLE t (b TEXT) | INSERT INTO t VALUES ('x') | SELECT * FROM nosuch",
        "0 @0 | 0 @0 | 1 @1 | no such table: nosuch",
    ),
    ("SELECT * FROM t", "a:"),
    (
        "> DROP TABLE t | CREATE TABLE t (b TEXT) | DROP TABLE t | CREATE TABLE t (c TEXT) | INSERT INTO t VALUES ('x')",
        "0 @0 | 0 @0 | 0 @0 | 0 @0 | 1 @1",
    ),
    ("SELECT * FROM t", "c: ('x')"),
    (
        "> INSERT INTO t VALUES ('y') | DROP TABLE t | SELECT 'a' + 1",
        "1 @2 | 0 @0 | not an integer",
    ),
    ("SELECT * FROM t", "c: ('x')"),
    (
        "> CREATE TABLE v (a TEXT) | SELECT -'a'",
        "0 @0 | not an integer",
    ),
    ("SELECT * FROM v", "no such table: v"),
    ("! SELECT * FROM t", "query in execute"),
    (
        "? DROP TABLE t",
        "attempt to change database via query operation",
    ),
    (
        "? SELECT * FROM t | INSERT INTO t VALUES ('z')",
        "c: ('x') | attempt to change database via query operation",
    ),
];

/// INSERT.
const INSERTS: [(&str, &str); 46] = [
    (
        "CREATE TABLE t (id INTEGER PRIMARY KEY, name TEXT UNIQUE, n INTEGER NOT NULL)",
        "0 @0",
    ),
    (
        "INSERT INTO t VALUES (NULL, 'a', 1), (NULL, 'b', 2)",
        "2 @2",
    ),
    ("INSERT INTO t VALUES (7, 'c', 3), (NULL, NULL, 4)", "2 @8"),
    ("INSERT INTO t (n, NAME) VALUES (5, 'd')", "1 @9"),
    ("INSERT INTO t (n, rowid) VALUES (6, '-5')", "1 @-5"),
    (
        "SELECT * FROM t",
        "id name n: (-5, NULL, 6) (1, 'a', 1) (2, 'b', 2) (7, 'c', 3) (8, NULL, 4) (9, 'd', 5)",
    ),
    (
        "INSERT INTO t VALUES (1, 'x', 1)",
        "UNIQUE constraint failed: t.id",
    ),
    (
        "INSERT INTO t VALUES (NULL, 'a', 1)",
        "UNIQUE constraint failed: t.name",
    ),
    (
        "INSERT INTO t VALUES (1, 'a', 1)",
        "UNIQUE constraint failed: t.id",
    ),
    (
        "INSERT INTO t VALUES (NULL, 'e', NULL)",
        "NOT NULL constraint failed: t.n",
    ),
    (
        "INSERT INTO t (id) VALUES (20)",
        "NOT NULL constraint failed: t.n",
    ),
    (
        "INSERT INTO t VALUES (30, 'e', 1), (31, 'e', 2)",
        "UNIQUE constraint failed: t.name",
    ),
    (
        "INSERT INTO t VALUES (30, 'e', 1), (30, 'f', 2)",
        "UNIQUE constraint failed: t.id",
    ),
    ("INSERT INTO t VALUES ('30', 8, '9')", "1 @30"),
    ("SELECT * FROM t WHERE id = 30", "id name n: (30, '8', 9)"),
    (
        "INSERT INTO t VALUES (31, '8', 9)",
        "UNIQUE constraint failed: t.name",
    ),
    (
        "INSERT INTO t VALUES ('x', 8, 9)",
        "cannot store TEXT value in INTEGER column t.id",
    ),
    (
        "INSERT INTO t VALUES ('007', 8, 9)",
        "cannot store TEXT value in INTEGER column t.id",
    ),
    (
        "INSERT INTO t VALUES (1, X'00', 'x')",
        "cannot store BLOB value in TEXT column t.name",
    ),
    (
        "INSERT INTO t VALUES (1, 'q', X'')",
        "cannot store BLOB value in INTEGER column t.n",
    ),
    (
        "INSERT INTO t VALUES (1, 'q', '9223372036854775808')",
        "cannot store TEXT value in INTEGER column t.n",
    ),
    (
        "INSERT INTO t VALUES (9223372036854775807, 'q', 1)",
        "rowid out of range",
    ),
    (
        "> INSERT INTO t VALUES (9223372036854775806, 'q', 1) | INSERT INTO t VALUES (NULL, 'a', NULL)",
        "1 @9223372036854775806 | database or disk is full",
    ),
    (
        "INSERT INTO t VALUES (1, 2)",
        "table t has 3 columns but 2 values were supplied",
    ),
    (
        "INSERT INTO T VALUES (1, 2, 3), (1, 2, 3, 4)",
        "table t has 3 columns but 4 values were supplied",
    ),
    (
        "INSERT INTO t (id, n) VALUES (1, 2, 3)",
        "3 values for 2 columns",
    ),
    (
        "INSERT INTO t (id, x) VALUES (1)",
        "table t has no column named x",
    ),
    (
        "INSERT INTO t (id, ROWID, x) VALUES (1)",
        "duplicate column name: ROWID",
    ),
    (
        "INSERT INTO t (n, N) VALUES (1)",
        "duplicate column name: N",
    ),
    ("INSERT INTO t VALUES (1, name)", "no such column: name"),
    ("INSERT INTO t VALUES (1, t.name)", "no such column: t.name"),
    (
        "INSERT INTO t VALUES (1, 2, NOSUCH(1))",
        "no such function: NOSUCH",
    ),
    (
        "INSERT INTO t VALUES (1, 2, COUNT(*))",
        "misuse of aggregate",
    ),
    ("INSERT INTO t VALUES (1, 2, 1 + 'a')", "not an integer"),
    ("CREATE TABLE u (a TEXT PRIMARY KEY, b BLOB)", "0 @0"),
    (
        "INSERT INTO u VALUES ('a', X'01'), (NULL, NULL), (NULL, X'')",
        "3 @3",
    ),
    (
        "INSERT INTO u VALUES ('a', NULL)",
        "UNIQUE constraint failed: u.a",
    ),
    (
        "INSERT INTO u (rowid, a) VALUES (2, 'c')",
        "UNIQUE constraint failed: u.rowid",
    ),
    (
        "INSERT INTO u (a, rowid) VALUES ('a', 2)",
        "UNIQUE constraint failed: u.rowid",
    ),
    (
        "INSERT INTO u (rowid) VALUES (X'')",
        "cannot store BLOB value in INTEGER column u.rowid",
    ),
    (
        "INSERT INTO u (b, a) VALUES (1, X'')",
        "cannot store BLOB value in TEXT column u.a",
    ),
    (
        "SELECT rowid, a, b FROM u",
        "\"rowid\" a b: (1, 'a', blob 1) (2, NULL, NULL) (3, NULL, blob 0)",
    ),
    (
        "INSERT INTO u (a) SELECT name FROM t WHERE name > 'b' ORDER BY name DESC",
        "2 @5",
    ),
    (
        "INSERT INTO u (a) SELECT a || a FROM u WHERE a = 'a'",
        "1 @6",
    ),
    ("INSERT INTO u SELECT name, NULL FROM t WHERE 0", "0 @0"),
    (
        "SELECT a FROM u WHERE a > ''",
        "a: ('a') ('d') ('c') ('aa')",
    ),
];

/// INSERT of a select that is wrong.
const SELECTED: [(&str, &str); 15] = [
    ("CREATE TABLE t (a INTEGER)", "0 @0"),
    ("INSERT INTO t VALUES (1), (2)", "2 @2"),
    (
        "INSERT INTO nosuch SELECT * FROM nono",
        "no such table: nosuch",
    ),
    (
        "INSERT INTO t (b) SELECT * FROM nono",
        "no such table: nono",
    ),
    (
        "INSERT INTO t (b) SELECT x FROM t",
        "table t has no column named b",
    ),
    ("INSERT INTO t (a) SELECT x, 1 FROM t", "no such column: x"),
    (
        "INSERT INTO t (a) SELECT NOSUCH(1), 1 FROM t",
        "2 values for 1 columns",
    ),
    (
        "INSERT INTO t SELECT *, 1 FROM t",
        "table t has 1 columns but 2 values were supplied",
    ),
    (
        "INSERT INTO t SELECT NOSUCH(1) FROM t ORDER BY 9",
        "no such function: NOSUCH",
    ),
    (
        "INSERT INTO t SELECT 'x' FROM t ORDER BY 9",
        "ORDER BY term out of range",
    ),
    (
        "INSERT INTO t SELECT 'x' FROM t LIMIT 'a'",
        "datatype mismatch",
    ),
    (
        "INSERT INTO t SELECT 1 + a FROM t WHERE 'x'",
        "not a condition",
    ),
    (
        "INSERT INTO t SELECT 'x' || a FROM t",
        "cannot store TEXT value in INTEGER column t.a",
    ),
    ("INSERT INTO t SELECT a + 2 FROM t", "2 @4"),
    (
        "SELECT SUM(a), COUNT(*) FROM t",
        "SUM(\"a\") COUNT(*): (10, 4)",
    ),
];

/// UPDATE and DELETE.
const CHANGES: [(&str, &str); 42] = [
    (
        "CREATE TABLE t (id INTEGER PRIMARY KEY, name TEXT UNIQUE, n INTEGER NOT NULL)",
        "0 @0",
    ),
    (
        "INSERT INTO t VALUES (1, 'a', 10), (2, 'b', 20), (3, NULL, 30)",
        "3 @3",
    ),
    ("UPDATE t SET n = n + 1 WHERE id > 1", "2 @0"),
    ("UPDATE t SET n = id, id = id + 10 WHERE name = 'b'", "1 @0"),
    (
        "SELECT * FROM t",
        "id name n: (1, 'a', 10) (3, NULL, 31) (12, 'b', 2)",
    ),
    ("UPDATE t SET id = id + 1", "3 @0"),
    (
        "UPDATE t SET id = id + 9 WHERE id < 5",
        "UNIQUE constraint failed: t.id",
    ),
    ("SELECT id FROM t", "id: (2) (4) (13)"),
    (
        "UPDATE t SET name = 'a'",
        "UNIQUE constraint failed: t.name",
    ),
    (
        "UPDATE t SET name = 'b' WHERE id = 2",
        "UNIQUE constraint failed: t.name",
    ),
    ("UPDATE t SET name = name", "3 @0"),
    ("UPDATE t SET name = NULL", "3 @0"),
    (
        "UPDATE t SET id = NULL WHERE id = 2",
        "NOT NULL constraint failed: t.id",
    ),
    (
        "UPDATE t SET id = NULL, n = X''",
        "cannot store BLOB value in INTEGER column t.n",
    ),
    ("UPDATE t SET n = NULL", "NOT NULL constraint failed: t.n"),
    (
        "UPDATE t SET id = 9223372036854775807, n = NULL",
        "rowid out of range",
    ),
    (
        "UPDATE t SET n = n / 0 WHERE id = 2",
        "NOT NULL constraint failed: t.n",
    ),
    ("UPDATE t SET n = n / 0 WHERE id = 100", "0 @0"),
    ("UPDATE t SET n = 1 WHERE name + 1", "0 @0"),
    ("UPDATE t SET n = 1 WHERE 'x'", "not a condition"),
    ("UPDATE t SET x = 1, n = y", "table t has no column named x"),
    ("UPDATE t SET n = y, x = 1", "no such column: y"),
    ("UPDATE t SET n = 1, N = y", "duplicate column name: N"),
    ("UPDATE t SET n = NOSUCH(1) WHERE y", "no such column: y"),
    (
        "UPDATE t SET n = NOSUCH(1) WHERE COUNT(*)",
        "no such function: NOSUCH",
    ),
    ("UPDATE t SET n = 1 WHERE COUNT(*)", "misuse of aggregate"),
    ("UPDATE nosuch SET x = 1", "no such table: nosuch"),
    ("UPDATE t SET name = 'a' WHERE id = 2", "1 @0"),
    (
        "UPDATE t SET id = 99, name = 'z', n = 7 WHERE name = 'a' AND n > 0",
        "1 @0",
    ),
    (
        "SELECT * FROM t WHERE name = 'z'",
        "id name n: (99, 'z', 7)",
    ),
    ("SELECT * FROM t WHERE id = 2", "id name n:"),
    ("SELECT * FROM t WHERE rowid = '99'", "id name n:"),
    ("DELETE FROM t WHERE id = 99", "1 @0"),
    ("DELETE FROM t WHERE id = 99", "0 @0"),
    ("DELETE FROM t WHERE x", "no such column: x"),
    ("DELETE FROM t WHERE NOSUCH(1)", "no such function: NOSUCH"),
    ("DELETE FROM t WHERE 'x'", "not a condition"),
    ("DELETE FROM nosuch", "no such table: nosuch"),
    ("INSERT INTO t VALUES (2, 'z', 1)", "1 @2"),
    ("DELETE FROM t", "3 @0"),
    ("INSERT INTO t VALUES (NULL, 'z', 1)", "1 @1"),
    ("SELECT * FROM t", "id name n: (1, 'z', 1)"),
];

/// Lists, transactions, and changes that are taken back.
const LISTS: [(&str, &str); 23] = [
    (
        "CREATE TABLE t (id INTEGER PRIMARY KEY, u TEXT UNIQUE)",
        "0 @0",
    ),
    (
        "INSERT INTO t VALUES (1, 'a') | INSERT INTO t VALUES (1, 'b') | INSERT INTO t VALUES (2, 'b')",
        "1 @1 | UNIQUE constraint failed: t.id | 1 @2",
    ),
    (
        "> INSERT INTO t VALUES (3, 'c') | INSERT INTO t VALUES (4, 'a') | INSERT INTO t VALUES (5, 'e')",
        "1 @3 | UNIQUE constraint failed: t.u",
    ),
    ("SELECT * FROM t", "id u: (1, 'a') (2, 'b')"),
    (
        "> DELETE FROM t WHERE id = 1 | INSERT INTO t VALUES (7, 'a') | UPDATE t SET id = 1 WHERE u = 'b' | INSERT INTO t VALUES (2, 'z') | SELECT * FROM t | INSERT INTO t VALUES (9, 'z')",
        "1 @0 | 1 @7 | 1 @0 | 1 @2 | id u: (1, 'b') (2, 'z') (7, 'a') | UNIQUE constraint failed: t.u",
    ),
    ("SELECT * FROM t", "id u: (1, 'a') (2, 'b')"),
    (
        "INSERT INTO t VALUES (8, 'a')",
        "UNIQUE constraint failed: t.u",
    ),
    ("INSERT INTO t VALUES (8, 'z')", "1 @8"),
    (
        "> DELETE FROM t WHERE u = 'z' | INSERT INTO t VALUES (9, 'z') | DELETE FROM t WHERE id = 9 | INSERT INTO t VALUES (10, 'z') | SELECT -'a'",
        "1 @0 | 1 @9 | 1 @0 | 1 @10 | not an integer",
    ),
    ("SELECT * FROM t WHERE u = 'z'", "id u: (8, 'z')"),
    (
        "INSERT INTO t VALUES (11, 'k'), (12, 'l'), (13, 'z')",
        "UNIQUE constraint failed: t.u",
    ),
    ("INSERT INTO t VALUES (11, 'k'), (12, 'l')", "2 @12"),
    (
        "UPDATE t SET u = id || 'x', id = id + 100 WHERE id > 8 AND u < 'l'",
        "1 @0",
    ),
    ("SELECT * FROM t WHERE u = '11x'", "id u: (111, '11x')"),
    (
        "> UPDATE t SET id = id + 1 WHERE id = 111 | DELETE FROM t WHERE id < 100 | SELECT * FROM t",
        "1 @0 | 4 @0 | id u: (112, '11x')",
    ),
    ("SELECT * FROM t WHERE u = 'a'", "id u:"),
    (
        "SELECT COUNT(*) FROM t WHERE id = 112 AND u = '11x' AND 1 = 1",
        "COUNT(*): (1)",
    ),
    ("", ""),
    ("CREATE TABLE t (a INTEGER NOT NULL, b TEXT UNIQUE)", "0 @0"),
    (
        "INSERT INTO t VALUES (NULL, 'x') | INSERT INTO t VALUES ('7', 8) | UPDATE t SET a = a / 0 | INSERT INTO t VALUES (1, '8')",
        "NOT NULL constraint failed: t.a | 1 @1 | NOT NULL constraint failed: t.a | UNIQUE constraint failed: t.b",
    ),
    (
        "SELECT SUM(a), COUNT(*), MIN(b) FROM t WHERE a > 100",
        "SUM(\"a\") COUNT(*) MIN(\"b\"): (NULL, 0, NULL)",
    ),
    ("UPDATE t SET rowid = 5 WHERE rowid = 1", "1 @0"),
    (
        "UPDATE t SET rowid = NULL, a = NULL",
        "NOT NULL constraint failed: t.rowid",
    ),
];

/// What is wrong in two ways has the error that is looked for first.
const ORDER: [(&str, &str); 53] = [
    (
        "CREATE TABLE t (id INTEGER PRIMARY KEY, n INTEGER NOT NULL, u TEXT UNIQUE)",
        "0 @0",
    ),
    ("INSERT INTO t VALUES (1, 1, 'a')", "1 @1"),
    ("! SELECT x FROM nosuch", "query in execute"),
    (
        "? INSERT INTO nosuch VALUES (1)",
        "attempt to change database via query operation",
    ),
    ("CREATE TABLE t (a TEXT, a TEXT)", "table t already exists"),
    ("DELETE FROM nosuch WHERE x", "no such table: nosuch"),
    ("UPDATE nosuch SET x = 1", "no such table: nosuch"),
    (
        "INSERT INTO t (x) VALUES (1, 2)",
        "table t has no column named x",
    ),
    ("INSERT INTO t (n) VALUES (x, 2)", "no such column: x"),
    (
        "INSERT INTO t (n, N) VALUES (x)",
        "duplicate column name: N",
    ),
    (
        "INSERT INTO t (n) VALUES (NOSUCH(1), 2)",
        "2 values for 1 columns",
    ),
    (
        "INSERT INTO t VALUES (NOSUCH(1), 2)",
        "table t has 3 columns but 2 values were supplied",
    ),
    ("INSERT INTO t VALUES (1), (x)", "no such column: x"),
    (
        "INSERT INTO t VALUES (1, 2, 1 + 'a'), (1, 2, ABS())",
        "wrong number of arguments to function ABS()",
    ),
    (
        "SELECT NOSUCH(1) FROM t ORDER BY 9",
        "no such function: NOSUCH",
    ),
    (
        "SELECT 1 + u FROM t ORDER BY 9",
        "ORDER BY term out of range",
    ),
    ("SELECT 1 + u FROM t LIMIT 'a'", "datatype mismatch"),
    ("INSERT INTO t VALUES ('x', 1, -'a')", "not an integer"),
    (
        "INSERT INTO t VALUES (9223372036854775807, X'', 'b')",
        "cannot store BLOB value in INTEGER column t.n",
    ),
    (
        "INSERT INTO t VALUES (9223372036854775807, NULL, 'a')",
        "rowid out of range",
    ),
    (
        "INSERT INTO t VALUES (1, NULL, 'a')",
        "NOT NULL constraint failed: t.n",
    ),
    (
        "INSERT INTO t VALUES (1, 1, 'a')",
        "UNIQUE constraint failed: t.id",
    ),
    (
        "INSERT INTO t VALUES (2, 1, 'a')",
        "UNIQUE constraint failed: t.u",
    ),
    (
        "INSERT INTO t VALUES (3, 1, 'c'), (1, 1, 'd'), (4, NULL, 'e')",
        "UNIQUE constraint failed: t.id",
    ),
    (
        "SELECT 9223372036854775807 + 1 | SELECT DATE('x') | SELECT 'a' AND 1 | SELECT X'' || 'a'",
        "integer overflow | not a time text | not a condition | not a text",
    ),
    (
        "UPDATE t SET n = 'x', id = NULL",
        "cannot store TEXT value in INTEGER column t.n",
    ),
    (
        "INSERT INTO t VALUES (5, 'x', 'k'), (6, -'a', 'l')",
        "cannot store TEXT value in INTEGER column t.n",
    ),
    (
        "INSERT INTO t VALUES (5, -'a', 'k'), (6, 'x', 'l')",
        "not an integer",
    ),
    ("INSERT INTO t VALUES (5, 5, 'k')", "1 @5"),
    (
        "INSERT INTO t SELECT 'x', n / (n - 5) + LENGTH(DATE(u || 'x')), u FROM t",
        "not a time text",
    ),
    (
        "INSERT INTO t SELECT 'x', 9223372036854775803 + n, u FROM t",
        "integer overflow",
    ),
    (
        "INSERT INTO t SELECT 'x', n, u FROM t",
        "cannot store TEXT value in INTEGER column t.id",
    ),
    (
        "UPDATE t SET n = 'x' WHERE 9223372036854775803 + n",
        "integer overflow",
    ),
    (
        "UPDATE t SET n = 9223372036854775803 + n, u = X''",
        "cannot store BLOB value in TEXT column t.u",
    ),
    (
        "UPDATE t SET u = X'', n = 9223372036854775803 + n WHERE id = 5",
        "integer overflow",
    ),
    (
        "UPDATE t SET u = 'k', n = 9223372036854775803 + n",
        "UNIQUE constraint failed: t.u",
    ),
    ("DELETE FROM t WHERE -u", "not an integer"),
    (
        "SELECT 1 FROM t ORDER BY 9 LIMIT 'a'",
        "ORDER BY term out of range",
    ),
    (
        "SELECT n, COUNT(*) FROM t ORDER BY 9",
        "misuse of aggregate",
    ),
    (
        "SELECT ABS(), NOSUCH(1) FROM t",
        "wrong number of arguments to function ABS()",
    ),
    (
        "SELECT 1 FROM t WHERE x ORDER BY NOSUCH(1)",
        "no such column: x",
    ),
    ("SELECT t.x FROM t WHERE NOSUCH(1)", "no such column: t.x"),
    (
        "CREATE TABLE u (a TEXT, A TEXT, b TEXT PRIMARY KEY, c TEXT PRIMARY KEY)",
        "duplicate column name: A",
    ),
    ("CREATE TABLE u (a BLOB, b BLOB NOT NULL UNIQUE)", "0 @0"),
    (
        "INSERT INTO u VALUES (1, NULL)",
        "cannot store INTEGER value in BLOB column u.a",
    ),
    (
        "INSERT INTO u VALUES (NULL, 'x')",
        "cannot store TEXT value in BLOB column u.b",
    ),
    (
        "INSERT INTO u (rowid, b) VALUES (9223372036854775807, NULL)",
        "rowid out of range",
    ),
    ("INSERT INTO u (b, rowid) VALUES (X'00', -1)", "1 @-1"),
    (
        "INSERT INTO u (b, rowid) VALUES (NULL, -1)",
        "NOT NULL constraint failed: u.b",
    ),
    (
        "INSERT INTO u (b, rowid) VALUES (X'00', -1)",
        "UNIQUE constraint failed: u.rowid",
    ),
    (
        "INSERT INTO u (b) VALUES (X'00')",
        "UNIQUE constraint failed: u.b",
    ),
    ("DELETE FROM t WHERE id = 5", "1 @0"),
    ("SELECT * FROM t", "id n u: (1, 1, 'a')"),
];

/// The commands of a log.
const COMMANDS: [(&str, &str); 17] = [
    (
        "< CREATE TABLE t (a INTEGER UNIQUE) | INSERT INTO t VALUES (1), (2)",
        "loaded",
    ),
    (
        "< INSERT INTO t VALUES (3) | INSERT INTO t VALUES (1) | INSERT INTO t VALUES (4)",
        "UNIQUE constraint failed: t.a",
    ),
    (
        "< INSERT INTO t VALUES (3) | SELECT * FROM t",
        "query in execute",
    ),
    ("? SELECT a FROM t", "a: (1) (2)"),
    (
        "= INSERT INTO t VALUES (5) | INSERT INTO t VALUES (1) || INSERT INTO t VALUES (6) | INSERT INTO t VALUES (1)",
        "nothing",
    ),
    ("? SELECT a FROM t", "a: (1) (2) (6)"),
    (
        "= INSERT INTO t VALUES (5) | SELECT * FROM t || INSERT INTO t VALUES (7) | SELECT * FROM t",
        "nothing",
    ),
    ("? SELECT a FROM t", "a: (1) (2) (6) (7)"),
    ("@ 11 INSERT INTO t VALUES (8)", "1 @5"),
    ("@ 11 INSERT INTO t VALUES (9)", "stale"),
    (
        "@ 12 INSERT INTO t VALUES (1)",
        "UNIQUE constraint failed: t.a",
    ),
    ("@ 12 INSERT INTO t VALUES (9)", "stale"),
    ("@ 09 INSERT INTO t VALUES (9)", "stale"),
    (
        "@ 21 INSERT INTO t VALUES (9) | SELECT COUNT(*) FROM t",
        "1 @6 | COUNT(*): (6)",
    ),
    ("@ 19 INSERT INTO t VALUES (10)", "stale"),
    (
        "! NOSUCH | DELETE FROM t WHERE a > 6",
        "near \"NOSUCH\": syntax error | 3 @0",
    ),
    ("? SELECT a FROM t", "a: (1) (2) (6)"),
];

/// Tables grow until they are full: rows of 524,288 bytes, twice as many with each statement.
const FULL: [(&str, &str); 15] = [
    ("CREATE TABLE t (a TEXT)", "0 @0"),
    (
        "INSERT INTO t VALUES ('xxxxxxxxxxxxxxxxxxxxxxxxxxxxxxxx')",
        "1 @1",
    ),
    (
        "UPDATE t SET a = a || a || a || a | UPDATE t SET a = a || a || a || a | UPDATE t SET a = a || a || a || a",
        "1 @0 | 1 @0 | 1 @0",
    ),
    (
        "UPDATE t SET a = a || a || a || a | UPDATE t SET a = a || a || a || a | UPDATE t SET a = a || a || a || a",
        "1 @0 | 1 @0 | 1 @0",
    ),
    ("UPDATE t SET a = a || a || a || a", "1 @0"),
    ("INSERT INTO t SELECT a FROM t", "1 @2"),
    ("INSERT INTO t SELECT a FROM t", "2 @4"),
    ("INSERT INTO t SELECT a FROM t", "4 @8"),
    ("INSERT INTO t SELECT a FROM t", "8 @16"),
    ("INSERT INTO t SELECT a FROM t", "16 @32"),
    ("INSERT INTO t SELECT a FROM t", "32 @64"),
    ("INSERT INTO t SELECT a FROM t", "64 @128"),
    ("INSERT INTO t SELECT a FROM t", "128 @256"),
    ("INSERT INTO t SELECT a FROM t", "database or disk is full"),
    ("SELECT COUNT(*) FROM t", "COUNT(*): (256)"),
];

#[test]
fn create_and_drop(rt: HostRuntime) -> Result<(), Fail> {
    assert_eq!(rt; differences(rt.alloc(), &TABLES)?.as_str(), "");
    Ok(())
}

#[test]
fn inserts(rt: HostRuntime) -> Result<(), Fail> {
    assert_eq!(rt; differences(rt.alloc(), &INSERTS)?.as_str(), "");
    Ok(())
}

#[test]
fn inserts_of_selects(rt: HostRuntime) -> Result<(), Fail> {
    assert_eq!(rt; differences(rt.alloc(), &SELECTED)?.as_str(), "");
    Ok(())
}

#[test]
fn updates_and_deletes(rt: HostRuntime) -> Result<(), Fail> {
    assert_eq!(rt; differences(rt.alloc(), &CHANGES)?.as_str(), "");
    Ok(())
}

#[test]
fn lists_and_transactions(rt: HostRuntime) -> Result<(), Fail> {
    assert_eq!(rt; differences(rt.alloc(), &LISTS)?.as_str(), "");
    Ok(())
}

#[test]
fn errors_in_their_order(rt: HostRuntime) -> Result<(), Fail> {
    assert_eq!(rt; differences(rt.alloc(), &ORDER)?.as_str(), "");
    Ok(())
}

#[test]
fn tables_that_are_full(rt: HostRuntime) -> Result<(), Fail> {
    assert_eq!(rt; differences(rt.alloc(), &FULL)?.as_str(), "");
    Ok(())
}

#[test]
fn commands(rt: HostRuntime) -> Result<(), Fail> {
    assert_eq!(rt; differences(rt.alloc(), &COMMANDS)?.as_str(), "");
    Ok(())
}

#[test]
fn reads_behind_a_command_and_ids(rt: HostRuntime) -> Result<(), Fail> {
    assert_eq!(rt;
        reads_and_ids::<Tables>(rt.alloc())?.as_str(),
        "0 @0 | 2 @2; SUM(\"a\"): (3); a: (1) (2) | attempt to change database via query operation; COUNT(*): (2); COUNT(*): (2); 2 true true"
    );
    Ok(())
}
