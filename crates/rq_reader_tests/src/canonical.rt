//! Texts, and the canonical text of their statements.
use rq_print::print;
use rq_sql::read;
use std::alloc::Global;
use std::test::Fail;

/// A text, and the canonical text of the statement that it spells.
const STATEMENTS: [(&str, &str); 56] = [
    (
        "CREATE TABLE t (a INTEGER PRIMARY KEY NOT NULL UNIQUE, \"b c\" text, d BLOB)",
        "CREATE TABLE \"t\" (\"a\" INTEGER PRIMARY KEY NOT NULL UNIQUE, \"b c\" TEXT, \"d\" BLOB)",
    ),
    (
        "create table if not exists t (a integer unique not null primary key, b blob)",
        "CREATE TABLE IF NOT EXISTS \"t\" (\"a\" INTEGER PRIMARY KEY NOT NULL UNIQUE, \"b\" BLOB)",
    ),
    (
        "create table if not exists t (a TEXT)",
        "CREATE TABLE IF NOT EXISTS \"t\" (\"a\" TEXT)",
    ),
    (
        "CREATE TABLE IF (IF INTEGER)",
        "CREATE TABLE \"IF\" (\"IF\" INTEGER)",
    ),
    ("DROP TABLE t", "DROP TABLE \"t\""),
    ("DROP TABLE IF EXISTS t;;", "DROP TABLE IF EXISTS \"t\""),
    ("DROP TABLE IF", "DROP TABLE \"IF\""),
    (
        "drop table if exists \"a\"\"b\"",
        "DROP TABLE IF EXISTS \"a\"\"b\"",
    ),
    (
        "INSERT INTO t VALUES (1, 'it''s'), (NULL, X'00ff')",
        "INSERT INTO \"t\" VALUES (1, 'it''s'), (NULL, X'00FF')",
    ),
    (
        "insert into t(a,b)values(1,'it''s'),(null)",
        "INSERT INTO \"t\" (\"a\", \"b\") VALUES (1, 'it''s'), (NULL)",
    ),
    (
        "INSERT INTO t(a, \"b\"\"c\") SELECT * FROM u",
        "INSERT INTO \"t\" (\"a\", \"b\"\"c\") SELECT * FROM \"u\"",
    ),
    (
        "insert into t select count ( * )",
        "INSERT INTO \"t\" SELECT COUNT(*)",
    ),
    (
        "UPDATE t SET a = 1, b = a + 1 WHERE a",
        "UPDATE \"t\" SET \"a\" = 1, \"b\" = (\"a\" + 1) WHERE \"a\"",
    ),
    (
        "update t set a=current_time, b=random() where current_date",
        "UPDATE \"t\" SET \"a\" = CURRENT_TIME, \"b\" = RANDOM() WHERE CURRENT_DATE",
    ),
    ("DELETE FROM t", "DELETE FROM \"t\""),
    (
        "DELETE FROM t WHERE NOT a",
        "DELETE FROM \"t\" WHERE (NOT \"a\")",
    ),
    (
        "select a+1, b from T where not a==2 limit 3",
        "SELECT (\"a\" + 1), \"b\" FROM \"T\" WHERE (NOT (\"a\" = 2)) LIMIT 3",
    ),
    (
        "select *, t.a as \"b\"\"c\" from t order by x'ff0a', :p desc limit ? offset 1",
        "SELECT *, \"t\".\"a\" AS \"b\"\"c\" FROM \"t\" ORDER BY X'FF0A', :p DESC LIMIT ? OFFSET 1",
    ),
    (
        "SELECT a AS b, * FROM t WHERE a ORDER BY a, b DESC, c ASC LIMIT 1 OFFSET 2",
        "SELECT \"a\" AS \"b\", * FROM \"t\" WHERE \"a\" ORDER BY \"a\", \"b\" DESC, \"c\" LIMIT 1 OFFSET 2",
    ),
    (
        "SELECT a FROM t ORDER BY ASC ASC LIMIT offset OFFSET offset",
        "SELECT \"a\" FROM \"t\" ORDER BY \"ASC\" LIMIT \"offset\" OFFSET \"offset\"",
    ),
    ("SELECT LIKE LIKE LIKE", "SELECT (\"LIKE\" LIKE \"LIKE\")"),
    ("SELECT a FROM index", "SELECT \"a\" FROM \"index\""),
    (
        "select a||1%1-1<=1 is not 1 not like 1 and 1 or 1",
        "SELECT ((((((((\"a\" || 1) % 1) - 1) <= 1) IS NOT 1) NOT LIKE 1) AND 1) OR 1)",
    ),
    ("SELECT 1 - 2 - 3", "SELECT ((1 - 2) - 3)"),
    ("SELECT 1 + 2 * 3", "SELECT (1 + (2 * 3))"),
    ("SELECT a * b || c", "SELECT (\"a\" * (\"b\" || \"c\"))"),
    ("SELECT a || b % c", "SELECT ((\"a\" || \"b\") % \"c\")"),
    ("SELECT a - b < c", "SELECT ((\"a\" - \"b\") < \"c\")"),
    (
        "SELECT a / b > c >= d",
        "SELECT (((\"a\" / \"b\") > \"c\") >= \"d\")",
    ),
    ("SELECT a == b < c", "SELECT (\"a\" = (\"b\" < \"c\"))"),
    ("SELECT a = b <> c", "SELECT ((\"a\" = \"b\") <> \"c\")"),
    (
        "SELECT a IS NOT b IS c",
        "SELECT ((\"a\" IS NOT \"b\") IS \"c\")",
    ),
    (
        "SELECT a NOT LIKE b != c",
        "SELECT ((\"a\" NOT LIKE \"b\") <> \"c\")",
    ),
    ("SELECT NOT a = b", "SELECT (NOT (\"a\" = \"b\"))"),
    ("SELECT NOT a AND b", "SELECT ((NOT \"a\") AND \"b\")"),
    ("SELECT a OR b AND c", "SELECT (\"a\" OR (\"b\" AND \"c\"))"),
    (
        "SELECT (a OR b) AND c",
        "SELECT ((\"a\" OR \"b\") AND \"c\")",
    ),
    (
        "select min(a, current_timestamp) in (1, -2)",
        "SELECT (MIN(\"a\", CURRENT_TIMESTAMP) IN (1, -2))",
    ),
    (
        "select min(a, current_timestamp) not in (1, -2)",
        "SELECT (MIN(\"a\", CURRENT_TIMESTAMP) NOT IN (1, -2))",
    ),
    ("SELECT a NOT IN ()", "SELECT (\"a\" NOT IN ())"),
    (
        "SELECT a IN (1, 2) = b",
        "SELECT ((\"a\" IN (1, 2)) = \"b\")",
    ),
    (
        "SELECT a BETWEEN 1 AND 2 + 3",
        "SELECT (\"a\" BETWEEN 1 AND (2 + 3))",
    ),
    (
        "select a not between 1 and -b",
        "SELECT (\"a\" NOT BETWEEN 1 AND -(\"b\"))",
    ),
    (
        "SELECT a NOT BETWEEN b AND c AND d",
        "SELECT ((\"a\" NOT BETWEEN \"b\" AND \"c\") AND \"d\")",
    ),
    ("SELECT - -5", "SELECT -(-5)"),
    (
        "SELECT -5, - 5, - - 5, - + 5, -(5), + -5, -a + b",
        "SELECT -5, -5, -(-5), -(5), -(5), -5, (-(\"a\") + \"b\")",
    ),
    (
        "SELECT - /**/ 9223372036854775808, 9223372036854775807, 007",
        "SELECT -9223372036854775808, 9223372036854775807, 7",
    ),
    (
        "SELECT count(*), Count(a), f(), t.a, \"t\".\"a\"",
        "SELECT COUNT(*), COUNT(\"a\"), F(), \"t\".\"a\", \"t\".\"a\"",
    ),
    ("SELECT ?, :a, @b, $c", "SELECT ?, :a, :b, :c"),
    (
        "SELECT CURRENT_DATE, current_time AS CURRENT_TIMESTAMP",
        "SELECT CURRENT_DATE, CURRENT_TIME AS \"CURRENT_TIMESTAMP\"",
    ),
    ("SELECT 1 /* a", "SELECT 1"),
    ("SELECT 1 -- a", "SELECT 1"),
    ("SELECT --x\n1", "SELECT 1"),
    ("SELECT\"\"", "SELECT \"\""),
    ("SELECT 1;;", "SELECT 1"),
    ("SELECT''", "SELECT ''"),
];

/// Whether the canonical text of what a text spells is this.
fn is_printed(alloc: Global, text: &str, canonical: &str) -> Result<bool, Fail> {
    let stmt = read(alloc, text.as_bytes())?;
    let mut bytes = Vec::new(alloc);
    let printed = print(&stmt, &mut bytes);
    let is_same = printed.is_ok() && bytes.as_slice() == canonical.as_bytes();
    drop((stmt, bytes));
    Ok(is_same)
}

#[test]
fn statements_and_their_canonical_text(rt: HostRuntime) -> Result<(), Fail> {
    for (text, canonical) in &STATEMENTS {
        assert!(rt; is_printed(rt.alloc(), text, canonical)?);
    }
    Ok(())
}

/// How often the first of three pieces stands before the second, and the third behind it; the pieces of a text, and those of its canonical text.
const NESTED: [(usize, [&str; 3], [&str; 3]); 4] = [
    (99, ["", "1", "+1"], ["(", "1", " + 1)"]),
    (99, ["- ", "a", ""], ["-(", "\"a\"", ")"]),
    (99, ["- ", "- 5", ""], ["-(", "-5", ")"]),
    (1000, ["+ ", "a", ""], ["", "\"a\"", ""]),
];

fn push_all(text: &mut String, count: usize, piece: &str) -> Result<(), Fail> {
    for _ in 0..count {
        text.push_str(piece)?;
    }
    Ok(())
}

fn nested(alloc: Global, count: usize, pieces: &[&str; 3]) -> Result<String, Fail> {
    let [before, middle, behind] = pieces;
    let mut text = String::from_str(alloc, "SELECT ")?;
    push_all(&mut text, count, before)?;
    text.push_str(middle)?;
    push_all(&mut text, count, behind)?;
    Ok(text)
}

fn nested_is_printed(
    alloc: Global,
    count: usize,
    pieces: &[&str; 3],
    canonical: &[&str; 3],
) -> Result<bool, Fail> {
    let text = nested(alloc, count, pieces)?;
    let canonical = nested(alloc, count, canonical)?;
    let is_same = is_printed(alloc, &text, &canonical);
    drop((text, canonical));
    is_same
}

#[test]
fn deep_statements_and_their_canonical_text(rt: HostRuntime) -> Result<(), Fail> {
    let alloc = rt.alloc();
    for (count, text, canonical) in &NESTED {
        assert!(rt; nested_is_printed(alloc, *count, text, canonical)?);
    }
    Ok(())
}
