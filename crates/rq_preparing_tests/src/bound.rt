//! Parameters and their values.
use crate::preparing::{Asked, is_prepared};
use rq_request::Params;
use rq_values::{Bytes, Seq, Text, Value};
use std::alloc::Global;
use std::test::Fail;

fn text(alloc: Global, bytes: &str) -> Result<Text, Fail> {
    Ok(Text::new(alloc, bytes.as_bytes())?.ok_or("a text")?)
}

/// The moment 0, no word to come.
fn is_bound(alloc: Global, text: &str, params: &Params, wanted: &str) -> Result<bool, Fail> {
    let asked = Asked {
        text,
        words: &[],
        moment: 0,
    };
    is_prepared(alloc, &asked, params, wanted, 0)
}

/// 2, `'now'`, X'00FF'
fn list(alloc: Global) -> Result<Params, Fail> {
    let mut list = Seq::new(alloc);
    list.push(Value::Int(2))?;
    list.push(Value::Text(text(alloc, "now")?))?;
    list.push(Value::Blob(Bytes::new(alloc, b"\x00\xff")?))?;
    Ok(Params::List(list))
}

/// `a` is NULL, `B` is -1.
fn named(alloc: Global) -> Result<Params, Fail> {
    let mut named = Seq::new(alloc);
    named.push((text(alloc, "B")?, Value::Int(-1)))?;
    named.push((text(alloc, "a")?, Value::Null))?;
    Ok(Params::Named(named))
}

/// What is given for parameters.
#[derive(Clone, Copy)]
enum Given {
    Nothing,
    /// 2, 'now', X'00FF'
    List,
    /// B: -1, a: NULL
    Named,
}

/// Texts, what is given, and the canonical text of what runs, or the error.
const BOUND: [(&str, Given, &str); 16] = [
    (
        "SELECT ?, f(?) ORDER BY ?",
        Given::List,
        "SELECT 2, F('now') ORDER BY X'00FF'",
    ),
    (
        "SELECT 1 ORDER BY ?, ?, ?",
        Given::List,
        "SELECT 1 ORDER BY 2, 'now', X'00FF'",
    ),
    (
        "SELECT ?, date(?), ?",
        Given::List,
        "SELECT 2, DATE('1970-01-01 00:00:00'), X'00FF'",
    ),
    (
        "INSERT INTO t(a, b) VALUES (?, 1), (?, ?)",
        Given::List,
        "INSERT INTO \"t\" (\"a\", \"b\") VALUES (2, 1), ('now', X'00FF')",
    ),
    (
        "UPDATE t SET a = ?, b = ? WHERE c = ?",
        Given::List,
        "UPDATE \"t\" SET \"a\" = 2, \"b\" = 'now' WHERE (\"c\" = X'00FF')",
    ),
    (
        "DELETE FROM t WHERE a BETWEEN ? AND ? OR NOT -(?)",
        Given::List,
        "DELETE FROM \"t\" WHERE ((\"a\" BETWEEN 2 AND 'now') OR (NOT -(X'00FF')))",
    ),
    (
        "SELECT ?, :a",
        Given::List,
        "wrong number of parameters: needed 1, given 3",
    ),
    ("SELECT ?, ?, ?, :a", Given::List, "missing parameter: a"),
    (
        "SELECT :a IN (:B, $a) LIMIT @B",
        Given::Named,
        "SELECT (NULL IN (-1, NULL)) LIMIT -1",
    ),
    ("SELECT :a, :b, :c", Given::Named, "missing parameter: b"),
    (
        "SELECT :a, ?",
        Given::Named,
        "wrong number of parameters: needed 1, given 0",
    ),
    (
        "SELECT randomblob(:B)",
        Given::Named,
        "blob size out of range: -1",
    ),
    (
        "SELECT randomblob(:a)",
        Given::Named,
        "blob size is no number",
    ),
    ("DROP TABLE t", Given::Named, "DROP TABLE \"t\""),
    ("SELECT 1", Given::Nothing, "SELECT 1"),
    ("SELECT :a", Given::Nothing, "missing parameter: a"),
];

fn params_of(alloc: Global, given: Given) -> Result<Params, Fail> {
    match given {
        Given::Nothing => Ok(Params::None),
        Given::List => list(alloc),
        Given::Named => named(alloc),
    }
}

#[test]
fn bound_statements(rt: HostRuntime) -> Result<(), Fail> {
    let alloc = rt.alloc();
    for (text, given, wanted) in &BOUND {
        let params = params_of(alloc, *given)?;
        let is = is_bound(alloc, text, &params, wanted);
        drop(params);
        assert!(rt; is?, "{text}");
    }
    Ok(())
}
