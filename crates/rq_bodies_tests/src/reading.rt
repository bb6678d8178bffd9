//! Bodies, and what they ask.
use rq_bodies::parse_list;
use rq_request::{Params, Statement};
use rq_values::Value;
use std::alloc::Global;
use std::test::Fail;

/// A body, and its statements as `show` has them or the text of its refusal.
const BODIES: [(&str, &str); 79] = [
    ("[]", ""),
    (" [ ] ", ""),
    ("[\"SELECT 1\"]", "SELECT 1;"),
    ("[\"a\",\"b\"]", "a;b;"),
    ("[[\"a\"]]", "a);"),
    ("[[\"a\",1,null,true,false,\"x\"]]", "a(1 null 1 0 'x');"),
    (
        "[[\"a\",-9223372036854775808,9223372036854775807]]",
        "a(-9223372036854775808 9223372036854775807);",
    ),
    ("[[\"a\",0]]", "a(0);"),
    ("[[\"a\",{}]]", "a};"),
    ("[[\"a\",{\"b\":1,\"a\":\"x\"}]]", "a{a='x' b=1};"),
    ("[[\"a\",{\"b\":1,\"a\":2,\"b\":3}]]", "a{a=2 b=3};"),
    ("[[\"a\",{\"b\":{},\"b\":3}]]", "a{b=3};"),
    (
        "[[\"a\",{\"b\":3,\"b\":{}}]]",
        "statement 1, value 1: not a value",
    ),
    ("[[\"a\",{\"\":1}]]", "a{=1};"),
    (
        "[[\"a\",{\"B\":1,\"a\":2,\"\u{e9}\":3}]]",
        "a{B=1 a=2 \u{e9}=3};",
    ),
    ("[\"\"]", ";"),
    ("[\"\\u00e9\"]", "\u{e9};"),
    ("[\"\\ud83d\\ude00\"]", "\u{1f600};"),
    ("[\"a\\nb\"]", "a\nb;"),
    ("", "body is not JSON"),
    (" ", "body is not JSON"),
    ("[", "body is not JSON"),
    ("]", "body is not JSON"),
    ("[]]", "body is not JSON"),
    ("[] []", "body is not JSON"),
    ("[\"a\",]", "body is not JSON"),
    ("[,\"a\"]", "body is not JSON"),
    ("[\"a\" \"b\"]", "body is not JSON"),
    ("['a']", "body is not JSON"),
    ("[\"a]", "body is not JSON"),
    ("[\"a\nb\"]", "body is not JSON"),
    ("[\"\\x\"]", "body is not JSON"),
    ("[\"\\ud83d\"]", "body is not JSON"),
    ("[01]", "body is not JSON"),
    ("[1.]", "body is not JSON"),
    ("[+1]", "body is not JSON"),
    ("[NaN]", "body is not JSON"),
    ("[1e400]", "body is not JSON"),
    ("[5,1e400]", "body is not JSON"),
    ("{\"a\":1", "body is not JSON"),
    ("{\"a\":1}", "body is not a list"),
    ("\"SELECT 1\"", "body is not a list"),
    ("null", "body is not a list"),
    ("1", "body is not a list"),
    ("true", "body is not a list"),
    ("[\"SELECT 1\",5]", "statement 2: not a statement"),
    ("[null]", "statement 1: not a statement"),
    ("[{}]", "statement 1: not a statement"),
    ("[[]]", "statement 1: not a statement"),
    ("[[5]]", "statement 1: not a statement"),
    ("[[[\"a\"]]]", "statement 1: not a statement"),
    ("[\"a\\u0000b\"]", "statement 1: not a statement"),
    ("[[\"a\\u0000b\",1.5]]", "statement 1: not a statement"),
    ("[[\"a\",1.5]]", "statement 1, value 1: not a value"),
    ("[[\"a\",1,{\"a\":1}]]", "statement 1, value 2: not a value"),
    ("[[\"a\",{\"a\":1},1]]", "statement 1, value 1: not a value"),
    (
        "[\"a\",[\"b\",1,[]],5]",
        "statement 2, value 2: not a value",
    ),
    (
        "[[\"a\",9223372036854775808]]",
        "statement 1, value 1: not a value",
    ),
    ("[[\"a\",-0]]", "statement 1, value 1: not a value"),
    ("[[\"a\",1e2]]", "statement 1, value 1: not a value"),
    (
        "[[\"a\",{\"b\":1.5,\"a\":{},\"c\":1}]]",
        "statement 1, value 1: not a value",
    ),
    (
        "[[\"a\",{\"a\":1,\"b\\u0000\":1}]]",
        "statement 1, value 2: not a value",
    ),
    ("[[\"a\",1.0]]", "statement 1, value 1: not a value"),
    ("[[\"a\",1E2]]", "statement 1, value 1: not a value"),
    (
        "[[\"a\",-9223372036854775809]]",
        "statement 1, value 1: not a value",
    ),
    ("[[\"a\",[1]]]", "statement 1, value 1: not a value"),
    ("[[\"a\",null,{}]]", "statement 1, value 2: not a value"),
    (
        "[[\"a\",\"x\\u0000\"]]",
        "statement 1, value 1: not a value",
    ),
    (
        "[[\"a\",{\"a\":[]}],5]",
        "statement 1, value 1: not a value",
    ),
    ("[5,[\"a\",[]]]", "statement 1: not a statement"),
    ("[[\"a\",{\"a\":1,\"\\u0061\":2}]]", "a{a=2};"),
    ("\t[\r\n\"\\/\" ] ", "/;"),
    ("\u{feff}[]", "body is not JSON"),
    ("[\"a\"]\u{0}", "body is not JSON"),
    ("[tru]", "body is not JSON"),
    (
        "[\"SELECT 1\", [\"INSERT INTO t VALUES (?, ?)\", \"fiona\", 20]]",
        "SELECT 1;INSERT INTO t VALUES (?, ?)('fiona' 20);",
    ),
    (
        "[[\"SELECT :a\", {\"b\": 1, \"a\": null}]]",
        "SELECT :a{a=null b=1};",
    ),
    (
        "[[\"SELECT :a\", {\"a\": [], \"a\": 2}]]",
        "SELECT :a{a=2};",
    ),
    (
        "[[\"SELECT ?\", 1, 1.5]]",
        "statement 1, value 2: not a value",
    ),
];

#[test]
fn bodies_are_read(rt: HostRuntime) -> Result<(), Fail> {
    for (body, wanted) in BODIES {
        assert!(rt; is_shown(rt.alloc(), body.as_bytes(), wanted)?, "{body}");
    }
    Ok(())
}

#[test]
fn counts_and_depths_are_looked_at(rt: HostRuntime) -> Result<(), Fail> {
    let alloc = rt.alloc();
    let many = [
        (10_000, "statement 1: not a statement"),
        (10_001, "too many statements: 10001"),
    ];
    for (count, wanted) in many {
        assert!(rt; is_shown(alloc, zeros(alloc, count)?.as_slice(), wanted)?);
    }
    let deep = [
        (127, "statement 1: not a statement"),
        (128, "body is not JSON"),
    ];
    for (depth, wanted) in deep {
        assert!(rt; is_shown(alloc, nested(alloc, depth)?.as_slice(), wanted)?);
    }
    assert!(rt; is_shown(alloc, b"[\"\xff\"]", "body is not JSON")?);
    Ok(())
}

/// A list of so many zeros.
fn zeros(alloc: Global, count: u64) -> Result<Vec<u8>, Fail> {
    let mut body = Vec::from_slice(alloc, b"[0")?;
    for _ in 1..count {
        body.extend_from_slice(b",0")?;
    }
    body.extend_from_slice(b"]")?;
    Ok(body)
}

/// A list in a list, so many deep.
fn nested(alloc: Global, depth: u64) -> Result<Vec<u8>, Fail> {
    let mut body = Vec::new(alloc);
    for _ in 0..depth {
        body.extend_from_slice(b"[")?;
    }
    for _ in 0..depth {
        body.extend_from_slice(b"]")?;
    }
    Ok(body)
}

/// Whether the body lists these statements, each with what is given for its parameters, or has a refusal of this text.
fn is_shown(alloc: Global, body: &[u8], wanted: &str) -> Result<bool, Fail> {
    let mut text = Vec::new(alloc);
    match parse_list(alloc, body) {
        Ok(list) => {
            for statement in list.as_slice() {
                show(alloc, statement, &mut text)?;
            }
        }
        Err(error) => error.write(alloc, &mut text)?,
    }
    Ok(text.as_slice() == wanted.as_bytes())
}

fn show(alloc: Global, statement: &Statement, text: &mut Vec<u8>) -> Result<(), Fail> {
    text.extend_from_slice(statement.text.bytes())?;
    match &statement.params {
        Params::None => {}
        Params::List(values) => {
            let mut before: &[u8] = b"(";
            for value in values.as_slice() {
                text.extend_from_slice(before)?;
                show_value(alloc, value, text)?;
                before = b" ";
            }
            text.extend_from_slice(b")")?;
        }
        Params::Named(values) => {
            let mut before: &[u8] = b"{";
            for pair in values.as_slice() {
                text.extend_from_slice(before)?;
                text.extend_from_slice(pair.0.bytes())?;
                text.extend_from_slice(b"=")?;
                show_value(alloc, &pair.1, text)?;
                before = b" ";
            }
            text.extend_from_slice(b"}")?;
        }
    }
    text.extend_from_slice(b";")?;
    Ok(())
}

fn show_value(alloc: Global, value: &Value, text: &mut Vec<u8>) -> Result<(), Fail> {
    match value {
        Value::Null => text.extend_from_slice(b"null")?,
        Value::Int(n) => text.extend_from_slice(format!(in alloc; "{n}")?.as_bytes())?,
        Value::Text(inner) => {
            text.extend_from_slice(format!(in alloc; "'{}'", inner.as_str())?.as_bytes())?;
        }
        Value::Blob(_) => text.extend_from_slice(b"blob")?,
    }
    Ok(())
}
