//! Replies.
use rq_replies::reply;
use rq_request::{Member, NodeRefusal, Say, Shape};
use rq_statement::Res;
use rq_values::{Addr, Bytes, Id, Seq, Text, Value};
use std::alloc::Global;
use std::test::Fail;

const PLAIN: Shape = Shape {
    associative: false,
    pretty: false,
};

const OBJECTS: Shape = Shape {
    associative: true,
    pretty: false,
};

const PRETTY: Shape = Shape {
    associative: false,
    pretty: true,
};

const BOTH: Shape = Shape {
    associative: true,
    pretty: true,
};

/// One row, in each shape.
const PEOPLE: [(Shape, &str); 4] = [
    (
        PLAIN,
        "{\"results\":[{\"columns\":[\"id\",\"name\",\"age\"],\"types\":[\"integer\",\"text\",\"integer\"],\"values\":[[2,\"declan\",null]]}]}",
    ),
    (
        OBJECTS,
        "{\"results\":[{\"rows\":[{\"age\":null,\"id\":2,\"name\":\"declan\"}],\"types\":{\"age\":\"integer\",\"id\":\"integer\",\"name\":\"text\"}}]}",
    ),
    (
        PRETTY,
        "{\n  \"results\": [\n    {\n      \"columns\": [\n        \"id\",\n        \"name\",\n        \"age\"\n      ],\n      \"types\": [\n        \"integer\",\n        \"text\",\n        \"integer\"\n      ],\n      \"values\": [\n        [\n          2,\n          \"declan\",\n          null\n        ]\n      ]\n    }\n  ]\n}",
    ),
    (
        BOTH,
        "{\n  \"results\": [\n    {\n      \"rows\": [\n        {\n          \"age\": null,\n          \"id\": 2,\n          \"name\": \"declan\"\n        }\n      ],\n      \"types\": {\n        \"age\": \"integer\",\n        \"id\": \"integer\",\n        \"name\": \"text\"\n      }\n    }\n  ]\n}",
    ),
];

/// Equal headings, a row and types shorter than the headings, and a blob.
const UNEVEN: [(Shape, &str); 2] = [
    (
        PLAIN,
        "{\"results\":[{\"columns\":[\"b\",\"a\",\"b\"],\"types\":[\"x\",\"y\"],\"values\":[[1,2,\"AP8=\"],[7]]}]}",
    ),
    (
        OBJECTS,
        "{\"results\":[{\"rows\":[{\"a\":2,\"b\":\"AP8=\"},{\"b\":7}],\"types\":{\"a\":\"y\",\"b\":\"x\"}}]}",
    ),
];

/// Writes, an error, and a read without rows.
const SEVERAL: [(Shape, &str); 3] = [
    (
        PLAIN,
        "{\"results\":[{},{\"last_insert_id\":-3,\"rows_affected\":1},{\"error\":\"near \\\"SELEC\\\": \\u0001\\n\u{7f}/\u{e9}\\\\\"},{\"columns\":[\"b\",\"a\"],\"types\":[\"\",\"\"]}]}",
    ),
    (
        OBJECTS,
        "{\"results\":[{},{\"last_insert_id\":-3,\"rows_affected\":1},{\"error\":\"near \\\"SELEC\\\": \\u0001\\n\u{7f}/\u{e9}\\\\\"},{\"types\":{\"a\":\"\",\"b\":\"\"}}]}",
    ),
    (
        PRETTY,
        "{\n  \"results\": [\n    {},\n    {\n      \"last_insert_id\": -3,\n      \"rows_affected\": 1\n    },\n    {\n      \"error\": \"near \\\"SELEC\\\": \\u0001\\n\u{7f}/\u{e9}\\\\\"\n    },\n    {\n      \"columns\": [\n        \"b\",\n        \"a\"\n      ],\n      \"types\": [\n        \"\",\n        \"\"\n      ]\n    }\n  ]\n}",
    ),
];

const SERVERS: [(Shape, &str); 2] = [
    (
        PLAIN,
        "{\"n1\":{\"addr\":\"n1:4001\",\"leader\":true,\"voter\":true},\"n2\":{\"addr\":\"n2:4001\",\"leader\":false,\"voter\":true}}",
    ),
    (
        PRETTY,
        "{\n  \"n1\": {\n    \"addr\": \"n1:4001\",\n    \"leader\": true,\n    \"voter\": true\n  },\n  \"n2\": {\n    \"addr\": \"n2:4001\",\n    \"leader\": false,\n    \"voter\": true\n  }\n}",
    ),
];

const QUEUED: [(Shape, &str); 2] = [
    (PLAIN, "{\"results\":[],\"sequence_number\":7}"),
    (PRETTY, "{\n  \"results\": [],\n  \"sequence_number\": 7\n}"),
];

const LOADED: [(Shape, &str); 1] = [(PLAIN, "{\"results\":[]}")];

const CHANGED: [(Shape, &str); 1] = [(PRETTY, "{}")];

const READY: [(Shape, &str); 1] = [(PRETTY, "ready")];

const BACKUP: [(Shape, &str); 1] = [(BOTH, "COMMIT;\n")];

const MOVED: [(Shape, &str); 1] = [(PLAIN, "")];

const REFUSALS: [(NodeRefusal, u16, &str); 8] = [
    (
        NodeRefusal::Stale {
            contact: None,
            now: 5,
            limit: 3,
        },
        503,
        "stale: contact none, now 5, limit 3",
    ),
    (
        NodeRefusal::Stale {
            contact: Some(1),
            now: 5,
            limit: 3,
        },
        503,
        "stale: contact 1, now 5, limit 3",
    ),
    (
        NodeRefusal::NoLeader { term: 0 },
        503,
        "leader not found: term 0",
    ),
    (
        NodeRefusal::EntryTooLarge(8_388_609),
        413,
        "entry too large: 8388609",
    ),
    (
        NodeRefusal::QueuedTooLarge(64_001),
        413,
        "queued request too large: 64001",
    ),
    (NodeRefusal::QueueFull(1_024), 503, "queue full: 1024"),
    (
        NodeRefusal::Lost { term: 1, now: 2 },
        503,
        "leadership lost: term 1, now 2",
    ),
    (
        NodeRefusal::Timeout {
            asked: 0,
            now: 10_000,
        },
        503,
        "timeout: asked 0, now 10000",
    ),
];

#[test]
fn results_are_written(rt: HostRuntime) -> Result<(), Fail> {
    let alloc = rt.alloc();
    assert!(rt; are_replies(alloc, &results(alloc, people(alloc)?)?, 200, &PEOPLE)?);
    assert!(rt; are_replies(alloc, &results(alloc, uneven(alloc)?)?, 200, &UNEVEN)?);
    assert!(rt; are_replies(alloc, &several(alloc)?, 200, &SEVERAL)?);
    Ok(())
}

#[test]
fn other_replies_are_written(rt: HostRuntime) -> Result<(), Fail> {
    let alloc = rt.alloc();
    assert!(rt; are_replies(alloc, &Say::Nodes(servers(alloc)?), 200, &SERVERS)?);
    assert!(rt; are_replies(alloc, &Say::Queued(7), 200, &QUEUED)?);
    assert!(rt; are_replies(alloc, &Say::Loaded, 200, &LOADED)?);
    assert!(rt; are_replies(alloc, &Say::Changed, 200, &CHANGED)?);
    assert!(rt; are_replies(alloc, &Say::Ready, 200, &READY)?);
    assert!(rt; are_replies(alloc, &Say::Backup(text(alloc, "COMMIT;\n")?), 200, &BACKUP)?);
    let address = Bytes::from_vec(Vec::from_slice(alloc, b"http://n2:4001/db/execute")?);
    assert!(rt; are_replies(alloc, &Say::Moved(address), 301, &MOVED)?);
    for (refusal, status, body) in REFUSALS {
        assert!(rt;
            are_replies(alloc, &Say::Refused(refusal), status, &[(BOTH, body)])?,
            "{body}"
        );
    }
    Ok(())
}

/// Whether the reply has this status, and in each shape its body, behind two bytes that stay.
fn are_replies(
    alloc: Global,
    say: &Say,
    status: u16,
    bodies: &[(Shape, &str)],
) -> Result<bool, Fail> {
    let mut are = say.status() == status;
    for (shape, body) in bodies {
        let mut into = Vec::from_slice(alloc, b"a:")?;
        reply(alloc, say, *shape, &mut into)?;
        are = are && into.starts_with(b"a:") && &into[2..] == body.as_bytes();
    }
    Ok(are)
}

fn results(alloc: Global, res: Res) -> Result<Say, Fail> {
    let mut list = Seq::new(alloc);
    list.push(res)?;
    Ok(Say::Results(list))
}

fn people(alloc: Global) -> Result<Res, Fail> {
    let mut row = Seq::new(alloc);
    row.push(Value::Int(2))?;
    row.push(Value::Text(text(alloc, "declan")?))?;
    row.push(Value::Null)?;
    let mut values = Seq::new(alloc);
    values.push(row)?;
    Ok(Res::Rows {
        columns: texts(alloc, &["id", "name", "age"])?,
        types: texts(alloc, &["integer", "text", "integer"])?,
        values,
    })
}

fn uneven(alloc: Global) -> Result<Res, Fail> {
    let mut row = Seq::new(alloc);
    row.push(Value::Int(1))?;
    row.push(Value::Int(2))?;
    row.push(Value::Blob(Bytes::from_vec(Vec::from_slice(alloc, b"\x00\xff")?)))?;
    let mut short = Seq::new(alloc);
    short.push(Value::Int(7))?;
    let mut values = Seq::new(alloc);
    values.push(row)?;
    values.push(short)?;
    Ok(Res::Rows {
        columns: texts(alloc, &["b", "a", "b"])?,
        types: texts(alloc, &["x", "y"])?,
        values,
    })
}

fn several(alloc: Global) -> Result<Say, Fail> {
    let mut list = Seq::new(alloc);
    list.push(Res::Done {
        last_insert_id: 0,
        rows_affected: 0,
    })?;
    list.push(Res::Done {
        last_insert_id: -3,
        rows_affected: 1,
    })?;
    list.push(Res::Error(text(alloc, "near \"SELEC\": \u{1}\n\u{7f}/\u{e9}\\")?))?;
    list.push(Res::Rows {
        columns: texts(alloc, &["b", "a"])?,
        types: texts(alloc, &["", ""])?,
        values: Seq::new(alloc),
    })?;
    Ok(Say::Results(list))
}

fn servers(alloc: Global) -> Result<Seq<(Member, bool)>, Fail> {
    let mut list = Seq::new(alloc);
    list.push((member(alloc, "n1", "n1:4001")?, true))?;
    list.push((member(alloc, "n2", "n2:4001")?, false))?;
    Ok(list)
}

fn member(alloc: Global, id: &str, address: &str) -> Result<Member, Fail> {
    let http = Addr::new(alloc, address.as_bytes())?;
    let raft = Addr::new(alloc, address.as_bytes())?;
    Ok(Member {
        id: Id::new(id.as_bytes()).ok_or("no id")?,
        voter: true,
        http: http.ok_or("no address")?,
        raft: raft.ok_or("no address")?,
    })
}

fn text(alloc: Global, word: &str) -> Result<Text, Fail> {
    let found = Text::new(alloc, word.as_bytes())?;
    Ok(found.ok_or("no text")?)
}

fn texts(alloc: Global, words: &[&str]) -> Result<Seq<Text>, Fail> {
    let mut list = Seq::new(alloc);
    for word in words {
        list.push(text(alloc, word)?)?;
    }
    Ok(list)
}
