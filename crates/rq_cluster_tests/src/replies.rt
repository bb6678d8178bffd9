use rq_json::statements_of;
use rq_replies::reply;
use rq_request::{NodeRefusal, Say, Shape};
use rq_statement::Res;
use rq_values::{Seq, Text, Value};
use std::alloc::Global;
use std::test::Fail;

const PLAIN: Shape = Shape {
    associative: false,
    pretty: false,
};

fn push<T: Drop>(list: &mut Seq<T>, item: T) -> Result<(), Fail> {
    match list.push(item) {
        Ok(()) => Ok(()),
        Err(_) => Err("memory".into()),
    }
}

fn text(alloc: Global, bytes: &[u8]) -> Result<Text, Fail> {
    match Text::new(alloc, bytes) {
        Ok(Some(text)) => Ok(text),
        _ => Err("text".into()),
    }
}

fn texts(alloc: Global, list: &[&[u8]]) -> Result<Seq<Text>, Fail> {
    let mut texts = Seq::new(alloc);
    for bytes in list {
        push(&mut texts, text(alloc, bytes)?)?;
    }
    Ok(texts)
}

/// The rows that a query finds: one of three columns.
fn fiona(alloc: Global) -> Result<Res, Fail> {
    let mut row = Seq::new(alloc);
    push(&mut row, Value::Int(1))?;
    push(&mut row, Value::Text(text(alloc, b"fiona")?))?;
    push(&mut row, Value::Int(20))?;
    let mut values = Seq::new(alloc);
    push(&mut values, row)?;
    Ok(Res::Rows {
        columns: texts(alloc, &[b"id", b"name", b"age"])?,
        types: texts(alloc, &[b"integer", b"text", b"integer"])?,
        values,
    })
}

fn done(last_insert_id: i64, rows_affected: u64) -> Res {
    Res::Done {
        last_insert_id,
        rows_affected,
    }
}

/// A result of each kind.
fn results(alloc: Global) -> Result<Say, Fail> {
    let mut results = Seq::new(alloc);
    push(&mut results, done(0, 0))?;
    push(&mut results, done(1, 1))?;
    push(&mut results, fiona(alloc)?)?;
    push(&mut results, Res::Error(text(alloc, b"near \"x\"\n")?))?;
    Ok(Say::Results(results))
}

fn is_reply(alloc: Global, say: &Say, status: u16, body: &[u8]) -> Result<bool, Fail> {
    let mut written = Vec::new(alloc);
    let is_done = reply(alloc, say, PLAIN, &mut written).is_ok();
    let is_same = say.status() == status && written.as_slice() == body;
    drop(written);
    Ok(is_done && is_same)
}

fn results_are(alloc: Global, body: &[u8]) -> Result<bool, Fail> {
    let results = results(alloc)?;
    let is = is_reply(alloc, &results, 200, body);
    drop(results);
    is
}

#[test]
fn replies_are_as_rqlite_has_them(rt: HostRuntime) -> Result<(), Fail> {
    let alloc = rt.alloc();
    let body = b"{\"results\":[{},{\"last_insert_id\":1,\"rows_affected\":1},\
        {\"columns\":[\"id\",\"name\",\"age\"],\"types\":[\"integer\",\"text\",\"integer\"],\
        \"values\":[[1,\"fiona\",20]]},{\"error\":\"near \\\"x\\\"\\n\"}]}";
    assert!(rt; results_are(alloc, body)?);
    let no_leader = Say::Refused(NodeRefusal::NoLeader { term: 0 });
    assert!(rt; is_reply(alloc, &no_leader, 503, b"leader not found: term 0")?);
    let too_large = Say::Refused(NodeRefusal::EntryTooLarge(8_388_609));
    assert!(rt; is_reply(alloc, &too_large, 413, b"entry too large: 8388609")?);
    Ok(())
}

#[test]
fn a_body_is_read(rt: HostRuntime) -> Result<(), Fail> {
    let found = statements_of(rt.alloc(), b" [\"a\", \"\\u00e9\"] ");
    let count = match found {
        Ok(Some(texts)) => texts.len(),
        _ => 0,
    };
    assert_eq!(rt; count, 2);
    Ok(())
}
