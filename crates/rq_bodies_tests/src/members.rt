//! Bodies of joins and removals, and the servers that they name.
use rq_bodies::{parse_join, parse_remove};
use rq_request::Member;
use std::alloc::Global;
use std::test::Fail;

/// A body, what it says as a join, and what it says as a removal: the server, or the text of the refusal.
const MEMBERS: [(&str, &str, &str); 24] = [
    (
        "{\"http\":\"n4:4001\",\"id\":\"n4\",\"raft\":\"n4:4002\",\"voter\":true}",
        "n4 true n4:4001 n4:4002",
        "n4",
    ),
    (
        " { \"voter\" : false , \"raft\" : \"a\", \"x\": [1], \"id\": \"n\\u0034\", \"http\": \"~\" } ",
        "n4 false ~ a",
        "n4",
    ),
    (
        "{\"id\":\"n1\",\"id\":\"n2\",\"http\":\"a\",\"raft\":\"b\",\"voter\":true}",
        "n2 true a b",
        "n2",
    ),
    (
        "{\"id\":\"a234567890123456\",\"http\":\"a\",\"raft\":\"b\",\"voter\":true}",
        "a234567890123456 true a b",
        "a234567890123456",
    ),
    (
        "{\"id\":\"a2345678901234567\",\"http\":\"a\",\"raft\":\"b\",\"voter\":true}",
        "bad member",
        "bad member",
    ),
    ("{\"id\":\"n1\"}", "bad member", "n1"),
    (
        "{\"id\":\"n1\",\"http\":\"a\",\"raft\":\"b\"}",
        "bad member",
        "n1",
    ),
    (
        "{\"id\":\"n1\",\"http\":\"a\",\"raft\":\"b\",\"voter\":1}",
        "bad member",
        "n1",
    ),
    (
        "{\"id\":\"n1\",\"http\":\"a\",\"voter\":true}",
        "bad member",
        "n1",
    ),
    (
        "{\"id\":\"n1\",\"http\":\"a b\",\"raft\":\"b\",\"voter\":true}",
        "bad member",
        "n1",
    ),
    (
        "{\"id\":\"n1\",\"http\":\"\",\"raft\":\"b\",\"voter\":true}",
        "bad member",
        "n1",
    ),
    (
        "{\"id\":\"n1\",\"http\":\"a\",\"raft\":\"\u{e9}\",\"voter\":true}",
        "bad member",
        "n1",
    ),
    (
        "{\"http\":\"a\",\"raft\":\"b\",\"voter\":true}",
        "bad member",
        "bad member",
    ),
    ("{\"ID\":\"n1\"}", "bad member", "bad member"),
    ("{\"id\":\"N1\"}", "bad member", "bad member"),
    ("{\"id\":\"1n\"}", "bad member", "bad member"),
    ("{\"id\":\"\"}", "bad member", "bad member"),
    ("{\"id\":1}", "bad member", "bad member"),
    ("{\"id\":null}", "bad member", "bad member"),
    ("{}", "bad member", "bad member"),
    ("[{\"id\":\"n1\"}]", "bad member", "bad member"),
    ("\"n1\"", "bad member", "bad member"),
    ("", "body is not JSON", "body is not JSON"),
    ("{\"id\":\"n1\"", "body is not JSON", "body is not JSON"),
];

#[test]
fn members_are_read(rt: HostRuntime) -> Result<(), Fail> {
    let alloc = rt.alloc();
    for (body, join, removal) in MEMBERS {
        assert!(rt;
            joined(alloc, body.as_bytes())?.as_slice() == join.as_bytes(),
            "{body}"
        );
        assert!(rt;
            removed(alloc, body.as_bytes())?.as_slice() == removal.as_bytes(),
            "{body}"
        );
    }
    Ok(())
}

fn show(member: &Member, text: &mut Vec<u8>) -> Result<(), Fail> {
    text.extend_from_slice(member.id.bytes())?;
    let voter: &[u8] = if member.voter { b" true " } else { b" false " };
    text.extend_from_slice(voter)?;
    text.extend_from_slice(member.http.bytes())?;
    text.extend_from_slice(b" ")?;
    text.extend_from_slice(member.raft.bytes())?;
    Ok(())
}

fn joined(alloc: Global, body: &[u8]) -> Result<Vec<u8>, Fail> {
    let mut text = Vec::new(alloc);
    match parse_join(alloc, body) {
        Ok(member) => {
            let shown = show(&member, &mut text);
            drop(member);
            shown?;
        }
        Err(error) => error.write(alloc, &mut text)?,
    }
    Ok(text)
}

fn removed(alloc: Global, body: &[u8]) -> Result<Vec<u8>, Fail> {
    let mut text = Vec::new(alloc);
    match parse_remove(alloc, body) {
        Ok(id) => text.extend_from_slice(id.bytes())?,
        Err(error) => error.write(alloc, &mut text)?,
    }
    Ok(text)
}
