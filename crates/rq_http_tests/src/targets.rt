//! What targets ask for, and how they are refused.
use rq_request::Level;
use rq_route::{Path, Request, Routed, route};
use rq_values::NoMemory;
use std::alloc::Global;
use std::test::Fail;

/// A line for each method and target, and what becomes of them with an empty body, with a full stop at its end: a status and a
/// text; or path, level, timeout, the letters of the flags that are on, and the statement that a GET names.
const ROWS: &str = "\
POST /db/execute -> execute weak 10000 -.
POST /db/query -> query weak 10000 -.
POST /db/request -> request weak 10000 -.
GET /db/query?q=SELECT+1 -> query weak 10000 - SELECT 1.
POST /x -> 404 no such path: /x.
POST / -> 404 no such path: /.
POST  -> 404 no such path: .
POST /db -> 404 no such path: /db.
POST /db/ -> 404 no such path: /db/.
POST /db/execute/ -> 404 no such path: /db/execute/.
POST /db//execute -> 404 no such path: /db//execute.
POST /DB/EXECUTE -> 404 no such path: /DB/EXECUTE.
POST /db/executes -> 404 no such path: /db/executes.
POST /db/quer -> 404 no such path: /db/quer.
POST /nodes -> 404 no such path: /nodes.
POST /db/backup -> 404 no such path: /db/backup.
POST * -> 404 no such path: *.
POST db/execute -> 404 no such path: db/execute.
POST /db/execute#a -> 404 no such path: /db/execute#a.
GET /x?q=1 -> 404 no such path: /x.
PUT /x -> 404 no such path: /x.
POST /db%2fexecutes -> 404 no such path: /db%2fexecutes.
POST /db/%ff -> 404 no such path: /db/%ff.
POST /db/execute% -> 404 no such path: /db/execute%.
POST /db/execute+ -> 404 no such path: /db/execute+.
POST /db%2Fexecute -> execute weak 10000 -.
POST /%64b/%65xecute -> execute weak 10000 -.
PUT /db/execute -> 405 method not allowed: PUT.
GET /db/execute -> 405 method not allowed: GET.
HEAD /db/execute -> 405 method not allowed: HEAD.
OPTIONS /db/execute -> 405 method not allowed: OPTIONS.
DELETE /db/execute -> 405 method not allowed: DELETE.
PATCH /db/execute -> 405 method not allowed: PATCH.
TRACE /db/execute -> 405 method not allowed: TRACE.
CONNECT /db/execute -> 405 method not allowed: CONNECT.
post /db/execute -> 405 method not allowed: post.
POSTS /db/execute -> 405 method not allowed: POSTS.
BREW /db/execute -> 405 method not allowed: BREW.
HEAD /db/query?q=1 -> 405 method not allowed: HEAD.
GET /db/request?q=1 -> 405 method not allowed: GET.
POST http://localhost:4001/db/execute -> execute weak 10000 -.
POST HTTP://[::1]:4001/db/execute?pretty -> execute weak 10000 p.
GET http://a/db/query?q=1 -> query weak 10000 - 1.
GET http://a -> 404 no such path: .
GET http://a?q=1 -> 404 no such path: .
GET http://a/x?q=1 -> 404 no such path: /x.
GET https://a/x -> 404 no such path: https://a/x.
GET /http://a/db/query -> 404 no such path: /http://a/db/query.
POST /db/query?level=none -> query none 10000 -.
POST /db/query?level=weak -> query weak 10000 -.
POST /db/request?level=none -> request none 10000 -.
POST /db/execute?level=none -> execute weak 10000 -.
POST /db/execute?level=auto&freshness=1s -> execute weak 10000 -.
POST /db/query?level=auto -> 400 bad parameter: level.
POST /db/query?level=NONE -> 400 bad parameter: level.
POST /db/query?level=None -> 400 bad parameter: level.
POST /db/query?level= -> 400 bad parameter: level.
POST /db/query?level=linearizable -> 400 bad parameter: level.
POST /db/query?level=strong -> 400 bad parameter: level.
POST /db/query?level=%20none -> 400 bad parameter: level.
POST /db/query?level -> 400 bad parameter: level.
POST /db/query?level=none&level=auto -> query none 10000 -.
POST /db/query?level=auto&level=none -> 400 bad parameter: level.
POST /db/query?LEVEL=auto -> query weak 10000 -.
POST /db/query?l%65vel=n%6Fne -> query none 10000 -.
POST /db/query?freshness=1s&timeout=x -> 400 bad parameter: freshness.
POST /db/request?freshness -> 400 bad parameter: freshness.
POST /db/execute?timeout=2s -> execute weak 2000 -.
POST /db/execute?timeout=250ms -> execute weak 250 -.
POST /db/execute?timeout=1m -> execute weak 60000 -.
POST /db/execute?timeout=0s -> execute weak 0 -.
POST /db/execute?timeout=0000000010s -> execute weak 10000 -.
POST /db/execute?timeout=9999999999m -> execute weak 599999999940000 -.
POST /db/execute?timeout= -> 400 bad parameter: timeout.
POST /db/execute?timeout=s -> 400 bad parameter: timeout.
POST /db/execute?timeout=ms -> 400 bad parameter: timeout.
POST /db/execute?timeout=5 -> 400 bad parameter: timeout.
POST /db/execute?timeout=1h -> 400 bad parameter: timeout.
POST /db/execute?timeout=1S -> 400 bad parameter: timeout.
POST /db/execute?timeout=-1s -> 400 bad parameter: timeout.
POST /db/execute?timeout=%2B1s -> 400 bad parameter: timeout.
POST /db/execute?timeout=1.5s -> 400 bad parameter: timeout.
POST /db/execute?timeout=1+s -> 400 bad parameter: timeout.
POST /db/execute?timeout=00000000010s -> 400 bad parameter: timeout.
POST /db/execute?timeout=99999999999ms -> 400 bad parameter: timeout.
POST /db/execute?timeout=1s1s -> 400 bad parameter: timeout.
POST /db/execute?timeout=1sm -> 400 bad parameter: timeout.
POST /db/execute?timeout=%C2%B21s -> 400 bad parameter: timeout.
POST /db/query?timeout=x&level=auto -> 400 bad parameter: level.
POST /db/execute?queue -> 400 bad parameter: queue.
POST /db/execute?wait -> 400 bad parameter: wait.
POST /db/execute?wait&queue -> 400 bad parameter: queue.
POST /db/execute?queue&timeout=x -> 400 bad parameter: timeout.
POST /db/query?queue&wait -> query weak 10000 -.
GET /db/query -> 400 bad parameter: q.
GET /db/query?Q=1 -> 400 bad parameter: q.
GET /db/query?q=a%00b -> 400 bad parameter: q.
GET /db/query?freshness=1s -> 400 bad parameter: freshness.
GET /db/query?q -> query weak 10000 - .
GET /db/query?q=1&q=2 -> query weak 10000 - 1.
GET /db/query?q=a%2Bb+c%20d%26e -> query weak 10000 - a+b c d&e.
GET /db/query?q=a=b?c -> query weak 10000 - a=b?c.
GET /db/query?q=%E2%82%AC%zz%4 -> query weak 10000 - €%zz%4.
GET /db/query?&&q=1& -> query weak 10000 - 1.
POST /db/query?q=1 -> query weak 10000 -.
POST /db/execute?transaction -> execute weak 10000 t.
POST /db/execute?transaction=false&pretty=0 -> execute weak 10000 tp.
POST /db/request?transaction&associative&pretty -> request weak 10000 tap.
POST /db/query?transaction&associative -> query weak 10000 a.
POST /db/execute?associative -> execute weak 10000 -.
POST /db/execute?redirect&other=1 -> execute weak 10000 -.
";

fn path_name(path: Path) -> &'static [u8] {
    match path {
        Path::Execute => b"execute",
        Path::Query => b"query",
        Path::Request => b"request",
    }
}

fn level_name(level: Level) -> &'static [u8] {
    match level {
        Level::None => b" none ",
        Level::Weak => b" weak ",
        Level::Linearizable => b" linearizable ",
        Level::Strong => b" strong ",
    }
}

/// The letters of the flags that are on.
fn put_flags(request: &Request, into: &mut Vec<u8>) -> Result<(), NoMemory> {
    let mut has_flags = false;
    for (letter, is_on) in [
        (b't', request.transaction),
        (b'a', request.shape.associative),
        (b'p', request.shape.pretty),
    ] {
        if is_on {
            into.push(letter)?;
            has_flags = true;
        }
    }
    if !has_flags {
        into.push(b'-')?;
    }
    Ok(())
}

fn put_request(alloc: Global, request: &Request, into: &mut Vec<u8>) -> Result<(), NoMemory> {
    let timeout = request.timeout;
    let timeout = format!(in alloc; "{timeout} ")?;
    into.extend_from_slice(path_name(request.path))?;
    into.extend_from_slice(level_name(request.level))?;
    into.extend_from_slice(timeout.as_bytes())?;
    put_flags(request, into)?;
    if let Some(statement) = &request.statement {
        into.push(b' ')?;
        into.extend_from_slice(statement.bytes())?;
    }
    Ok(())
}

/// What becomes of a method and a target, as it stands in a line.
fn becomes(alloc: Global, method: &[u8], target: &[u8]) -> Result<Vec<u8>, NoMemory> {
    let mut text = Vec::new(alloc);
    match route(alloc, method, target, &[])? {
        Routed::Taken(request) => {
            let put = put_request(alloc, &request, &mut text);
            drop(request);
            put?;
        }
        Routed::Refused(refusal) => {
            let status = refusal.status();
            let status = format!(in alloc; "{status} ")?;
            text.extend_from_slice(status.as_bytes())?;
            text.extend_from_slice(&refusal.text(alloc, method, target)?)?;
        }
    }
    text.push(b'.')?;
    Ok(text)
}

fn holds(alloc: Global, row: &str) -> Result<bool, NoMemory> {
    let Some((request, wanted)) = row.split_once(" -> ") else {
        return Ok(false);
    };
    let Some((method, target)) = request.split_once(' ') else {
        return Ok(false);
    };
    let found = becomes(alloc, method.as_bytes(), target.as_bytes())?;
    Ok(found.as_slice() == wanted.as_bytes())
}

/// How many rows hold, up to the first that doesn't.
fn held(alloc: Global, rows: &str) -> Result<usize, NoMemory> {
    for (i, row) in rows.lines().enumerate() {
        if !holds(alloc, row)? {
            return Ok(i);
        }
    }
    Ok(rows.lines().count())
}

#[test]
fn targets_are_routed(rt: HostRuntime) -> Result<(), Fail> {
    assert_eq!(rt; held(rt.alloc(), ROWS).ok(), Some(111));
    Ok(())
}
