use crate::fakes::{OnePort, Over};
use crate::words::node;
use rq_outside::{DiskPair, MemDisk};
use rq_serve::serve_node;
use rq_system::{RandomWords, SteadyClock, SystemThreads, TcpNetwork, WallClock};
use std::alloc::Global;
use std::io::{Read, Write};
use std::net::{Net, TcpStream};
use std::sync::Arc;
use std::sync::atomic::{AtomicU64, Ordering};
use std::test::Fail;
use std::thread;
use std::time::{Clock, Duration};

const ADDRESS: &str = "127.0.0.1:47398";

const MOST_TRIES: u32 = 1_000_000;

/// A request with this body, and the body of its reply.
#[derive(Clone, Copy, Drop)]
struct Exchange {
    target: &'static str,
    asked: &'static str,
    answered: &'static str,
}

const EXCHANGES: [Exchange; 10] = [
    Exchange {
        target: "/db/execute",
        asked: "[\"CREATE TABLE foo (id INTEGER PRIMARY KEY, name TEXT, age INTEGER)\"]",
        answered: "{\"results\":[{}]}",
    },
    Exchange {
        target: "/db/execute",
        asked: "[\"INSERT INTO foo(name, age) VALUES('fiona', 20)\"]",
        answered: "{\"results\":[{\"last_insert_id\":1,\"rows_affected\":1}]}",
    },
    Exchange {
        target: "/db/query?level=none",
        asked: "[\"SELECT * FROM foo\"]",
        answered: "{\"results\":[{\"columns\":[\"id\",\"name\",\"age\"],\"types\":[\"integer\",\"text\",\"integer\"],\"values\":[[1,\"fiona\",20]]}]}",
    },
    Exchange {
        target: "/db/execute",
        asked: "[[\"INSERT INTO foo(name, age) VALUES(?, ?)\", \"sinead\", 25], [\"INSERT INTO foo(name, age) VALUES(:n, ABS(RANDOM()) * 0)\", {\"n\": \"declan\"}]]",
        answered: "{\"results\":[{\"last_insert_id\":2,\"rows_affected\":1},{\"last_insert_id\":3,\"rows_affected\":1}]}",
    },
    Exchange {
        target: "/db/request",
        asked: "[\"UPDATE foo SET name = LENGTH(datetime('now')) WHERE id = 3\", \"INSERT INTO\"]",
        answered: "{\"results\":[{\"rows_affected\":1},{\"error\":\"incomplete input\"}]}",
    },
    Exchange {
        target: "/db/request?transaction&associative",
        asked: "[\"SELECT name, age FROM foo WHERE id > 1\"]",
        answered: "{\"results\":[{\"rows\":[{\"age\":25,\"name\":\"sinead\"},{\"age\":0,\"name\":\"19\"}],\"types\":{\"age\":\"integer\",\"name\":\"text\"}}]}",
    },
    Exchange {
        target: "/db/execute?transaction",
        asked: "[\"DELETE FROM foo\"]",
        answered: "bad parameter: transaction",
    },
    Exchange {
        target: "/db/request",
        asked: "[\"DELETE FROM foo\", \"SELECT 1\"]",
        answered: "not built: a list that writes and reads",
    },
    Exchange {
        target: "/db/query?level=strong",
        asked: "[\"SELECT 1\"]",
        answered: "bad parameter: level",
    },
    Exchange {
        target: "/db/query",
        asked: "[\"SELECT COUNT(*) FROM foo\"]",
        answered: "{\"results\":[{\"columns\":[\"COUNT(*)\"],\"types\":[\"\"],\"values\":[[3]]}]}",
    },
];

/// What a request met.
#[derive(Clone, Copy, PartialEq)]
enum Met {
    Answered,
    NoLeader,
    Other,
}

/// Sends a request, and reads its reply.
fn ask(alloc: Global, stream: &mut TcpStream, exchange: &Exchange) -> Option<Met> {
    let target = exchange.target;
    let asked = exchange.asked;
    let length = asked.len();
    let request = format!(in alloc;
        "POST {target} HTTP/1.1\r\nHost: n1\r\nContent-Length: {length}\r\n\r\n{asked}"
    ).ok()?;
    if stream.write_all(request.as_bytes()).is_err() {
        return Some(Met::Other);
    }
    let mut reply = Vec::new(alloc);
    let mut piece = [0u8; 1024];
    for _ in 0..64 {
        match stream.read(&mut piece) {
            Ok(count) if count > 0 => reply.extend_from_slice(&piece[..count]).ok()?,
            _ => return Some(Met::Other),
        }
        if reply.ends_with(exchange.answered.as_bytes()) {
            return Some(Met::Answered);
        }
        if reply.ends_with(b"leader not found: term 0") {
            return Some(Met::NoLeader);
        }
    }
    Some(Met::Other)
}

/// Makes a request, again where there is no leader yet, and answers whether it was answered.
fn is_answered<R: Clock>(
    rt: &R,
    alloc: Global,
    stream: &mut TcpStream,
    exchange: &Exchange,
) -> bool {
    for _ in 0..MOST_TRIES {
        match ask(alloc, stream, exchange) {
            Some(Met::NoLeader) => thread::sleep(rt, Duration::from_millis(5)),
            Some(Met::Answered) => return true,
            _ => return false,
        }
    }
    false
}

/// Makes all requests over one connection, and answers whether each was answered.
fn all_answered<R: Clock + Net<Stream = TcpStream>>(rt: &R, alloc: Global) -> bool {
    let Some(mut stream) = connected(rt) else {
        return false;
    };
    for exchange in &EXCHANGES {
        if !is_answered(rt, alloc, &mut stream, exchange) {
            return false;
        }
    }
    true
}

/// A connection to the node, as soon as it listens.
fn connected<R: Clock + Net<Stream = TcpStream>>(rt: &R) -> Option<TcpStream> {
    for _ in 0..2000 {
        if let Ok(stream) = TcpStream::connect(rt, ADDRESS) {
            return Some(stream);
        }
        thread::sleep(rt, Duration::from_millis(5));
    }
    None
}

#[test]
fn row_two_over_loopback(rt: HostRuntime) -> Result<(), Fail> {
    let alloc = rt.alloc();
    let over: Over = Arc::new(alloc, AtomicU64::new(0))?;
    let answered = Arc::new(alloc, AtomicU64::new(0))?;
    let (their_over, their_answered) = (Arc::try_clone(&over)?, Arc::try_clone(&answered)?);
    let client = thread::spawn(&rt, move || {
        let all = all_answered(&rt, alloc);
        their_answered.store(u64::from(all), Ordering::SeqCst);
        their_over.store(1, Ordering::SeqCst);
    });
    assert!(rt; client.is_ok());
    let Ok(words) = node(alloc) else {
        assert!(rt; false, "words of a node");
        return Ok(());
    };
    let (Ok(one), Ok(two)) = (
        MemDisk::new(alloc, Vec::new(alloc), Vec::new(alloc)),
        MemDisk::new(alloc, Vec::new(alloc), Vec::new(alloc)),
    ) else {
        assert!(rt; false, "disks in memory");
        return Ok(());
    };
    let mut network = OnePort::new(rt, TcpNetwork::new(rt), over);
    let end = serve_node(
        rt,
        alloc,
        &words,
        &mut network,
        DiskPair::new(one, two),
        SteadyClock::new(rt),
        WallClock::new(rt),
        RandomWords::new([7; 32]),
        SystemThreads::new(rt),
    );
    assert!(rt; end.status() == 4, "no more connections are accepted");
    assert!(rt;
        answered.load(Ordering::SeqCst) == 1,
        "each request was answered"
    );
    Ok(())
}
