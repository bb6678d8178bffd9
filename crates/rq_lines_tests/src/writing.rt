use rq_lines::{
    Standing, Stopped, write_answer, write_down, write_pending, write_rejected, write_show,
    write_show_down, write_stopped, write_up,
};
use rq_raft::Role;
use rq_request::{NodeRefusal, Say, Shape};
use rq_values::{Id, NoMemory, Seq};
use std::alloc::Global;
use std::test::Fail;

const PRETTY: Shape = Shape {
    associative: false,
    pretty: true,
};

const LEADS: Standing = Standing {
    role: Role::Leader,
    term: 2,
    base: 3,
    last: 7,
    commit: 6,
    applied: 5,
};

fn write_servers(alloc: Global, id: &Id, text: &mut Vec<u8>) -> Result<(), NoMemory> {
    write_up(alloc, id, 2, 1, 3, text)?;
    write_down(id, text)?;
    write_show(alloc, id, &LEADS, text)?;
    write_show_down(id, text)
}

fn write_say(alloc: Global, say: Say, text: &mut Vec<u8>) -> Result<(), NoMemory> {
    let done = write_answer(alloc, 2, PRETTY, &say, text);
    drop(say);
    done
}

fn write_asks(alloc: Global, text: &mut Vec<u8>) -> Result<(), NoMemory> {
    write_say(alloc, Say::Refused(NodeRefusal::NoLeader { term: 7 }), text)?;
    write_say(alloc, Say::Results(Seq::new(alloc)), text)?;
    write_rejected(alloc, 3, 404, b"no such path: /x", text)?;
    write_pending(alloc, &[1, 30], text)
}

fn write_ends(alloc: Global, text: &mut Vec<u8>) -> Result<(), NoMemory> {
    let word = Stopped::Word {
        place: 1,
        word: b"clutser",
    };
    write_stopped(alloc, word, text)?;
    write_stopped(alloc, Stopped::Line(5), text)?;
    write_stopped(alloc, Stopped::ReadFault, text)?;
    write_stopped(alloc, Stopped::RandomWords, text)
}

const WANTED: &[u8] =
    b"up n1 boot 2 term 1 last 3\ndown n1\nshow n1 leader term 2 base 3 last 7 commit 6 applied 5\nshow n1 down\nanswer 2 503 leader not found: term 7\nanswer 2 200 {\n  \"results\": []\n}\nanswer 3 404 no such path: /x\npending 1\npending 30\nstopped: word 1: clutser\nstopped: line 5\nstopped: read fault\nstopped: random words\n";

#[test]
fn texts(rt: HostRuntime) -> Result<(), Fail> {
    let id = Id::new(b"n1").ok_or("id")?;
    let mut text = Vec::new(rt.alloc());
    let servers = write_servers(rt.alloc(), &id, &mut text).is_ok();
    let asks = write_asks(rt.alloc(), &mut text).is_ok();
    let ends = write_ends(rt.alloc(), &mut text).is_ok();
    let is_written = text.as_slice() == WANTED;
    drop(text);
    assert!(rt; servers && asks && ends && is_written);
    Ok(())
}
