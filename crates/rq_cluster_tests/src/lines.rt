use rq_request::{Answer, NodeRefusal, Say};
use rq_script::{
    Action, ScriptLine, script_line, write_all_pending, write_answers, write_down, write_show_down,
};
use rq_values::Id;
use std::test::Fail;

/// What a text is read as, where it is a line of the node n1.
#[derive(Clone, Copy, Debug, PartialEq, Eq)]
enum Reading {
    NoLine,
    Stop,
    StopWithin { calls: u64, pick: u8 },
    Start,
    Show,
    Other,
}

fn of_n1(id: &Id, reading: Reading) -> Reading {
    if id.bytes() == b"n1".as_slice() {
        reading
    } else {
        Reading::Other
    }
}

fn line_read(line: &ScriptLine) -> Reading {
    match line {
        ScriptLine::At { id, action } => of_n1(id, action_read(action)),
        _ => Reading::Other,
    }
}

fn action_read(action: &Action) -> Reading {
    match action {
        Action::Stop => Reading::Stop,
        Action::StopWithin { calls, pick } => within(*calls, *pick),
        Action::Start => Reading::Start,
        Action::Show => Reading::Show,
        _ => Reading::Other,
    }
}

fn read_as(text: &[u8]) -> Reading {
    match script_line(text) {
        None => Reading::NoLine,
        Some(line) => line_read(&line),
    }
}

// The place of the first text that isn't read as it must be.
fn first_wrong_case(cases: &[(&[u8], Reading)]) -> Option<usize> {
    for (place, (text, reading)) in cases.iter().enumerate() {
        if read_as(text) != *reading {
            return Some(place);
        }
    }
    None
}

fn within(calls: u64, pick: u8) -> Reading {
    Reading::StopWithin { calls, pick }
}

/// Texts, and what each must be read as.
const LINES: [(&[u8], Reading); 27] = [
    (b"stop n1", Reading::Stop),
    (b"stop n1 0 3", Reading::StopWithin { calls: 0, pick: 3 }),
    (b"stop n1 10 0", Reading::StopWithin { calls: 10, pick: 0 }),
    (
        b"stop n1 18446744073709551614 1",
        Reading::StopWithin {
            calls: u64::MAX - 1,
            pick: 1,
        },
    ),
    (
        b"stop n1 18446744073709551616 1",
        Reading::StopWithin {
            calls: u64::MAX,
            pick: 1,
        },
    ),
    (
        b"stop n1 99999999999999999999999 2",
        Reading::StopWithin {
            calls: u64::MAX,
            pick: 2,
        },
    ),
    (b"stop n1 01 0", Reading::NoLine),
    (b"stop n1 00 0", Reading::NoLine),
    (b"stop n1 1 4", Reading::NoLine),
    (b"stop n1 1 00", Reading::NoLine),
    (b"stop n1 1 ", Reading::NoLine),
    (b"stop n1 1", Reading::NoLine),
    (b"stop n1 ", Reading::NoLine),
    (b"stop n1 -1 2", Reading::NoLine),
    (b"stop n1 +1 2", Reading::NoLine),
    (b"stop n1  1 2", Reading::NoLine),
    (b"stop n1 1  2", Reading::NoLine),
    (b"stop n1 1 2 ", Reading::NoLine),
    (b"stop Node", Reading::NoLine),
    (b"stop Node 1 2", Reading::NoLine),
    (b"stop ", Reading::NoLine),
    (b"stop", Reading::NoLine),
    (b"start n1", Reading::Start),
    (b"start n1 ", Reading::NoLine),
    (b"show n1", Reading::Show),
    (b"show n1 ", Reading::NoLine),
    (b"shown1", Reading::NoLine),
];

#[test]
fn lines(rt: HostRuntime) -> Result<(), Fail> {
    assert_eq!(rt; first_wrong_case(&LINES), None);
    Ok(())
}

#[test]
fn texts(rt: HostRuntime) -> Result<(), Fail> {
    let id = Id::new(b"n1").ok_or("id")?;
    let mut text = Vec::new(rt.alloc());
    let is_down = write_down(&id, &mut text).is_ok();
    let is_shown = write_show_down(&id, &mut text).is_ok();
    let is_pending = write_all_pending(rt.alloc(), &[1, 30], &mut text).is_ok();
    let wanted: &[u8] = b"down n1\nshow n1 down\npending 1\npending 30\n";
    let is_written = text.as_slice() == wanted;
    drop(text);
    assert!(rt; is_down && is_shown && is_pending && is_written);
    Ok(())
}

#[test]
fn an_answer(rt: HostRuntime) -> Result<(), Fail> {
    let mut answers = Vec::new(rt.alloc());
    answers.push(Answer {
        number: 2,
        say: Say::Refused(NodeRefusal::NoLeader { term: 7 }),
    })?;
    let mut text = Vec::new(rt.alloc());
    let is_done = write_answers(rt.alloc(), &answers, &mut text).is_ok();
    let wanted: &[u8] = b"answer 2 503 leader not found: term 7\n";
    let is_written = text.as_slice() == wanted;
    drop((answers, text));
    assert!(rt; is_done && is_written);
    Ok(())
}
