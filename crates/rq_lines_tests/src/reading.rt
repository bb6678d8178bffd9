use rq_lines::{LineError, ScriptAction, ScriptLine, script_line};
use std::alloc::Global;
use std::test::Fail;

/// What a text is read as: a line with its numbers, the number of its names, or the lengths of its parts.
#[derive(Clone, Copy, Debug, PartialEq, Eq)]
enum Reading {
    NoMemory,
    NoSuchLine,
    NotOfForm,
    Skip,
    Cluster(usize),
    Elect,
    Beat,
    Flush,
    Apply,
    Compact,
    Ask(usize, usize, usize),
    Stop,
    StopWithin(u64, u8),
    Start,
    Cut,
    Heal,
    Show,
    Deliver(u64),
    Run(u64),
    Clock(u64),
}

fn action_read(action: &ScriptAction<'_>) -> Reading {
    match action {
        ScriptAction::Elect => Reading::Elect,
        ScriptAction::Beat => Reading::Beat,
        ScriptAction::Flush => Reading::Flush,
        ScriptAction::Apply => Reading::Apply,
        ScriptAction::Compact => Reading::Compact,
        ScriptAction::Ask {
            method,
            target,
            body,
        } => Reading::Ask(method.len(), target.len(), body.len()),
        ScriptAction::Stop => Reading::Stop,
        ScriptAction::StopWithin { calls, pick } => Reading::StopWithin(*calls, *pick),
        ScriptAction::Start => Reading::Start,
        ScriptAction::Cut => Reading::Cut,
        ScriptAction::Heal => Reading::Heal,
        ScriptAction::Show => Reading::Show,
    }
}

fn line_read(line: &ScriptLine<'_>) -> Reading {
    match line {
        ScriptLine::Skip => Reading::Skip,
        ScriptLine::Cluster { ids } => Reading::Cluster(ids.len()),
        ScriptLine::At { id: _, action } => action_read(action),
        ScriptLine::Deliver { number } => Reading::Deliver(*number),
        ScriptLine::Run { times } => Reading::Run(*times),
        ScriptLine::Clock { moment } => Reading::Clock(*moment),
    }
}

fn read_as(alloc: Global, text: &[u8]) -> Reading {
    match script_line(alloc, text) {
        Ok(line) => {
            let reading = line_read(&line);
            drop(line);
            reading
        }
        Err(LineError::NoSuchLine) => Reading::NoSuchLine,
        Err(LineError::NotOfForm(_)) => Reading::NotOfForm,
        Err(LineError::NoMemory) => Reading::NoMemory,
    }
}

// The place of the first text that isn't read as it must be.
fn first_wrong_case(alloc: Global, cases: &[(&[u8], Reading)]) -> Option<usize> {
    for (place, (text, reading)) in cases.iter().enumerate() {
        if read_as(alloc, text) != *reading {
            return Some(place);
        }
    }
    None
}

/// Texts, and what each must be read as.
const LINES: [(&[u8], Reading); 60] = [
    (b"", Reading::Skip),
    (b"# cluster", Reading::Skip),
    (b" ", Reading::NoSuchLine),
    (b"clusters n1", Reading::NoSuchLine),
    (b"add n4", Reading::NoSuchLine),
    (b"cluster n1", Reading::Cluster(1)),
    (b"cluster n1 n2 n3", Reading::Cluster(3)),
    (b"cluster a b c d e f g h i", Reading::Cluster(9)),
    (b"cluster n1 n1", Reading::Cluster(2)),
    (b"cluster", Reading::NotOfForm),
    (b"cluster ", Reading::NotOfForm),
    (b"cluster n1 ", Reading::NotOfForm),
    (b"cluster  n1", Reading::NotOfForm),
    (b"cluster n1  n2", Reading::NotOfForm),
    (b"cluster n1 N2", Reading::NotOfForm),
    (b"cluster n1 2n", Reading::NotOfForm),
    (b"cluster abcdefghijklmnopq", Reading::NotOfForm),
    (b"elect n1", Reading::Elect),
    (b"elect n1 ", Reading::NotOfForm),
    (b"elect", Reading::NotOfForm),
    (b"beat n1", Reading::Beat),
    (b"flush n1", Reading::Flush),
    (b"apply n1", Reading::Apply),
    (b"compact n1", Reading::Compact),
    (b"start n1", Reading::Start),
    (b"cut n1", Reading::Cut),
    (b"heal n1", Reading::Heal),
    (b"show n1", Reading::Show),
    (b"stop n1", Reading::Stop),
    (b"stop n1 0 3", Reading::StopWithin(0, 3)),
    (
        b"stop n1 18446744073709551616 1",
        Reading::StopWithin(u64::MAX, 1),
    ),
    (b"stop n1 1 4", Reading::NotOfForm),
    (b"stop n1 01 0", Reading::NotOfForm),
    (b"stop n1 1", Reading::NotOfForm),
    (b"stop N1 1 2", Reading::NotOfForm),
    (
        b"ask n1 POST /db/execute [\"SELECT  1\"]",
        Reading::Ask(4, 11, 13),
    ),
    (b"ask n1 GET /db/query?q=SELECT+1", Reading::Ask(3, 20, 0)),
    (b"ask n1 GET /readyz ", Reading::Ask(3, 7, 0)),
    (b"ask n1 PUT x  ", Reading::Ask(3, 1, 1)),
    (b"ask n1 GET ", Reading::NotOfForm),
    (b"ask n1 GET", Reading::NotOfForm),
    (b"ask n1  GET /x", Reading::NotOfForm),
    (b"ask n1 GET  /x", Reading::NotOfForm),
    (b"ask N1 GET /x", Reading::NotOfForm),
    (b"ask n1", Reading::NotOfForm),
    (b"deliver 14", Reading::Deliver(14)),
    (b"deliver 0", Reading::Deliver(0)),
    (b"deliver 99999999999999999999", Reading::Deliver(u64::MAX)),
    (b"deliver 014", Reading::NotOfForm),
    (b"deliver +1", Reading::NotOfForm),
    (b"deliver ", Reading::NotOfForm),
    (b"run 100", Reading::Run(100)),
    (b"run 100000", Reading::Run(100000)),
    (b"run 100001", Reading::NotOfForm),
    (b"run 1 ", Reading::NotOfForm),
    (b"clock 0", Reading::Clock(0)),
    (b"clock 253402300800000", Reading::Clock(253402300800000)),
    (b"clock 1000000000000000", Reading::NotOfForm),
    (b"clock 00", Reading::NotOfForm),
    (b"clock -1", Reading::NotOfForm),
];

#[test]
fn lines(rt: HostRuntime) -> Result<(), Fail> {
    assert_eq!(rt; first_wrong_case(rt.alloc(), &LINES), None);
    Ok(())
}
