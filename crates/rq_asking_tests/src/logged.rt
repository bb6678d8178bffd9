//! One request with parameters, from its body to the log and back; with memory that may run out at any place.
use crate::showing::draws_of;
use rq_asking::{Defect, ask_of, read_request};
use rq_command::decode_command;
use rq_outside::ScriptDraws;
use rq_preparing::PrepareError;
use rq_request::{Ask, Op};
use rq_statement::{Command, Item, StatementList, encode_command};
use rq_values::{DecodeError, NoMemory, TryCopy};
use std::alloc::Global;
use std::test::Fail;

const TARGET: &[u8] = b"/db/execute?transaction&timeout=2s";

const BODY: &[u8] =
    br#"[["INSERT INTO t(a, b) VALUES (?, RANDOM())", "fiona"], ["DELETE FROM t WHERE b IN (:x, randomblob(3))", {"x": null}], "SELECT"]"#;

/// The texts of the items.
const WANTED: [&[u8]; 3] = [
    br#"INSERT INTO "t" ("a", "b") VALUES ('fiona', 4)"#,
    br#"DELETE FROM "t" WHERE ("b" IN (NULL, X'010203'))"#,
    b"incomplete input",
];

/// Whether an answer is right; none where memory ran out.
type Right = Result<bool, NoMemory>;

fn text_of(item: &Item) -> &[u8] {
    match item {
        Item::Run(settled) => settled.text(),
        Item::Fail(text) => text.bytes(),
    }
}

fn is_list(list: &StatementList) -> bool {
    if !list.transaction() || list.items().len() != 3 {
        return false;
    }
    for (item, wanted) in list.items().iter().zip(WANTED) {
        if text_of(item) != wanted {
            return false;
        }
    }
    true
}

fn is_execute(command: &Command) -> bool {
    match command {
        Command::Execute(list) => is_list(list),
        _ => false,
    }
}

/// Whether the command is read from its bytes as it is.
fn is_read(alloc: Global, bytes: &[u8]) -> Right {
    match decode_command(alloc, bytes) {
        Ok(command) => {
            let is = is_execute(&command);
            drop(command);
            Ok(is)
        }
        Err(DecodeError::NoMemory) => Err(NoMemory),
        Err(_) => Ok(false),
    }
}

fn is_logged(alloc: Global, list: StatementList) -> Right {
    let command = Command::Execute(list);
    let mut bytes = Vec::new(alloc);
    let done = encode_command(&command, &mut bytes);
    drop(command);
    done?;
    is_read(alloc, &bytes)
}

fn is_right(alloc: Global, ask: Ask) -> Right {
    if ask.timeout != 2000 || ask.number != 7 {
        drop(ask);
        return Ok(false);
    }
    match &ask.op {
        Op::Write { list, mixed: false } => {
            let list = list.copy(alloc);
            drop(ask);
            is_logged(alloc, list?)
        }
        _ => {
            drop(ask);
            Ok(false)
        }
    }
}

fn is_done(alloc: Global, draws: &mut ScriptDraws) -> Right {
    match read_request(alloc, b"POST", TARGET, BODY) {
        Ok(requested) => {
            let asked = ask_of(alloc, &requested, TARGET, 7, draws, 0);
            drop(requested);
            match asked {
                Ok(ask) => is_right(alloc, ask),
                Err(PrepareError::NoMemory) => Err(NoMemory),
                Err(PrepareError::Draws) => Ok(false),
            }
        }
        Err(Defect::NoMemory) => Err(NoMemory),
        Err(_) => Ok(false),
    }
}

#[test]
fn a_request_is_logged_or_memory_ran_out(rt: HostRuntime) -> Result<(), Fail> {
    let alloc = rt.alloc();
    match draws_of(alloc, &[9, 0x0003_0201]) {
        Ok(mut draws) => {
            let right = is_done(alloc, &mut draws);
            drop(draws);
            assert!(rt; !matches!(right, Ok(false)));
        }
        Err(NoMemory) => {}
    }
    Ok(())
}
