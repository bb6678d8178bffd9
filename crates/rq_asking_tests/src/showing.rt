//! What is shown of a request's ask.
use rq_asking::{Defect, ask_of, read_request};
use rq_outside::{Draws, ScriptDraws};
use rq_preparing::PrepareError;
use rq_request::{Ask, Level, Op};
use rq_statement::Item;
use rq_values::NoMemory;
use std::alloc::Global;
use std::test::Fail;

/// A request with a body, the words to come and the moment.
#[derive(Clone, Copy)]
pub struct Sent<'a> {
    pub method: &'a str,
    pub target: &'a str,
    pub body: &'a str,
    pub words: &'a [u64],
    pub moment: u64,
}

pub fn draws_of(alloc: Global, words: &[u64]) -> Result<ScriptDraws, NoMemory> {
    Ok(ScriptDraws::new(Vec::from_slice(alloc, words)?, Vec::new(alloc)))
}

fn put_items(items: &[Item], into: &mut Vec<u8>) -> Result<(), NoMemory> {
    for item in items {
        match item {
            Item::Run(settled) => into.extend_from_slice(settled.text())?,
            Item::Fail(text) => {
                into.extend_from_slice(b"! ")?;
                into.extend_from_slice(text.bytes())?;
            }
        }
        into.push(b';')?;
    }
    Ok(())
}

fn level_name(level: Level) -> &'static [u8] {
    match level {
        Level::None => b"read none: ",
        Level::Weak => b"read weak: ",
        Level::Linearizable => b"read linearizable: ",
        Level::Strong => b"read strong: ",
    }
}

fn kind_name(mixed: bool, transaction: bool) -> &'static [u8] {
    match (mixed, transaction) {
        (false, false) => b"write: ",
        (false, true) => b"write at once: ",
        (true, false) => b"mixed: ",
        (true, true) => b"mixed at once: ",
    }
}

/// The kind of the ask and its items.
fn put_op(op: &Op, into: &mut Vec<u8>) -> Result<(), NoMemory> {
    match op {
        Op::Write { list, mixed } => {
            into.extend_from_slice(kind_name(*mixed, list.transaction()))?;
            put_items(list.items(), into)
        }
        Op::Read { items, level, .. } => {
            into.extend_from_slice(level_name(*level))?;
            put_items(items.as_slice(), into)
        }
        _ => Ok(()),
    }
}

fn put_defect(
    alloc: Global,
    sent: &Sent,
    defect: Defect,
    into: &mut Vec<u8>,
) -> Result<(), NoMemory> {
    let status = defect.status();
    let status = format!(in alloc; "{status} ")?;
    into.extend_from_slice(status.as_bytes())?;
    let text = defect.text(alloc, sent.method.as_bytes(), sent.target.as_bytes())?;
    into.extend_from_slice(&text)?;
    Ok(())
}

fn put_asked(asked: Result<Ask, PrepareError>, into: &mut Vec<u8>) -> Result<(), NoMemory> {
    match asked {
        Ok(ask) => {
            let put = put_op(&ask.op, into);
            drop(ask);
            put
        }
        Err(PrepareError::Draws) => Ok(into.extend_from_slice(b"random words")?),
        Err(PrepareError::NoMemory) => Err(NoMemory),
    }
}

/// The kind of the ask and its items, or the status and the text of the request's defect; and behind it how many words are
/// left, in digits.
pub fn shown(alloc: Global, sent: &Sent) -> Result<Vec<u8>, NoMemory> {
    let mut text = Vec::new(alloc);
    let method = sent.method.as_bytes();
    let target = sent.target.as_bytes();
    match read_request(alloc, method, target, sent.body.as_bytes()) {
        Ok(requested) => {
            let mut draws = draws_of(alloc, sent.words)?;
            let asked = ask_of(alloc, &requested, target, 1, &mut draws, sent.moment);
            drop(requested);
            let put = put_asked(asked, &mut text);
            let left = left_digit(&mut draws);
            drop(draws);
            put?;
            text.push(left)?;
        }
        Err(Defect::NoMemory) => return Err(NoMemory),
        Err(defect) => put_defect(alloc, sent, defect, &mut text)?,
    }
    Ok(text)
}

/// How many words are to come, up to nine, as a digit.
fn left_digit(draws: &mut ScriptDraws) -> u8 {
    for digit in b'0'..b'9' {
        if draws.word().is_err() {
            return digit;
        }
    }
    b'9'
}

/// Whether the request is shown so.
pub fn is_shown(alloc: Global, sent: &Sent, wanted: &str) -> Result<bool, Fail> {
    let text = shown(alloc, sent)?;
    Ok(text.as_slice() == wanted.as_bytes())
}
