//! A text, prepared, and what is shown of it.
use rq_outside::{Draws, ScriptDraws};
use rq_preparing::{PrepareError, prepare};
use rq_request::Params;
use rq_statement::Item;
use std::alloc::Global;
use std::test::Fail;

/// The words to come.
pub fn draws_of(alloc: Global, words: &[u64]) -> Result<ScriptDraws, Fail> {
    Ok(ScriptDraws::new(Vec::from_slice(alloc, words)?, Vec::new(alloc)))
}

/// The canonical text of what runs, or the error's text.
fn shown(item: &Item) -> &[u8] {
    match item {
        Item::Run(settled) => settled.text(),
        Item::Fail(text) => text.bytes(),
    }
}

/// Whether the text is shown so; `random words` where the draws failed.
fn is_shown(prepared: &Result<Item, PrepareError>, wanted: &str) -> bool {
    match prepared {
        Ok(item) => shown(item) == wanted.as_bytes(),
        Err(PrepareError::Draws) => wanted.as_bytes() == b"random words".as_slice(),
        Err(PrepareError::NoMemory) => false,
    }
}

/// Whether exactly so many words are to come.
fn are_left(draws: &mut ScriptDraws, count: usize) -> bool {
    for _turn in 0..count {
        if draws.word().is_err() {
            return false;
        }
    }
    draws.word().is_err()
}

/// A text, the words to come and the moment.
#[derive(Clone, Copy)]
pub struct Asked<'a> {
    pub text: &'a str,
    pub words: &'a [u64],
    pub moment: u64,
}

/// Whether the text is prepared as what is shown so.
pub fn is_prepared_with<R: Draws>(
    alloc: Global,
    asked: &Asked<'_>,
    params: &Params,
    draws: &mut R,
    wanted: &str,
) -> bool {
    let text = asked.text.as_bytes();
    let prepared = prepare(alloc, text, params, draws, asked.moment);
    let is = is_shown(&prepared, wanted);
    drop(prepared);
    is
}

/// Whether the text is prepared as what is shown so, and leaves so many words.
pub fn is_prepared(
    alloc: Global,
    asked: &Asked<'_>,
    params: &Params,
    wanted: &str,
    left: usize,
) -> Result<bool, Fail> {
    let mut draws = draws_of(alloc, asked.words)?;
    let is = is_prepared_with(alloc, asked, params, &mut draws, wanted);
    let exact = are_left(&mut draws, left);
    drop(draws);
    Ok(is && exact)
}
