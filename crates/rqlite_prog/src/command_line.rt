//! The words of the command line.
use rq_outside::Word;
use rq_values::NoMemory;
use std::alloc::Global;
use std::env::FillError;
use std::rt::Env;

/// The words after the program's name.
pub fn words_of(rt: &impl Env, alloc: Global) -> Result<Vec<Word>, NoMemory> {
    let mut words = Vec::new(alloc);
    for place in 1..usize::MAX {
        match word_at(rt, alloc, place)? {
            Some(word) => words.push(word)?,
            None => break,
        }
    }
    Ok(words)
}

/// The word at a place, from 1, if there are so many.
fn word_at(rt: &impl Env, alloc: Global, place: usize) -> Result<Option<Word>, NoMemory> {
    for doubled in 8u32..32 {
        let mut buffer = vec![in alloc; 0u8; 1usize << doubled]?;
        match rt.arg(place, &mut buffer) {
            Ok(len) => return Ok(Some(Word::new(alloc, &buffer[..len])?)),
            Err(FillError::NotPresent) => return Ok(None),
            Err(FillError::TooLong) => {}
        }
    }
    Err(NoMemory)
}
