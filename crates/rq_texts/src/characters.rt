//! The characters of a text.

ghost use Rattle.std.specs.Prelude.{◌≡◌, IfOk, length};
ghost use Rattle.std.specs.Str.{chars};
ghost use Rattle.rq_texts.specs.Like.{like};

use crate::like::is_like;
use rq_values::{NoMemory, Text};
use std::alloc::Global;

/// The characters of a text.
#[tactic(auto, using(std::proofs::lemmas::Str::chars_from_encodes))]
fn characters(alloc: Global, text: &str) -> Result<Vec<char>, NoMemory>
    ensures { IfOk result (λ found. found.items ≡ chars text.now) }
{
    Ok(text.chars().collect(alloc)?)
}

/// Whether the characters of the text are like those of the pattern.
pub fn is_like_text(alloc: Global, text: &Text, pattern: &Text) -> Result<bool, NoMemory>
    ensures { IfOk result (λ is. is ≡ like (chars pattern.now) (chars text.now)) }
{
    let text = characters(alloc, text.as_str())?;
    match characters(alloc, pattern.as_str()) {
        Ok(pattern) => Ok(is_like(&pattern, &text)),
        Err(e) => {
            drop(text);
            Err(e)
        }
    }
}

/// How many characters the text has.
#[tactic(auto, using(std::proofs::lemmas::Str::chars_from_encodes))]
pub fn character_count(text: &str) -> usize
    ensures { result ≡ length (chars text.now) }
{
    text.chars().count()
}
