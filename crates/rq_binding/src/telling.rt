//! The texts of what binding and settling refuse: docs/SQL.md, "Errors of binding and settling".
ghost use Rattle.std.specs.Prelude.{◌≡◌, ◌++◌, true, decimal, IfOk, OnOk};
ghost use Rattle.rq_values.specs.Text.{is_plain};
ghost use Rattle.rq_binding.specs.ErrorText as spec;

use crate::params::BindError;
use crate::planning::Refusal;
use rq_values::{NoMemory, Text};
use std::alloc::Global;

fn plain(alloc: Global, words: &[u8]) -> Result<Text, NoMemory>
    requires { is_plain words.now ≡ true }
    ensures { IfOk result (λ text. text ≡ words.now) }
{
    let mut text = Text::empty(alloc);
    match text.push_plain(words) {
        Ok(()) => Ok(text),
        Err(error) => {
            drop(text);
            Err(error)
        }
    }
}

fn put_numbered(alloc: Global, text: &mut Text, words: &[u8], number: u64) -> Result<(), NoMemory>
    requires { is_plain words.now ≡ true }
    ensures { OnOk result (text.new ≡ text.old ++ spec.numbered words.now number) }
{
    text.push_plain(words)?;
    text.push_number(alloc, number)
}

/// Words and a number.
fn numbered(alloc: Global, words: &[u8], number: u64) -> Result<Text, NoMemory>
    requires { is_plain words.now ≡ true }
    ensures { IfOk result (λ text. text ≡ spec.numbered words.now number) }
{
    let mut text = Text::empty(alloc);
    match put_numbered(alloc, &mut text, words, number) {
        Ok(()) => Ok(text),
        Err(error) => {
            drop(text);
            Err(error)
        }
    }
}

/// Words and a text.
fn followed(alloc: Global, words: &[u8], behind: &Text) -> Result<Text, NoMemory>
    requires { is_plain words.now ≡ true }
    ensures { IfOk result (λ text. text ≡ words.now ++ behind.now) }
{
    let front = plain(alloc, words)?;
    let text = front.joined(alloc, behind);
    drop(front);
    text
}

fn size_text(alloc: Global, size: i64) -> Result<Text, NoMemory>
    ensures { IfOk result (λ text. text ≡ spec.size_text size) }
{
    let digits = Text::of_integer(alloc, size)?;
    let text = followed(alloc, b"blob size out of range: ", &digits);
    drop(digits);
    text
}

fn count_text(alloc: Global, needed: u64, given: u64) -> Result<Text, NoMemory>
    ensures { IfOk result (λ text. text ≡ spec.count_text needed given) }
{
    let mut text = numbered(alloc, b"wrong number of parameters: needed ", needed)?;
    match put_numbered(alloc, &mut text, b", given ", given) {
        Ok(()) => Ok(text),
        Err(error) => {
            drop(text);
            Err(error)
        }
    }
}

impl BindError {
    /// What is shown of it; nothing of want of memory.
    pub fn to_text(&self, alloc: Global) -> Result<Text, NoMemory>
        ensures { IfOk result (λ text. text ≡ spec.bind_text self.now) }
    {
        match self {
            BindError::Count { needed, given } => count_text(alloc, *needed, *given),
            BindError::Missing(name) => followed(alloc, b"missing parameter: ", name),
            BindError::NoMemory => Ok(Text::empty(alloc)),
        }
    }
}

impl Refusal {
    /// What is shown of it.
    pub fn to_text(self, alloc: Global) -> Result<Text, NoMemory>
        ensures { IfOk result (λ text. text ≡ spec.refusal_text self) }
    {
        match self {
            Refusal::RandomInOrder(_) => plain(alloc, b"random in ORDER BY"),
            Refusal::BlobSize(size) => size_text(alloc, size),
            Refusal::BlobArgument(_) => plain(alloc, b"blob size is no number"),
            Refusal::MomentRange(moment) => numbered(alloc, b"moment out of range: ", moment),
        }
    }
}
