//! The parts of a valid time text.

ghost use Rattle.std.specs.Prelude.{◌≡◌, ◌<◌, IsTrue, IfOk};
ghost use Rattle.rq_values.specs.Text.{is_text};
ghost use Rattle.rq_texts.specs.TimeText as spec;
ghost use Rattle.rq_texts.specs.TimeText.{is_time_text};

use crate::plain::plain_text;
use rq_values::{NoMemory, Text, TryCopy};
use std::alloc::Global;

/// The bytes as a text.
fn known_text(alloc: Global, bytes: &[u8]) -> Result<Text, NoMemory>
    requires { IsTrue (is_text bytes.now) }
    ensures { IfOk result (λ text. text ≡ bytes.now) }
{
    match Text::new(alloc, bytes)? {
        Some(text) => Ok(text),
        None => unreachable!(),
    }
}

fn has_time(bytes: &[u8]) -> bool
    ensures { result ≡ spec.has_time bytes.now }
{
    10 < bytes.len()
}

/// The date of a valid time text.
pub fn date_text(alloc: Global, text: &Text) -> Result<Text, NoMemory>
    requires { IsTrue (is_time_text text.now) }
    ensures { IfOk result (λ t. t ≡ spec.date text.now) }
{
    let bytes = text.bytes();
    known_text(alloc, &bytes[..10])
}

/// Its time of day, or midnight.
pub fn time_text(alloc: Global, text: &Text) -> Result<Text, NoMemory>
    requires { IsTrue (is_time_text text.now) }
    ensures { IfOk result (λ t. t ≡ spec.time text.now) }
{
    let bytes = text.bytes();
    if has_time(bytes) {
        known_text(alloc, &bytes[11..])
    } else {
        plain_text(alloc, b"00:00:00")
    }
}

/// Both.
pub fn date_time_text(alloc: Global, text: &Text) -> Result<Text, NoMemory>
    ensures { IfOk result (λ t. t ≡ spec.date_time text.now) }
{
    if has_time(text.bytes()) {
        return text.copy(alloc);
    }
    match plain_text(alloc, b" 00:00:00") {
        Ok(midnight) => text.joined(alloc, &midnight),
        Err(e) => Err(e),
    }
}
