//! The errors of statements that aren't read: docs/SQL.md, "Errors of reading".
ghost use Rattle.std.specs.Prelude.{◌≡◌, ◌++◌, true, IsTrue, IfOk, OnOk};
ghost use Rattle.rq_values.specs.Text.{is_text};
ghost use Rattle.rq_settle.specs.Prepared.{not_built as not_built_text, too_large as too_large_text};
ghost use Rattle.rq_settle.specs.Refused as spec;

use crate::showing::show;
use rq_values::{NoMemory, Text};
use std::alloc::Global;

/// A copy of bytes that are known to be a text.
fn known_text(alloc: Global, bytes: &[u8]) -> Result<Text, NoMemory>
    requires { is_text bytes.now ≡ true }
    ensures { IfOk result (λ text. text ≡ bytes.now) }
{
    match Text::new(alloc, bytes)? {
        Some(text) => Ok(text),
        None => unreachable!(),
    }
}

/// Appends plain bytes.
#[tactic(auto, using(crate::proofs::Plain::is_text_from_plain, crate::proofs::Characters::both_texts))]
fn put(piece: &[u8], into: &mut Vec<u8>) -> Result<(), NoMemory>
    requires { spec.is_plain piece.now ≡ true }
    ensures items { OnOk result (into.new.items ≡ into.old.items ++ piece.now) }
    ensures text { OnOk result (IsTrue (is_text into.old.items) → IsTrue (is_text into.new.items)) }
{
    into.extend_from_slice(piece)?;
    Ok(())
}

/// The text has so many bytes.
#[tactic(auto, using(crate::proofs::Plain::plain_too_long, crate::proofs::Plain::nothing_text))]
pub fn too_long(alloc: Global, len: usize) -> Result<Text, NoMemory>
    ensures { IfOk result (λ text. text ≡ spec.too_long len) }
{
    let mut bytes = Vec::new(alloc);
    let piece = format!(in alloc; "statement too long: {len}")?;
    put(piece.as_bytes(), &mut bytes)?;
    known_text(alloc, &bytes)
}

/// The canonical text has so many bytes.
#[tactic(auto, using(crate::proofs::Plain::plain_too_large, crate::proofs::Plain::nothing_text))]
pub fn too_large(alloc: Global, len: usize) -> Result<Text, NoMemory>
    ensures { IfOk result (λ text. text ≡ too_large_text len) }
{
    let mut bytes = Vec::new(alloc);
    let piece = format!(in alloc; "statement too large: {len}")?;
    put(piece.as_bytes(), &mut bytes)?;
    known_text(alloc, &bytes)
}

/// More is wanted at the end.
#[tactic(auto, using(crate::proofs::Plain::is_text_from_plain))]
pub fn incomplete(alloc: Global) -> Result<Text, NoMemory>
    ensures { IfOk result (λ text. text ≡ spec.incomplete) }
{
    known_text(alloc, b"incomplete input")
}

/// No statement goes on with the token of this source.
#[tactic(auto, using(crate::proofs::Plain::nothing_text))]
pub fn near(alloc: Global, source: &[u8]) -> Result<Text, NoMemory>
    ensures { IfOk result (λ text. text ≡ spec.near source.now) }
{
    let mut bytes = Vec::new(alloc);
    put(b"near \"", &mut bytes)?;
    show(source, &mut bytes)?;
    put(b"\": syntax error", &mut bytes)?;
    known_text(alloc, &bytes)
}

/// A numeral as it is written, a word in upper case.
fn named(alloc: Global, source: &[u8]) -> Result<Vec<u8>, NoMemory>
    ensures { IfOk result (λ bytes. bytes.items ≡ spec.named source.now) }
{
    let mut bytes = Vec::from_slice(alloc, source)?;
    match source {
        [first, ..] if !first.is_ascii_digit() => {
            bytes.make_ascii_uppercase();
            Ok(bytes)
        }
        _ => Ok(bytes),
    }
}

/// The word or numeral of this source is out of the profile.
#[tactic(auto, using(crate::proofs::Plain::nothing_text))]
pub fn not_in_profile(alloc: Global, source: &[u8]) -> Result<Text, NoMemory>
    ensures { IfOk result (λ text. text ≡ spec.not_in_profile source.now) }
{
    let named = named(alloc, source)?;
    let mut bytes = Vec::new(alloc);
    put(b"not in profile: ", &mut bytes)?;
    show(&named, &mut bytes)?;
    known_text(alloc, &bytes)
}

/// The statement is deeper than the limits.
#[tactic(auto, using(crate::proofs::Plain::is_text_from_plain))]
pub fn too_deep(alloc: Global) -> Result<Text, NoMemory>
    ensures { IfOk result (λ text. text ≡ spec.too_deep) }
{
    known_text(alloc, b"expression too deep")
}

/// The statement isn't built yet.
#[tactic(auto, using(crate::proofs::Plain::is_text_from_plain))]
pub fn not_built(alloc: Global) -> Result<Text, NoMemory>
    ensures { IfOk result (λ text. text ≡ not_built_text) }
{
    known_text(alloc, b"not built")
}
