//! Sources of tokens in error texts.
ghost use Rattle.std.specs.Prelude.{◌≡◌, ◌≤◌, ◌<◌, ◌++◌, length, take, drop, nat_lt, true, IsTrue, OnOk};
ghost use Rattle.std.specs.List.{list_all};
ghost use Rattle.std.specs.Str.{is_utf8};
ghost use Rattle.rq_values.specs.Text.{is_text};
ghost use Rattle.rq_settle.specs.Shown.{char_len, shown};

use rq_values::NoMemory;

/// Whether the bytes are UTF-8 without NUL.
#[tactic(auto, using(crate::proofs::Characters::is_text_both, crate::proofs::Characters::is_text_not))]
fn is_text_bytes(bytes: &[u8]) -> bool
    ensures { result ≡ is_text bytes.now }
{
    is_utf8_bytes(bytes) && has_no_zero(bytes)
}

fn is_utf8_bytes(bytes: &[u8]) -> bool
    ensures { result ≡ is_utf8 bytes.now }
{
    match std::str::from_utf8(bytes) {
        Ok(_) => true,
        Err(_) => false,
    }
}

fn has_no_zero(bytes: &[u8]) -> bool
    ensures { result ≡ list_all (λ byte. nat_lt 0 byte) bytes.now }
{
    bytes.iter().all(|byte| *byte > 0)
}

/// Whether the first bytes, so many, are there and are a text.
fn is_text_prefix(source: &[u8], len: usize) -> bool
    ensures { result ≡ is_text (take len source.now) }
{
    if len <= source.len() {
        is_text_bytes(&source[..len])
    } else {
        is_text_bytes(source)
    }
}

/// How long the character before it is that can be shown, 0 where there is none.
#[tactic(auto, using(crate::proofs::Characters::char_within, crate::proofs::Characters::char_text))]
fn prefix_len(source: &[u8]) -> usize
    requires { 0 < length source.now }
    ensures len { result ≡ char_len source.now }
    ensures within { result ≤ length source.now }
    ensures text { 0 < result → is_text (take result source.now) ≡ true }
{
    if is_text_prefix(source, 1) {
        1
    } else if is_text_prefix(source, 2) {
        2
    } else if is_text_prefix(source, 3) {
        3
    } else if is_text_prefix(source, 4) {
        4
    } else {
        0
    }
}

/// The bytes from a place on.
fn from_place(source: &[u8], at: usize) -> &[u8]
    requires { at ≤ length source.now }
    ensures { result.now ≡ drop at source.now }
{
    &source[at..]
}

/// Appends a token's source, with U+FFFD for a NUL and for each byte that is no UTF-8.
pub fn show(source: &[u8], into: &mut Vec<u8>) -> Result<(), NoMemory>
    ensures shown { OnOk result (into.new.items ≡ into.old.items ++ shown source.now) }
    ensures text { OnOk result (IsTrue (is_text into.old.items) → IsTrue (is_text into.new.items)) }
{
    let mut at = 0;
    while at < source.len() {
        let rest = from_place(source, at);
        let len = prefix_len(rest);
        if len == 0 {
            into.extend_from_slice(b"\xEF\xBF\xBD")?;
            at += 1;
        } else {
            into.extend_from_slice(&rest[..len])?;
            at += len;
        }
    }
    Ok(())
}
