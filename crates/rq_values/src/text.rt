//! Text.
ghost use Rattle.std.specs.Prelude.{◌≡◌, ◌++◌, [], nat_lt, true, map, decimal, IsTrue, IfOk, OnOk, OnErr, string_bytes};
ghost use Rattle.std.specs.List.{list_all};
ghost use Rattle.std.specs.Char.{to_ascii_lowercase, to_ascii_uppercase};
ghost use Rattle.std.specs.Fmt.{signed_decimal};
ghost use Rattle.std.specs.Str.{is_utf8};
ghost use Rattle.rq_values.specs.Text.{is_text, is_plain, IsMade};

use crate::memory::{NoMemory, TryCopy};
use std::alloc::Global;
use std::cmp::Ordering;
use std::marker::Model;

/// UTF-8 without NUL. A contract sees it as its bytes.
#[derive(Debug, Drop)]
pub struct Text {
    bytes: Vec<u8>,
}

impl Model for Text {
    ghost use Rattle.std.specs.Prelude.{List, ℕ, IsTrue};
    ghost use Rattle.rq_values.specs.Text.{is_text};

    ghost Value = { List ℕ };

    ghost view = { λ t. t.bytes.items };

    ghost invariant = { λ t. IsTrue (is_text t.bytes.items) };
}

/// Whether the bytes are a text.
#[tactic(auto, unfolding(crate::specs::Text::is_text))]
pub fn is_text_bytes(bytes: &[u8]) -> bool
    ensures { result ≡ is_text bytes.now }
{
    is_utf8_bytes(bytes) && has_no_zero(bytes)
}

/// Whether the bytes are UTF-8.
fn is_utf8_bytes(bytes: &[u8]) -> bool
    ensures { result ≡ is_utf8 bytes.now }
{
    match std::str::from_utf8(bytes) {
        Ok(_) => true,
        Err(_) => false,
    }
}

/// Whether no byte is zero.
fn has_no_zero(bytes: &[u8]) -> bool
    ensures { result ≡ list_all (λ byte. nat_lt 0 byte) bytes.now }
{
    bytes.iter().all(|byte| *byte > 0)
}

impl Text {
    /// The text without a byte.
    #[tactic(auto, using(crate::proofs::Plain::text_plain))]
    pub fn empty(alloc: Global) -> Text
        ensures { result ≡ [] }
    {
        Text {
            bytes: Vec::new(alloc),
        }
    }

    /// Adds bytes of ASCII without NUL. With no memory the text stays as it was.
    #[tactic(auto, using(crate::proofs::Plain::text_and_plain))]
    pub fn push_plain(&mut self, plain: &[u8]) -> Result<(), NoMemory>
        requires { is_plain plain.now ≡ true }
        ensures ok { OnOk result (self.new ≡ self.old ++ plain.now) }
        ensures err { OnErr result (self.new ≡ self.old) }
    {
        self.bytes.extend_from_slice(plain)?;
        Ok(())
    }

    /// Adds a text. With no memory the text stays as it was.
    #[tactic(auto, using(crate::proofs::Plain::text_append))]
    pub fn push_text(&mut self, text: &Text) -> Result<(), NoMemory>
        ensures ok { OnOk result (self.new ≡ self.old ++ text.now) }
        ensures err { OnErr result (self.new ≡ self.old) }
    {
        self.bytes.extend_from_slice(text.bytes())?;
        Ok(())
    }

    /// Adds a number in decimal. With no memory the text stays as it was.
    #[tactic(auto, using(crate::proofs::Plain::text_and_decimal))]
    pub fn push_number(&mut self, alloc: Global, number: u64) -> Result<(), NoMemory>
        ensures ok { OnOk result (self.new ≡ self.old ++ decimal number) }
        ensures err { OnErr result (self.new ≡ self.old) }
    {
        let piece = format!(in alloc; "{number}")?;
        self.bytes.extend_from_slice(piece.as_bytes())?;
        Ok(())
    }

    /// An integer as its decimal digits, with a minus sign before it where it is below 0.
    pub fn of_integer(alloc: Global, number: i64) -> Result<Text, NoMemory>
        ensures { IfOk result (λ text. text ≡ signed_decimal number) }
    {
        let digits = number.to_string(alloc)?;
        Ok(Text {
            bytes: digits.into_bytes(),
        })
    }

    /// This text, and the other behind it.
    pub fn joined(&self, alloc: Global, other: &Text) -> Result<Text, NoMemory>
        ensures { IfOk result (λ text. text ≡ self.now ++ other.now) }
    {
        let mut text = self.copy(alloc)?;
        match text.push_text(other) {
            Ok(()) => Ok(text),
            Err(e) => {
                drop(text);
                Err(e)
            }
        }
    }

    /// The text with each of the letters `A` to `Z` in lower case.
    pub fn lower(&self, alloc: Global) -> Result<Text, NoMemory>
        ensures { IfOk result (λ low. low ≡ map to_ascii_lowercase self.now) }
    {
        let low = self.as_str().to_ascii_lowercase(alloc)?;
        Ok(Text {
            bytes: low.into_bytes(),
        })
    }

    /// The text with each of the letters `a` to `z` in upper case.
    pub fn upper(&self, alloc: Global) -> Result<Text, NoMemory>
        ensures { IfOk result (λ high. high ≡ map to_ascii_uppercase self.now) }
    {
        let high = self.as_str().to_ascii_uppercase(alloc)?;
        Ok(Text {
            bytes: high.into_bytes(),
        })
    }

    /// The text as the `str` that it is.
    pub fn as_str(&self) -> &str
        ensures value { result.now ≡ self.now }
        ensures text { IsTrue (is_text self.now) }
    {
        // A text is UTF-8: `bytes` says so.
        unsafe { std::str::from_utf8_unchecked(self.bytes()) }
    }

    /// The bytes as a text, without a copy, or None exactly where they are none.
    pub fn from_vec(bytes: Vec<u8>) -> Option<Text>
        ensures { IsMade (is_text bytes.items) bytes.items result }
    {
        if is_text_bytes(&bytes) {
            Some(Text { bytes })
        } else {
            drop(bytes);
            None
        }
    }

    /// The string as a text, without a copy, or None exactly where it has NUL.
    #[tactic(auto, using(crate::proofs::Plain::text_of_string))]
    pub fn from_string(string: String) -> Option<Text>
        ensures { IsMade (is_text (string_bytes string)) (string_bytes string) result }
    {
        if has_no_zero(string.as_bytes()) {
            let bytes = string.into_bytes();
            Some(Text { bytes })
        } else {
            drop(string);
            None
        }
    }

    /// A copy of the bytes as a text, or None exactly where they are none.
    pub fn new(alloc: Global, bytes: &[u8]) -> Result<Option<Text>, NoMemory>
        ensures { IfOk result (IsMade (is_text bytes.now) bytes.now) }
    {
        if !is_text_bytes(bytes) {
            return Ok(None);
        }
        let bytes = Vec::from_slice(alloc, bytes)?;
        Ok(Some(Text { bytes }))
    }

    pub fn bytes(&self) -> &[u8]
        ensures bytes { result.now ≡ self.now }
        ensures text { IsTrue (is_text self.now) }
    {
        self.bytes.as_slice()
    }
}

impl TryCopy for Text {
    fn copy(&self, alloc: Global) -> Result<Text, NoMemory> {
        let bytes = Vec::from_slice(alloc, self.bytes.as_slice())?;
        Ok(Text { bytes })
    }
}

impl PartialEq for Text {
    ghost use Rattle.std.specs.Prelude.{bytes_eq};
    ghost use Rattle.std.specs.Cmp.{partial_equiv_from_equiv};
    ghost use Rattle.std.specs.Cmp.Lexicographic.{nat_list_eq_equiv};

    ghost eq = { bytes_eq };

    ghost laws = { partial_equiv_from_equiv nat_list_eq_equiv };

    fn eq(&self, other: &Text) -> bool {
        self.bytes() == other.bytes()
    }
}

impl Eq for Text {
    ghost use Rattle.std.specs.Cmp.Lexicographic.{nat_list_eq_equiv};

    ghost laws = { nat_list_eq_equiv };
}

/// By bytes.
impl PartialOrd for Text {
    ghost use Rattle.std.specs.Prelude.{Some};
    ghost use Rattle.std.specs.Ordering.{nat_cmp};
    ghost use Rattle.std.specs.Cmp.Lexicographic.{slice_cmp, texts_po};

    ghost partial_cmp = { λ one other. Some (slice_cmp nat_cmp one other) };

    ghost laws = { texts_po };

    fn partial_cmp(&self, other: &Text) -> Option<Ordering> {
        Some(self.bytes().cmp(other.bytes()))
    }
}

/// By bytes.
impl Ord for Text {
    ghost use Rattle.std.proofs.Common.{refl};
    ghost use Rattle.std.specs.Ordering.{nat_cmp};
    ghost use Rattle.std.specs.Cmp.Lexicographic.{slice_cmp, nat_list_cmp_total, texts_ties};

    ghost cmp = { slice_cmp nat_cmp };

    ghost total = { nat_list_cmp_total };

    ghost matches_partial_cmp = { λ one other. refl };

    ghost matches_eq = { texts_ties };

    fn cmp(&self, other: &Text) -> Ordering {
        self.bytes().cmp(other.bytes())
    }
}
