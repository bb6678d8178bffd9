//! The lexer.
ghost use Rattle.std.specs.Prelude.{◌≡◌, ℕ, ◌+◌, ◌<◌, ◌≤◌, length, drop, IfOk, IfSome};
ghost use Rattle.rq_lexer.specs.Lex.{lex, lex_from, blank_len};
ghost use Rattle.rq_lexer.specs.Facts.{IsCut, IsNext};

use crate::placed::Placed;
use crate::prefix::prefix;
use crate::scan;
use rq_values::NoMemory;
use std::alloc::Global;
use std::marker::Model;

/// A text of which the tokens are taken one after the other. A contract sees the tokens that are still to come.
#[derive(Drop)]
pub struct Lexer<'a> {
    text: &'a [u8],
    at: usize,
}

impl<'a> Model for Lexer<'a> {
    ghost use Rattle.std.specs.Prelude.{List, drop, length, ◌≤◌};
    ghost use Rattle.rq_lexer.specs.declared.placed.Placed.{Placed};
    ghost use Rattle.rq_lexer.specs.Lex.{lex_from};

    ghost Value = { List Placed };

    ghost view = { λ l. lex_from l.at 0 (drop l.at l.text.now) };

    ghost invariant = { λ l. l.at ≤ length l.text.now };
}

/// The text from a place on.
fn from_place(text: &[u8], at: usize) -> &[u8]
    requires { at ≤ length text.now }
    ensures { result.now ≡ drop at text.now }
{
    &text[at..]
}

/// How much blanks and comments there are before it.
fn blanks_len(text: &[u8]) -> usize
    ensures within { result ≤ length text.now }
    ensures same { (at : ℕ) → lex_from at 0 text.now ≡ lex_from (at + result) 0 (drop result text.now) }
    ensures stops { blank_len (drop result text.now) ≡ 0 }
{
    let mut passed = 0;
    loop {
        let len = scan::blank_len(from_place(text, passed));
        if len == 0 {
            return passed;
        }
        passed += len;
    }
}

impl<'a> Lexer<'a> {
    #[tactic(auto, unfolding(crate::specs::Lex::lex))]
    pub fn new(text: &'a [u8]) -> Lexer<'a>
        ensures { result ≡ lex text.now }
    {
        Lexer { text, at: 0 }
    }

    /// The next token, None at the end. Memory is taken for the token alone; where it is short, nothing is taken from the text.
    pub fn next_token(&mut self, alloc: Global) -> Result<Option<Placed>, NoMemory>
        ensures next { IsNext self.old self.new result }
        ensures token { IfOk result (λ next. IfSome next (λ p. (p.start < p.end) × IsCut p.token)) }
    {
        let behind = from_place(self.text, self.at);
        let blanks = blanks_len(behind);
        let rest = from_place(behind, blanks);
        if rest.is_empty() {
            return Ok(None);
        }
        let (token, len) = prefix(alloc, rest)?;
        let start = self.at + blanks;
        let end = start + len;
        self.at = end;
        Ok(Some(Placed { token, start, end }))
    }
}
