//! What is proved of the tokens of every text. Each law is the contract of a function that does nothing.

ghost use Rattle.std.specs.Prelude.{◌≡◌, ◌≤◌, List, [], ◌∷◌, ◌++◌, ℕ, Ok, length, slice_index, true};
ghost use Rattle.std.specs.List.{AllByRecursion};
ghost use Rattle.rq_lexer.specs.Lex.{lex};
ghost use Rattle.rq_lexer.specs.Facts.{InOrder, IsCut, IsNext};
ghost use Rattle.rq_lexer.specs.Spelled.{tokens_in, bytes_of, IsSpelled, ends_before};

/// The places of a text's tokens rise, and each token is some bytes of the text. Each but `Other` has a spelling, so that words are
/// bare and of the class that their spelling has, and what is quoted is UTF-8 without NUL.
#[tactic(auto, using(crate::proofs::Cut::lex_in_order, crate::proofs::Spelled::all_cut))]
pub fn tokens_in_order()
    ensures places { (text : List ℕ) → InOrder 0 (length text) (lex text) }
    ensures tokens { (text : List ℕ) → AllByRecursion IsCut (tokens_in text) }
{}

/// A text has no more tokens than bytes.
#[tactic(auto, using(crate::proofs::Cut::lex_few))]
pub fn at_most_one_token_a_byte()
    ensures { (text : List ℕ) → length (lex text) ≤ length text }
{}

/// A token's spelling is read as that token, where the byte behind it doesn't prolong it. A blank is no token.
#[tactic(auto, using(crate::proofs::Spelled::spelled, crate::proofs::Spelled::blank_off, crate::proofs::Spelled::no_tokens))]
pub fn tokens_are_read_as_spelled()
    ensures spelled { (u : _) (rest : List ℕ) → IsSpelled u → ends_before u (slice_index rest 0) ≡ true → tokens_in (bytes_of u ++ rest) ≡ u ∷ tokens_in rest }
    ensures blank { (rest : List ℕ) → tokens_in (32 ∷ rest) ≡ tokens_in rest }
    ensures nothing { tokens_in [] ≡ [] }
{}

/// The tokens that are still to come leave one answer to a call, and one list of tokens behind it, but for want of memory.
#[tactic(auto, using(crate::proofs::OneNext::one_next))]
pub fn each_call_has_one_answer()
    ensures { (old new new' next next' : _) → IsNext old new (Ok next) → IsNext old new' (Ok next') → (next ≡ next') × (new ≡ new') }
{}
