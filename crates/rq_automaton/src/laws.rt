//! What is proved of the grammar and of the machine. Each law is the contract of a function that does nothing.

ghost use Rattle.std.specs.Prelude.{◌≡◌, ℕ, Ok, Err};
ghost use Rattle.rq_grammar.specs.Words.{Tokens};
ghost use Rattle.rq_grammar.specs.Statements.{Spells};
ghost use Rattle.rq_grammar.specs.Depth.{Limits, SpellsWithin, StopsAt};
ghost use Rattle.rq_automaton.specs.Machine.{parse, Start};
ghost use Rattle.rq_automaton.specs.Weight.{parse_within};

/// The tokens spell one statement at most.
#[tactic(auto, using(crate::proofs::Unique::one))]
pub fn one_statement()
    ensures { (x : Tokens) (r r' : _) → Spells x r → Spells x r' → r ≡ r' }
{}

/// The machine reads a statement exactly where the tokens spell it, whatever the limits are.
#[tactic(auto, using(crate::proofs::SoundSteps::sound, crate::proofs::CompleteStatements::complete_stmt))]
pub fn reads_what_is_spelled()
    ensures sound { (x : Tokens) (r : _) → parse Start x ≡ Ok r → Spells x r }
    ensures complete { (x : Tokens) (r : _) → Spells x r → parse Start x ≡ Ok r }
{}

/// Within limits of depth and of open parentheses the machine reads a statement exactly where the tokens spell it and
/// both are within the limits. Else it stops at the first token with which no statement within the limits goes on, or at the
/// end, where more is wanted; and it says too deep exactly where some statement beyond the limits goes on with that token.
#[tactic(auto, using(crate::proofs::Stops::limited_complete))]
pub fn reads_within_limits()
    ensures sound { (l : Limits) (x : Tokens) (r : _) → parse_within l 0 Start x ≡ Ok r → SpellsWithin l x r }
    ensures complete { (l : Limits) (x : Tokens) (r : _) → SpellsWithin l x r → parse_within l 0 Start x ≡ Ok r }
    ensures stops { (l : Limits) (x : Tokens) (stop : _) (n : ℕ) → parse_within l 0 Start x ≡ Err (stop, n) → StopsAt l x stop n }
{}

/// Reading within limits stops at one place, and for one reason.
#[tactic(auto, using(crate::proofs::Stops::one_place))]
pub fn one_place()
    ensures { (l : Limits) (x : Tokens) (stop stop' : _) (m n : ℕ) → StopsAt l x stop m → StopsAt l x stop' n → (stop ≡ stop') × (m ≡ n) }
{}
