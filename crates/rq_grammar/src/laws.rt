//! What is proved of the grammar alone. Each law is the contract of a function that does nothing.

ghost use Rattle.std.specs.Prelude.{◌≡◌, true};
ghost use Rattle.rq_grammar.specs.Statements.{Spells};
ghost use Rattle.rq_grammar.specs.Print.{tokens_of};
ghost use Rattle.rq_grammar.specs.Proper.{is_statement};

/// The canonical tokens of a proper statement spell it.
#[tactic(auto, using(crate::proofs::PrintStmt::printed_stmt))]
pub fn canonical_tokens()
    ensures { (r : _) → is_statement r ≡ true → Spells (tokens_of r) r }
{}
