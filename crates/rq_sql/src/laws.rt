//! What is proved of all texts.

ghost use Rattle.std.specs.Prelude.{◌≡◌, ℕ, List, Result};
ghost use Rattle.rq_grammar.specs.declared.stmt.Stmt.{Stmt};
ghost use Rattle.rq_sql.specs.declared.error.ReadError.{ReadError};
ghost use Rattle.rq_sql.specs.Read.{Means};

use rq_automaton::{one_place, one_statement, reads_within_limits};

#[tactic(auto, using(crate::proofs::Meaning::one_answer, crate::proofs::Meaning::some_answer))]
/// Each text means one statement or one refusal.
pub fn each_text_has_one_answer()
    ensures some { (text : List ℕ) → (answer : Result Stmt ReadError) × Means text answer }
    ensures one { (text : List ℕ) (answer other : _) → Means text answer → Means text other → answer ≡ other }
{
    one_statement();
    one_place();
    reads_within_limits();
}
