//! What is proved of every step. The law is the contract of a function that does nothing.

ghost use Rattle.std.specs.Prelude.{◌≡◌, ℕ};
ghost use Rattle.rq_machine.specs.Stop.{Advances};

/// Two answers of the machine to one token are equal, but for want of memory.
#[tactic(auto, using(crate::proofs::OneAnswer::one_answer))]
pub fn each_token_has_one_answer()
    ensures { (opened : ℕ) (state token r r' : _) → Advances opened state token r → Advances opened state token r' → r ≡ r' }
{}
