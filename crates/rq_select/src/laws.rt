//! What is proved of selects. Each law is the contract of a function that does nothing.

ghost use Rattle.std.specs.Prelude.{◌≡◌, Result};
ghost use Rattle.rq_statement.specs.declared.res.Res.{Res};
ghost use Rattle.rq_eval.specs.declared.error.EvalError.{EvalError};
ghost use Rattle.rq_eval.specs.Outcome as outcome;

/// Two answers for one select and one table are equal, but for want of memory.
#[tactic(auto, using(crate::proofs::OneAnswer::one_answer))]
pub fn one_select()
    ensures { (o : outcome.Outcome Res) (x y : Result Res EvalError) → outcome.Answers o x → outcome.Answers o y → outcome.HasMemory x → outcome.HasMemory y → x ≡ y }
{}
