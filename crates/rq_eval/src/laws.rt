//! What is proved of values. Each law is the contract of a function that does nothing.

ghost use Rattle.std.specs.Prelude.{◌≡◌, Bool, List, Result};
ghost use Rattle.rq_values.specs.declared.value.Value.{Value};
ghost use Rattle.rq_grammar.specs.declared.expr.Expr.{Expr};
ghost use Rattle.rq_eval.specs.declared.error.EvalError.{EvalError};
ghost use Rattle.rq_eval.specs.declared.row.Scope.{Scope};
ghost use Rattle.rq_eval.specs.Outcome as outcome;
ghost use Rattle.rq_eval.specs.Names.{Row};
ghost use Rattle.rq_eval.specs.Resolved as resolved;
ghost use Rattle.rq_eval.specs.Value as value;

/// Two answers for one expression and one row are equal, but for want of memory.
#[tactic(auto, using(crate::proofs::OneAnswer::one_answer))]
pub fn one_value()
    ensures { (o : outcome.Outcome Value) (x y : Result Value EvalError) → outcome.Answers o x → outcome.Answers o y → outcome.HasMemory x → outcome.HasMemory y → x ≡ y }
{}

/// What a resolved expression gives over a row is what the expression gives there by one fold over it, names and all.
pub fn names_are_found_once()
    ensures { (rs : List Row) (s : Scope) (a : Expr) (g : Bool) (r : Row) → resolved.evaluated rs (resolved.resolved s a g) r ≡ value.value_in rs s a g r }
{}
