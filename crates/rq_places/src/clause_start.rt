//! Where the expression of a clause begins.

ghost use Rattle.std.specs.Prelude.{◌≡◌, ◌∷◌, [], IfOk};
ghost use Rattle.rq_automaton.specs.Places as spec;
ghost use Rattle.rq_automaton.specs.declared.frame.Frame.TheVariants as f;

use crate::names::Step;
use crate::place_weights::clause_floor;
use rq_automaton::{Clause, Stack, State};
use rq_values::NoMemory;
use std::alloc::Global;

/// The stack that has the clause alone.
pub(crate) fn stack_of(alloc: Global, clause: Clause) -> Result<Stack, NoMemory>
    ensures { IfOk result (λ st. st ≡ f.Clause clause ∷ []) }
{
    let floor = clause_floor(&clause);
    Stack::of_clause(alloc, clause, floor)
}

/// An expression of the clause is to come.
pub fn inside(alloc: Global, clause: Clause) -> Step
    ensures { IfOk result (λ next. next ≡ spec.inside clause) }
{
    match stack_of(alloc, clause) {
        Ok(stack) => Ok(Some(State::Operand(stack))),
        Err(error) => Err(error),
    }
}
