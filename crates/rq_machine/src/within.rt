//! The machine within the limits.

ghost use Rattle.std.specs.Prelude.{◌≡◌, ◌≤◌, IfOk, Some};
ghost use Rattle.rq_grammar.specs.Depth as spec;
ghost use Rattle.rq_automaton.specs.Machine as m;
ghost use Rattle.rq_automaton.specs.Weight.{limited};
ghost use Rattle.rq_machine.specs.Stop.{Answers, Advances};

use crate::limits::{fits, open_behind};
use crate::step;
use crate::stop::Stop;
use rq_automaton::State;
use rq_grammar::{Stmt, Token};
use rq_values::NoMemory;
use std::alloc::Global;

/// The state behind the token, where so many parentheses are open before it; or why the machine stops there.
pub fn advance(
    alloc: Global,
    opened: u32,
    state: State,
    token: Token,
) -> Result<Result<State, Stop>, NoMemory>
    requires { opened ≤ 250 }
    ensures { IfOk result (λ r. Advances opened state token r) }
{
    let behind = open_behind(opened, &token);
    match step::step(alloc, state, token) {
        Ok(Some(next)) => Ok(limit(behind, next)),
        Ok(None) => Ok(Err(Stop::NoStatement)),
        Err(error) => Err(error),
    }
}

/// The state, where it is within the limits.
fn limit(opened: u32, next: State) -> Result<State, Stop>
    requires { opened ≤ 251 }
    ensures { Answers (limited spec.the_limits opened (Some next)) result }
{
    if fits(opened, &next) {
        Ok(next)
    } else {
        drop(next);
        Err(Stop::TooDeep)
    }
}

/// The statement, if the tokens end here.
pub fn finish(alloc: Global, state: State) -> Result<Option<Stmt>, NoMemory>
    ensures { IfOk result (λ r. r ≡ m.finish state) }
{
    step::finish(alloc, state)
}
