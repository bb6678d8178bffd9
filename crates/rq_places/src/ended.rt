//! Behind a whole statement.

ghost use Rattle.std.specs.Prelude.{◌≡◌, IfOk};
ghost use Rattle.rq_automaton.specs.Places as spec;

use crate::names::{Step, at};
use rq_automaton::{MeasuredStmt, Place};
use rq_grammar::Token;
use std::alloc::Global;

/// Behind a whole statement.
pub(crate) fn behind_ended(alloc: Global, stmt: MeasuredStmt, token: &Token) -> Step
    ensures { IfOk result (λ next. next ≡ spec.behind_ended stmt token.now) }
{
    match token {
        Token::Semi => at(alloc, Place::Ended(stmt)),
        _ => {
            drop(stmt);
            Ok(None)
        }
    }
}
