//! Steps, and the name that a token is.

ghost use Rattle.std.specs.Prelude.{◌≡◌, IfOk};
ghost use Rattle.rq_automaton.specs.Places as spec;

use rq_automaton::{Place, State};
use rq_grammar::Token;
use rq_values::{NoMemory, Text};
use sqlite_items::Boxed;
use std::alloc::Global;

/// The next state, None where no statement goes on.
pub type Step = Result<Option<State>, NoMemory>;

/// Between expressions, at the place.
pub fn at(alloc: Global, place: Place) -> Step
    ensures { IfOk result (λ next. next ≡ spec.flat place) }
{
    match Boxed::new(alloc, place) {
        Ok(place) => Ok(Some(State::Flat(place))),
        Err(_) => Err(NoMemory),
    }
}

/// The step, and the token is let go.
pub fn behind(next: Step, token: Token) -> Step
    ensures { result ≡ next }
{
    drop(token);
    next
}

/// The name that the token is.
pub(crate) fn name_of(token: Token) -> Option<Text>
    ensures { result ≡ spec.name_of token }
{
    match token {
        Token::Word(name, word) => {
            if word.is_reserved() {
                drop(name);
                None
            } else {
                Some(name)
            }
        }
        Token::Quoted(name) => Some(name),
        other => {
            drop(other);
            None
        }
    }
}
