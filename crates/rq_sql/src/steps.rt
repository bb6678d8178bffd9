//! One token after the other.

ghost use Rattle.std.specs.Prelude.{◌≡◌, ◌≤◌, ℕ, List, [], ◌∷◌};
ghost use Rattle.rq_lexer.specs.declared.placed.Placed.{Placed};
ghost use Rattle.rq_machine.specs.Stop.{stop_of};
ghost use Rattle.rq_sql.specs.Read as spec;
ghost use Rattle.rq_sql.specs.Running.{IsNext};

use crate::error::ReadError;
use rq_automaton::State;
use rq_grammar::{Stmt, Token, Word};
use rq_lexer::{Lexer, Placed};
use rq_machine::{Stop, advance, finish, open_behind};
use std::alloc::Global;

/// The number that is a numeral only behind a prefix `-`.
const MOST: u64 = 9_223_372_036_854_775_808;

/// What a token gives.
#[derive(Drop)]
pub(crate) enum Next {
    /// How many parentheses are open behind the token, and where the machine stands.
    Further(u32, State),
    /// The tokens have ended.
    Whole(Stmt),
}

/// Whether the token is a word or a numeral out of the profile.
fn is_out_of_profile(token: &Token) -> bool
    ensures { result ≡ spec.is_out_of_profile token.now }
{
    match token {
        Token::Word(_, Word::OutOfProfile { .. }) => true,
        Token::Numeral(number) => *number == MOST,
        Token::OtherNumeral(_) => true,
        _ => false,
    }
}

/// The refusal at a token from `start` to `end`.
fn refusal(stop: Stop, is_out: bool, start: usize, end: usize) -> ReadError
    ensures { result ≡ spec.at_place (stop_of stop) is_out start end }
{
    match (stop, is_out) {
        (Stop::TooDeep, _) => ReadError::TooDeep(start),
        (Stop::NoStatement, true) => ReadError::NotInProfile {
            from: start,
            to: end,
        },
        (Stop::NoStatement, false) => ReadError::Near {
            from: start,
            to: end,
        },
    }
}

/// Goes on with a token, where so many parentheses are open before it.
fn on_token(alloc: Global, opened: u32, state: State, placed: Placed) -> Result<Next, ReadError>
    requires { opened ≤ 250 }
    ensures { (size : ℕ) (more : List Placed) → IsNext size opened state (placed ∷ more) more result }
{
    let Placed { token, start, end } = placed;
    let is_out = is_out_of_profile(&token);
    let behind = open_behind(opened, &token);
    match advance(alloc, opened, state, token)? {
        Ok(state) => Ok(Next::Further(behind, state)),
        Err(stop) => Err(refusal(stop, is_out, start, end)),
    }
}

/// Ends, in a text of so many bytes.
fn at_end(alloc: Global, size: usize, state: State) -> Result<Next, ReadError>
    ensures { (opened : ℕ) → IsNext size opened state [] [] result }
{
    match finish(alloc, state)? {
        Some(stmt) => Ok(Next::Whole(stmt)),
        None => Err(ReadError::Near {
            from: size,
            to: size,
        }),
    }
}

/// Takes the next token of a text of so many bytes and goes on with it, or ends.
pub(crate) fn take_token(
    alloc: Global,
    size: usize,
    lexer: &mut Lexer,
    opened: u32,
    state: State,
) -> Result<Next, ReadError>
    requires { opened ≤ 250 }
    ensures { IsNext size opened state lexer.old lexer.new result }
{
    match lexer.next_token(alloc)? {
        Some(placed) => on_token(alloc, opened, state, placed),
        None => at_end(alloc, size, state),
    }
}
