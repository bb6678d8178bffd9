//! The reader.

ghost use Rattle.std.specs.Prelude.{◌≡◌, ◌<◌, length, Err};
ghost use Rattle.rq_automaton.specs.Machine.{Start};
ghost use Rattle.rq_lexer.specs.Lex.{lex};
ghost use Rattle.rq_sql.specs.declared.error.ReadError.TheVariants as errors;
ghost use Rattle.rq_sql.specs.Read.{most_bytes, Means, Reads, ReadsOnly};
ghost use Rattle.rq_sql.specs.Running.{runs};

use crate::error::ReadError;
use crate::steps::{Next, take_token};
use rq_automaton::{State, one_place, one_statement, reads_within_limits};
use rq_grammar::Stmt;
use rq_lexer::Lexer;
use std::alloc::Global;

/// How many bytes a text may have.
const MOST_BYTES: usize = 4_194_304;

/// Runs the machine over the text's tokens.
fn run(alloc: Global, text: &[u8]) -> Result<Stmt, ReadError>
    ensures { ReadsOnly (runs (length text.now) 0 Start (lex text.now)) result }
{
    let mut lexer = Lexer::new(text);
    let mut opened = 0;
    let mut state = State::start(alloc)?;
    loop {
        match take_token(alloc, text.len(), &mut lexer, opened, state)? {
            Next::Further(behind, next) => {
                opened = behind;
                state = next;
            }
            Next::Whole(stmt) => return Ok(stmt),
        }
    }
}

/// The one statement that the text spells.
#[tactic(auto, using(crate::proofs::Meaning::runs_means, crate::proofs::Meaning::one_answer, crate::proofs::Meaning::reads, crate::proofs::Meaning::reads_only))]
pub fn read(alloc: Global, text: &[u8]) -> Result<Stmt, ReadError>
    // The answer is what the text means, or it is want of memory.
    ensures reads { Reads text.now result }
    // What the text means is answered, unless memory is short.
    ensures only { (answer : _) → Means text.now answer → ReadsOnly answer result }
    // The length is looked at first, and takes no memory.
    ensures long { most_bytes < length text.now → result ≡ Err (errors.TooLong (length text.now)) }
{
    if text.len() > MOST_BYTES {
        return Err(ReadError::TooLong(text.len()));
    }
    one_statement();
    one_place();
    reads_within_limits();
    run(alloc, text)
}
