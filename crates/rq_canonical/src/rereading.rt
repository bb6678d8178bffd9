//! Printing a statement, and reading what is printed.
ghost use Rattle.std.specs.Prelude.{◌≡◌, ◌≤◌, true, length, Ok};
ghost use Rattle.rq_grammar.specs.Depth.{the_limits, deepest};
ghost use Rattle.rq_grammar.specs.Proper.{is_statement};
ghost use Rattle.rq_sql.specs.Read.{most_bytes, ReadsOnly};
ghost use Rattle.rq_print.specs.Text.{text_of};

use crate::laws::printed_text_is_read;
use rq_grammar::Stmt;
use rq_print::{each_statement_is_written, printed};
use rq_sql::{ReadError, read};
use std::alloc::Global;

/// Reads the statement's canonical text, which gives the statement again.
pub fn read_printed(alloc: Global, stmt: &Stmt) -> Result<Stmt, ReadError>
    ensures { is_statement stmt.now ≡ true → deepest stmt.now ≤ the_limits.depth → length (text_of stmt.now) ≤ most_bytes → ReadsOnly (Ok stmt.now) result }
{
    each_statement_is_written(stmt);
    printed_text_is_read();
    let text = printed(alloc, stmt)?;
    let again = read(alloc, &text);
    drop(text);
    again
}
