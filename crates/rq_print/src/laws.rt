//! What is proved of the canonical text of every statement. The law is the contract of a function that does no work.

ghost use Rattle.std.specs.Prelude.{◌≡◌, true};
ghost use Rattle.rq_grammar.specs.declared.stmt.Stmt.{Stmt};
ghost use Rattle.rq_grammar.specs.Statements.{Spells};
ghost use Rattle.rq_grammar.specs.Print.{tokens_of};
ghost use Rattle.rq_grammar.specs.Proper.{is_statement};
ghost use Rattle.rq_lexer.specs.Spelled.{tokens_in};
ghost use Rattle.rq_print.specs.Text.{text_of};
ghost use Rattle.rq_print.specs.Written.{statement_written};

/// The tokens of a proper statement's canonical text are its canonical tokens, and so they spell the statement.
pub fn canonical_text_is_read()
    ensures tokens { (s : Stmt) → is_statement s ≡ true → statement_written s ≡ true → tokens_in (text_of s) ≡ tokens_of s }
    ensures spells { (s : Stmt) → is_statement s ≡ true → statement_written s ≡ true → Spells (tokens_in (text_of s)) s }
{
    rq_lexer::tokens_are_read_as_spelled();
    rq_grammar::canonical_tokens();
}
