//! What is proved of canonical text. Each law is the contract of a function that does nothing.

ghost use Rattle.std.specs.Prelude.{◌≡◌, ◌≤◌, true, ℕ, List, length, Ok};
ghost use Rattle.rq_values.specs.Text.{is_text};
ghost use Rattle.rq_grammar.specs.declared.stmt.Stmt.{Stmt};
ghost use Rattle.rq_grammar.specs.Depth.{the_limits, deepest, most_open};
ghost use Rattle.rq_grammar.specs.Print.{tokens_of};
ghost use Rattle.rq_grammar.specs.Proper.{is_statement};
ghost use Rattle.rq_sql.specs.Read.{most_bytes, Means};
ghost use Rattle.rq_print.specs.Text.{text_of};
ghost use Rattle.rq_print.specs.Written.{statement_written};
ghost use Rattle.rq_statement.specs.Settled.{IsSettled};

/// A statement that is read is proper, its names and texts are texts, and its blobs are bytes.
pub fn what_is_read_is_proper()
    ensures proper { (text : List ℕ) (s : Stmt) → Means text (Ok s) → is_statement s ≡ true }
    ensures written { (text : List ℕ) (s : Stmt) → Means text (Ok s) → statement_written s ≡ true }
{
    rq_lexer::tokens_in_order();
}

/// The canonical tokens of a statement within the limit of depth are within that of open parentheses.
#[tactic(auto, using(crate::proofs::Opened::narrow))]
pub fn few_parentheses_are_open()
    ensures { (s : Stmt) → deepest s ≤ the_limits.depth → most_open 0 (tokens_of s) ≤ the_limits.parens }
{}

/// A statement is read from its canonical text.
pub fn printed_text_is_read()
    // Each proper statement that is written in texts and bytes, where its depth and its canonical text are within the limits.
    ensures printed { (s : Stmt) → is_statement s ≡ true → statement_written s ≡ true → deepest s ≤ the_limits.depth → length (text_of s) ≤ most_bytes → Means (text_of s) (Ok s) }
    // So is each statement that was read, where its canonical text is within the limit.
    ensures again { (text : List ℕ) (s : Stmt) → Means text (Ok s) → length (text_of s) ≤ most_bytes → Means (text_of s) (Ok s) }
{
    rq_print::canonical_text_is_read();
    rq_lexer::tokens_in_order();
}

/// Each settled statement is what its canonical text means, and that text is UTF-8 without NUL.
pub fn settled_text_is_read()
    ensures read { (s : Stmt) → IsSettled s → Means (text_of s) (Ok s) }
    ensures text { (s : Stmt) → IsSettled s → is_text (text_of s) ≡ true }
{
    printed_text_is_read();
    canonical_text_is_text();
}

/// Canonical text is UTF-8 without NUL.
pub fn canonical_text_is_text()
    // That of each proper statement that is written in texts and bytes.
    ensures { (s : Stmt) → is_statement s ≡ true → statement_written s ≡ true → is_text (text_of s) ≡ true }
{}
