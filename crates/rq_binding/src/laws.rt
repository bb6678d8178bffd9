//! What is proved of bound and settled statements. Each law is the contract of a function that does nothing.
ghost use Rattle.std.specs.Prelude.{◌≡◌, ◌≤◌, [], ℕ, List, true, Ok};
ghost use Rattle.rq_grammar.specs.declared.stmt.Stmt.{Stmt};
ghost use Rattle.rq_grammar.specs.Proper.{is_statement};
ghost use Rattle.rq_grammar.specs.Depth.{deepest};
ghost use Rattle.rq_statement.specs.Fixed.{statement_fixed};
ghost use Rattle.rq_request.specs.declared.statement.Params.{Params};
ghost use Rattle.rq_binding.specs.Bound.{bound, parameters_of};
ghost use Rattle.rq_binding.specs.Settles.{Settles};
ghost use Rattle.rq_binding.specs.Usable.{are_literals};

use rq_moments::each_moment_shows_one;

/// What is bound has no parameter, is proper where the statement was, and is no deeper. Its values are integers of 64 bits,
/// as each value in memory is.
pub fn what_is_bound()
    ensures bare { (s : Stmt) (p : Params) (r : Stmt) → are_literals p ≡ true → bound s p ≡ Ok r → parameters_of r ≡ [] }
    ensures proper { (s : Stmt) (p : Params) (r : Stmt) → are_literals p ≡ true → bound s p ≡ Ok r → is_statement s ≡ true → is_statement r ≡ true }
    ensures shallow { (s : Stmt) (p : Params) (r : Stmt) → are_literals p ≡ true → bound s p ≡ Ok r → deepest r ≤ deepest s }
{}

/// What is settled has no random node and no time node, and no parameter where the statement had none; it is proper where
/// the statement was, and no deeper.
pub fn what_is_settled()
    ensures fixed { (s : Stmt) (moment : ℕ) (ws : List ℕ) (r : Stmt) → Settles s moment ws r → parameters_of s ≡ [] → statement_fixed r ≡ true }
    ensures proper { (s : Stmt) (moment : ℕ) (ws : List ℕ) (r : Stmt) → Settles s moment ws r → is_statement s ≡ true → is_statement r ≡ true }
    ensures shallow { (s : Stmt) (moment : ℕ) (ws : List ℕ) (r : Stmt) → Settles s moment ws r → deepest r ≤ deepest s }
{}

/// A statement is settled in one way with these words at this moment.
pub fn each_settling_is_one()
    ensures { (s : Stmt) (moment : ℕ) (ws : List ℕ) (r u : Stmt) → Settles s moment ws r → Settles s moment ws u → r ≡ u }
{
    each_moment_shows_one();
}
