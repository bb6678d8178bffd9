//! What is proved of the fold. Each law is the contract of a function that does nothing.

ghost use Rattle.std.specs.Prelude.{◌≡◌, ℕ, List, true};
ghost use Rattle.rq_statement.specs.declared.command.Command.{Command};
ghost use Rattle.rq_meaning.specs.Valid.{Valid};
ghost use Rattle.rq_engine.specs.Fold as fold;
ghost use Rattle.rq_engine.specs.Proper as proper;

use rq_meaning::statements_keep_a_database_valid;

/// A command whose statements are proper leaves a valid database valid.
pub fn commands_keep_a_database_valid()
    ensures { (s : fold.State) (c : Command) → proper.is_command c ≡ true → Valid s.database → Valid (fold.run s c).0.database }
{
    statements_keep_a_database_valid();
}

/// The replica of a log whose statements are proper has a valid database.
pub fn replica_is_valid()
    ensures { (ids : List (List ℕ)) (log : List Command) → proper.are_commands log ≡ true → Valid (fold.replica ids log).database }
{
    commands_keep_a_database_valid();
}
