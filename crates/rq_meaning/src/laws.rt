//! What is proved of statements. Each law is the contract of a function that does nothing.

ghost use Rattle.std.specs.Prelude.{◌≡◌, true, Result, Ok, IsOk};
ghost use Rattle.rq_values.specs.declared.memory.NoMemory.{NoMemory};
ghost use Rattle.rq_statement.specs.declared.item.Item.{Item};
ghost use Rattle.rq_statement.specs.declared.res.Res.{Res};
ghost use Rattle.rq_grammar.specs.declared.stmt.Stmt.{Stmt};
ghost use Rattle.rq_grammar.specs.Proper.{is_statement};
ghost use Rattle.rq_meaning.specs.declared.done.Done.{Done};
ghost use Rattle.rq_meaning.specs.Database.{Database};
ghost use Rattle.rq_meaning.specs.Valid.{Valid};
ghost use Rattle.rq_meaning.specs.Statements.{Effect, executed};
ghost use Rattle.rq_meaning.specs.Lists as lists;
ghost use Rattle.rq_meaning.specs.Running.{Settles};

/// Two answers for one statement and one database are equal, and so are the databases that they leave, but for want of memory.
#[tactic(auto, using(crate::proofs::Failing::one_meaning))]
pub fn one_meaning()
    ensures { (o : Effect) (db d e : Database) (x y : Result Res NoMemory) → Settles o db d x → Settles o db e y → IsOk x → IsOk y → (x ≡ y) × (d ≡ e) }
{}

/// An item whose answer is an error changes nothing.
#[tactic(auto, using(crate::proofs::Failing::nothing_changed))]
pub fn what_fails_changes_nothing()
    ensures { (db : Database) (i : Item) → lists.is_error (lists.means db i).1 ≡ true → (lists.means db i).0 ≡ db }
{}

/// A proper statement leaves a valid database valid.
#[tactic(auto, using(crate::proofs::Selected::executed_valid))]
pub fn statements_keep_a_database_valid()
    ensures { (db : Database) (s : Stmt) (p : Database × Done) → is_statement s ≡ true → Valid db → executed db s ≡ Ok p → Valid p.0 }
{}
