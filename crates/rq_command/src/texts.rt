//! What a text is read as.
ghost use Rattle.std.specs.Prelude.{◌≡◌, ◌≤◌, true, [], IfOk, OnOk};
ghost use Rattle.rq_grammar.specs.Depth.{deepest, the_limits};
ghost use Rattle.rq_grammar.specs.Proper.{is_statement};
ghost use Rattle.rq_sql.specs.declared.error.ReadError.TheVariants as errors;
ghost use Rattle.rq_statement.specs.declared.item.Item.TheVariants.{Fail};
ghost use Rattle.rq_command.specs.Reading.{IsReadAs, IsItemOf};

use rq_canonical::what_is_read_is_proper;
use rq_grammar::Stmt;
use rq_sql::{ReadError, each_text_has_one_answer, read};
use rq_statement::{Item, Settled, Unsettled};
use rq_values::{NoMemory, Text};
use std::alloc::Global;

/// The error without a text.
fn no_statement(alloc: Global) -> Item
    ensures { result ≡ Fail [] }
{
    Item::Fail(Text::empty(alloc))
}

/// What a statement is read as.
#[tactic(auto, using(crate::proofs::Statements::not_fixed, crate::proofs::Statements::too_large))]
fn item_of(alloc: Global, stmt: Stmt) -> Result<Item, NoMemory>
    requires proper { is_statement stmt ≡ true }
    requires shallow { deepest stmt ≤ the_limits.depth }
    ensures { IfOk result (λ item. IsItemOf stmt item) }
{
    match Settled::new(alloc, stmt) {
        Ok(settled) => Ok(Item::Run(settled)),
        Err(Unsettled::NotFixed) => Ok(no_statement(alloc)),
        Err(Unsettled::TooLarge(_)) => Ok(no_statement(alloc)),
        Err(Unsettled::NoMemory) => Err(NoMemory),
    }
}

/// What a text that isn't read is read as. Want of memory is none.
fn refused(alloc: Global, error: ReadError) -> Result<Item, NoMemory>
    ensures item { IfOk result (λ item. item ≡ Fail []) }
    ensures refused { OnOk result (error ≡ errors.NoMemory → ⊥) }
{
    match error {
        ReadError::NoMemory => Err(NoMemory),
        _ => Ok(no_statement(alloc)),
    }
}

/// The settled statement that the text means, or the error without a text.
#[tactic(auto, using(crate::proofs::Statements::read_item, crate::proofs::Statements::no_item))]
pub fn read_text(alloc: Global, text: &[u8]) -> Result<Item, NoMemory>
    ensures { IfOk result (λ item. IsReadAs text.now item) }
{
    each_text_has_one_answer();
    what_is_read_is_proper();
    match read(alloc, text) {
        Ok(stmt) => item_of(alloc, stmt),
        Err(error) => refused(alloc, error),
    }
}
