//! A statement's text, made ready for the log.
ghost use Rattle.std.specs.Prelude.{◌≡◌, ◌-◌, ◌≤◌, true, ℕ, List, IfOk, OnOk};
ghost use Rattle.rq_grammar.specs.declared.stmt.Stmt.{Stmt as TheStmt};
ghost use Rattle.rq_grammar.specs.Depth.{deepest, the_limits};
ghost use Rattle.rq_grammar.specs.Proper.{is_statement};
ghost use Rattle.rq_sql.specs.declared.error.ReadError.TheVariants as errors;
ghost use Rattle.rq_statement.specs.Unsettled.{IsUnsettled};
ghost use Rattle.rq_settle.specs.Prepared as spec;

use crate::refusing::{incomplete, near, not_built, not_in_profile, too_deep, too_large, too_long};
use rq_canonical::what_is_read_is_proper;
use rq_grammar::Stmt;
use rq_sql::{ReadError, each_text_has_one_answer, read};
use rq_statement::{Item, Settled, Unsettled};
use rq_values::{NoMemory, Text};
use std::alloc::Global;

/// The bytes between two places.
#[tactic(auto, using(crate::proofs::Sources::between))]
fn source(text: &[u8], from: usize, to: usize) -> &[u8]
    ensures { result.now ≡ spec.source text.now from to }
{
    let end = to.min(text.len());
    let start = from.min(end);
    &text[start..end]
}

fn near_text(alloc: Global, text: &[u8], from: usize, to: usize) -> Result<Text, NoMemory>
    ensures { IfOk result (λ error. error ≡ spec.near_text text.now from to) }
{
    if from == to {
        incomplete(alloc)
    } else {
        near(alloc, source(text, from, to))
    }
}

/// The error of a statement that isn't read. Want of memory is none.
fn error_text(alloc: Global, text: &[u8], error: ReadError) -> Result<Text, NoMemory>
    ensures told { IfOk result (λ told. told ≡ spec.error_text text.now error) }
    ensures refused { OnOk result (error ≡ errors.NoMemory → ⊥) }
{
    match error {
        ReadError::TooLong(len) => too_long(alloc, len),
        ReadError::Near { from, to } => near_text(alloc, text, from, to),
        ReadError::NotInProfile { from, to } => not_in_profile(alloc, source(text, from, to)),
        ReadError::TooDeep(_) => too_deep(alloc),
        ReadError::NoMemory => Err(NoMemory),
    }
}

/// The item of a statement that isn't settled. Want of memory is none.
#[tactic(auto, using(crate::proofs::Sources::not_fixed_item, crate::proofs::Sources::too_large_item))]
fn item_of_error(alloc: Global, error: Unsettled) -> Result<Item, NoMemory>
    ensures { IfOk result (λ item. (stmt : TheStmt) → IsUnsettled stmt error → item ≡ spec.item_of_statement stmt) }
{
    match error {
        Unsettled::NotFixed => Ok(Item::Fail(not_built(alloc)?)),
        Unsettled::TooLarge(len) => Ok(Item::Fail(too_large(alloc, len)?)),
        Unsettled::NoMemory => Err(NoMemory),
    }
}

/// The item of a statement that was read.
#[tactic(auto, using(crate::proofs::Sources::settled_item))]
fn item_of(alloc: Global, stmt: Stmt) -> Result<Item, NoMemory>
    requires proper { is_statement stmt ≡ true }
    requires shallow { deepest stmt ≤ the_limits.depth }
    ensures { IfOk result (λ item. item ≡ spec.item_of_statement stmt) }
{
    match Settled::new(alloc, stmt) {
        Ok(settled) => Ok(Item::Run(settled)),
        Err(error) => item_of_error(alloc, error),
    }
}

/// The settled statement that the text spells, or the error that it has.
#[tactic(auto, using(crate::proofs::Sources::prepared_statement, crate::proofs::Sources::prepared_error))]
pub fn prepare(alloc: Global, text: &[u8]) -> Result<Item, NoMemory>
    ensures { IfOk result (λ item. spec.IsPrepared text.now item) }
{
    what_is_read_is_proper();
    match read(alloc, text) {
        Ok(stmt) => item_of(alloc, stmt),
        Err(error) => Ok(Item::Fail(error_text(alloc, text, error)?)),
    }
}

/// Each text is prepared as one item.
#[tactic(auto, using(crate::proofs::Sources::some_item, crate::proofs::Sources::one_item))]
pub fn each_text_is_prepared()
    ensures some { (text : List ℕ) → (item : _) × spec.IsPrepared text item }
    ensures one { (text : List ℕ) (item other : _) → spec.IsPrepared text item → spec.IsPrepared text other → item ≡ other }
{
    each_text_has_one_answer();
}
