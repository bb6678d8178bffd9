//! A statement's text with what is given for its parameters, made ready for the log: it is read, bound and settled.
ghost use Rattle.std.specs.Prelude.{◌≡◌, ◌≤◌, [], true, Err, IsTrue, IfOk, IfErr, OnOk};
ghost use Rattle.rq_binding.specs.Bound.{bound, parameters_of};
ghost use Rattle.rq_binding.specs.Settles.{stmt_plan};
ghost use Rattle.rq_grammar.specs.Depth.{deepest, the_limits};
ghost use Rattle.rq_grammar.specs.Proper.{is_statement};
ghost use Rattle.rq_settle.specs.Prepared.{error_text, too_large as too_large_text};
ghost use Rattle.rq_sql.specs.declared.error.ReadError.{ReadError as TheReadError};
ghost use Rattle.rq_sql.specs.Read.{Means};
ghost use Rattle.rq_statement.specs.declared.item.Item.TheVariants.{Fail};
ghost use Rattle.rq_preparing.specs.Prepared as spec;

use rq_binding::{BindError, SettleError, bind, know_params, settle, what_is_bound};
use rq_canonical::what_is_read_is_proper;
use rq_grammar::Stmt;
use rq_outside::Draws;
use rq_request::Params;
use rq_sql::{ReadError, each_text_has_one_answer, read};
use rq_statement::Item;
use rq_values::{NoMemory, Text};
use std::alloc::Global;

/// What preparing answers in place of an item.
#[derive(Clone, Copy)]
pub enum PrepareError {
    /// The draws failed.
    Draws,
    NoMemory,
}

impl From<NoMemory> for PrepareError {
    ghost use Rattle.std.specs.Prelude.{◌≡◌};
    ghost use Rattle.rq_preparing.specs.declared.preparing.PrepareError.TheVariants as errors;

    ghost from_gives = { λ _ e. e ≡ errors.NoMemory };

    fn from(_e: NoMemory) -> PrepareError {
        PrepareError::NoMemory
    }
}

/// The item of a text that isn't read.
#[tactic(auto, using(crate::proofs::Readying::unread))]
fn unread_item(alloc: Global, text: &[u8]) -> Result<Item, NoMemory>
    ensures { IfOk result (λ item. (error : TheReadError) → Means text.now (Err error) → item ≡ Fail (error_text text.now error)) }
{
    each_text_has_one_answer();
    rq_settle::prepare(alloc, text)
}

/// The item of a statement that isn't bound. Want of memory is none.
fn unbound_item(alloc: Global, error: BindError) -> Result<Item, NoMemory>
    ensures { IfOk result (spec.IsUnboundItem error) }
{
    let text = match &error {
        BindError::NoMemory => Err(NoMemory),
        BindError::Count { .. } | BindError::Missing(_) => error.to_text(alloc),
    };
    drop(error);
    match text {
        Ok(text) => Ok(Item::Fail(text)),
        Err(error) => Err(error),
    }
}

/// The canonical text has so many bytes.
fn too_large(alloc: Global, len: usize) -> Result<Text, NoMemory>
    ensures { IfOk result (λ text. text ≡ too_large_text len) }
{
    let mut text = Text::empty(alloc);
    text.push_plain(b"statement too large: ")?;
    text.push_number(alloc, len as u64)?;
    Ok(text)
}

/// The item of a bound statement.
fn settled_item<R: Draws>(
    alloc: Global,
    stmt: &Stmt,
    draws: &mut R,
    moment: u64,
) -> Result<Item, PrepareError>
    requires bare { parameters_of stmt.now ≡ [] }
    requires proper { is_statement stmt.now ≡ true }
    requires shallow { deepest stmt.now ≤ the_limits.depth }
    ensures item { IfOk result (spec.IsSettledItem R.told stmt.now moment (R.words draws.old) (R.words draws.new) (stmt_plan stmt.now moment).refusal) }
    ensures took { IsTrue R.told → IfErr result (λ error. spec.TookBy error (stmt_plan stmt.now moment).words (R.words draws.old) (R.words draws.new)) }
    ensures cause { IfErr result (spec.PrepareFaulted (R.faults draws.old) (R.faults draws.new)) }
    ensures later { R.faults draws.old ≤ R.faults draws.new }
    ensures ok { OnOk result (R.faults draws.new ≡ R.faults draws.old) }
{
    match settle(alloc, stmt, draws, moment) {
        Ok(settled) => Ok(Item::Run(settled)),
        Err(SettleError::Refused(refusal)) => Ok(Item::Fail(refusal.to_text(alloc)?)),
        Err(SettleError::TooLarge(len)) => Ok(Item::Fail(too_large(alloc, len)?)),
        Err(SettleError::Draws) => Err(PrepareError::Draws),
        Err(SettleError::NoMemory) => Err(PrepareError::NoMemory),
    }
}

/// The item of a statement that was read.
fn bound_item<R: Draws>(
    alloc: Global,
    stmt: &Stmt,
    params: &Params,
    draws: &mut R,
    moment: u64,
) -> Result<Item, PrepareError>
    requires proper { is_statement stmt.now ≡ true }
    requires shallow { deepest stmt.now ≤ the_limits.depth }
    ensures item { IfOk result (spec.IsBoundItem R.told moment (R.words draws.old) (R.words draws.new) (bound stmt.now params.now)) }
    ensures took { IsTrue R.told → IfErr result (λ error. spec.TookBy error (spec.bound_words moment (bound stmt.now params.now)) (R.words draws.old) (R.words draws.new)) }
    ensures cause { IfErr result (spec.PrepareFaulted (R.faults draws.old) (R.faults draws.new)) }
    ensures later { R.faults draws.old ≤ R.faults draws.new }
    ensures ok { OnOk result (R.faults draws.new ≡ R.faults draws.old) }
{
    what_is_bound();
    know_params(params);
    match bind(alloc, stmt, params) {
        Ok(bound) => {
            let item = settled_item(alloc, &bound, draws, moment);
            drop(bound);
            item
        }
        Err(error) => Ok(unbound_item(alloc, error)?),
    }
}

/// The settled statement that the text spells with these values for its parameters, with the next random words and the
/// moment, in milliseconds since 1970-01-01; or the error that it has.
pub fn prepare<R: Draws>(
    alloc: Global,
    text: &[u8],
    params: &Params,
    draws: &mut R,
    moment: u64,
) -> Result<Item, PrepareError>
    ensures prepared { IfOk result (spec.IsPrepared R.told text.now params.now moment (R.words draws.old) (R.words draws.new)) }
    ensures took { IfErr result (spec.IsUnprepared R.told text.now params.now moment (R.words draws.old) (R.words draws.new)) }
    ensures cause { IfErr result (spec.PrepareFaulted (R.faults draws.old) (R.faults draws.new)) }
    ensures later { R.faults draws.old ≤ R.faults draws.new }
    ensures ok { OnOk result (R.faults draws.new ≡ R.faults draws.old) }
{
    what_is_read_is_proper();
    each_text_has_one_answer();
    match read(alloc, text) {
        Ok(stmt) => {
            let item = bound_item(alloc, &stmt, params, draws, moment);
            drop(stmt);
            item
        }
        Err(ReadError::NoMemory) => Err(PrepareError::NoMemory),
        Err(_) => Ok(unread_item(alloc, text)?),
    }
}
