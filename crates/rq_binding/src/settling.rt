//! Random words and a moment in place of random nodes and time nodes.
ghost use Rattle.std.specs.Prelude.{◌≡◌, ◌≤◌, ◌++◌, [], length, true, None, IsTrue, IfOk, IfErr, OnOk};
ghost use Rattle.rq_grammar.specs.Depth.{deepest, the_limits};
ghost use Rattle.rq_grammar.specs.Proper.{is_statement};
ghost use Rattle.rq_statement.specs.Fixed.{statement_fixed};
ghost use Rattle.rq_statement.specs.Settled.{IsSettled};
ghost use Rattle.rq_binding.specs.declared.node.Sort.TheVariants as sort;
ghost use Rattle.rq_binding.specs.declared.settling.SettleError.TheVariants as errors;
ghost use Rattle.rq_binding.specs.Bound.{parameters_of};
ghost use Rattle.rq_binding.specs.Drawn.{drawn_values as drawn_values_of};
ghost use Rattle.rq_binding.specs.Settles as spec;
ghost use Rattle.rq_binding.specs.Statements.{stmt_filled};

use crate::drawing::draw;
use crate::drawn::drawn_values;
use crate::known::know_words;
use crate::laws::what_is_settled;
use crate::node::{Node, Sort};
use crate::planning::{Plan, Refusal, plan_of};
use crate::statement_filling::filled_stmt;
use crate::statement_nodes::nodes_of;
use rq_grammar::Stmt;
use rq_moments::{Shown, texts_of};
use rq_outside::Draws;
use rq_statement::{Settled, Unsettled};
use rq_values::{NoMemory, Seq};
use std::alloc::Global;

/// What settling answers in place of a statement.
#[derive(Clone, Copy)]
pub enum SettleError {
    Refused(Refusal),
    /// The canonical text has so many bytes, more than it may have.
    TooLarge(usize),
    /// The draws failed.
    Draws,
    NoMemory,
}

impl From<NoMemory> for SettleError {
    ghost from_gives = { λ _ e. e ≡ errors.NoMemory };

    fn from(_e: NoMemory) -> SettleError {
        SettleError::NoMemory
    }
}

/// The random nodes and time nodes of the statement, and what settling takes.
fn planned(alloc: Global, stmt: &Stmt, moment: u64) -> Result<(Seq<Node>, Plan), NoMemory>
    ensures { IfOk result (λ both. (both.0 ≡ spec.drawn_nodes stmt.now) × (both.1 ≡ spec.stmt_plan stmt.now moment)) }
{
    match nodes_of(alloc, Sort::Drawn, stmt) {
        Ok(places) => match plan_of(moment, &places) {
            Ok(plan) => match places.joined() {
                Ok(nodes) => Ok((nodes, plan)),
                Err(error) => Err(error),
            },
            Err(error) => {
                drop(places);
                Err(error)
            }
        },
        Err(error) => Err(error),
    }
}

/// The statement with the values of these nodes.
fn settled_with(
    alloc: Global,
    stmt: &Stmt,
    texts: &Option<Shown>,
    nodes: &[Node],
    words: &[u64],
) -> Result<Stmt, NoMemory>
    ensures { IfOk result (λ settled. settled ≡ (stmt_filled sort.Drawn stmt.now (drawn_values_of texts.now nodes.now words.now)).0) }
{
    let mut values = drawn_values(alloc, texts, nodes, words)?;
    let settled = filled_stmt(alloc, Sort::Drawn, stmt, &mut values);
    drop(values);
    settled
}

/// The words that the plan takes, where it has no refusal.
fn drawn_for<R: Draws>(alloc: Global, draws: &mut R, plan: Plan) -> Result<Seq<u64>, SettleError>
    ensures unrefused { OnOk result (plan.refusal ≡ None) }
    ensures count { IfOk result (λ words. length words ≡ plan.words) }
    ensures taken { IsTrue R.told → IfOk result (λ words. R.words draws.old ≡ words ++ R.words draws.new) }
    ensures refused { IfErr result (spec.IsStopped plan) }
    ensures took { IsTrue R.told → IfErr result (spec.TookFor plan (R.words draws.old) (R.words draws.new)) }
    ensures cause { IfErr result (spec.Faulted (R.faults draws.old) (R.faults draws.new)) }
    ensures later { R.faults draws.old ≤ R.faults draws.new }
    ensures ok { OnOk result (R.faults draws.new ≡ R.faults draws.old) }
{
    let words = draw(alloc, draws, plan.words)?;
    match plan.refusal {
        None => Ok(words),
        Some(refusal) => {
            drop(words);
            Err(SettleError::Refused(refusal))
        }
    }
}

/// The statement with these words and the moment's texts.
fn settled_from(
    alloc: Global,
    stmt: &Stmt,
    moment: u64,
    nodes: &[Node],
    words: &[u64],
) -> Result<Stmt, NoMemory>
    requires nodes { nodes.now ≡ spec.drawn_nodes stmt.now }
    requires unrefused { (spec.stmt_plan stmt.now moment).refusal ≡ None }
    requires count { length words.now ≡ (spec.stmt_plan stmt.now moment).words }
    ensures { IfOk result (spec.Settles stmt.now moment words.now) }
{
    know_words(words);
    let texts = texts_of(alloc, moment)?;
    let settled = settled_with(alloc, stmt, &texts, nodes, words);
    drop(texts);
    settled
}

fn settle_nodes<R: Draws>(
    alloc: Global,
    stmt: &Stmt,
    draws: &mut R,
    moment: u64,
    nodes: &[Node],
    plan: Plan,
) -> Result<Stmt, SettleError>
    requires nodes { nodes.now ≡ spec.drawn_nodes stmt.now }
    requires plan { plan ≡ spec.stmt_plan stmt.now moment }
    ensures settled { IfOk result (spec.SettledBy R.told stmt.now moment (R.words draws.old) (R.words draws.new)) }
    ensures refused { IfErr result (spec.IsStopped (spec.stmt_plan stmt.now moment)) }
    ensures took { IsTrue R.told → IfErr result (spec.TookFor (spec.stmt_plan stmt.now moment) (R.words draws.old) (R.words draws.new)) }
    ensures cause { IfErr result (spec.Faulted (R.faults draws.old) (R.faults draws.new)) }
    ensures later { R.faults draws.old ≤ R.faults draws.new }
    ensures ok { OnOk result (R.faults draws.new ≡ R.faults draws.old) }
{
    let words = drawn_for(alloc, draws, plan)?;
    let settled = settled_from(alloc, stmt, moment, nodes, words.as_slice());
    drop(words);
    Ok(settled?)
}

/// The statement with a literal in place of each random node and each time node.
fn settled_statement<R: Draws>(
    alloc: Global,
    stmt: &Stmt,
    draws: &mut R,
    moment: u64,
) -> Result<Stmt, SettleError>
    ensures settled { IfOk result (spec.SettledBy R.told stmt.now moment (R.words draws.old) (R.words draws.new)) }
    ensures refused { IfErr result (spec.IsStopped (spec.stmt_plan stmt.now moment)) }
    ensures took { IsTrue R.told → IfErr result (spec.TookFor (spec.stmt_plan stmt.now moment) (R.words draws.old) (R.words draws.new)) }
    ensures cause { IfErr result (spec.Faulted (R.faults draws.old) (R.faults draws.new)) }
    ensures later { R.faults draws.old ≤ R.faults draws.new }
    ensures ok { OnOk result (R.faults draws.new ≡ R.faults draws.old) }
{
    let (nodes, plan) = planned(alloc, stmt, moment)?;
    let settled = settle_nodes(alloc, stmt, draws, moment, nodes.as_slice(), plan);
    drop(nodes);
    settled
}

/// The settled statement with its canonical text, where that isn't too long.
fn with_text(alloc: Global, stmt: Stmt) -> Result<Settled, SettleError>
    requires fixed { statement_fixed stmt ≡ true }
    requires proper { is_statement stmt ≡ true }
    requires shallow { deepest stmt ≤ the_limits.depth }
    ensures settled { IfOk result (λ settled. (settled ≡ stmt) × IsSettled stmt) }
    ensures refused { IfErr result (spec.IsLong stmt) }
{
    match Settled::new(alloc, stmt) {
        Ok(settled) => Ok(settled),
        Err(Unsettled::TooLarge(len)) => Err(SettleError::TooLarge(len)),
        Err(Unsettled::NoMemory) => Err(SettleError::NoMemory),
        Err(Unsettled::NotFixed) => unreachable!(),
    }
}

/// The settled statement: each random node has the next words, each time node the moment, in source order.
#[tactic(auto, using(crate::proofs::Stopping::stopped, crate::proofs::Stopping::long, crate::proofs::Stopping::long_took, crate::proofs::Stopping::long_cause))]
pub fn settle<R: Draws>(
    alloc: Global,
    stmt: &Stmt,
    draws: &mut R,
    moment: u64,
) -> Result<Settled, SettleError>
    requires bare { parameters_of stmt.now ≡ [] }
    requires proper { is_statement stmt.now ≡ true }
    requires shallow { deepest stmt.now ≤ the_limits.depth }
    ensures settled { IfOk result (λ settled. spec.SettledBy R.told stmt.now moment (R.words draws.old) (R.words draws.new) settled) }
    ensures whole { IfOk result IsSettled }
    ensures refused { IfErr result (spec.IsUnsettled R.told stmt.now moment (R.words draws.old) (R.words draws.new)) }
    ensures took { IsTrue R.told → IfErr result (spec.TookFor (spec.stmt_plan stmt.now moment) (R.words draws.old) (R.words draws.new)) }
    ensures cause { IfErr result (spec.Faulted (R.faults draws.old) (R.faults draws.new)) }
    ensures later { R.faults draws.old ≤ R.faults draws.new }
    ensures ok { OnOk result (R.faults draws.new ≡ R.faults draws.old) }
{
    what_is_settled();
    match settled_statement(alloc, stmt, draws, moment) {
        Ok(stmt) => with_text(alloc, stmt),
        Err(error) => Err(error),
    }
}
