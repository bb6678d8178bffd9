//! What settling a statement takes.
ghost use Rattle.std.specs.Prelude.{◌≡◌, ◌<◌, ◌^◌, IfOk};
ghost use Rattle.rq_binding.specs.Plan as spec;

use crate::node::{Drawn, Node};
use crate::statement_nodes::Places;
use rq_moments::is_in_range;
use rq_values::NoMemory;

/// Why a statement isn't settled. A place counts random nodes and time nodes together, in source order from 1.
#[derive(Clone, Copy)]
pub enum Refusal {
    /// The random node of this place stands in ORDER BY.
    RandomInOrder(u64),
    /// RANDOMBLOB of so many bytes.
    BlobSize(i64),
    /// The argument of the RANDOMBLOB of this place is no integer literal.
    BlobArgument(u64),
    /// There is a time node, and this moment is behind the year 9999.
    MomentRange(u64),
}

/// What settling a statement takes.
#[derive(Clone, Copy)]
pub struct Plan {
    /// How many nodes were looked at.
    pub nodes: u64,
    /// How many words they need, up to the first refusal.
    pub words: u64,
    pub refusal: Option<Refusal>,
}

fn is_size(size: i64) -> bool
    ensures { result ≡ spec.is_size size }
{
    1 <= size && size <= 1024
}

fn blob_refusal(place: u64, size: Option<i64>) -> Option<Refusal>
    ensures { result ≡ spec.blob_refusal place size }
{
    match size {
        None => Some(Refusal::BlobArgument(place)),
        Some(size) => {
            if is_size(size) {
                None
            } else {
                Some(Refusal::BlobSize(size))
            }
        }
    }
}

fn drawn_refusal(ordered: bool, place: u64, moment: u64, drawn: Drawn) -> Option<Refusal>
    ensures { result ≡ spec.drawn_refusal ordered place moment drawn }
{
    match drawn {
        Drawn::Moment(_) => {
            if is_in_range(moment) {
                None
            } else {
                Some(Refusal::MomentRange(moment))
            }
        }
        Drawn::Random => {
            if ordered {
                Some(Refusal::RandomInOrder(place))
            } else {
                None
            }
        }
        Drawn::Blob(size) => {
            if ordered {
                Some(Refusal::RandomInOrder(place))
            } else {
                blob_refusal(place, size)
            }
        }
    }
}

fn refusal_of(ordered: bool, place: u64, moment: u64, node: &Node) -> Option<Refusal>
    ensures { result ≡ spec.refusal_of ordered place moment node.now }
{
    match node {
        Node::Drawn(drawn) => drawn_refusal(ordered, place, moment, *drawn),
        Node::Parameter(_) => None,
    }
}

/// The size of a blob.
pub fn blob_bytes(size: Option<i64>) -> u64
    ensures { result ≡ spec.blob_bytes size }
{
    match size {
        Some(size) if 0 <= size => size as u64,
        Some(_) | None => 0,
    }
}

fn words_in(bytes: u64) -> u64
    requires { bytes < 2 ^ 63 }
    ensures { result ≡ spec.words_in bytes }
{
    bytes.div_ceil(8)
}

/// How many words the node needs.
pub fn drawn_words(drawn: Drawn) -> u64
    ensures { result ≡ spec.drawn_words drawn }
{
    match drawn {
        Drawn::Random => 1,
        Drawn::Blob(size) => words_in(blob_bytes(size)),
        Drawn::Moment(_) => 0,
    }
}

fn words_for(node: &Node) -> u64
    ensures { result ≡ spec.words_for node.now }
{
    match node {
        Node::Drawn(drawn) => drawn_words(*drawn),
        Node::Parameter(_) => 0,
    }
}

/// The plan with one more node. A count that would pass 2^64 is answered as want of memory.
fn planned_node(plan: Plan, ordered: bool, moment: u64, node: &Node) -> Result<Plan, NoMemory>
    ensures { IfOk result (λ planned. planned ≡ spec.planned_node plan.refusal ordered moment plan node.now) }
{
    if plan.refusal.is_some() {
        return Ok(plan);
    }
    let Some(nodes) = plan.nodes.checked_add(1) else {
        return Err(NoMemory);
    };
    let refusal = refusal_of(ordered, nodes, moment, node);
    if refusal.is_some() {
        return Ok(Plan {
            nodes,
            words: plan.words,
            refusal,
        });
    }
    let Some(words) = plan.words.checked_add(words_for(node)) else {
        return Err(NoMemory);
    };
    Ok(Plan {
        nodes,
        words,
        refusal: None,
    })
}

fn planned(plan: Plan, ordered: bool, moment: u64, nodes: &[Node]) -> Result<Plan, NoMemory>
    ensures { IfOk result (λ planned. planned ≡ spec.planned ordered moment nodes.now plan) }
{
    let mut plan = plan;
    for node in nodes {
        plan = planned_node(plan, ordered, moment, node)?;
    }
    Ok(plan)
}

/// What settling a statement with these nodes takes.
pub fn plan_of(moment: u64, places: &Places) -> Result<Plan, NoMemory>
    ensures { IfOk result (λ plan. plan ≡ spec.plan_of moment places.now) }
{
    let start = Plan {
        nodes: 0,
        words: 0,
        refusal: None,
    };
    let before = planned(start, false, moment, places.before.as_slice())?;
    let ordered = planned(before, true, moment, places.ordered.as_slice())?;
    planned(ordered, false, moment, places.behind.as_slice())
}
