//! The nodes of an expression, in source order. The recursion is as deep as the expression, at most 100 levels for what is read.
ghost use Rattle.std.specs.Prelude.{◌≡◌, ◌++◌, [], ◌∷◌, OnOk};
ghost use Rattle.rq_binding.specs.declared.node.Node.TheVariants as node;
ghost use Rattle.rq_binding.specs.Nodes as spec;

use crate::naming::call_node;
use crate::node::{Drawn, Node, Part, Sort};
use rq_grammar::Expr;
use rq_values::{NoMemory, Seq, Text, TryCopy};
use std::alloc::Global;

fn gather_drawn(drawn: Drawn, into: &mut Seq<Node>) -> Result<(), NoMemory>
    ensures { OnOk result (into.new ≡ into.old ++ node.Drawn drawn ∷ []) }
{
    into.push(Node::Drawn(drawn))
}

fn gather_parameter(
    alloc: Global,
    sort: Sort,
    name: &Option<Text>,
    into: &mut Seq<Node>,
) -> Result<(), NoMemory>
    ensures { OnOk result (into.new ≡ into.old ++ spec.parameter_nodes sort name.now) }
{
    match sort {
        Sort::Parameters => into.push(Node::Parameter(name.copy(alloc)?)),
        Sort::Drawn => Ok(()),
    }
}

fn gather_moment(sort: Sort, part: Part, into: &mut Seq<Node>) -> Result<(), NoMemory>
    ensures { OnOk result (into.new ≡ into.old ++ spec.moment_nodes sort part) }
{
    match sort {
        Sort::Parameters => Ok(()),
        Sort::Drawn => gather_drawn(Drawn::Moment(part), into),
    }
}

/// Adds the nodes of the expressions.
#[cycle(gather)]
pub fn gather_list(
    alloc: Global,
    sort: Sort,
    list: &[Expr],
    into: &mut Seq<Node>,
) -> Result<(), NoMemory>
    ensures { OnOk result (into.new ≡ into.old ++ spec.all_nodes sort list.now) }
{
    for expr in list {
        gather(alloc, sort, expr, into)?;
    }
    Ok(())
}

/// Adds the nodes of the expression.
#[cycle(gather)]
pub fn gather(alloc: Global, sort: Sort, expr: &Expr, into: &mut Seq<Node>) -> Result<(), NoMemory>
    ensures { OnOk result (into.new ≡ into.old ++ spec.nodes sort expr.now) }
{
    match expr {
        Expr::Param(name) => gather_parameter(alloc, sort, name, into),
        Expr::CurrentTimestamp => gather_moment(sort, Part::Timestamp, into),
        Expr::CurrentDate => gather_moment(sort, Part::Date, into),
        Expr::CurrentTime => gather_moment(sort, Part::Time, into),
        Expr::Call { name, args } => {
            match call_node(sort, name.bytes(), args.as_slice()) {
                Some(node) => gather_drawn(node, into),
                None => gather_list(alloc, sort, args.as_slice(), into),
            }
        }
        Expr::Minus(operand) => gather(alloc, sort, operand.get(), into),
        Expr::Not(operand) => gather(alloc, sort, operand.get(), into),
        Expr::Binary { left, right, .. } => {
            gather(alloc, sort, left.get(), into)?;
            gather(alloc, sort, right.get(), into)
        }
        Expr::InList { left, list, .. } => {
            gather(alloc, sort, left.get(), into)?;
            gather_list(alloc, sort, list.as_slice(), into)
        }
        Expr::Between {
            left,
            low,
            high,
            ..
        } => {
            gather(alloc, sort, left.get(), into)?;
            gather(alloc, sort, low.get(), into)?;
            gather(alloc, sort, high.get(), into)
        }
        Expr::Literal(_) | Expr::Name(_) | Expr::Qualified { .. } | Expr::CountAll => Ok(()),
    }
}
