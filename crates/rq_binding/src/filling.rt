//! An expression with values in place of its nodes, in source order. The recursion is as deep as the expression, at most 100 levels for what is read.
ghost use Rattle.std.specs.Prelude.{◌≡◌, IfOk, map};
ghost use Rattle.rq_grammar.specs.declared.expr.Expr.TheVariants as e;
ghost use Rattle.rq_binding.specs.Nodes.{call_node as call_node_of, literal_of};
ghost use Rattle.rq_binding.specs.Filled as spec;

use crate::joining::{both, with_item};
use crate::naming::call_node;
use crate::node::{Drawn, Sort};
use crate::values::Values;
use rq_grammar::{BinaryOp, Expr};
use rq_values::{NoMemory, Text, TryCopy, Value};
use sqlite_items::{Boxed, Items};
use std::alloc::Global;

fn copied_parameter(alloc: Global, name: &Option<Text>) -> Result<Expr, NoMemory>
    ensures { IfOk result (λ x. x ≡ e.Param name.now) }
{
    match name.copy(alloc) {
        Ok(name) => Ok(Expr::Param(name)),
        Err(error) => Err(error),
    }
}

fn filled_parameter(
    alloc: Global,
    sort: Sort,
    name: &Option<Text>,
    left: &mut Values,
) -> Result<Expr, NoMemory>
    ensures { IfOk result (λ x. spec.filled_parameter sort (e.Param name.now) left.old ≡ (x, left.new)) }
{
    match sort {
        Sort::Parameters => match left.next() {
            Some(value) => Ok(Expr::Literal(value)),
            None => copied_parameter(alloc, name),
        },
        Sort::Drawn => copied_parameter(alloc, name),
    }
}

fn filled_moment(sort: Sort, moment: Expr, left: &mut Values) -> Expr
    ensures { spec.filled_moment sort moment left.old ≡ (result, left.new) }
{
    match sort {
        Sort::Parameters => moment,
        Sort::Drawn => match left.next() {
            Some(value) => {
                drop(moment);
                Expr::Literal(value)
            }
            None => moment,
        },
    }
}

/// A call with the value as its one argument.
fn call_with(alloc: Global, name: &Text, value: Value) -> Result<Expr, NoMemory>
    ensures { IfOk result (λ x. x ≡ spec.call_with name.now value) }
{
    let args = with_item(Items::new(alloc), Expr::Literal(value));
    match both(name.copy(alloc), args) {
        Ok((name, args)) => Ok(Expr::Call { name, args }),
        Err(error) => Err(error),
    }
}

fn filled_node(alloc: Global, node: Drawn, name: &Text, value: Value) -> Result<Expr, NoMemory>
    ensures { IfOk result (λ x. x ≡ spec.filled_node node name.now value) }
{
    match node {
        Drawn::Moment(_) => call_with(alloc, name, value),
        Drawn::Random | Drawn::Blob(_) => Ok(Expr::Literal(value)),
    }
}

/// The expressions with the next values in place of their nodes.
#[cycle(filled)]
pub fn filled_list(
    alloc: Global,
    sort: Sort,
    list: &[Expr],
    left: &mut Values,
) -> Result<Items<Expr>, NoMemory>
    ensures { IfOk result (λ x. spec.all_filled sort list.now left.old ≡ (x, left.new)) }
{
    let mut filling = Items::new(alloc);
    for expr in list {
        match filled(alloc, sort, expr, left) {
            Ok(expr) => filling = with_item(filling, expr)?,
            Err(error) => {
                drop(filling);
                return Err(error);
            }
        }
    }
    Ok(filling)
}

#[cycle(filled)]
fn filled_boxed(
    alloc: Global,
    sort: Sort,
    expr: &Expr,
    left: &mut Values,
) -> Result<Boxed<Expr>, NoMemory>
    ensures { IfOk result (λ x. spec.filled sort expr.now left.old ≡ (x, left.new)) }
{
    let filling = filled(alloc, sort, expr, left)?;
    Ok(Boxed::new(alloc, filling)?)
}

#[cycle(filled)]
fn filled_args(
    alloc: Global,
    sort: Sort,
    name: &Text,
    args: &[Expr],
    left: &mut Values,
) -> Result<Expr, NoMemory>
    ensures { IfOk result (λ x. spec.filled_args sort name.now args.now left.old ≡ (x, left.new)) }
{
    let args = filled_list(alloc, sort, args, left);
    match both(name.copy(alloc), args) {
        Ok((name, args)) => Ok(Expr::Call { name, args }),
        Err(error) => Err(error),
    }
}

#[cycle(filled)]
fn filled_call(
    alloc: Global,
    sort: Sort,
    name: &Text,
    args: &[Expr],
    left: &mut Values,
) -> Result<Expr, NoMemory>
    ensures { IfOk result (λ x. spec.filled_call (call_node_of sort name.now (map literal_of args.now)) name.now (spec.all_filled sort args.now) left.old ≡ (x, left.new)) }
{
    match call_node(sort, name.bytes(), args) {
        None => filled_args(alloc, sort, name, args, left),
        Some(node) => match left.next() {
            Some(value) => filled_node(alloc, node, name, value),
            None => filled_args(alloc, sort, name, args, left),
        },
    }
}

fn copied_literal(alloc: Global, value: &Value) -> Result<Expr, NoMemory>
    ensures { IfOk result (λ x. x ≡ e.Literal value.now) }
{
    match value.copy(alloc) {
        Ok(value) => Ok(Expr::Literal(value)),
        Err(error) => Err(error),
    }
}

fn copied_name(alloc: Global, name: &Text) -> Result<Expr, NoMemory>
    ensures { IfOk result (λ x. x ≡ e.Name name.now) }
{
    match name.copy(alloc) {
        Ok(name) => Ok(Expr::Name(name)),
        Err(error) => Err(error),
    }
}

fn copied_qualified(alloc: Global, table: &Text, column: &Text) -> Result<Expr, NoMemory>
    ensures { IfOk result (λ x. x ≡ e.Qualified table.now column.now) }
{
    match both(table.copy(alloc), column.copy(alloc)) {
        Ok((table, column)) => Ok(Expr::Qualified { table, column }),
        Err(error) => Err(error),
    }
}

/// The operator on what is left of it, and on its right operand.
#[cycle(filled)]
fn filled_right(
    alloc: Global,
    sort: Sort,
    op: BinaryOp,
    right: &Expr,
    one: Boxed<Expr>,
    left: &mut Values,
) -> Result<Expr, NoMemory>
    ensures { IfOk result (λ x. spec.filled_one (e.Binary op one) (spec.filling sort right.now) left.old ≡ (x, left.new)) }
{
    match filled_boxed(alloc, sort, right, left) {
        Ok(right) => Ok(Expr::Binary {
            op,
            left: one,
            right,
        }),
        Err(error) => {
            drop(one);
            Err(error)
        }
    }
}

/// IN, of what is left of it.
#[cycle(filled)]
fn filled_in(
    alloc: Global,
    sort: Sort,
    negated: bool,
    list: &[Expr],
    one: Boxed<Expr>,
    left: &mut Values,
) -> Result<Expr, NoMemory>
    ensures { IfOk result (λ x. spec.filled_items (e.InList negated one) sort list.now left.old ≡ (x, left.new)) }
{
    match filled_list(alloc, sort, list, left) {
        Ok(list) => Ok(Expr::InList {
            negated,
            left: one,
            list,
        }),
        Err(error) => {
            drop(one);
            Err(error)
        }
    }
}

/// BETWEEN, of what stands before its upper bound.
#[cycle(filled)]
fn filled_high(
    alloc: Global,
    sort: Sort,
    negated: bool,
    high: &Expr,
    one: Boxed<Expr>,
    low: Boxed<Expr>,
    left: &mut Values,
) -> Result<Expr, NoMemory>
    ensures { IfOk result (λ x. spec.filled_one (e.Between negated one low) (spec.filling sort high.now) left.old ≡ (x, left.new)) }
{
    match filled_boxed(alloc, sort, high, left) {
        Ok(high) => Ok(Expr::Between {
            negated,
            left: one,
            low,
            high,
        }),
        Err(error) => {
            drop(one);
            drop(low);
            Err(error)
        }
    }
}

/// The expression with the next values in place of its nodes.
#[cycle(filled)]
pub fn filled(alloc: Global, sort: Sort, expr: &Expr, left: &mut Values) -> Result<Expr, NoMemory>
    ensures { IfOk result (λ x. spec.filled sort expr.now left.old ≡ (x, left.new)) }
{
    match expr {
        Expr::Literal(value) => copied_literal(alloc, value),
        Expr::Param(name) => filled_parameter(alloc, sort, name, left),
        Expr::Name(name) => copied_name(alloc, name),
        Expr::Qualified { table, column } => copied_qualified(alloc, table, column),
        Expr::CurrentTimestamp => Ok(filled_moment(sort, Expr::CurrentTimestamp, left)),
        Expr::CurrentDate => Ok(filled_moment(sort, Expr::CurrentDate, left)),
        Expr::CurrentTime => Ok(filled_moment(sort, Expr::CurrentTime, left)),
        Expr::CountAll => Ok(Expr::CountAll),
        Expr::Call { name, args } => filled_call(alloc, sort, name, args.as_slice(), left),
        Expr::Minus(operand) => match filled_boxed(alloc, sort, operand.get(), left) {
            Ok(operand) => Ok(Expr::Minus(operand)),
            Err(error) => Err(error),
        },
        Expr::Not(operand) => match filled_boxed(alloc, sort, operand.get(), left) {
            Ok(operand) => Ok(Expr::Not(operand)),
            Err(error) => Err(error),
        },
        Expr::Binary {
            op,
            left: one,
            right,
        } => {
            let one = filled_boxed(alloc, sort, one.get(), left)?;
            filled_right(alloc, sort, *op, right.get(), one, left)
        }
        Expr::InList {
            negated,
            left: one,
            list,
        } => {
            let one = filled_boxed(alloc, sort, one.get(), left)?;
            filled_in(alloc, sort, *negated, list.as_slice(), one, left)
        }
        Expr::Between {
            negated,
            left: one,
            low,
            high,
        } => {
            let one = filled_boxed(alloc, sort, one.get(), left)?;
            match filled_boxed(alloc, sort, low.get(), left) {
                Ok(low) => filled_high(alloc, sort, *negated, high.get(), one, low, left),
                Err(error) => {
                    drop(one);
                    Err(error)
                }
            }
        }
    }
}
