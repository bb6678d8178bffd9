//! Values in place of parameters.
ghost use Rattle.std.specs.Prelude.{◌≡◌, ◌++◌, [], ◌∷◌, IfOk, IfErr, OnOk, Ok};
ghost use Rattle.std.specs.Option.{option_copied};
ghost use Rattle.rq_binding.specs.declared.node.Sort.TheVariants as sort;
ghost use Rattle.rq_binding.specs.Bound as spec;
ghost use Rattle.rq_binding.specs.Statements.{stmt_filled};

use crate::node::{Node, Sort};
use crate::params::{BindError, list_of, named_of};
use crate::statement_filling::filled_stmt;
use crate::statement_nodes::nodes_of;
use crate::values::Values;
use rq_grammar::Stmt;
use rq_request::Params;
use rq_values::{NoMemory, Seq, Text, TryCopy, Value};
use std::alloc::Global;

/// How many `?` there are.
fn positions(nodes: &[Node]) -> usize
    ensures { result ≡ spec.positions nodes.now }
{
    let mut count: usize = 0;
    for node in nodes {
        match node {
            Node::Parameter(None) => count += 1,
            Node::Parameter(Some(_)) | Node::Drawn(_) => (),
        }
    }
    count
}

/// The value of the name.
fn find<'a>(name: &Text, named: &'a [(Text, Value)]) -> Option<&'a Value>
    ensures { option_copied result ≡ spec.find name.now named.now }
{
    for pair in named {
        if pair.0.bytes() == name.bytes() {
            return Some(&pair.1);
        }
    }
    None
}

/// The first name without a value.
fn missing<'a>(named: &[(Text, Value)], nodes: &'a [Node]) -> Option<&'a Text>
    ensures { option_copied result ≡ spec.missing named.now nodes.now }
{
    for node in nodes {
        match node {
            Node::Parameter(Some(name)) => {
                if find(name, named).is_none() {
                    return Some(name);
                }
            }
            Node::Parameter(None) | Node::Drawn(_) => (),
        }
    }
    None
}

/// Adds a copy of the value, NULL where there is none.
fn push_found(alloc: Global, value: Option<&Value>, into: &mut Values) -> Result<(), NoMemory>
    ensures { OnOk result (into.new ≡ into.old ++ spec.or_null (option_copied value.entry) ∷ []) }
{
    match value {
        None => into.push(Value::Null),
        Some(value) => match value.copy(alloc) {
            Ok(value) => into.push(value),
            Err(error) => Err(error),
        },
    }
}

/// The next value, and the values behind it.
fn next_of<'a>(rest: &'a [Value]) -> (Option<&'a Value>, &'a [Value])
    ensures value { option_copied result.0 ≡ spec.first_of rest.now }
    ensures behind { result.1.now ≡ spec.behind rest.now }
{
    match rest.split_first() {
        Some((value, behind)) => (Some(value), behind),
        None => (None, rest),
    }
}

/// Adds the value of the parameter, and answers the values that are left.
fn push_chosen<'a>(
    alloc: Global,
    named: &[(Text, Value)],
    node: &Node,
    rest: &'a [Value],
    into: &mut Values,
) -> Result<&'a [Value], NoMemory>
    ensures value { OnOk result (into.new ≡ into.old ++ spec.value_of named.now node.now rest.now ∷ []) }
    ensures left { IfOk result (λ left. left.now ≡ spec.left_of node.now rest.now) }
{
    match node {
        Node::Parameter(None) => {
            let (value, behind) = next_of(rest);
            push_found(alloc, value, into)?;
            Ok(behind)
        }
        Node::Parameter(Some(name)) => {
            push_found(alloc, find(name, named), into)?;
            Ok(rest)
        }
        Node::Drawn(_) => {
            into.push(Value::Null)?;
            Ok(rest)
        }
    }
}

/// The value of each parameter.
fn chosen(
    alloc: Global,
    named: &[(Text, Value)],
    nodes: &[Node],
    list: &[Value],
) -> Result<Values, NoMemory>
    ensures { IfOk result (λ values. values ≡ spec.chosen named.now nodes.now list.now) }
{
    let mut values = Values::new(alloc);
    let mut rest = list;
    for node in nodes {
        match push_chosen(alloc, named, node, rest, &mut values) {
            Ok(left) => rest = left,
            Err(error) => {
                drop(values);
                return Err(error);
            }
        }
    }
    Ok(values)
}

/// The parameters of the statement, in source order.
fn parameters_of(alloc: Global, stmt: &Stmt) -> Result<Seq<Node>, NoMemory>
    ensures { IfOk result (λ nodes. nodes ≡ spec.parameters_of stmt.now) }
{
    match nodes_of(alloc, Sort::Parameters, stmt) {
        Ok(places) => places.joined(),
        Err(error) => Err(error),
    }
}

/// The statement with these values in place of its parameters.
fn bound_with(alloc: Global, stmt: &Stmt, mut values: Values) -> Result<Stmt, NoMemory>
    ensures { IfOk result (λ bound. bound ≡ (stmt_filled sort.Parameters stmt.now values).0) }
{
    let bound = filled_stmt(alloc, Sort::Parameters, stmt, &mut values);
    drop(values);
    bound
}

/// The statement with these parameters, bound.
fn bound_nodes(
    alloc: Global,
    stmt: &Stmt,
    nodes: &[Node],
    params: &Params,
) -> Result<Stmt, BindError>
    requires { nodes.now ≡ spec.parameters_of stmt.now }
    ensures bound { IfOk result (λ bound. spec.bound stmt.now params.now ≡ Ok bound) }
    ensures refused { IfErr result (spec.IsUnbound (spec.bound stmt.now params.now)) }
{
    let needed = positions(nodes);
    let given = list_of(params).len();
    if needed != given {
        return Err(BindError::Count {
            needed: needed as u64,
            given: given as u64,
        });
    }
    if let Some(name) = missing(named_of(params), nodes) {
        return Err(BindError::Missing(name.copy(alloc)?));
    }
    let values = chosen(alloc, named_of(params), nodes, list_of(params))?;
    Ok(bound_with(alloc, stmt, values)?)
}

/// The statement with a value in place of each parameter.
pub fn bind(alloc: Global, stmt: &Stmt, params: &Params) -> Result<Stmt, BindError>
    ensures bound { IfOk result (λ bound. spec.bound stmt.now params.now ≡ Ok bound) }
    ensures refused { IfErr result (spec.IsUnbound (spec.bound stmt.now params.now)) }
{
    let nodes = parameters_of(alloc, stmt)?;
    let bound = bound_nodes(alloc, stmt, nodes.as_slice(), params);
    drop(nodes);
    bound
}
