//! Names become places and calls operators, once for a statement. The recursion is as deep as the expression: what is read has at
//! most 100 levels, and settling makes none deeper.

ghost use Rattle.std.specs.Prelude.{◌≡◌, IfOk, map};
ghost use Rattle.rq_operators.specs.Functions.{function_of};
ghost use Rattle.rq_eval.specs.Names as names;
ghost use Rattle.rq_eval.specs.Resolved as spec;

use crate::naming::{find_column, find_qualified_column};
use crate::resolved::{ResolveError, ResolvedExpr};
use crate::row::Scope;
use rq_grammar::{BinaryOp, Expr};
use rq_operators::{Function, UnaryOp, function_of, takes};
use rq_values::{NoMemory, Text, TryCopy, Value};
use sqlite_items::{Boxed, Items};
use std::alloc::Global;

fn column_at(place: usize, aggregates: bool) -> ResolvedExpr
    ensures { result ≡ spec.column_at place aggregates }
{
    if aggregates {
        ResolvedExpr::Error(ResolveError::MisuseOfAggregate)
    } else {
        ResolvedExpr::Column(place)
    }
}

fn column(
    alloc: Global,
    scope: &Scope,
    name: &Text,
    aggregates: bool,
) -> Result<ResolvedExpr, NoMemory>
    ensures { IfOk result (λ p. p ≡ spec.column_or (names.place scope.now name.now) (spec.no_column name.now) aggregates) }
{
    match find_column(scope, name) {
        Some(place) => Ok(column_at(place, aggregates)),
        None => Ok(ResolvedExpr::Error(ResolveError::NoColumn(name.copy(alloc)?))),
    }
}

fn qualified_column(
    alloc: Global,
    scope: &Scope,
    table: &Text,
    name: &Text,
    aggregates: bool,
) -> Result<ResolvedExpr, NoMemory>
    ensures { IfOk result (λ p. p ≡ spec.column_or (names.qualified_place scope.now table.now name.now) (spec.no_qualified_column table.now name.now) aggregates) }
{
    match find_qualified_column(scope, table, name) {
        Some(place) => Ok(column_at(place, aggregates)),
        None => {
            let table = table.copy(alloc)?;
            match name.copy(alloc) {
                Ok(column) => Ok(ResolvedExpr::Error(ResolveError::NoQualifiedColumn {
                    table,
                    column,
                })),
                Err(e) => {
                    drop(table);
                    Err(e)
                }
            }
        }
    }
}

fn literal(alloc: Global, value: &Value) -> Result<ResolvedExpr, NoMemory>
    ensures { IfOk result (λ p. p ≡ spec.literal value.now) }
{
    match value.copy(alloc) {
        Ok(value) => Ok(ResolvedExpr::Literal(value)),
        Err(e) => Err(e),
    }
}

fn count_all(aggregates: bool) -> ResolvedExpr
    ensures { result ≡ spec.count_all aggregates }
{
    if aggregates {
        ResolvedExpr::CountAll
    } else {
        ResolvedExpr::Error(ResolveError::MisuseOfAggregate)
    }
}

fn negated_if(alloc: Global, negated: bool, expr: ResolvedExpr) -> Result<ResolvedExpr, NoMemory>
    ensures { IfOk result (λ p. p ≡ spec.negated_if negated expr) }
{
    if negated {
        unary_of(UnaryOp::Not, in_box(alloc, expr))
    } else {
        Ok(expr)
    }
}

fn in_box(alloc: Global, expr: ResolvedExpr) -> Result<Boxed<ResolvedExpr>, NoMemory>
    ensures { IfOk result (λ p. p ≡ expr) }
{
    match Boxed::new(alloc, expr) {
        Ok(place) => Ok(place),
        Err(e) => Err(NoMemory::from(e)),
    }
}

fn unary_of(
    op: UnaryOp,
    operand: Result<Boxed<ResolvedExpr>, NoMemory>,
) -> Result<ResolvedExpr, NoMemory>
    ensures { spec.IsUnary op operand result }
{
    match operand {
        Ok(operand) => Ok(ResolvedExpr::Unary { op, operand }),
        Err(e) => Err(e),
    }
}

#[cycle(resolving)]
fn boxed(
    alloc: Global,
    scope: &Scope,
    expr: &Expr,
    aggregates: bool,
) -> Result<Boxed<ResolvedExpr>, NoMemory>
    ensures { IfOk result (λ p. p ≡ spec.resolved scope.now expr.now aggregates) }
{
    match resolve(alloc, scope, expr, aggregates) {
        Ok(resolved) => in_box(alloc, resolved),
        Err(e) => Err(e),
    }
}

#[cycle(resolving)]
fn all_resolved(
    alloc: Global,
    scope: &Scope,
    exprs: &[Expr],
    aggregates: bool,
) -> Result<Items<ResolvedExpr>, NoMemory>
    ensures { IfOk result (λ ps. ps ≡ spec.all_resolved scope.now exprs.now aggregates) }
{
    let mut found = Items::new(alloc);
    for expr in exprs {
        match resolve(alloc, scope, expr, aggregates) {
            Ok(resolved) => found.push(resolved)?,
            Err(e) => {
                drop(found);
                return Err(e);
            }
        }
    }
    Ok(found)
}

#[cycle(resolving)]
fn sole_argument(
    alloc: Global,
    scope: &Scope,
    args: &[Expr],
    aggregates: bool,
) -> Result<Boxed<ResolvedExpr>, NoMemory>
    ensures { IfOk result (λ p. p ≡ spec.sole_argument (map (spec.resolved scope.now) args.now) aggregates) }
{
    match args.first() {
        Some(arg) => boxed(alloc, scope, arg, aggregates),
        None => in_box(alloc, ResolvedExpr::Literal(Value::Null)),
    }
}

#[cycle(resolving)]
fn applied_to(
    alloc: Global,
    scope: &Scope,
    function: Function,
    args: &[Expr],
    aggregates: bool,
) -> Result<ResolvedExpr, NoMemory>
    ensures { IfOk result (λ p. p ≡ spec.applied_to function (map (spec.resolved scope.now) args.now) aggregates) }
{
    match function {
        Function::Unary(op) => unary_of(op, sole_argument(alloc, scope, args, aggregates)),
        Function::Coalesce | Function::IfNull => {
            match all_resolved(alloc, scope, args, aggregates) {
                Ok(list) => Ok(ResolvedExpr::Coalesce(list)),
                Err(e) => Err(e),
            }
        }
        Function::Aggregate(op) => {
            if aggregates {
                let operand = sole_argument(alloc, scope, args, false)?;
                Ok(ResolvedExpr::Aggregate { op, operand })
            } else {
                Ok(ResolvedExpr::Error(ResolveError::MisuseOfAggregate))
            }
        }
        Function::Random | Function::RandomBlob => Ok(ResolvedExpr::Literal(Value::Null)),
    }
}

#[cycle(resolving)]
fn call(
    alloc: Global,
    scope: &Scope,
    name: &Text,
    args: &[Expr],
    aggregates: bool,
) -> Result<ResolvedExpr, NoMemory>
    ensures { IfOk result (λ p. p ≡ spec.call_of name.now (function_of name.now) (map (spec.resolved scope.now) args.now) aggregates) }
{
    match function_of(name.bytes()) {
        Some(function) => {
            if takes(function, args.len()) {
                applied_to(alloc, scope, function, args, aggregates)
            } else {
                Ok(ResolvedExpr::Error(ResolveError::WrongArguments(name.copy(alloc)?)))
            }
        }
        None => Ok(ResolvedExpr::Error(ResolveError::NoFunction(name.copy(alloc)?))),
    }
}

/// The operator on what is left of it, and on its right operand.
#[cycle(resolving)]
fn resolve_right(
    alloc: Global,
    scope: &Scope,
    op: BinaryOp,
    right: &Expr,
    left: Boxed<ResolvedExpr>,
    aggregates: bool,
) -> Result<ResolvedExpr, NoMemory>
    ensures { IfOk result (λ p. p ≡ spec.binary_of op left (spec.resolved scope.now right.now aggregates)) }
{
    match boxed(alloc, scope, right, aggregates) {
        Ok(right) => Ok(ResolvedExpr::Binary { op, left, right }),
        Err(e) => {
            drop(left);
            Err(e)
        }
    }
}

/// IN, of what is left of it.
#[cycle(resolving)]
fn resolve_list(
    alloc: Global,
    scope: &Scope,
    negated: bool,
    list: &[Expr],
    left: Boxed<ResolvedExpr>,
    aggregates: bool,
) -> Result<ResolvedExpr, NoMemory>
    ensures { IfOk result (λ p. p ≡ spec.in_list_of negated left (spec.all_resolved scope.now list.now aggregates)) }
{
    match all_resolved(alloc, scope, list, aggregates) {
        Ok(list) => negated_if(alloc, negated, ResolvedExpr::InList { left, list }),
        Err(e) => {
            drop(left);
            Err(e)
        }
    }
}

/// BETWEEN, of what stands before its upper bound.
#[cycle(resolving)]
fn resolve_high(
    alloc: Global,
    scope: &Scope,
    negated: bool,
    high: &Expr,
    operand: Boxed<ResolvedExpr>,
    low: Boxed<ResolvedExpr>,
    aggregates: bool,
) -> Result<ResolvedExpr, NoMemory>
    ensures { IfOk result (λ p. p ≡ spec.between_of negated operand low (spec.resolved scope.now high.now aggregates)) }
{
    match boxed(alloc, scope, high, aggregates) {
        Ok(high) => { negated_if(alloc, negated, ResolvedExpr::Between { operand, low, high }) }
        Err(e) => {
            drop(operand);
            drop(low);
            Err(e)
        }
    }
}

#[cycle(resolving)]
fn resolve_unary(
    alloc: Global,
    scope: &Scope,
    op: UnaryOp,
    operand: &Expr,
    aggregates: bool,
) -> Result<ResolvedExpr, NoMemory>
    ensures { IfOk result (λ p. p ≡ spec.unary_of op (spec.resolved scope.now operand.now aggregates)) }
{
    unary_of(op, boxed(alloc, scope, operand, aggregates))
}

/// The expression with places for its names and operators for its calls. `aggregates` says that it stands where aggregates may.
#[cycle(resolving)]
pub fn resolve(
    alloc: Global,
    scope: &Scope,
    expr: &Expr,
    aggregates: bool,
) -> Result<ResolvedExpr, NoMemory>
    ensures { IfOk result (λ p. p ≡ spec.resolved scope.now expr.now aggregates) }
{
    match expr {
        Expr::Literal(value) => literal(alloc, value),
        Expr::Param(_) | Expr::CurrentTimestamp | Expr::CurrentDate | Expr::CurrentTime => {
            Ok(ResolvedExpr::Literal(Value::Null))
        }
        Expr::Name(name) => column(alloc, scope, name, aggregates),
        Expr::Qualified {
            table,
            column: name,
        } => qualified_column(alloc, scope, table, name, aggregates),
        Expr::CountAll => Ok(count_all(aggregates)),
        Expr::Call { name, args } => call(alloc, scope, name, args.as_slice(), aggregates),
        Expr::Minus(x) => resolve_unary(alloc, scope, UnaryOp::Minus, x.get(), aggregates),
        Expr::Not(x) => resolve_unary(alloc, scope, UnaryOp::Not, x.get(), aggregates),
        Expr::Binary { op, left, right } => {
            let left = boxed(alloc, scope, left.get(), aggregates)?;
            resolve_right(alloc, scope, *op, right.get(), left, aggregates)
        }
        Expr::InList {
            negated,
            left,
            list,
        } => {
            let left = boxed(alloc, scope, left.get(), aggregates)?;
            resolve_list(alloc, scope, *negated, list.as_slice(), left, aggregates)
        }
        Expr::Between {
            negated,
            left,
            low,
            high,
        } => {
            let operand = boxed(alloc, scope, left.get(), aggregates)?;
            match boxed(alloc, scope, low.get(), aggregates) {
                Ok(low) => {
                    resolve_high(alloc, scope, *negated, high.get(), operand, low, aggregates)
                }
                Err(e) => {
                    drop(operand);
                    Err(e)
                }
            }
        }
    }
}
