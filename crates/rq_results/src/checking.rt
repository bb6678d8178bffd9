//! What is wrong with a select before any row is looked at.

ghost use Rattle.std.specs.Prelude.{◌≡◌, [], map};
ghost use Rattle.std.specs.Option.{option_map, option_or, option_copied, option_and_then};
ghost use Rattle.rq_operators.specs.Functions.{function_of as called};
ghost use Rattle.rq_results.specs.Checks as spec;
ghost use Rattle.rq_results.specs.declared.checking.Allowed.TheVariants as allowed;
ghost use Rattle.rq_eval.specs.Names.{is_same_name as same_name};
ghost use Rattle.rq_results.specs.Results as results;
ghost use Rattle.rq_results.specs.Viewed.{shown, defect_error, look_for, IsSaid, Clears};

use crate::results::Shown;
use rq_eval::{EvalError, Scope, StmtError, find_column, find_qualified_column};
use rq_grammar::{Expr, OrderTerm, SelectStmt};
use rq_operators::{Function, function_of, takes};
use rq_values::{Text, TryCopy};
use std::alloc::Global;

/// What may stand in an expression beside literals and calls of functions over one row.
#[derive(Clone, Copy)]
pub enum Allowed {
    Columns,
    Aggregates,
    Neither,
}

/// What is wrong, with the names that it shows.
#[derive(Clone, Copy)]
pub enum Defect<'a> {
    NoColumn(&'a Text),
    NoQualifiedColumn { table: &'a Text, column: &'a Text },
    NoFunction(&'a Text),
    WrongArguments(&'a Text),
    Misuse,
}

fn first_of<'a>(a: Option<Defect<'a>>, b: Option<Defect<'a>>) -> Option<Defect<'a>>
    ensures { option_map defect_error result ≡ option_or (option_map defect_error a.entry) (option_map defect_error b.entry) }
{
    match a {
        Some(defect) => Some(defect),
        None => b,
    }
}

// ---- names

#[cycle(names)]
fn names_in_all<'a>(scope: &Scope, list: &'a [Expr]) -> Option<Defect<'a>>
    ensures { option_map defect_error result ≡ spec.first (map (spec.names_in scope.now) list.now) }
{
    for expr in list {
        match names_in(scope, expr) {
            Some(defect) => return Some(defect),
            None => {}
        }
    }
    None
}

/// The first name that names nothing.
#[cycle(names)]
fn names_in<'a>(scope: &Scope, expr: &'a Expr) -> Option<Defect<'a>>
    ensures { option_map defect_error result ≡ spec.names_in scope.now expr.now }
{
    match expr {
        Expr::Name(name) => match find_column(scope, name) {
            Some(_) => None,
            None => Some(Defect::NoColumn(name)),
        },
        Expr::Qualified { table, column } => match find_qualified_column(scope, table, column) {
            Some(_) => None,
            None => Some(Defect::NoQualifiedColumn { table, column }),
        },
        Expr::Call { name: _, args } => names_in_all(scope, args.as_slice()),
        Expr::Minus(operand) => names_in(scope, operand.get()),
        Expr::Not(operand) => names_in(scope, operand.get()),
        Expr::Binary { op: _, left, right } => {
            let one = names_in(scope, left.get());
            let two = names_in(scope, right.get());
            first_of(one, two)
        }
        Expr::InList {
            negated: _,
            left,
            list,
        } => {
            let one = names_in(scope, left.get());
            let two = names_in_all(scope, list.as_slice());
            first_of(one, two)
        }
        Expr::Between {
            negated: _,
            left,
            low,
            high,
        } => {
            let one = names_in(scope, left.get());
            let two = names_in(scope, low.get());
            let three = names_in(scope, high.get());
            first_of(one, first_of(two, three))
        }
        _ => None,
    }
}

// ---- calls

fn column_allowed<'a>(allowed: Allowed) -> Option<Defect<'a>>
    ensures { option_map defect_error result ≡ spec.column_allowed allowed }
{
    match allowed {
        Allowed::Columns => None,
        _ => Some(Defect::Misuse),
    }
}

fn count_allowed<'a>(allowed: Allowed) -> Option<Defect<'a>>
    ensures { option_map defect_error result ≡ spec.aggregate_allowed [] allowed }
{
    match allowed {
        Allowed::Aggregates => None,
        _ => Some(Defect::Misuse),
    }
}

#[cycle(calls)]
fn calls_in_all<'a>(allowed: Allowed, list: &'a [Expr]) -> Option<Defect<'a>>
    ensures { option_map defect_error result ≡ spec.first (spec.calls_in_all list.now allowed) }
{
    for expr in list {
        match calls_in(allowed, expr) {
            Some(defect) => return Some(defect),
            None => {}
        }
    }
    None
}

#[cycle(calls)]
fn arguments_allowed<'a>(
    function: Function,
    args: &'a [Expr],
    allowed: Allowed,
) -> Option<Defect<'a>>
    ensures { option_map defect_error result ≡ spec.arguments_allowed function (spec.all_placed args.now) allowed }
{
    match function {
        Function::Aggregate(_) => match allowed {
            Allowed::Aggregates => calls_in_all(Allowed::Columns, args),
            _ => Some(Defect::Misuse),
        },
        _ => calls_in_all(allowed, args),
    }
}

/// First the name, then the number of arguments, then whether it may stand there, and then the arguments.
#[cycle(calls)]
fn call_allowed<'a>(name: &'a Text, args: &'a [Expr], allowed: Allowed) -> Option<Defect<'a>>
    ensures { option_map defect_error result ≡ spec.call_allowed name.now (called name.now) (spec.all_placed args.now) allowed }
{
    match function_of(name.bytes()) {
        Some(function) => {
            if takes(function, args.len()) {
                arguments_allowed(function, args, allowed)
            } else {
                Some(Defect::WrongArguments(name))
            }
        }
        None => Some(Defect::NoFunction(name)),
    }
}

/// The first call that is wrong, or stands where it may not, as columns do beside aggregates.
#[cycle(calls)]
fn calls_in<'a>(allowed: Allowed, expr: &'a Expr) -> Option<Defect<'a>>
    ensures { option_map defect_error result ≡ spec.calls_in allowed expr.now }
{
    match expr {
        Expr::Name(_) => column_allowed(allowed),
        Expr::Qualified { .. } => column_allowed(allowed),
        Expr::CountAll => count_allowed(allowed),
        Expr::Call { name, args } => call_allowed(name, args.as_slice(), allowed),
        Expr::Minus(operand) => calls_in(allowed, operand.get()),
        Expr::Not(operand) => calls_in(allowed, operand.get()),
        Expr::Binary { op: _, left, right } => {
            let one = calls_in(allowed, left.get());
            let two = calls_in(allowed, right.get());
            first_of(one, two)
        }
        Expr::InList {
            negated: _,
            left,
            list,
        } => {
            let one = calls_in(allowed, left.get());
            let two = calls_in_all(allowed, list.as_slice());
            first_of(one, two)
        }
        Expr::Between {
            negated: _,
            left,
            low,
            high,
        } => {
            let one = calls_in(allowed, left.get());
            let two = calls_in(allowed, low.get());
            let three = calls_in(allowed, high.get());
            first_of(one, first_of(two, three))
        }
        _ => None,
    }
}

// ---- whether there is an aggregate

fn is_aggregate(function: Option<Function>) -> bool
    ensures { result ≡ spec.is_aggregate function }
{
    match function {
        Some(Function::Aggregate(_)) => true,
        _ => false,
    }
}

#[cycle(aggregates)]
fn any_aggregate(list: &[Expr]) -> bool
    ensures { result ≡ spec.any (map spec.has_aggregate list.now) }
{
    for expr in list {
        if has_aggregate(expr) {
            return true;
        }
    }
    false
}

#[cycle(aggregates)]
fn has_aggregate(expr: &Expr) -> bool
    ensures { result ≡ spec.has_aggregate expr.now }
{
    match expr {
        Expr::CountAll => true,
        Expr::Call { name, args } => {
            is_aggregate(function_of(name.bytes())) || any_aggregate(args.as_slice())
        }
        Expr::Minus(operand) => has_aggregate(operand.get()),
        Expr::Not(operand) => has_aggregate(operand.get()),
        Expr::Binary { op: _, left, right } => {
            has_aggregate(left.get()) || has_aggregate(right.get())
        }
        Expr::InList {
            negated: _,
            left,
            list,
        } => has_aggregate(left.get()) || any_aggregate(list.as_slice()),
        Expr::Between {
            negated: _,
            left,
            low,
            high,
        } => has_aggregate(left.get()) || (has_aggregate(low.get()) || has_aggregate(high.get())),
        _ => false,
    }
}

fn shows_aggregate(item: Shown<'_>) -> bool
    ensures { result ≡ spec.shows_aggregate (shown item.entry) }
{
    match item {
        Shown::Column(_) => false,
        Shown::Expression { expr, alias: _ } => has_aggregate(expr),
    }
}

/// Whether the select goes over all rows: an aggregate stands in its results.
pub fn is_over_all(items: &[Shown<'_>]) -> bool
    ensures { result ≡ spec.is_over_all (map shown items.now) }
{
    for item in items {
        if shows_aggregate(*item) {
            return true;
        }
    }
    false
}

// ---- the whole statement

/// What is looked for in an expression.
#[derive(Clone, Copy)]
pub enum Look<'s> {
    Names(&'s Scope),
    Calls(Allowed),
}

fn look_in<'a>(look: Look<'_>, expr: &'a Expr) -> Option<Defect<'a>>
    ensures { option_map defect_error result ≡ look_for look.entry expr.now }
{
    match look {
        Look::Names(scope) => names_in(scope, expr),
        Look::Calls(allowed) => calls_in(allowed, expr),
    }
}

fn in_optional<'a>(look: Look<'_>, expr: &'a Option<Expr>) -> Option<Defect<'a>>
    ensures { option_map defect_error result ≡ spec.optional (look_for look.entry) expr.now }
{
    match expr {
        Some(expr) => look_in(look, expr),
        None => None,
    }
}

fn in_shown<'a>(look: Look<'_>, of_all: Option<Defect<'a>>, item: Shown<'a>) -> Option<Defect<'a>>
    ensures { option_map defect_error result ≡ spec.shown_check (option_map defect_error of_all.entry) (look_for look.entry) (shown item.entry) }
{
    match item {
        Shown::Column(_) => of_all,
        Shown::Expression { expr, alias: _ } => look_in(look, expr),
    }
}

fn in_results<'a>(
    look: Look<'_>,
    of_all: Option<Defect<'a>>,
    items: &[Shown<'a>],
) -> Option<Defect<'a>>
    ensures { option_map defect_error result ≡ spec.first (map (spec.shown_check (option_map defect_error of_all.entry) (look_for look.entry)) (map shown items.now)) }
{
    for item in items {
        match in_shown(look, of_all, *item) {
            Some(defect) => return Some(defect),
            None => {}
        }
    }
    None
}

/// The name that an expression is.
fn name_of(expr: &Expr) -> Option<&Text>
    ensures { option_copied result ≡ spec.name_of expr.now }
{
    match expr {
        Expr::Name(name) => Some(name),
        _ => None,
    }
}

fn is_same_name(a: &[u8], b: &[u8]) -> bool
    ensures { result ≡ same_name a.now b.now }
{
    a.eq_ignore_ascii_case(b)
}

fn has_alias(item: Shown<'_>, name: &Text) -> bool
    ensures { result ≡ results.has_alias (shown item.entry) name.now }
{
    match item {
        Shown::Column(_) => false,
        Shown::Expression { expr: _, alias } => match alias {
            Some(alias) => is_same_name(alias.bytes(), name.bytes()),
            None => false,
        },
    }
}

/// The place of the first result of that alias.
fn alias_place(items: &[Shown<'_>], name: &Text) -> Option<usize>
    ensures { result ≡ results.alias_place (map shown items.now) name.now }
{
    for i in 0..items.len() {
        if has_alias(items[i], name) {
            return Some(i);
        }
    }
    None
}

/// The place of the result that a term names by its alias.
pub fn aliased(items: &[Shown<'_>], expr: &Expr) -> Option<usize>
    ensures { result ≡ spec.aliased (map shown items.now) expr.now }
{
    match name_of(expr) {
        Some(name) => alias_place(items, name),
        None => None,
    }
}

fn in_term<'a>(look: Look<'_>, items: &[Shown<'_>], term: &'a OrderTerm) -> Option<Defect<'a>>
    ensures { option_map defect_error result ≡ spec.term_check (look_for look.entry) (map shown items.now) term.now }
{
    if aliased(items, &term.expr).is_some() {
        None
    } else {
        look_in(look, &term.expr)
    }
}

fn in_order<'a>(look: Look<'_>, items: &[Shown<'_>], terms: &'a [OrderTerm]) -> Option<Defect<'a>>
    ensures { option_map defect_error result ≡ spec.first (map (spec.term_check (look_for look.entry) (map shown items.now)) terms.now) }
{
    for term in terms {
        match in_term(look, items, term) {
            Some(defect) => return Some(defect),
            None => {}
        }
    }
    None
}

/// What is looked for in each part of a statement.
#[derive(Clone, Copy)]
pub struct Looks<'s> {
    pub results: Look<'s>,
    pub filter: Look<'s>,
    pub order: Look<'s>,
    pub limits: Look<'s>,
}

fn in_statement<'a>(
    looks: &Looks<'_>,
    of_all: Option<Defect<'a>>,
    items: &[Shown<'a>],
    stmt: &'a SelectStmt,
) -> Option<Defect<'a>>
    ensures { option_map defect_error result ≡ spec.whole_check (option_map defect_error of_all.entry) (look_for looks.now.results) (look_for looks.now.filter) (look_for looks.now.order) (look_for looks.now.limits) (map shown items.now) stmt.now }
{
    let offset = in_optional(looks.limits, &stmt.offset);
    let limit = first_of(in_optional(looks.limits, &stmt.limit), offset);
    let order = first_of(in_order(looks.order, items, stmt.order.as_slice()), limit);
    let filter = first_of(in_optional(looks.filter, &stmt.filter), order);
    first_of(in_results(looks.results, of_all, items), filter)
}

fn names_check<'a>(scope: &Scope, items: &[Shown<'a>], stmt: &'a SelectStmt) -> Option<Defect<'a>>
    ensures { option_map defect_error result ≡ spec.names_check scope.now (map shown items.now) stmt.now }
{
    let nothing = Scope::Empty;
    let names = Look::Names(scope);
    let looks = Looks {
        results: names,
        filter: names,
        order: names,
        limits: Look::Names(&nothing),
    };
    in_statement(&looks, None, items, stmt)
}

fn allowed_in_results(over_all: bool) -> Allowed
    ensures { result ≡ spec.in_results over_all }
{
    if over_all {
        Allowed::Aggregates
    } else {
        Allowed::Columns
    }
}

fn allowed_in_order(over_all: bool) -> Allowed
    ensures { result ≡ spec.in_order over_all }
{
    if over_all {
        Allowed::Neither
    } else {
        Allowed::Columns
    }
}

fn calls_check<'a>(over_all: bool, items: &[Shown<'a>], stmt: &'a SelectStmt) -> Option<Defect<'a>>
    ensures { option_map defect_error result ≡ spec.calls_check over_all (map shown items.now) stmt.now }
{
    let results = allowed_in_results(over_all);
    let looks = Looks {
        results: Look::Calls(results),
        filter: Look::Calls(Allowed::Columns),
        order: Look::Calls(allowed_in_order(over_all)),
        limits: Look::Calls(Allowed::Columns),
    };
    in_statement(&looks, column_allowed(results), items, stmt)
}

/// The error of a defect.
fn error_of(alloc: Global, defect: Defect<'_>) -> EvalError
    ensures { IsSaid (defect_error defect.entry) result }
{
    match defect {
        Defect::NoColumn(name) => match name.copy(alloc) {
            Ok(name) => EvalError::Says(StmtError::NoColumn(name)),
            Err(_) => EvalError::NoMemory,
        },
        Defect::NoQualifiedColumn { table, column } => match table.copy(alloc) {
            Ok(table) => match column.copy(alloc) {
                Ok(column) => EvalError::Says(StmtError::NoQualifiedColumn { table, column }),
                Err(_) => {
                    drop(table);
                    EvalError::NoMemory
                }
            },
            Err(_) => EvalError::NoMemory,
        },
        Defect::NoFunction(name) => match name.copy(alloc) {
            Ok(name) => EvalError::Says(StmtError::NoFunction(name)),
            Err(_) => EvalError::NoMemory,
        },
        Defect::WrongArguments(name) => match name.copy(alloc) {
            Ok(name) => EvalError::Says(StmtError::WrongArguments(name)),
            Err(_) => EvalError::NoMemory,
        },
        Defect::Misuse => EvalError::Says(StmtError::MisuseOfAggregate),
    }
}

/// Nothing, or the error of a defect.
fn cleared(alloc: Global, defect: Option<Defect<'_>>) -> Result<(), EvalError>
    ensures { Clears (option_map defect_error defect.entry) result }
{
    match defect {
        Some(defect) => Err(error_of(alloc, defect)),
        None => Ok(()),
    }
}

/// Looks at all names of a select, and then at all its calls.
pub fn check<'a>(
    alloc: Global,
    scope: &Scope,
    over_all: bool,
    items: &[Shown<'a>],
    stmt: &'a SelectStmt,
) -> Result<(), EvalError>
    ensures { Clears (option_or (spec.names_check scope.now (map shown items.now) stmt.now) (spec.calls_check over_all (map shown items.now) stmt.now)) result }
{
    let calls = calls_check(over_all, items, stmt);
    cleared(alloc, first_of(names_check(scope, items, stmt), calls))
}

/// Looks at all names of a select.
pub fn check_all_names<'a>(
    alloc: Global,
    scope: &Scope,
    items: &[Shown<'a>],
    stmt: &'a SelectStmt,
) -> Result<(), EvalError>
    ensures { Clears (spec.names_check scope.now (map shown items.now) stmt.now) result }
{
    cleared(alloc, names_check(scope, items, stmt))
}

/// Looks at the names in an expression.
pub fn check_names(alloc: Global, scope: &Scope, expr: &Expr) -> Result<(), EvalError>
    ensures { Clears (spec.names_in scope.now expr.now) result }
{
    cleared(alloc, names_in(scope, expr))
}

/// Looks at the calls in an expression that is over one row.
pub fn check_calls(alloc: Global, expr: &Expr) -> Result<(), EvalError>
    ensures { Clears (spec.calls_in allowed.Columns expr.now) result }
{
    cleared(alloc, calls_in(Allowed::Columns, expr))
}
