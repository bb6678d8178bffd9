//! Behind the expression of a clause.

ghost use Rattle.std.specs.Prelude.{◌≡◌, ◌++◌, ◌∷◌, [], None, IfOk};
ghost use Rattle.rq_automaton.specs.Machine as machine;
ghost use Rattle.rq_automaton.specs.Places as spec;
ghost use Rattle.rq_automaton.specs.declared.place.Place.TheVariants as p;
ghost use Rattle.rq_automaton.specs.declared.place.InsertPlace.TheVariants as ip;
ghost use Rattle.rq_automaton.specs.declared.place.SelectPlace.TheVariants as sp;
ghost use Rattle.rq_automaton.specs.declared.place.Stage.TheVariants as stage;

use rq_automaton::{
    Clause, InsertPlace, Measured, MeasuredList, MeasuredQuery, MeasuredRows, MeasuredSets,
    MeasuredStmt, Place, SelectPlace, Stage, Target, UpdatePlace,
};
use rq_grammar::{Stmt, Token, Word};
use rq_places::{Step, at, behind, inside, place_finish, place_step, tail_at};
use rq_values::{NoMemory, Text};
use std::alloc::Global;

/// The row with one more expression at its end.
fn with_expr(mut row: MeasuredList, expr: Measured) -> Result<MeasuredList, NoMemory>
    ensures { IfOk result (λ xs. xs ≡ row ++ expr ∷ []) }
{
    match row.push(expr) {
        Ok(()) => Ok(row),
        Err(error) => {
            drop(row);
            Err(error)
        }
    }
}

/// The rows with one more at their end.
fn with_row(mut rows: MeasuredRows, row: MeasuredList) -> Result<MeasuredRows, NoMemory>
    ensures { IfOk result (λ rs. rs ≡ rows ++ row ∷ []) }
{
    match rows.push(row) {
        Ok(()) => Ok(rows),
        Err(error) => {
            drop(rows);
            Err(error)
        }
    }
}

/// What is set, with one more column at its end.
fn with_set(mut sets: MeasuredSets, name: Text, expr: Measured) -> Result<MeasuredSets, NoMemory>
    ensures { IfOk result (λ is. is ≡ sets ++ (name, expr) ∷ []) }
{
    match sets.push(name, expr) {
        Ok(()) => Ok(sets),
        Err(error) => {
            drop(sets);
            Err(error)
        }
    }
}

/// Behind a part of a select.
fn tail(stage: Stage, query: MeasuredQuery) -> Place
    ensures { result ≡ p.Select (sp.Tail stage query) }
{
    Place::Select(SelectPlace::Tail(stage, query))
}

/// Where the machine stands once the clause's expression has ended. A row goes on or is closed.
fn land(clause: Clause, expr: Measured) -> Result<Option<Place>, NoMemory>
    ensures { IfOk result (λ place. place ≡ machine.land clause expr) }
{
    match clause {
        Clause::Row { target, rows, row } => {
            drop(target);
            drop(rows);
            drop(row);
            drop(expr);
            Ok(None)
        }
        Clause::Results(query) => match query.with_result(expr, None) {
            Ok(query) => Ok(Some(tail(Stage::Results, query))),
            Err(error) => Err(error),
        },
        Clause::Filter(query) => Ok(Some(tail(Stage::Filtered, query.with_filter(expr)))),
        Clause::Order(query) => match query.with_term(expr, false) {
            Ok(query) => Ok(Some(tail(Stage::Ordered, query))),
            Err(error) => Err(error),
        },
        Clause::Limit(query) => Ok(Some(tail(Stage::Limited, query.with_limit(expr)))),
        Clause::Offset(query) => Ok(Some(tail(Stage::Limited, query.with_offset(expr)))),
        Clause::Set { table, sets, name } => match with_set(sets, name, expr) {
            Ok(sets) => Ok(Some(Place::Update(UpdatePlace::Sets(table, sets)))),
            Err(error) => {
                drop(table);
                Err(error)
            }
        },
        Clause::UpdateFilter { table, sets } => {
            Ok(Some(Place::Ended(MeasuredStmt::update(table, sets, Some(expr)))))
        }
        Clause::DeleteFilter(table) => {
            Ok(Some(Place::Ended(MeasuredStmt::delete(table, Some(expr)))))
        }
    }
}

/// The token behind the whole of the clause.
fn landed(alloc: Global, clause: Clause, expr: Measured, token: Token) -> Step
    ensures { IfOk result (λ next. next ≡ machine.landed (machine.land clause expr) token) }
{
    match land(clause, expr) {
        Ok(None) => {
            drop(token);
            Ok(None)
        }
        Ok(Some(place)) => place_step(alloc, place, token),
        Err(error) => {
            drop(token);
            Err(error)
        }
    }
}

/// The statement, if the tokens end behind the clause.
pub(crate) fn landed_end(clause: Clause, expr: Measured) -> Result<Option<Stmt>, NoMemory>
    ensures { IfOk result (λ stmt. stmt ≡ machine.landed_end (machine.land clause expr)) }
{
    match land(clause, expr) {
        Ok(None) => Ok(None),
        Ok(Some(place)) => Ok(place_finish(place)),
        Err(error) => Err(error),
    }
}

/// Behind an expression of a row.
fn row_on(
    alloc: Global,
    target: Target,
    rows: MeasuredRows,
    row: MeasuredList,
    expr: Measured,
    token: &Token,
) -> Step
    ensures { IfOk result (λ next. next ≡ machine.row_on target rows row expr token.now) }
{
    match token {
        Token::Comma => match with_expr(row, expr) {
            Ok(row) => inside(alloc, Clause::Row { target, rows, row }),
            Err(error) => {
                drop(target);
                drop(rows);
                Err(error)
            }
        },
        Token::Close => match with_expr(row, expr) {
            Ok(row) => closed(alloc, target, rows, row),
            Err(error) => {
                drop(target);
                drop(rows);
                Err(error)
            }
        },
        _ => {
            drop(target);
            drop(rows);
            drop(row);
            drop(expr);
            Ok(None)
        }
    }
}

/// Behind a row.
fn closed(alloc: Global, target: Target, rows: MeasuredRows, row: MeasuredList) -> Step
    ensures { IfOk result (λ next. next ≡ spec.flat (p.Insert (ip.Rows target (rows ++ row ∷ [])))) }
{
    match with_row(rows, row) {
        Ok(rows) => at(alloc, Place::Insert(InsertPlace::Rows(target, rows))),
        Err(error) => {
            drop(target);
            Err(error)
        }
    }
}

/// Behind a result.
fn results_on(alloc: Global, query: MeasuredQuery, expr: Measured, token: Token) -> Step
    ensures { IfOk result (λ next. next ≡ machine.results_on query expr token) }
{
    match &token {
        Token::Word(_, Word::As) => {
            drop(token);
            at(alloc, Place::Select(SelectPlace::Alias(query, expr)))
        }
        _ => landed(alloc, Clause::Results(query), expr, token),
    }
}

/// Behind a term of the order and its direction.
fn directed(alloc: Global, query: MeasuredQuery, expr: Measured, descending: bool) -> Step
    ensures { IfOk result (λ next. next ≡ spec.flat (p.Select (sp.Tail stage.Ordered (spec.add_term query (record { expr = expr; descending = descending }))))) }
{
    match query.with_term(expr, descending) {
        Ok(query) => tail_at(alloc, Stage::Ordered, query),
        Err(error) => Err(error),
    }
}

/// Behind a term of the order.
fn order_on(alloc: Global, query: MeasuredQuery, expr: Measured, token: Token) -> Step
    ensures { IfOk result (λ next. next ≡ machine.order_on query expr token) }
{
    match &token {
        Token::Word(_, Word::Asc) => {
            drop(token);
            directed(alloc, query, expr, false)
        }
        Token::Word(_, Word::Desc) => {
            drop(token);
            directed(alloc, query, expr, true)
        }
        _ => landed(alloc, Clause::Order(query), expr, token),
    }
}

/// Behind the limit.
fn limit_on(alloc: Global, query: MeasuredQuery, expr: Measured, token: Token) -> Step
    ensures { IfOk result (λ next. next ≡ machine.limit_on query expr token) }
{
    match &token {
        Token::Word(_, Word::Offset) => {
            drop(token);
            inside(alloc, Clause::Offset(query.with_limit(expr)))
        }
        _ => landed(alloc, Clause::Limit(query), expr, token),
    }
}

/// Behind an expression of the clause.
#[tactic(auto, unfolding(rq_automaton::specs::Machine::clause_on))]
pub(crate) fn clause_on(alloc: Global, clause: Clause, expr: Measured, token: Token) -> Step
    ensures { IfOk result (λ next. next ≡ machine.clause_on clause expr token) }
{
    match clause {
        Clause::Row { target, rows, row } => {
            behind(row_on(alloc, target, rows, row, expr, &token), token)
        }
        Clause::Results(query) => results_on(alloc, query, expr, token),
        Clause::Filter(query) => landed(alloc, Clause::Filter(query), expr, token),
        Clause::Order(query) => order_on(alloc, query, expr, token),
        Clause::Limit(query) => limit_on(alloc, query, expr, token),
        Clause::Offset(query) => landed(alloc, Clause::Offset(query), expr, token),
        Clause::Set { table, sets, name } => {
            landed(alloc, Clause::Set { table, sets, name }, expr, token)
        }
        Clause::UpdateFilter { table, sets } => {
            landed(alloc, Clause::UpdateFilter { table, sets }, expr, token)
        }
        Clause::DeleteFilter(table) => landed(alloc, Clause::DeleteFilter(table), expr, token),
    }
}
