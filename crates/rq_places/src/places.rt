//! Between expressions: what each token leads to, by statement.

ghost use Rattle.std.specs.Prelude.{◌≡◌, IfOk};
ghost use Rattle.rq_automaton.specs.Places as spec;

use crate::create_table::create_step;
use crate::delete::delete_step;
use crate::drop_table::drop_step;
use crate::ended::behind_ended;
use crate::insert::insert_step;
use crate::names::{Step, at, behind};
use crate::select::select_step;
use crate::update::update_step;
use rq_automaton::{
    CreatePlace, DeletePlace, DropPlace, InsertPlace, MeasuredQuery, MeasuredStmt, Place,
    SelectPlace, UpdatePlace,
};
use rq_grammar::{Stmt, Token, Word};
use std::alloc::Global;

/// The first token.
fn start(alloc: Global, token: &Token) -> Step
    ensures { IfOk result (λ next. next ≡ spec.start token.now) }
{
    match token {
        Token::Word(_, Word::Create) => at(alloc, Place::Create(CreatePlace::Begun)),
        Token::Word(_, Word::Drop) => at(alloc, Place::Drop(DropPlace::Begun)),
        Token::Word(_, Word::Insert) => at(alloc, Place::Insert(InsertPlace::Begun)),
        Token::Word(_, Word::Update) => at(alloc, Place::Update(UpdatePlace::Begun)),
        Token::Word(_, Word::Delete) => at(alloc, Place::Delete(DeletePlace::Begun)),
        Token::Word(_, Word::Select) => {
            let query = MeasuredQuery::new(alloc, None);
            at(alloc, Place::Select(SelectPlace::Result(query)))
        }
        _ => Ok(None),
    }
}

/// The state behind the token, if one may stand at the place.
#[tactic(auto, unfolding(rq_automaton::specs::Places::place_step))]
pub fn place_step(alloc: Global, place: Place, token: Token) -> Step
    ensures { IfOk result (λ next. next ≡ spec.place_step place token) }
{
    match place {
        Place::Start => behind(start(alloc, &token), token),
        Place::Create(place) => create_step(alloc, place, token),
        Place::Drop(place) => drop_step(alloc, place, token),
        Place::Insert(place) => insert_step(alloc, place, token),
        Place::Update(place) => update_step(alloc, place, token),
        Place::Delete(place) => delete_step(alloc, place, token),
        Place::Select(place) => select_step(alloc, place, token),
        Place::Ended(stmt) => behind(behind_ended(alloc, stmt, &token), token),
    }
}

/// The statement, if the tokens end here.
#[tactic(auto, unfolding(rq_automaton::specs::Places::place_finish))]
pub fn place_finish(place: Place) -> Option<Stmt>
    ensures { result ≡ spec.place_finish place }
{
    match place {
        Place::Drop(DropPlace::If(table)) => Some(Stmt::Drop {
            if_exists: false,
            table,
        }),
        Place::Insert(InsertPlace::Rows(target, rows)) => {
            Some(MeasuredStmt::insert(target, rows).into_inner())
        }
        Place::Update(UpdatePlace::Sets(table, sets)) => {
            Some(MeasuredStmt::update(table, sets, None).into_inner())
        }
        Place::Delete(DeletePlace::Table(table)) => {
            Some(MeasuredStmt::delete(table, None).into_inner())
        }
        Place::Select(SelectPlace::Tail(_stage, query)) => Some(query.into_stmt().into_inner()),
        Place::Ended(stmt) => Some(stmt.into_inner()),
        other => {
            drop(other);
            None
        }
    }
}
