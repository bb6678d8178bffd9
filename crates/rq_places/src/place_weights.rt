//! How deep a statement must be that goes on from a place, and which parentheses it still needs. A depth counts up to 101.

ghost use Rattle.std.specs.Prelude.{◌≡◌, min};
ghost use Rattle.rq_automaton.specs.Load.{clause_least};
ghost use Rattle.rq_automaton.specs.Weight.{place_weight, place_due};
ghost use Rattle.rq_automaton.specs.declared.place.Place.TheVariants as p;

use rq_automaton::{Clause, CreatePlace, InsertPlace, Place, SelectPlace, Stage, UpdatePlace};

/// The depth that the clause has before its expression.
pub(crate) fn clause_floor(clause: &Clause) -> u8
    ensures { result ≡ min 101 (clause_least clause.now 0) }
{
    match clause {
        Clause::Row { rows, row, .. } => rows.levels().max(row.levels()),
        Clause::Results(query) | Clause::Filter(query) => query.levels(Stage::Results),
        Clause::Order(query) | Clause::Limit(query) => query.levels(Stage::Ordered),
        Clause::Offset(query) => query.levels(Stage::Ordered).max(query.limit_levels()),
        Clause::Set { sets, .. } | Clause::UpdateFilter { sets, .. } => sets.levels(),
        Clause::DeleteFilter(_) => 0,
    }
}

/// The same of an UPDATE.
fn update_weight(place: &UpdatePlace) -> u8
    ensures { result ≡ min 101 (place_weight (p.Update place.now)) }
{
    match place {
        UpdatePlace::Begun | UpdatePlace::Table(_) => 1,
        UpdatePlace::SetStart(_, sets) | UpdatePlace::SetName(_, sets, _) => sets.levels().max(1),
        UpdatePlace::Sets(_, sets) => sets.levels(),
    }
}

/// The same of a select.
fn select_weight(place: &SelectPlace) -> u8
    ensures { result ≡ min 101 (place_weight (p.Select place.now)) }
{
    match place {
        SelectPlace::Result(query) | SelectPlace::From(query) => query.levels(Stage::Results),
        SelectPlace::Alias(query, expr) => query.levels(Stage::Results).max(expr.levels()),
        SelectPlace::Tail(stage, query) => query.levels(*stage),
        SelectPlace::Order(query) => query.levels(Stage::Filtered).max(1),
    }
}

/// The least depth of a statement that goes on from the place.
pub fn place_weight(place: &Place) -> u8
    ensures { result ≡ min 101 (place_weight place.now) }
{
    match place {
        Place::Insert(InsertPlace::Values(_, rows)) => rows.levels().max(1),
        Place::Insert(InsertPlace::Rows(_, rows)) => rows.levels(),
        Place::Update(place) => update_weight(place),
        Place::Select(place) => select_weight(place),
        Place::Ended(stmt) => stmt.levels(),
        _ => 0,
    }
}

/// How many `(` must still come.
pub fn place_due(place: &Place) -> u8
    ensures { result ≡ place_due place.now }
{
    match place {
        Place::Create(
            CreatePlace::Begun
            | CreatePlace::Table
            | CreatePlace::If(_)
            | CreatePlace::IfNot
            | CreatePlace::IfNotExists
            | CreatePlace::Named(..),
        )
        | Place::Insert(InsertPlace::Values(..)) => 1,
        _ => 0,
    }
}
