//! The automaton that reads a statement, one token at a time: its states, its stack and its steps, and the proof that it
//! reads exactly what the grammar of `rq_grammar` spells. What is proved of it stands in `laws`.
#![tactic(auto)]

mod examples;
mod frame;
mod laws;
mod measured;
mod place;

pub use examples::{looser_operators_are_refused, operators_bind};
pub use frame::{Clause, Frame, Stack, State};
pub use laws::{one_place, one_statement, reads_what_is_spelled, reads_within_limits};
pub use measured::{Measured, MeasuredList, MeasuredRows, MeasuredSets};
pub use place::{
    CreatePlace, DeletePlace, DropPlace, InsertPlace, MeasuredQuery, MeasuredStmt, NewTable, Place,
    Query, SelectPlace, Stage, Target, UpdatePlace,
};
