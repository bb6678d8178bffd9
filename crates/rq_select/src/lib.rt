//! SELECT over one table, or over none.
//!
//! What a SELECT answers stands in `specs/Select.antt` as a filter of the list of rows, their results and terms, an order and a cut; and in
//! docs/SQL.md, "What SELECT answers".
#![tactic(auto)]

mod filtering;
mod keys;
mod laws;
mod parts;
mod planning;
mod selecting;
mod showing;
mod sorting;
mod stopping;
mod table;
mod terms;

pub use laws::one_select;
pub use parts::{result_count, result_rows, rowids_where};
pub use selecting::select;
pub use sorting::{SortKey, SortTerm};
pub use table::{Lookup, TableView};
