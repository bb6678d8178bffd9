//! The results of a SELECT: what stands for `*`, headings, types and aliases; and what is wrong with a SELECT whatever the rows are.
//!
//! The definitions stand in `specs/Results.antt` and `specs/Checks.antt`; in words, docs/SQL.md, "What SELECT answers" and "Errors of
//! SELECT".
#![tactic(auto)]

mod checking;
mod heading_texts;
mod pushing;
mod results;

pub use checking::{
    Allowed, aliased, check, check_all_names, check_calls, check_names, is_over_all,
};
pub use heading_texts::{headings, types};
pub use pushing::push;
pub use results::{Shown, spread};
