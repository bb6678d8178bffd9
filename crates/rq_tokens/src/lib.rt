//! A history that exists in proofs alone, and tokens that know a beginning of it.
#![tactic(auto)]

mod history;
mod law;

pub use history::{History, Known, Planned, new_history};
pub use law::{Add, Law, Nothing};
