//! What becomes of parameters, random numbers and times before a statement enters the log: docs/SQL.md, "Binding" and "Settling".
#![tactic(auto)]

mod binding;
mod drawing;
mod drawn;
mod filling;
mod gathering;
mod joining;
mod known;
mod laws;
mod naming;
mod node;
mod params;
mod planning;
mod settling;
mod statement_filling;
mod statement_nodes;
mod telling;
mod values;

pub use binding::bind;
pub use known::know_params;
pub use laws::{each_settling_is_one, what_is_bound, what_is_settled};
pub use params::BindError;
pub use planning::Refusal;
pub use settling::{SettleError, settle};
