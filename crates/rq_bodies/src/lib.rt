//! Bodies of requests read: docs/API.md, "Bodies".
#![tactic(auto)]

mod error;
mod member;
mod parsing;

pub use error::BodyError;
pub use member::{parse_join, parse_remove};
pub use parsing::parse_list;
