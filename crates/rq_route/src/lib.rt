//! What a request asks for: its path, its method and its parameters, or the first refusal.
//!
//! docs/API.md, "Requests", "Paths" and "Parameters", has the rules. The body of a request is read by others.
#![tactic(auto)]

mod duration;
mod parameters;
mod path;
mod refusal;
mod request;
mod routing;
mod target;

pub use parameters::Key;
pub use path::Path;
pub use refusal::Refusal;
pub use request::Request;
pub use routing::{Routed, route};
