//! From a request over HTTP to the ask of a node: docs/API.md, "Requests" and "What a request asks".
#![tactic(auto)]

mod asking;
mod laws;
mod preparing;
mod reading;

pub use asking::ask_of;
pub use laws::each_request_has_one_ask;
pub use reading::{Defect, Requested, read_request};
