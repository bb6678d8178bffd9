//! Connections: requests out of bytes that come in any pieces, and responses.
//!
//! docs/API.md, "Heads", "Connections" and "Responses", has the rules.
#![tactic(auto)]

mod connection;
mod giving;
mod head;
mod incoming;
mod laws;
mod place;
mod port;
mod response;
mod scanning;

pub use connection::{ServeError, Served, serve_connection};
pub use laws::{connections_are_one, heads_are_found};
pub use port::{Port, Reply};
