//! The node that a program serves, with the history of all that came to it: docs/SERVING.md.
//!
//! The history exists in proofs alone. The hub's type says that the node is what the rules make of its history, and each
//! answer tells where it stands among the answers of that history.
#![tactic(auto)]

mod hub;
mod laws;
mod naming;
mod numbers;
mod outputs;
mod said;

pub use hub::{Hub, HubError};
pub use laws::no_ask_is_lost_or_answered_twice;
pub use naming::Naming;
pub use numbers::{Numbers, Past};
pub use outputs::Outputs;
pub use said::Said;
