//! What the threads of a server share: asks are put to the one thread that has the hub, and wait until their answer has
//! come: docs/SERVING.md.
#![tactic(auto)]

mod gate;
mod mail;
mod putting;
mod running;
mod slot;
mod unbuilt;
mod waiters;
mod wanted;

pub use gate::{Gate, OpenGate};
pub use mail::{Mail, Shared};
pub use putting::{DeskError, close, number, put};
pub use running::{HubEnd, run_hub};
pub use slot::Slot;
pub use unbuilt::{Unbuilt, unbuilt_of};
pub use wanted::Wanted;
