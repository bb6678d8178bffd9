//! The outside as it is: files, sockets, clocks, random words and threads, and the traits of those that listen and start
//! threads. None of them tells its content.
#![tactic(auto)]

mod clocks;
mod counting;
mod files;
mod network;
mod sockets;
mod threads;
mod words;

pub use clocks::{SteadyClock, WallClock};
pub use counting::SystemFault;
pub use files::FileDisk;
pub use network::{Listener, Network};
pub use sockets::{Incoming, Outgoing, TcpConnections, TcpNetwork};
pub use threads::{Spawner, SystemThreads};
pub use words::{RandomWords, system_seed};
