// The outside in memory: each tells its content, and fails at stated calls or never.

mod clock;
mod disk;
mod draws;
mod faults;
mod journal;
mod script;
mod sink;
mod source;
mod sure_disk;

pub use clock::{ScriptClock, SureClock};
pub use disk::MemDisk;
pub use draws::{ScriptDraws, SureDraws};
pub use sink::{MemSink, SureSink};
pub use source::{MemSource, SureSource};
pub use sure_disk::SureDisk;
