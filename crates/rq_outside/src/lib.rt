//! The outside as traits: where bytes come from and go, disks with what a crash may leave, clocks, random words. Each
//! trait has a count of faults, and tells its content where it can. The disks and streams in memory are what the
//! cluster command runs on; those that fail at stated calls stand for the outside in tests.
#![tactic(auto)]

mod clock;
mod disk;
mod draws;
mod error;
mod in_memory;
mod pair;
mod sink;
mod source;
mod word;

pub use clock::Clock;
pub use disk::{CrashDisk, Disk};
pub use draws::Draws;
pub use error::Failed;
pub use in_memory::{
    MemDisk, MemSink, MemSource, ScriptClock, ScriptDraws, SureClock, SureDisk, SureDraws,
    SureSink, SureSource,
};
pub use pair::{Arm, DiskPair, FileNo};
pub use sink::{Sink, SinkError};
pub use source::Source;
pub use word::Word;
