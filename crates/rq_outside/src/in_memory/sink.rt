// Bytes to memory.
ghost use Rattle.std.specs.Prelude.{◌≡◌};

use super::faults::Faults;
use crate::sink::{Sink, SinkError};

/// A sink that keeps the bytes in memory, and fails at stated calls.
#[derive(Drop)]
pub struct MemSink {
    content: Vec<u8>,
    faults: Faults,
}

impl MemSink {
    ghost use Rattle.rq_outside.specs.MemStreams.{taken_by_mem};

    pub fn new(content: Vec<u8>, fails: Vec<u64>) -> MemSink
        ensures { taken_by_mem result ≡ content.items }
    {
        MemSink {
            content,
            faults: Faults::new(fails),
        }
    }

    /// What was taken.
    pub fn bytes(&self) -> &[u8]
        ensures { result.now ≡ taken_by_mem self.now }
    {
        &self.content
    }
}

impl Sink for MemSink {
    ghost use Rattle.std.specs.Prelude.{true};
    ghost use Rattle.rq_outside.specs.MemStreams.{taken_by_mem};

    ghost told = { true };

    ghost taken = { taken_by_mem };

    ghost faults = { λ sink. sink.faults.count };

    fn write(&mut self, piece: &[u8]) -> Result<usize, SinkError> {
        if self.faults.strikes() {
            return Err(SinkError::Failed);
        }
        match self.content.extend_from_slice(piece) {
            Ok(()) => Ok(piece.len()),
            Err(_) => Err(SinkError::NoMemory),
        }
    }
}

/// A sink that keeps the bytes in memory, and never fails.
#[derive(Drop)]
pub struct SureSink {
    content: Vec<u8>,
}

impl SureSink {
    ghost use Rattle.rq_outside.specs.MemStreams.{taken_by_sure};

    pub fn new(content: Vec<u8>) -> SureSink
        ensures { taken_by_sure result ≡ content.items }
    {
        SureSink { content }
    }

    /// What was taken.
    pub fn bytes(&self) -> &[u8]
        ensures { result.now ≡ taken_by_sure self.now }
    {
        &self.content
    }
}

impl Sink for SureSink {
    ghost use Rattle.std.specs.Prelude.{true};
    ghost use Rattle.rq_outside.specs.MemStreams.{taken_by_sure};

    ghost told = { true };

    ghost taken = { taken_by_sure };

    ghost faults = { λ _. 0 };

    fn write(&mut self, piece: &[u8]) -> Result<usize, SinkError> {
        match self.content.extend_from_slice(piece) {
            Ok(()) => Ok(piece.len()),
            Err(_) => Err(SinkError::NoMemory),
        }
    }
}
