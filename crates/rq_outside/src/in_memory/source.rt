// Bytes from memory.
ghost use Rattle.std.specs.Prelude.{◌≡◌, ◌≤◌, List, ℕ, length};

use super::faults::Faults;
use crate::error::Failed;
use crate::source::Source;

/// A source over bytes in memory, which fails at stated calls.
#[derive(Drop)]
pub struct MemSource {
    bytes: SureSource,
    faults: Faults,
}

impl MemSource {
    ghost use Rattle.rq_outside.specs.MemStreams.{left_in_mem};

    pub fn new(content: Vec<u8>, fails: Vec<u64>) -> MemSource
        ensures { left_in_mem result ≡ content.items }
    {
        MemSource {
            bytes: SureSource::new(content),
            faults: Faults::new(fails),
        }
    }
}

impl Source for MemSource {
    ghost use Rattle.std.specs.Prelude.{true};
    ghost use Rattle.rq_outside.specs.MemStreams.{left_in_mem};

    ghost told = { true };

    ghost left = { left_in_mem };

    ghost faults = { λ source. source.faults.count };

    fn read(&mut self, into: &mut [u8]) -> Result<usize, Failed> {
        if self.faults.strikes() {
            return Err(Failed);
        }
        Ok(self.bytes.move_to(into))
    }
}

/// A source over bytes in memory, which never fails.
#[derive(Drop)]
pub struct SureSource {
    content: Vec<u8>,
    taken: usize,
    ghost within: { taken ≤ length content.items },
}

impl SureSource {
    ghost use Rattle.std.specs.Prelude.{min, take, drop, ◌++◌};
    ghost use Rattle.rq_outside.specs.MemStreams.{left_in_sure};

    pub fn new(content: Vec<u8>) -> SureSource
        ensures { left_in_sure result ≡ content.items }
    {
        SureSource { content, taken: 0 }
    }

    fn move_to(&mut self, into: &mut [u8]) -> usize
        ensures count { result ≡ min (length into.old) (length (left_in_sure self.old)) }
        ensures bytes { into.new ≡ take result (left_in_sure self.old) ++ drop result into.old }
        ensures left { left_in_sure self.new ≡ drop result (left_in_sure self.old) }
    {
        let count = into.len().min(self.content.len() - self.taken);
        into[..count].copy_from_slice(&self.content[self.taken..self.taken + count]);
        self.taken += count;
        count
    }
}

impl Source for SureSource {
    ghost use Rattle.std.specs.Prelude.{true};
    ghost use Rattle.rq_outside.specs.MemStreams.{left_in_sure};

    ghost told = { true };

    ghost left = { left_in_sure };

    ghost faults = { λ _. 0 };

    fn read(&mut self, into: &mut [u8]) -> Result<usize, Failed> {
        Ok(self.move_to(into))
    }
}
