//! Sources that give their bytes in pieces.
use rq_outside::{Failed, Source, SureSource};

/// Gives one byte a read.
#[derive(Drop)]
pub(crate) struct Drip {
    pub(crate) bytes: Vec<u8>,
    pub(crate) at: usize,
}

impl Source for Drip {
    ghost use Rattle.std.specs.Prelude.{false, []};

    ghost told = { false };

    ghost left = { λ _. [] };

    ghost faults = { λ _. 0 };

    fn read(&mut self, into: &mut [u8]) -> Result<usize, Failed> {
        if into.is_empty() || self.at >= self.bytes.len() {
            return Ok(0);
        }
        into[0] = self.bytes[self.at];
        self.at += 1;
        Ok(1)
    }
}

/// Gives the one part of its bytes, and then the other.
#[derive(Drop)]
pub(crate) struct Cut {
    pub(crate) front: SureSource,
    pub(crate) back: SureSource,
}

impl Source for Cut {
    ghost use Rattle.std.specs.Prelude.{false, []};

    ghost told = { false };

    ghost left = { λ _. [] };

    ghost faults = { λ _. 0 };

    fn read(&mut self, into: &mut [u8]) -> Result<usize, Failed> {
        match self.front.read(into) {
            Ok(0) => self.back.read(into),
            Ok(count) => Ok(count),
            Err(error) => Err(error),
        }
    }
}
