//! Standard input as a source.
ghost use Rattle.std.specs.Prelude.{◌≡◌};

use rq_outside::{Failed, Source};
use std::io::{Read, Stdin};

/// How many bytes are read at once.
const PIECE: usize = 4096;

/// Standard input. It tells no bytes.
#[derive(Drop)]
pub struct StandardInput {
    reader: Stdin,
    faults: u64,
}

impl StandardInput {
    /// Of which no read has failed.
    pub fn new(rt: &HostRuntime) -> StandardInput
        ensures { result.faults ≡ 0 }
    {
        StandardInput {
            reader: rt.stdin(),
            faults: 0,
        }
    }
}

impl Source for StandardInput {
    ghost use Rattle.std.specs.Prelude.{false, []};

    ghost told = { false };

    ghost left = { λ _. [] };

    ghost faults = { λ input. input.faults };

    fn read(&mut self, into: &mut [u8]) -> Result<usize, Failed> {
        let mut piece = [0; PIECE];
        let most = into.len().min(PIECE);
        match self.reader.read(&mut piece[..most]) {
            Ok(count) => {
                into[..count].copy_from_slice(&piece[..count]);
                Ok(count)
            }
            Err(_) => {
                self.faults = self.faults.saturating_add(1);
                Err(Failed)
            }
        }
    }
}
