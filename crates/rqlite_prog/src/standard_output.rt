//! Standard output as a sink.
ghost use Rattle.std.specs.Prelude.{◌≡◌};

use rq_outside::{Sink, SinkError};
use std::io::{Stdout, Write};

/// Standard output. It tells no bytes.
#[derive(Drop)]
pub struct StandardOutput {
    writer: Stdout,
    faults: u64,
}

impl StandardOutput {
    /// Of which no write has failed.
    pub fn new(rt: &HostRuntime) -> StandardOutput
        ensures { result.faults ≡ 0 }
    {
        StandardOutput {
            writer: rt.stdout(),
            faults: 0,
        }
    }
}

impl Sink for StandardOutput {
    ghost use Rattle.std.specs.Prelude.{false, []};

    ghost told = { false };

    ghost taken = { λ _. [] };

    ghost faults = { λ output. output.faults };

    fn write(&mut self, piece: &[u8]) -> Result<usize, SinkError> {
        match self.writer.write(piece) {
            Ok(count) if count > 0 || piece.is_empty() => Ok(count),
            _ => {
                self.faults = self.faults.saturating_add(1);
                Err(SinkError::Failed)
            }
        }
    }
}
