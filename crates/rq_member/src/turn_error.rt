//! Why an event of a node wasn't done.
ghost use Rattle.std.specs.Prelude.{◌≡◌, ◌⊎◌};
ghost use Rattle.rq_member.specs.declared.turn_error.TurnError.TheVariants as errors;

use crate::engine::EngineError;
use rq_reads::BeginError;
use rq_values::{DecodeError, NoMemory};
use std::alloc::{AllocError, AllocFailed};

/// Why an event of a node wasn't done. After each but `Disk` the node and its files are as before.
#[derive(Clone, Copy)]
pub enum TurnError {
    /// A count has come to 2^62: the last index, the probe counter, the generation of the current file or the queue's last number.
    Ended(u64),
    /// A disk failed: the node has stopped.
    Disk,
    /// The engine's device failed.
    Engine,
    NoMemory,
    /// The entry at an index of the packet holds no command.
    Packet { index: u64, error: DecodeError },
    /// The entry at an index of the packet is a configuration, which isn't built.
    Config { index: u64 },
}

impl From<NoMemory> for TurnError {
    ghost from_gives = { λ _ e. e ≡ errors.NoMemory };

    fn from(_error: NoMemory) -> TurnError {
        TurnError::NoMemory
    }
}

impl From<AllocError> for TurnError {
    ghost from_gives = { λ _ e. e ≡ errors.NoMemory };

    fn from(_error: AllocError) -> TurnError {
        TurnError::NoMemory
    }
}

impl<T: Drop> From<AllocFailed<T>> for TurnError {
    ghost from_gives = { λ _ e. e ≡ errors.NoMemory };

    fn from(_error: AllocFailed<T>) -> TurnError {
        TurnError::NoMemory
    }
}

impl From<EngineError> for TurnError {
    ghost from_gives = { λ _ e. (e ≡ errors.NoMemory) ⊎ (e ≡ errors.Engine) };

    fn from(error: EngineError) -> TurnError {
        match error {
            EngineError::Fault => TurnError::Engine,
            EngineError::NoMemory => TurnError::NoMemory,
        }
    }
}
