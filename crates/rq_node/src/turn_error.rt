//! Why an event of a node wasn't done.
ghost use Rattle.std.specs.Prelude.{◌≡◌};

use rq_values::NoMemory;
use std::alloc::{AllocError, AllocFailed};

/// Why an event of a node wasn't done.
#[derive(Clone, Copy)]
pub enum TurnError {
    /// A disk failed: the node has stopped.
    Disk,
    NoMemory,
}

impl From<NoMemory> for TurnError {
    ghost use Rattle.rq_node.specs.declared.turn_error.TurnError.TheVariants.{NoMemory};

    ghost from_gives = { λ _ e. e ≡ NoMemory };

    fn from(_error: NoMemory) -> TurnError {
        TurnError::NoMemory
    }
}

impl From<AllocError> for TurnError {
    ghost use Rattle.rq_node.specs.declared.turn_error.TurnError.TheVariants.{NoMemory};

    ghost from_gives = { λ _ e. e ≡ NoMemory };

    fn from(_error: AllocError) -> TurnError {
        TurnError::NoMemory
    }
}

impl<T: Drop> From<AllocFailed<T>> for TurnError {
    ghost use Rattle.rq_node.specs.declared.turn_error.TurnError.TheVariants.{NoMemory};

    ghost from_gives = { λ _ e. e ≡ NoMemory };

    fn from(_error: AllocFailed<T>) -> TurnError {
        TurnError::NoMemory
    }
}
