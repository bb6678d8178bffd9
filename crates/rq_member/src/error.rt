//! Why a node doesn't start.
ghost use Rattle.std.specs.Prelude.{◌≡◌};
ghost use Rattle.rq_member.specs.declared.error.NodeError.TheVariants as errors;

use rq_values::{DecodeError, NoMemory};
use std::alloc::{AllocError, AllocFailed};

/// Why a node doesn't start.
#[derive(Clone, Copy)]
pub enum NodeError {
    /// A disk failed.
    Disk,
    /// A file (1 or 2) leaves the format at a place; with the byte there, unless it is the file's end.
    NotAWal {
        file: u8,
        place: u64,
        byte: Option<u8>,
    },
    /// A version that isn't built.
    Version(u8),
    NoMemory,
    /// What the entry at an index holds is no command.
    Command {
        index: u64,
        error: DecodeError,
    },
    /// The entry at an index is a configuration, which isn't built.
    Config {
        index: u64,
    },
    /// The node was started 2^62 times or more.
    Ended(u64),
}

impl From<NoMemory> for NodeError {
    ghost from_gives = { λ _ e. e ≡ errors.NoMemory };

    fn from(_error: NoMemory) -> NodeError {
        NodeError::NoMemory
    }
}

impl From<AllocError> for NodeError {
    ghost from_gives = { λ _ e. e ≡ errors.NoMemory };

    fn from(_error: AllocError) -> NodeError {
        NodeError::NoMemory
    }
}

impl<T: Drop> From<AllocFailed<T>> for NodeError {
    ghost from_gives = { λ _ e. e ≡ errors.NoMemory };

    fn from(_error: AllocFailed<T>) -> NodeError {
        NodeError::NoMemory
    }
}
