//! Why a log file pair isn't opened.
ghost use Rattle.std.specs.Prelude.{◌≡◌};
ghost use Rattle.rq_wal.specs.declared.error.OpenError.TheVariants as errors;

use rq_outside::Failed;
use rq_values::NoMemory;
use std::alloc::AllocError;

#[derive(Clone, Copy, Debug, PartialEq, Eq)]
pub enum OpenError {
    /// A disk failed.
    Disk,
    /// A file (1 or 2) leaves the format at a place; with the byte there, unless it is the file's end.
    NotAWal {
        file: u8,
        place: u64,
        byte: Option<u8>,
    },
    /// A version that isn't built.
    Version(u8),
    NoMemory,
}

impl From<AllocError> for OpenError {
    ghost from_gives = { λ _ e. e ≡ errors.NoMemory };

    fn from(_e: AllocError) -> OpenError {
        OpenError::NoMemory
    }
}

impl From<NoMemory> for OpenError {
    ghost from_gives = { λ _ e. e ≡ errors.NoMemory };

    fn from(_e: NoMemory) -> OpenError {
        OpenError::NoMemory
    }
}

impl From<Failed> for OpenError {
    ghost from_gives = { λ _ e. e ≡ errors.Disk };

    fn from(_e: Failed) -> OpenError {
        OpenError::Disk
    }
}
