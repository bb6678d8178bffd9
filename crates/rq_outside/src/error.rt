//! What a call on the outside may answer in place of its value.

/// A device failed.
#[derive(Clone, Copy, Debug, PartialEq, Eq)]
pub struct Failed;
