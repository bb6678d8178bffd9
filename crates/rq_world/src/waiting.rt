//! An ask that waits.

/// An ask that waits until the entry at an index is applied.
#[derive(Clone, Copy)]
pub struct Waiting {
    pub index: u64,
    pub number: u64,
    /// The moment at which it was put.
    pub asked: u64,
    pub timeout: u64,
    /// Its position in the batch, from 0; 0 where the entry is its own.
    pub position: u64,
    /// Of a queued write its sequence number.
    pub sequence: Option<u64>,
}
