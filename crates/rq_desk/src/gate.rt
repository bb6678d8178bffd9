//! Where a test may hold a thread.

/// Where a test may hold a thread. The program's does nothing.
pub trait Gate {
    /// Before the n-th time that something is applied, from 1, with no lock held.
    fn at_apply(&self, n: u64);
}

/// Holds nobody.
#[derive(Clone, Copy, Drop)]
pub struct OpenGate;

impl Gate for OpenGate {
    fn at_apply(&self, _n: u64) {}
}
