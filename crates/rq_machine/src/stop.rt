//! Why the machine stops.

/// Why the machine stops at a token.
#[derive(Clone, Copy, PartialEq, Eq)]
pub enum Stop {
    /// No statement goes on with it.
    NoStatement,
    /// Only statements beyond the limits go on with it.
    TooDeep,
}
