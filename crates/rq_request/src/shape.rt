//! The form of a reply.

/// How a reply in JSON is written.
#[derive(Clone, Copy, Drop)]
pub struct Shape {
    /// Rows as objects, and else as lists.
    pub associative: bool,
    /// With a line for each item, and else without blanks.
    pub pretty: bool,
}
