//! What a node is in its term.

/// What a node is in its term.
#[derive(Clone, Copy, PartialEq, Eq)]
pub enum Role {
    Follower,
    Candidate,
    Leader,
}
