//! Lines of scenarios.

/// What a line is: an event, or something that came of the events before it, in order.
#[derive(Clone, Copy, PartialEq, Eq)]
pub enum What {
    /// Event: the node's time without a leader is over.
    Elect,
    /// Event: the leader's time to send is over.
    Beat,
    /// Event: so many entries are proposed.
    Propose,
    /// Event: the packet of that number comes in.
    Deliver,
    /// What came of the events before is passed over.
    Pass,
    /// Stored: the term and the vote.
    Votes,
    /// Stored: the log from that index on, so many entries.
    Stores,
    /// Sent: a request for a vote, with the last index and its term.
    Asks,
    /// Sent: a vote.
    Grants,
    /// Sent: no vote.
    Refuses,
    /// Sent: an append, with the index and the term of the entry before, the commit index, and so many entries.
    Sends,
    /// Sent: the reply that all is there, up to that index.
    Has,
    /// Sent: the reply that what stands before isn't there, with the index to go back to.
    Lacks,
    /// How the node stands: whether it leads, its last index, the term there, its commit index.
    Stands,
}

/// What it is, the node or the receiver, and its numbers.
pub type Line = (What, usize, [u64; 4]);
