//! What a leader keeps of another member.
use rq_values::Id;

/// What a leader keeps of another member.
#[derive(Clone, Copy)]
pub struct Peer {
    pub id: Id,
    /// The next index to send.
    pub next: u64,
    /// Up to where the peer's log is known to be the leader's.
    pub matched: u64,
    /// The greatest probe that the peer answered.
    pub acked: u64,
    /// The probe of what was last sent, until it is answered.
    pub flight: Option<u64>,
}
