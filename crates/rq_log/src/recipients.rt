//! To which peers something is sent.
use rq_values::Id;

/// To which peers something is sent.
#[derive(Clone, Copy)]
pub enum Recipients {
    /// All.
    All,
    /// Who waits for nothing.
    Idle,
    /// This one, if it waits for nothing and there is more up to the last index.
    More { from: Id, last: u64 },
    /// This one, if it waits for this probe.
    Waits { from: Id, probe: u64 },
}
