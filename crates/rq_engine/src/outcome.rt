//! What a command answers.
use rq_statement::Res;
use rq_values::Seq;

/// What a command answers.
pub enum Outcome {
    /// The results of its items, in order.
    Results(Seq<Res>),
    /// A load was done.
    Loaded,
    Nothing,
    /// A list that was sent on came too late, or once more.
    Stale,
}

impl Drop for Outcome {
    fn drop(self) {
        match self {
            Outcome::Results(results) => drop(results),
            Outcome::Loaded => (),
            Outcome::Nothing => (),
            Outcome::Stale => (),
        }
    }
}
