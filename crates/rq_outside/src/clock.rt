// Where moments come from.
ghost use Rattle.std.specs.Prelude.{◌≡◌, ℕ, IsNone, ◌↔◌};
ghost use Rattle.rq_outside.specs.Counts.{HasCause};

use crate::error::Failed;

/// A clock. It promises nothing of the moments that it gives.
pub trait Clock {
    /// How often it has failed. It never falls.
    ghost faults: { Self → ℕ };

    /// What a fault leaves to be shown.
    type Fault: Copy + Send + 'static;

    /// The first fault, if any.
    fn fault(&self) -> Option<Self::Fault>
        ensures { IsNone result ↔ (faults self.now ≡ 0) };

    /// The moment now, in milliseconds.
    fn moment(&mut self) -> Result<u64, Failed>
        ensures cause { HasCause (faults self.old) (faults self.new) result };
}
