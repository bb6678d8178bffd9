// Where random words come from.
ghost use Rattle.std.specs.Prelude.{◌≡◌, ◌∷◌, Bool, List, ℕ, IsTrue, IsNone, ◌↔◌, IfOk, OnErr};
ghost use Rattle.rq_outside.specs.Counts.{HasCause};

use crate::error::Failed;

/// A source of random words.
pub trait Draws {
    /// Whether it tells the words to come.
    ghost told: { Bool };

    /// The words to come.
    ghost words: { Self → List ℕ };

    /// How often it has failed. It never falls.
    ghost faults: { Self → ℕ };

    /// What a fault leaves to be shown.
    type Fault: Copy + Send + 'static;

    /// The first fault, if any.
    fn fault(&self) -> Option<Self::Fault>
        ensures { IsNone result ↔ (faults self.now ≡ 0) };

    /// Takes the first word to come.
    fn word(&mut self) -> Result<u64, Failed>
        ensures first { IsTrue told → IfOk result (λ word. words self.old ≡ word ∷ words self.new) }
        ensures failed { IsTrue told → OnErr result (words self.new ≡ words self.old) }
        ensures cause { HasCause (faults self.old) (faults self.new) result };
}
