// Where bytes come from.
ghost use Rattle.std.specs.Prelude.{◌≡◌, ◌≤◌, ◌<◌, ◌++◌, [], Bool, List, ℕ, length, take, drop, IsTrue, IfOk, OnErr};
ghost use Rattle.rq_outside.specs.Counts.{HasCause};

use crate::error::Failed;

/// A source of bytes, as standard input or the reading half of a connection.
pub trait Source {
    /// Whether it tells the bytes left.
    ghost told: { Bool };

    /// The bytes left.
    ghost left: { Self → List ℕ };

    /// How often it has failed. It never falls.
    ghost faults: { Self → ℕ };

    /// Moves the first of the bytes left to the start of `into`, and answers how many. Zero for a non-empty `into` is
    /// the end of input.
    fn read(&mut self, into: &mut [u8]) -> Result<usize, Failed>
        ensures count { IfOk result (λ n. n ≤ length into.old) }
        ensures behind { IfOk result (λ n. drop n into.new ≡ drop n into.old) }
        ensures moved { IsTrue told → IfOk result (λ n. left self.old ≡ take n into.new ++ left self.new) }
        ensures end { IsTrue told → IfOk result (λ n. n ≡ 0 → 0 < length into.old → left self.old ≡ []) }
        ensures failed { IsTrue told → OnErr result (left self.new ≡ left self.old) }
        ensures cause { HasCause (faults self.old) (faults self.new) result };
}
