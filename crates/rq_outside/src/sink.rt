// Where bytes go.
ghost use Rattle.std.specs.Prelude.{◌≡◌, ◌≤◌, ◌<◌, ◌++◌, Bool, List, ℕ, length, take, IsTrue, IfOk, OnOk, OnErr, IsErrOf};
ghost use Rattle.rq_outside.specs.Counts.{Rose};
ghost use Rattle.rq_outside.specs.declared.sink.SinkError.TheVariants.{Failed as SinkFailed};

/// Why a sink took nothing.
#[derive(Clone, Copy, Debug, PartialEq, Eq)]
pub enum SinkError {
    Failed,
    NoMemory,
}

/// A sink of bytes, as standard output or the writing half of a connection.
pub trait Sink {
    /// Whether it tells the bytes taken.
    ghost told: { Bool };

    /// The bytes taken.
    ghost taken: { Self → List ℕ };

    /// How often it has failed. It never falls.
    ghost faults: { Self → ℕ };

    /// Takes the first bytes of the piece, and answers how many: at least one of a piece that isn't empty.
    fn write(&mut self, piece: &[u8]) -> Result<usize, SinkError>
        ensures count { IfOk result (λ n. n ≤ length piece.now) }
        ensures some { IfOk result (λ n. 0 < length piece.now → 0 < n) }
        ensures took { IsTrue told → IfOk result (λ n. taken self.new ≡ taken self.old ++ take n piece.now) }
        ensures failed { IsTrue told → OnErr result (taken self.new ≡ taken self.old) }
        ensures later { faults self.old ≤ faults self.new }
        ensures cause { IsErrOf result SinkFailed → Rose (faults self.old) (faults self.new) }
        ensures ok { OnOk result (faults self.new ≡ faults self.old) };
}
