//! Why a line was not done.
ghost use Rattle.std.specs.Prelude.{◌≡◌};

/// Why a line isn't done.
#[derive(Clone, Copy, Debug, PartialEq, Eq)]
pub enum LineError {
    /// The line is outside the grammar.
    Outside,
    NoMemory,
}

impl From<rq_values::NoMemory> for LineError {
    ghost use Rattle.rq_cluster.specs.declared.line_error.LineError.TheVariants.{NoMemory};

    ghost from_gives = { λ _ e. e ≡ NoMemory };

    fn from(_error: rq_values::NoMemory) -> LineError {
        LineError::NoMemory
    }
}
