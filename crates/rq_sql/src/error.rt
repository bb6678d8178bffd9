//! Why a text isn't read.

use rq_values::NoMemory;

/// Why there is no statement. Places are offsets in bytes, the end exclusive.
#[derive(Clone, Copy, Debug, PartialEq, Eq)]
pub enum ReadError {
    /// The text has so many bytes, more than it may have.
    TooLong(usize),
    /// No statement goes on with this token, or more is wanted at the text's end.
    Near { from: usize, to: usize },
    /// The same, where the token is a word or a numeral of SQL that stands in no statement of this language.
    NotInProfile { from: usize, to: usize },
    /// Only statements beyond the limits go on with the token that begins here.
    TooDeep(usize),
    NoMemory,
}

impl From<NoMemory> for ReadError {
    ghost use Rattle.std.specs.Prelude.{◌≡◌};
    ghost use Rattle.rq_sql.specs.declared.error.ReadError.TheVariants.{NoMemory};

    ghost from_gives = { λ _ e. e ≡ NoMemory };

    fn from(_e: NoMemory) -> ReadError {
        ReadError::NoMemory
    }
}
