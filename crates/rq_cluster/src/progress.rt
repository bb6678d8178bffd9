// How far a script was read and done.
ghost use Rattle.std.specs.Prelude.{◌≤◌, ◌+◌};

use crate::reason::Reason;
use crate::world::World;

/// How far a script was read and done.
#[derive(Drop)]
pub struct Progress {
    /// What the lines so far led to.
    pub world: World,
    /// The number of the line to come, from 1.
    pub number: u64,
    /// What was read of the line to come.
    pub held: Vec<u8>,
    /// How many bytes were read.
    pub read: u64,
    /// The limit that the line to come passes, if it was found to.
    pub passes: Option<Reason>,
    /// Whether what is held is a line whose LF was read and that was not done.
    pub is_ended: bool,
    ghost within: { read ≤ 67108864 },
    ghost counted: { number ≤ read + 1 },
}
