// Lines of a script.
ghost use Rattle.std.specs.Prelude.{◌≡◌};

use crate::form::Form;
use rq_values::{Id, NoMemory, Seq};

/// A line of a script, read.
#[derive(Drop)]
pub enum ScriptLine<'a> {
    /// An empty line or a comment.
    Skip,
    /// The servers of the cluster, at least one.
    Cluster { ids: Seq<Id> },
    /// Something is done at the server of this id.
    At { id: Id, action: ScriptAction<'a> },
    /// The packet of this number, counted from 1, is delivered.
    Deliver { number: u64 },
    /// So often, at most 100,000 times: the lowest packet that was neither delivered nor passed over.
    Run { times: u64 },
    /// The moment is set, in milliseconds since 1970-01-01.
    Clock { moment: u64 },
}

/// What is done at one server.
#[derive(Clone, Copy)]
pub enum ScriptAction<'a> {
    /// The node stands for election.
    Elect,
    /// The leader sends to the others.
    Beat,
    /// The first of the queued writes are appended.
    Flush,
    /// The node applies what is committed.
    Apply,
    /// What is applied becomes the base of the files.
    Compact,
    /// A request, as it would come over HTTP.
    Ask {
        method: &'a [u8],
        target: &'a [u8],
        body: &'a [u8],
    },
    /// The node stops at once.
    Stop,
    /// The node stops in the event that needs more than so many changing calls of its disks, which leave the image of this
    /// pick, 0 to 3.
    StopWithin {
        calls: u64,
        pick: u8,
    },
    /// The node, which is down, starts.
    Start,
    /// The node is cut off from `run`.
    Cut,
    /// It is so no longer.
    Heal,
    /// The node is printed.
    Show,
}

/// Why a line isn't read.
#[derive(Clone, Copy)]
pub enum LineError {
    /// No line begins with its first word.
    NoSuchLine,
    /// It begins as a line of this form, and isn't of it.
    NotOfForm(Form),
    NoMemory,
}

impl From<NoMemory> for LineError {
    ghost use Rattle.std.specs.Prelude.{◌≡◌};
    ghost use Rattle.rq_lines.specs.declared.line.LineError.TheVariants as errors;

    ghost from_gives = { λ _ e. e ≡ errors.NoMemory };

    fn from(_e: NoMemory) -> LineError {
        LineError::NoMemory
    }
}
