//! Where a thread waits for the answer to its ask.
ghost use Rattle.std.specs.Prelude.{◌≡◌, IfOk};
ghost use Rattle.std.specs.Option.{ForSome};

use rq_hub::{Naming, Said};
use std::sync::{Condvar, Mutex, Wait};

/// Why there is no answer.
#[derive(Clone, Copy, Drop)]
pub enum DeskError {
    /// Memory was wanting, and nothing was done.
    NoMemory,
    /// The program ends. Whether it was done isn't known.
    Failed,
}

/// The answer to the ask of this number, once it has come, or why there is none.
#[derive(Drop)]
struct Held<J: Naming> {
    number: u64,
    said: Option<Said<J>>,
    failed: Option<DeskError>,
    ghost his: { ForSome said (λ s. s.answer.number ≡ number) },
}

impl<J: Naming> Held<J> {
    /// Whether nothing has come for this ask.
    fn waits(&self, number: u64) -> bool {
        self.number != number || (self.said.is_none() && self.failed.is_none())
    }
}

/// Where one thread waits for the answer to its ask, one ask at a time.
#[derive(Drop)]
pub struct Slot<J: Naming> {
    held: Mutex<Held<J>>,
    came: Condvar,
}

impl<J: Naming> Slot<J> {
    /// Nothing has come.
    pub fn new() -> Slot<J> {
        Slot {
            held: Mutex::new(Held {
                number: 0,
                said: None,
                failed: None,
            }),
            came: Condvar::new(),
        }
    }

    /// Hands over an answer.
    pub fn post<R: Wait>(&self, rt: &R, said: Said<J>) {
        let mut held = self.held.lock(rt);
        *held = Held {
            number: said.number(),
            said: Some(said),
            failed: None,
        };
        self.came.notify_one();
    }

    /// Says why there is no answer to the ask of this number.
    pub fn fail<R: Wait>(&self, rt: &R, number: u64, error: DeskError) {
        let mut held = self.held.lock(rt);
        *held = Held {
            number,
            said: None,
            failed: Some(error),
        };
        self.came.notify_one();
    }

    /// Waits until the answer to the ask of this number has come, and takes it.
    pub fn take<R: Wait>(&self, rt: &R, number: u64) -> Result<Said<J>, DeskError>
        ensures { IfOk result (λ s. s.answer.number ≡ number) }
    {
        let mut held = self
            .came
            .wait_while(rt, self.held.lock(rt), |held| held.waits(number));
        let Held {
            number: theirs,
            said,
            failed,
        } = std::mem::replace(
            &mut *held,
            Held {
                number: 0,
                said: None,
                failed: None,
            },
        );
        match said {
            Some(said) if theirs == number => Ok(said),
            other => {
                drop(other);
                Err(failed.unwrap_or(DeskError::Failed))
            }
        }
    }
}
