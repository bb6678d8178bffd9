//! Putting asks, and waiting for their answers.
ghost use Rattle.std.specs.Prelude.{◌≡◌, IfOk};

use crate::mail::{Put, Shared};
pub use crate::slot::DeskError;
use crate::slot::Slot;
use crate::wanted::Wanted;
use rq_hub::{Naming, Said};
use std::alloc::Global;
use std::sync::{Arc, Wait};

/// The next ask's number. None where no more are given: then the program ends.
pub fn number<J: Naming, R: Wait>(rt: &R, shared: &Shared<J>) -> Option<u64> {
    let mut mail = shared.mail.lock(rt);
    let number = mail.numbers.next();
    if number.is_none() {
        mail.closed = true;
        shared.arrived.notify_all();
    }
    number
}

/// Puts an ask, and waits until its answer has come: the rules' answer to this number.
pub fn put<J: Naming, R: Wait>(
    rt: &R,
    shared: &Shared<J>,
    slot: &Arc<Slot<J>, Global>,
    number: u64,
    wanted: Wanted,
) -> Result<Said<J>, DeskError>
    ensures { IfOk result (λ s. s.answer.number ≡ number) }
{
    let Ok(theirs) = Arc::try_clone(slot) else {
        drop(wanted);
        return Err(DeskError::NoMemory);
    };
    send(
        rt,
        shared,
        Put {
            number,
            wanted,
            slot: theirs,
        },
    )?;
    slot.take(rt, number)
}

/// Lays the ask where the hub's thread takes it up.
fn send<J: Naming, R: Wait>(rt: &R, shared: &Shared<J>, put: Put<J>) -> Result<(), DeskError> {
    let mut mail = shared.mail.lock(rt);
    if mail.closed {
        drop(put);
        return Err(DeskError::Failed);
    }
    if mail.puts.push(put).is_err() {
        return Err(DeskError::NoMemory);
    }
    shared.arrived.notify_one();
    Ok(())
}

/// From now on nothing is taken up: the program ends.
pub fn close<J: Naming, R: Wait>(rt: &R, shared: &Shared<J>) {
    shared.mail.lock(rt).closed = true;
    shared.arrived.notify_all();
}
