//! Where a worker puts its asks.
ghost use Rattle.std.specs.Prelude.{ℕ, Bool, List, [], ◌∷◌, ◌++◌, ◌≡◌, ◌≤◌, None, IsTrue, IfOk, OnOk, IsErrOf};
ghost use Rattle.rq_outside.specs.Counts.{Rose};
ghost use Rattle.rq_request.specs.declared.ask.Ask.{Ask as TheAsk};
ghost use Rattle.rq_desk.specs.Asks.{unbuilt_of};
ghost use Rattle.rq_desk.specs.declared.slot.DeskError.TheVariants.{Failed as DeskFailed};

use rq_desk::{DeskError, Shared, Slot, Wanted, number, put};
use rq_hub::{Naming, Said};
use rq_request::Ask;
use std::alloc::Global;
use std::sync::{Arc, Wait};

/// Where a worker puts its asks.
pub trait Desk<J: Naming> {
    /// Whether it tells its list.
    ghost told: { Bool };

    /// The asks that were put so far and answered.
    ghost asked: { Self → List TheAsk };

    /// How often it has failed. It never falls.
    ghost faults: { Self → ℕ };

    /// The next ask's number.
    fn number(&mut self) -> Result<u64, DeskError>
        ensures asked { IsTrue told → asked self.new ≡ asked self.old }
        ensures later { faults self.old ≤ faults self.new }
        ensures cause { IsErrOf result DeskFailed → Rose (faults self.old) (faults self.new) };

    /// Puts an ask, and waits for the answer to it.
    fn put(&mut self, alloc: Global, ask: &Ask) -> Result<Said<J>, DeskError>
        requires built { unbuilt_of ask.now.op ≡ None }
        ensures his { IfOk result (λ said. said.answer.number ≡ ask.now.number) }
        ensures asked { IsTrue told → OnOk result (asked self.new ≡ asked self.old ++ ask.now ∷ []) }
        ensures later { faults self.old ≤ faults self.new }
        ensures cause { IsErrOf result DeskFailed → Rose (faults self.old) (faults self.new) };
}

/// The desk of a worker over what threads share.
#[derive(Drop)]
pub struct HubDesk<J: Naming, H> {
    rt: H,
    shared: Arc<Shared<J>, Global>,
    slot: Arc<Slot<J>, Global>,
    pub faults: u64,
}

impl<J: Naming, H> HubDesk<J, H> {
    pub fn new(rt: H, shared: Arc<Shared<J>, Global>, slot: Arc<Slot<J>, Global>) -> HubDesk<J, H> {
        HubDesk {
            rt,
            shared,
            slot,
            faults: 0,
        }
    }
}

impl<J: Naming, H: Wait> Desk<J> for HubDesk<J, H> {
    ghost use Rattle.std.specs.Prelude.{false, []};

    ghost told = { false };

    ghost asked = { λ _. [] };

    ghost faults = { λ desk. desk.faults };

    fn number(&mut self) -> Result<u64, DeskError> {
        match number(&self.rt, &*self.shared) {
            Some(number) => Ok(number),
            None => {
                self.faults = self.faults.saturating_add(1);
                Err(DeskError::Failed)
            }
        }
    }

    fn put(&mut self, alloc: Global, ask: &Ask) -> Result<Said<J>, DeskError> {
        let Ok(wanted) = Wanted::new(alloc, &ask.op) else {
            return Err(DeskError::NoMemory);
        };
        match put(&self.rt, &*self.shared, &self.slot, ask.number, wanted) {
            Ok(said) => Ok(said),
            Err(DeskError::NoMemory) => Err(DeskError::NoMemory),
            Err(DeskError::Failed) => {
                self.faults = self.faults.saturating_add(1);
                Err(DeskError::Failed)
            }
        }
    }
}
