//! Who waits for an answer of the hub.
use crate::slot::{DeskError, Slot};
use rq_hub::{Naming, Outputs, Said};
use std::alloc::Global;
use std::sync::{Arc, Wait};

/// A thread that waits for the answer to the ask of this number.
#[derive(Drop)]
struct Waiter<J: Naming> {
    number: u64,
    slot: Arc<Slot<J>, Global>,
}

/// Who waits for an answer of the hub.
#[derive(Drop)]
pub struct Waiters<J: Naming> {
    waiters: Vec<Waiter<J>>,
}

impl<J: Naming> Waiters<J> {
    /// Nobody waits.
    pub fn new(alloc: Global) -> Waiters<J> {
        Waiters {
            waiters: Vec::new(alloc),
        }
    }

    /// From now on the answer to this number goes to this slot. Where memory is wanting, it is told so.
    pub fn add<W: Wait>(&mut self, rt: &W, number: u64, slot: Arc<Slot<J>, Global>) -> bool {
        if self.waiters.reserve(1).is_err() {
            slot.fail(rt, number, DeskError::NoMemory);
            drop(slot);
            return false;
        }
        self.waiters.push_reserved(Waiter { number, slot });
        true
    }

    /// Who waits for the answer to this number waits no more.
    fn remove(&mut self, number: u64) -> Option<Waiter<J>> {
        let at = self
            .waiters
            .iter()
            .position(|waiter| waiter.number == number)?;
        Some(self.waiters.swap_remove(at))
    }

    /// Hands over an answer.
    fn post<W: Wait>(&mut self, rt: &W, said: Said<J>) {
        match self.remove(said.number()) {
            Some(waiter) => {
                waiter.slot.post(rt, said);
                drop(waiter);
            }
            None => drop(said),
        }
    }

    /// Hands over the answers.
    pub fn post_all<W: Wait>(&mut self, rt: &W, outputs: Outputs<J>) {
        let mut outputs = outputs;
        for _ in rt.forever() {
            match outputs.next() {
                Some(said) => self.post(rt, said),
                None => break,
            }
        }
    }

    /// Says why there is no answer to the ask of this number.
    pub fn fail<W: Wait>(&mut self, rt: &W, number: u64, error: DeskError) {
        if let Some(waiter) = self.remove(number) {
            waiter.slot.fail(rt, number, error);
            drop(waiter);
        }
    }

    /// Says to all that wait that the program ends.
    pub fn fail_all<W: Wait>(&mut self, rt: &W) {
        for _ in rt.forever() {
            let Some(waiter) = self.waiters.pop() else {
                break;
            };
            waiter.slot.fail(rt, waiter.number, DeskError::Failed);
            drop(waiter);
        }
    }
}
