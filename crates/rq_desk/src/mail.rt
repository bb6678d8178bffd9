//! What lies under the lock: the asks that were put and not yet taken up.
use crate::slot::Slot;
use crate::wanted::Wanted;
use rq_hub::{Naming, Numbers};
use std::alloc::Global;
use std::sync::{Arc, Condvar, Mutex};

/// An ask that was put, with who waits for its answer.
#[derive(Drop)]
pub struct Put<J: Naming> {
    pub number: u64,
    pub wanted: Wanted,
    pub slot: Arc<Slot<J>, Global>,
}

/// The asks that were put and not yet taken up.
#[derive(Drop)]
pub struct Mail<J: Naming> {
    pub numbers: Numbers,
    pub puts: Vec<Put<J>>,
    pub closed: bool,
}

/// What threads share.
#[derive(Drop)]
pub struct Shared<J: Naming> {
    pub mail: Mutex<Mail<J>>,
    pub arrived: Condvar,
}

impl<J: Naming> Shared<J> {
    /// Nothing was put.
    pub fn new(alloc: Global) -> Shared<J> {
        Shared {
            mail: Mutex::new(Mail {
                numbers: Numbers::new(),
                puts: Vec::new(alloc),
                closed: false,
            }),
            arrived: Condvar::new(),
        }
    }
}
