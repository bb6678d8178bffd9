//! The port of a worker.
ghost use Rattle.std.specs.Prelude.{◌≡◌};

use crate::answering::answer_request;
use crate::desk::Desk;
use rq_http::{Port, Reply};
use rq_hub::Naming;
use rq_outside::{Clock, Draws, Failed};
use rq_system::RandomWords;
use std::alloc::Global;
use std::marker::PhantomData;

/// Answers the requests of one connection. Each has random words of its own, whose seed is drawn.
#[derive(Drop)]
pub struct WorkerPort<J: Naming, Q: Desk<J> + Drop, R: Draws + Drop, C: Clock + Drop> {
    desk: Q,
    draws: R,
    clock: C,
    pub faults: u64,
    of: PhantomData<J>,
}

impl<J: Naming, Q: Desk<J> + Drop, R: Draws + Drop, C: Clock + Drop> WorkerPort<J, Q, R, C> {
    pub fn new(desk: Q, draws: R, clock: C) -> WorkerPort<J, Q, R, C> {
        WorkerPort {
            desk,
            draws,
            clock,
            faults: 0,
            of: PhantomData,
        }
    }
}

/// The seed of these words.
fn seed_of(one: u64, two: u64, three: u64, four: u64) -> [u8; 32] {
    let mut seed = [0; 32];
    seed[..8].copy_from_slice(&one.to_le_bytes());
    seed[8..16].copy_from_slice(&two.to_le_bytes());
    seed[16..24].copy_from_slice(&three.to_le_bytes());
    seed[24..].copy_from_slice(&four.to_le_bytes());
    seed
}

impl<J: Naming, Q: Desk<J> + Drop, R: Draws + Drop, C: Clock + Drop> Port
    for WorkerPort<J, Q, R, C> {
    ghost use Rattle.std.specs.Prelude.{false, []};

    ghost told = { false };

    ghost asked = { λ _. [] };

    ghost faults = { λ port. port.faults };

    fn ask(
        &mut self,
        alloc: Global,
        method: &[u8],
        target: &[u8],
        body: &[u8],
    ) -> Result<Reply, Failed> {
        let (Ok(moment), Ok(one), Ok(two), Ok(three), Ok(four)) = (
            self.clock.moment(),
            self.draws.word(),
            self.draws.word(),
            self.draws.word(),
            self.draws.word(),
        ) else {
            self.faults = self.faults.saturating_add(1);
            return Err(Failed);
        };
        let mut words = RandomWords::new(seed_of(one, two, three, four));
        match answer_request(
            alloc,
            &mut self.desk,
            &mut words,
            moment,
            method,
            target,
            body,
        ) {
            Ok(reply) => Ok(reply),
            Err(_) => {
                self.faults = self.faults.saturating_add(1);
                Err(Failed)
            }
        }
    }
}
