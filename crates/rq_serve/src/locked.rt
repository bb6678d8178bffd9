//! The one clock and the one source of random words, each locked for a call.
ghost use Rattle.std.specs.Prelude.{◌≡◌, ◌↔◌, IsNone, is_some, nat_lt};

use rq_outside::{Clock, Draws, Failed};
use std::alloc::Global;
use std::sync::{Arc, Mutex, Wait};

/// A clock that several threads read.
#[derive(Drop)]
pub struct LockedClock<C: Clock, H> {
    rt: H,
    clock: Arc<Mutex<C>, Global>,
    faults: u64,
    first: Option<C::Fault>,
    ghost same: { is_some first ≡ nat_lt 0 faults },
}

impl<C: Clock, H> LockedClock<C, H> {
    pub fn new(rt: H, clock: Arc<Mutex<C>, Global>) -> LockedClock<C, H> {
        LockedClock {
            rt,
            clock,
            faults: 0,
            first: None,
        }
    }
}

impl<C: Clock, H: Wait> Clock for LockedClock<C, H> {
    ghost faults = { λ s. s.faults };

    type Fault = C::Fault;

    fn fault(&self) -> Option<C::Fault> {
        self.first
    }

    fn moment(&mut self) -> Result<u64, Failed> {
        let mut clock = self.clock.lock(&self.rt);
        match clock.moment() {
            Ok(moment) => Ok(moment),
            Err(Failed) => match clock.fault() {
                Some(fault) => {
                    self.first = Some(fault);
                    self.faults = self.faults.saturating_add(1);
                    Err(Failed)
                }
                None => unreachable!(),
            },
        }
    }
}

/// Random words that several threads take.
#[derive(Drop)]
pub struct LockedDraws<R: Draws, H> {
    rt: H,
    draws: Arc<Mutex<R>, Global>,
    faults: u64,
    first: Option<R::Fault>,
    ghost same: { is_some first ≡ nat_lt 0 faults },
}

impl<R: Draws, H> LockedDraws<R, H> {
    pub fn new(rt: H, draws: Arc<Mutex<R>, Global>) -> LockedDraws<R, H> {
        LockedDraws {
            rt,
            draws,
            faults: 0,
            first: None,
        }
    }
}

impl<R: Draws, H: Wait> Draws for LockedDraws<R, H> {
    ghost use Rattle.std.specs.Prelude.{false, []};

    ghost told = { false };

    ghost words = { λ _. [] };

    ghost faults = { λ s. s.faults };

    type Fault = R::Fault;

    fn fault(&self) -> Option<R::Fault> {
        self.first
    }

    fn word(&mut self) -> Result<u64, Failed> {
        let mut draws = self.draws.lock(&self.rt);
        match draws.word() {
            Ok(word) => Ok(word),
            Err(Failed) => match draws.fault() {
                Some(fault) => {
                    self.first = Some(fault);
                    self.faults = self.faults.saturating_add(1);
                    Err(Failed)
                }
                None => unreachable!(),
            },
        }
    }
}
