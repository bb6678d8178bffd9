//! The two clocks of the system.
ghost use Rattle.std.specs.Prelude.{◌≡◌};

use crate::counting::{Faults, SystemFault, told};
use rq_outside::{Clock, Failed};
use std::time;
use std::time::Duration;

/// A time in milliseconds. One that is too long for 64 bits is the longest.
fn milliseconds(time: Duration) -> u64 {
    time.as_secs()
        .saturating_mul(1000)
        .saturating_add(u64::from(time.subsec_millis()))
}

/// Milliseconds since some start, by the clock that is never set: whoever sets the time of day moves no deadline.
#[derive(Drop)]
pub struct SteadyClock<R> {
    rt: R,
    pub faults: Faults,
}

impl<R> SteadyClock<R> {
    pub fn new(rt: R) -> SteadyClock<R>
        ensures { result.faults.count ≡ 0 }
    {
        SteadyClock {
            rt,
            faults: Faults::none(),
        }
    }
}

impl<R: time::Clock> Clock for SteadyClock<R> {
    ghost faults = { λ s. s.faults.count };

    type Fault = SystemFault;

    fn fault(&self) -> Option<SystemFault> {
        self.faults.first()
    }

    fn moment(&mut self) -> Result<u64, Failed> {
        match self.faults.counted(told(self.rt.monotonic())) {
            Ok(time) => Ok(milliseconds(time)),
            Err(Failed) => Err(Failed),
        }
    }
}

/// Milliseconds since 1970, by the clock that tells the time of day and may be set.
#[derive(Drop)]
pub struct WallClock<R> {
    rt: R,
    pub faults: Faults,
}

impl<R> WallClock<R> {
    pub fn new(rt: R) -> WallClock<R>
        ensures { result.faults.count ≡ 0 }
    {
        WallClock {
            rt,
            faults: Faults::none(),
        }
    }
}

impl<R: time::Clock> Clock for WallClock<R> {
    ghost faults = { λ s. s.faults.count };

    type Fault = SystemFault;

    fn fault(&self) -> Option<SystemFault> {
        self.faults.first()
    }

    fn moment(&mut self) -> Result<u64, Failed> {
        match self.faults.counted(told(self.rt.since_1970())) {
            Ok(time) => Ok(milliseconds(time)),
            Err(Failed) => Err(Failed),
        }
    }
}
