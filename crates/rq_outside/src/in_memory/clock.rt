// Clocks of stated moments.
ghost use Rattle.std.specs.Prelude.{◌≡◌, ◌⊎◌, ◌∷◌, ◌+◌, ◌-◌, ◌^◌, [], min, false, Ok, IsTrue, IfOk, OnOk, OnErr};
ghost use Rattle.rq_outside.specs.Counts.{HasCause};
ghost use Rattle.rq_outside.specs.Scripts.{moments_of, strikes_next, next_of, GoesOn, Begins};

use super::faults::Faults;
use super::script::Script;
use crate::clock::Clock;
use crate::error::Failed;

/// A clock that gives stated moments in order, and fails at stated calls and past its moments.
#[derive(Drop)]
pub struct ScriptClock {
    moments: Script,
    faults: Faults,
}

impl ScriptClock {
    pub fn new(moments: Vec<u64>, fails: Vec<u64>) -> ScriptClock
        ensures moments { moments_of result ≡ moments.items }
        ensures fails { result.faults.stated.items ≡ fails.items }
        ensures calls { result.faults.calls ≡ 0 }
        ensures faults { result.faults.count ≡ 0 }
    {
        ScriptClock {
            moments: Script::new(moments),
            faults: Faults::new(fails),
        }
    }
}

impl Clock for ScriptClock {
    ghost faults = { λ clock. clock.faults.count };

    type Fault = ();

    fn fault(&self) -> Option<()> {
        self.faults.first()
    }

    fn moment(&mut self) -> Result<u64, Failed>
        ensures first { IfOk result (λ moment. moments_of self.old ≡ moment ∷ moments_of self.new) }
        ensures failed { OnErr result (moments_of self.new ≡ moments_of self.old) }
        ensures refused { OnErr result (IsTrue (strikes_next self.old.faults) ⊎ (moments_of self.old ≡ [])) }
        ensures struck { OnOk result (strikes_next self.old.faults ≡ false) }
        ensures counted { self.new.faults.calls ≡ min (self.old.faults.calls + 1) (2 ^ 64 - 1) }
        ensures same { self.new.faults.stated.items ≡ self.old.faults.stated.items }
        ensures cause { HasCause self.old.faults.count self.new.faults.count result }
    {
        if self.faults.strikes() {
            return Err(Failed);
        }
        let Some(moment) = self.moments.take() else {
            self.faults.raise();
            return Err(Failed);
        };
        Ok(moment)
    }
}

/// A clock that never fails: past its moments it gives the last of them again, 0 where there is none.
#[derive(Drop)]
pub struct SureClock {
    moments: Script,
}

impl SureClock {
    pub fn new(moments: Vec<u64>) -> SureClock
        ensures { Begins moments.items result.moments }
    {
        SureClock {
            moments: Script::new(moments),
        }
    }
}

impl Clock for SureClock {
    ghost faults = { λ _. 0 };

    type Fault = ();

    fn fault(&self) -> Option<()> {
        None
    }

    fn moment(&mut self) -> Result<u64, Failed>
        ensures number { result ≡ Ok (next_of self.old.moments) }
        ensures goes_on { GoesOn self.old.moments self.new.moments }
        ensures cause { HasCause 0 0 result }
    {
        match self.moments.take() {
            Some(moment) => Ok(moment),
            None => Ok(self.moments.last()),
        }
    }
}
