// The calls of a fake that are to fail.
ghost use Rattle.std.specs.Prelude.{◌≡◌, ◌≢◌, ◌≤◌, ◌+◌, ◌-◌, ◌^◌, ℕ, min, true, IsNone, ◌↔◌};
ghost use Rattle.rq_outside.specs.Counts.{Rose};

/// The numbers, from 1, of the calls that are to fail, and how many were made and have failed so far.
#[derive(Drop)]
pub struct Faults {
    stated: Vec<u64>,
    calls: u64,
    count: u64,
}

impl Faults {
    ghost use Rattle.rq_outside.specs.Scripts.{strikes_next, first_fault_of};

    pub fn new(stated: Vec<u64>) -> Faults
        ensures stated { result.stated.items ≡ stated.items }
        ensures calls { result.calls ≡ 0 }
        ensures count { result.count ≡ 0 }
    {
        Faults {
            stated,
            calls: 0,
            count: 0,
        }
    }

    /// Counts a call, and tells whether it is to fail.
    pub fn strikes(&mut self) -> bool
        ensures stated { result ≡ strikes_next self.old }
        ensures counted { self.new.calls ≡ min (self.old.calls + 1) (2 ^ 64 - 1) }
        ensures same { self.new.stated.items ≡ self.old.stated.items }
        ensures struck { result ≡ true → Rose self.old.count self.new.count }
        ensures passed { result ≢ true → self.new.count ≡ self.old.count }
        ensures later { self.old.count ≤ self.new.count }
    {
        self.calls = self.calls.saturating_add(1);
        let now = self.calls;
        if self.stated.contains(&now) {
            self.raise();
            return true;
        }
        false
    }

    /// Counts a fault.
    pub fn raise(&mut self)
        ensures counted { self.new.calls ≡ self.old.calls }
        ensures same { self.new.stated.items ≡ self.old.stated.items }
        ensures rose { Rose self.old.count self.new.count }
        ensures later { self.old.count ≤ self.new.count }
    {
        self.count = self.count.saturating_add(1);
    }

    /// Whether there was one.
    pub fn first(&self) -> Option<()>
        ensures first { result ≡ first_fault_of self.now }
        ensures none { IsNone result ↔ (self.now.count ≡ 0) }
    {
        if self.count == 0 { None } else { Some(()) }
    }
}
