//! The numbers of asks.
ghost use Rattle.std.specs.Prelude.{◌≡◌, ◌≤◌, ◌+◌, ◌^◌, IfSome, IfNone};

/// So many asks are numbered.
const MOST: u64 = 1 << 62;

/// A number that has come to its end: 2^62 or more.
#[derive(Clone, Copy, Drop)]
pub struct Past {
    number: u64,
}

impl Past {
    pub fn number(&self) -> u64
        ensures { result ≡ self.now.number }
    {
        self.number
    }

    /// A number that has come to its end.
    pub(crate) fn of(number: u64) -> Past
        requires { 2 ^ 62 ≤ number }
        ensures { result.number ≡ number }
    {
        Past { number }
    }
}

/// How many asks were numbered.
#[derive(Drop)]
pub struct Numbers {
    pub given: u64,
}

impl Numbers {
    /// None was numbered.
    pub fn new() -> Numbers
        ensures { result.given ≡ 0 }
    {
        Numbers { given: 0 }
    }

    /// The next ask's number, from 1. None exactly where 2^62 were given.
    pub fn next(&mut self) -> Option<u64>
        ensures some { IfSome result (λ n. (n ≡ self.old.given + 1) × (self.new.given ≡ n)) }
        ensures none { IfNone result ((2 ^ 62 ≤ self.old.given) × (self.new.given ≡ self.old.given)) }
    {
        if self.given >= MOST {
            return None;
        }
        self.given += 1;
        Some(self.given)
    }

    /// Some exactly where no more numbers are given.
    pub fn past(&self) -> Option<Past>
        ensures some { IfSome result (λ past. (past.number ≡ self.now.given) × (2 ^ 62 ≤ past.number)) }
    {
        if self.given >= MOST {
            return Some(Past::of(self.given));
        }
        None
    }
}
