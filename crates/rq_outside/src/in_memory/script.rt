// Numbers that a fake gives in order.
ghost use Rattle.std.specs.Prelude.{◌≡◌, ◌∷◌, ◌≤◌, ◌<◌, ◌+◌, ◌-◌, length, drop, slice_index, MatchOption, IfSome};

#[derive(Drop)]
pub struct Script {
    numbers: Vec<u64>,
    given: usize,
    ghost within: { given ≤ length numbers.items },
}

impl Script {
    pub fn new(numbers: Vec<u64>) -> Script
        ensures numbers { result.numbers.items ≡ numbers.items }
        ensures given { result.given ≡ 0 }
    {
        Script { numbers, given: 0 }
    }

    /// The first number to come, and none past the last.
    pub fn take(&mut self) -> Option<u64>
        ensures numbers { self.new.numbers.items ≡ self.old.numbers.items }
        ensures place { MatchOption result ((self.new ≡ self.old) × (length self.old.numbers.items ≤ self.old.given)) (λ number. (self.old.given < length self.old.numbers.items) × (number ≡ slice_index self.old.numbers.items self.old.given) × (self.new.given ≡ self.old.given + 1)) }
        ensures taken { IfSome result (λ number. drop self.old.given self.old.numbers.items ≡ number ∷ drop self.new.given self.new.numbers.items) }
    {
        if self.given >= self.numbers.len() {
            return None;
        }
        let number = self.numbers[self.given];
        self.given += 1;
        Some(number)
    }

    /// The last number of all, 0 where there is none.
    pub fn last(&self) -> u64
        ensures { result ≡ slice_index self.now.numbers.items (length self.now.numbers.items - 1) }
    {
        match self.numbers.last() {
            Some(number) => *number,
            None => 0,
        }
    }
}
