// Draws of stated words.
ghost use Rattle.std.specs.Prelude.{◌≡◌, ◌⊎◌, ◌∷◌, ◌+◌, ◌-◌, ◌^◌, [], min, false, Ok, IsTrue, IfOk, OnOk, OnErr};
ghost use Rattle.rq_outside.specs.Counts.{HasCause};
ghost use Rattle.rq_outside.specs.Scripts.{words_of, strikes_next, next_of, GoesOn, Begins};

use super::faults::Faults;
use super::script::Script;
use crate::draws::Draws;
use crate::error::Failed;

/// Draws that give stated words in order, and fail at stated calls and past their words.
#[derive(Drop)]
pub struct ScriptDraws {
    words: Script,
    faults: Faults,
}

impl ScriptDraws {
    pub fn new(words: Vec<u64>, fails: Vec<u64>) -> ScriptDraws
        ensures words { words_of result ≡ words.items }
        ensures fails { result.faults.stated.items ≡ fails.items }
        ensures calls { result.faults.calls ≡ 0 }
        ensures faults { result.faults.count ≡ 0 }
    {
        ScriptDraws {
            words: Script::new(words),
            faults: Faults::new(fails),
        }
    }
}

impl Draws for ScriptDraws {
    ghost use Rattle.std.specs.Prelude.{true};
    ghost use Rattle.rq_outside.specs.Scripts.{words_of};

    ghost told = { true };

    ghost words = { words_of };

    ghost faults = { λ draws. draws.faults.count };

    type Fault = ();

    fn fault(&self) -> Option<()> {
        self.faults.first()
    }

    fn word(&mut self) -> Result<u64, Failed>
        ensures first { IfOk result (λ word. words_of self.old ≡ word ∷ words_of self.new) }
        ensures failed { OnErr result (words_of self.new ≡ words_of self.old) }
        ensures refused { OnErr result (IsTrue (strikes_next self.old.faults) ⊎ (words_of self.old ≡ [])) }
        ensures struck { OnOk result (strikes_next self.old.faults ≡ false) }
        ensures counted { self.new.faults.calls ≡ min (self.old.faults.calls + 1) (2 ^ 64 - 1) }
        ensures same { self.new.faults.stated.items ≡ self.old.faults.stated.items }
        ensures cause { HasCause self.old.faults.count self.new.faults.count result }
    {
        if self.faults.strikes() {
            return Err(Failed);
        }
        let Some(word) = self.words.take() else {
            self.faults.raise();
            return Err(Failed);
        };
        Ok(word)
    }
}

/// Draws that never fail: past their words they give the last of them again, 0 where there is none. They tell no words
/// to come.
#[derive(Drop)]
pub struct SureDraws {
    words: Script,
}

impl SureDraws {
    pub fn new(words: Vec<u64>) -> SureDraws
        ensures { Begins words.items result.words }
    {
        SureDraws {
            words: Script::new(words),
        }
    }
}

impl Draws for SureDraws {
    ghost use Rattle.std.specs.Prelude.{false, []};

    ghost told = { false };

    ghost words = { λ _. [] };

    ghost faults = { λ _. 0 };

    type Fault = ();

    fn fault(&self) -> Option<()> {
        None
    }

    fn word(&mut self) -> Result<u64, Failed>
        ensures number { result ≡ Ok (next_of self.old.words) }
        ensures goes_on { GoesOn self.old.words self.new.words }
        ensures cause { HasCause 0 0 result }
    {
        match self.words.take() {
            Some(word) => Ok(word),
            None => Ok(self.words.last()),
        }
    }
}
