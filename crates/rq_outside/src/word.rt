// A word of the command line.
ghost use Rattle.std.specs.Prelude.{◌≡◌, IfOk};

use rq_values::NoMemory;
use std::alloc::Global;
use std::marker::Model;

/// One word of the command line, seen as its bytes.
#[derive(Debug, Drop)]
pub struct Word {
    bytes: Vec<u8>,
}

impl Model for Word {
    ghost use Rattle.std.specs.Prelude.{List, ℕ};

    ghost Value = { List ℕ };

    ghost view = { λ word. word.bytes.items };
}

impl Word {
    /// The word with these bytes.
    pub fn new(alloc: Global, bytes: &[u8]) -> Result<Word, NoMemory>
        ensures { IfOk result (λ word. word ≡ bytes.now) }
    {
        match bytes.to_vec(alloc) {
            Ok(bytes) => Ok(Word { bytes }),
            Err(_) => Err(NoMemory),
        }
    }

    /// Its bytes.
    pub fn bytes(&self) -> &[u8]
        ensures { result.now ≡ self.now }
    {
        &self.bytes
    }
}
