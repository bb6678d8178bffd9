//! Random words.
use rand_chacha::ChaCha20Rng;
use rand_core::SeedableRng;
use rand_core::utils::next_u64_via_u32;
use rq_outside::{Draws, Failed};
use std::random::RandomSource;

/// The words of a generator. They never fail, and it tells none of them.
#[derive(Drop)]
pub struct RandomWords {
    generator: ChaCha20Rng,
}

impl RandomWords {
    /// The words of this seed.
    pub fn new(seed: [u8; 32]) -> RandomWords {
        RandomWords {
            generator: ChaCha20Rng::from_seed(seed),
        }
    }
}

impl Draws for RandomWords {
    ghost use Rattle.std.specs.Prelude.{false, []};

    ghost told = { false };

    ghost words = { λ _. [] };

    ghost faults = { λ _. 0 };

    type Fault = ();

    fn fault(&self) -> Option<()> {
        None
    }

    fn word(&mut self) -> Result<u64, Failed> {
        Ok(next_u64_via_u32(&mut self.generator))
    }
}

/// A seed from the system's random source, None where it gives none.
pub fn system_seed<R: RandomSource>(rt: &R) -> Option<[u8; 32]> {
    let mut seed = [0; 32];
    match rt.fill_bytes(&mut seed) {
        Ok(()) => Some(seed),
        Err(_) => None,
    }
}
