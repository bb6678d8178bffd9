//! Random words, taken one after the other.
ghost use Rattle.std.specs.Prelude.{◌≡◌, ◌≤◌, ◌++◌, length, IsTrue, IfOk, IfErr, OnOk};
ghost use Rattle.rq_binding.specs.Settles as spec;

use crate::settling::SettleError;
use rq_outside::Draws;
use rq_values::{NoMemory, Seq};
use std::alloc::Global;

/// The next so many words.
pub fn draw<R: Draws>(alloc: Global, draws: &mut R, count: u64) -> Result<Seq<u64>, SettleError>
    ensures count { IfOk result (λ words. length words ≡ count) }
    ensures taken { IsTrue R.told → IfOk result (λ words. R.words draws.old ≡ words ++ R.words draws.new) }
    ensures took { IsTrue R.told → IfErr result (spec.DrawTook count (R.words draws.old) (R.words draws.new)) }
    ensures cause { IfErr result (spec.DrawFailed (R.faults draws.old) (R.faults draws.new)) }
    ensures later { R.faults draws.old ≤ R.faults draws.new }
    ensures ok { OnOk result (R.faults draws.new ≡ R.faults draws.old) }
{
    let mut words = Seq::new(alloc);
    for _turn in 0..count {
        match draws.word() {
            Ok(word) => words.push(word)?,
            Err(_) => {
                drop(words);
                return Err(SettleError::Draws);
            }
        }
    }
    Ok(words)
}
