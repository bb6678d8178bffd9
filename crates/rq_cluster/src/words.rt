// The words of the command line.
ghost use Rattle.std.specs.Prelude.{◌≡◌, ◌⊎◌, List, ℕ, IfSome, IfNone, IfOk, Some, None};
ghost use Rattle.rq_outside.specs.Counts.{Rose};
ghost use Rattle.rq_cluster.specs.Outcome.{Took};
ghost use Rattle.rq_cluster.specs.LastLines.{stopped_word, LastLine};
ghost use Rattle.rq_cluster.specs.CommandWords.{wrong_word, is_cluster};

use crate::ending::last_line;
use rq_outside::{Sink, Word};
use std::alloc::{AllocError, Global};

fn cluster_is(word: &Word) -> bool
    ensures { result ≡ is_cluster word.now }
{
    word.bytes() == b"cluster".as_slice()
}

/// The place, from 1, of the first wrong or missing word, and that word.
pub fn first_wrong(words: &[Word]) -> Option<(u64, &[u8])>
    ensures some { IfSome result (λ p. wrong_word words.now ≡ Some (p.0, p.1.now)) }
    ensures none { IfNone result (wrong_word words.now ≡ None) }
{
    match words {
        [] => Some((1, b"".as_slice())),
        [first, rest @ ..] => {
            if !cluster_is(first) {
                return Some((1, first.bytes()));
            }
            match rest {
                [] => None,
                [second, ..] => Some((2, second.bytes())),
            }
        }
    }
}

fn refusal(alloc: Global, place: u64, word: &[u8]) -> Result<Vec<u8>, AllocError>
    ensures { IfOk result (λ line. line.items ≡ stopped_word place word.now) }
{
    let prefix = format!(in alloc; "stopped: word {place}: ")?;
    let mut line = Vec::from_slice(alloc, prefix.as_bytes())?;
    line.extend_from_slice(word)?;
    line.extend_from_slice(b"\n")?;
    Ok(line)
}

/// Writes that a word is wrong, and answers the status.
pub fn refuse<K: Sink>(alloc: Global, sink: &mut K, place: u64, word: &[u8]) -> u8
    ensures wrote { Took K.told (K.taken sink.old) (K.taken sink.new) (LastLine 2 (stopped_word place word.now) result) }
    ensures statuses { (result ≡ 2) ⊎ (result ≡ 5) ⊎ (result ≡ 6) }
    ensures cause { result ≡ 5 → Rose (K.faults sink.old) (K.faults sink.new) }
{
    match refusal(alloc, place, word) {
        Ok(line) => last_line(sink, &line, 2),
        Err(_) => 6,
    }
}
