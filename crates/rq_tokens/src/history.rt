//! A history, and tokens that know a beginning of it.
ghost use Rattle.std.specs.Prelude.{◌≡◌, ◌+◌, ◌==◌, ◌<◌, ◌^◌, ◌++◌, ◌∷◌, [], length, IsTrue, None};
ghost use Rattle.rq_tokens.specs.Rules.{head_of};

use crate::law::{Add, Law, Nothing};
use logbook::{Offer, Seen, Start, Word};

/// The word by which a history grows: its length.
#[derive(Drop)]
pub struct History<T> {
    pub head: Word<T, u64, Law>,
    ghost head_is: { head ≡ head_of head.book },
}

/// What is known of a history: a beginning of it. `number` is its length.
#[derive(Drop)]
pub struct Known<T> {
    pub number: u64,
    pub seen: Seen<T, u64, Law>,
    ghost counted: { number ≡ length seen.log },
    ghost alone: { seen.names ≡ [] },
}

/// An entry that is to be added. It has no bytes.
#[derive(Drop)]
pub struct Planned<T> {
    pub offer: Offer<T, u64, Law, Nothing>,
    ghost plain: { (offer.names ≡ []) × (offer.state ≡ None) },
}

/// A new history, which is empty.
pub fn new_history<T>() -> (History<T>, Known<T>)
    ensures { (result.1.seen.log ≡ []) × (result.1.seen.book ≡ result.0.head.book) }
{
    let (seen, mut first, _second) = Seen::open(Start::alone(), 0, 0);
    (
        History {
            head: Word::tracked(0, &mut first),
        },
        Known { number: 0, seen },
    )
}

impl<T> Known<T> {
    /// A copy.
    pub fn again(&self) -> Known<T>
        ensures { result ≡ self.now }
    {
        Known {
            number: self.number,
            seen: self.seen.again(),
        }
    }

    /// What is to be added, so that the entry may go elsewhere before it is.
    pub fn plan(&self, entry: &T) -> Planned<T>
        ensures { result.offer.ask ≡ entry.now }
    {
        Planned {
            offer: self.seen.plain::<Nothing, T, Add>(entry),
        }
    }

    /// Adds what was planned, and says whether it did. It did not where the history is longer than was known.
    pub fn add(&mut self, history: &History<T>, planned: Planned<T>) -> bool
        requires book { self.old.seen.book ≡ history.now.head.book }
        requires room { length self.old.seen.log < 2 ^ 62 }
        ensures log { IsTrue result → self.new.seen.log ≡ self.old.seen.log ++ planned.offer.ask ∷ [] }
        ensures same { self.new.seen.book ≡ self.old.seen.book }
    {
        let Planned { mut offer } = planned;
        let mut pen = self.seen.no_pen();
        let old = self.number;
        let found = history
            .head
            .compare_exchange::<Add, Nothing>(old, old + 1, &mut self.seen, &mut offer, &mut pen);
        self.number = if found == old { old + 1 } else { found };
        found == old
    }
}
