//! The rule of the history, and its one step.
use logbook::{Gain, Plain, Play, Rule};

/// The rule of the book.
pub struct Law;

impl<T> Rule<T, u64> for Law {
    ghost use Rattle.std.specs.Prelude.{[]};
    ghost use base.Fml.{ftrue};
    ghost use Rattle.rq_tokens.specs.Rules.{IsKept};

    ghost holds = { λ cells log. IsKept cells log };

    ghost first = { [] };

    ghost hinted = { λ n log. Unit {0} };

    ghost shows = { λ log. [] };

    ghost keeps = { λ names log. ftrue };

    ghost moves = { λ ask before after answer. Unit {0} };
}

/// Callers trade nothing.
pub struct Nothing;

impl<T> Gain<T, u64> for Nothing {
    ghost use base.Fml.{ftrue};

    ghost after = { λ names about answer. ftrue };
}

/// A step that adds an entry.
pub struct Add;

impl<T> Play<T, u64> for Add {
    ghost use Rattle.rq_tokens.specs.Rules.{Adds};

    ghost then = { Adds };
}

/// What a step asks for: the entry.
impl<T> Plain<T, T, u64> for Add {
    ghost use Rattle.std.specs.Prelude.{None};

    ghost ask = { λ entry. entry };

    ghost state = { λ entry. None };
}
