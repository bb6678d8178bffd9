//! What is proved of moments. The law is the contract of a function that does nothing.
ghost use Rattle.std.specs.Prelude.{◌≡◌, ℕ, Option};
ghost use Rattle.rq_moments.specs.declared.shown.Shown.{Shown};
ghost use Rattle.rq_moments.specs.Moment.{MayShow};

/// A moment shows one text of each kind.
pub fn each_moment_shows_one()
    ensures { (moment : ℕ) (t u : Option Shown) → MayShow moment t → MayShow moment u → t ≡ u }
{}
