//! Examples that compute: what the machine reads, and where it stops. A place counts the tokens before it.

ghost use Rattle.std.specs.Prelude.{◌≡◌, Ok, Err};
ghost use Rattle.rq_automaton.specs.Machine.{parse, Start};
ghost use Rattle.rq_automaton.specs.Examples.{selecting, selects, two_minuses, left_first, sum_of_product, tightest_first, signs, minus_of_literal, plus_not, sum_behind_list};

/// `1 - 2 - 3`, `1 + 2 * 3 = 7` and `- - 5`.
#[tactic(auto, using(crate::proofs::Computed::left, crate::proofs::Computed::tightest, crate::proofs::Computed::signed))]
pub fn operators_bind()
    ensures left_first { parse Start (selecting two_minuses) ≡ Ok (selects left_first) }
    ensures tightest_first { parse Start (selecting sum_of_product) ≡ Ok (selects tightest_first) }
    ensures signs { parse Start (selecting signs) ≡ Ok (selects minus_of_literal) }
{}

/// `+ NOT 1` is refused at NOT, and `1 IN (2) + 3` at `+`.
#[tactic(auto, using(crate::proofs::Computed::no_not, crate::proofs::Computed::no_sum))]
pub fn looser_operators_are_refused()
    ensures not { parse Start (selecting plus_not) ≡ Err 2 }
    ensures plus { parse Start (selecting sum_behind_list) ≡ Err 6 }
{}
