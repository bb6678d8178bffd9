//! What is proved of asks. The law is the contract of a function that does nothing.
ghost use Rattle.std.specs.Prelude.{◌≡◌, ℕ, List, true};
ghost use Rattle.rq_request.specs.declared.ask.Ask.{Ask};
ghost use Rattle.rq_asking.specs.declared.reading.Requested.{Requested};
ghost use Rattle.rq_asking.specs.Asked.{IsAsk};

use rq_preparing::each_text_is_prepared_once;

/// A request with its target, its number, the words to come and the moment has one ask, and takes one list of words.
pub fn each_request_has_one_ask()
    ensures ask { (r : Requested) (target : List ℕ) (number moment : ℕ) (old one two : List ℕ) (ask other : Ask) → IsAsk true r target number moment old one ask → IsAsk true r target number moment old two other → ask ≡ other }
    ensures rest { (r : Requested) (target : List ℕ) (number moment : ℕ) (old one two : List ℕ) (ask other : Ask) → IsAsk true r target number moment old one ask → IsAsk true r target number moment old two other → one ≡ two }
{
    each_text_is_prepared_once();
}
