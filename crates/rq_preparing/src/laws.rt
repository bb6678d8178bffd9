//! What is proved of prepared texts. The law is the contract of a function that does nothing.
ghost use Rattle.std.specs.Prelude.{◌≡◌, ℕ, List, true};
ghost use Rattle.rq_request.specs.declared.statement.Params.{Params};
ghost use Rattle.rq_statement.specs.declared.item.Item.{Item};
ghost use Rattle.rq_preparing.specs.Prepared.{IsPrepared};

use rq_binding::each_settling_is_one;
use rq_sql::each_text_has_one_answer;

/// A text with what is given for its parameters, the words to come and the moment is prepared as one item, and takes one
/// list of words.
pub fn each_text_is_prepared_once()
    ensures item { (text : List ℕ) (params : Params) (moment : ℕ) (old one two : List ℕ) (item other : Item) → IsPrepared true text params moment old one item → IsPrepared true text params moment old two other → item ≡ other }
    ensures rest { (text : List ℕ) (params : Params) (moment : ℕ) (old one two : List ℕ) (item other : Item) → IsPrepared true text params moment old one item → IsPrepared true text params moment old two other → one ≡ two }
{
    each_text_has_one_answer();
    each_settling_is_one();
}
