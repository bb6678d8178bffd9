//! The laws of what commands say: contracts of functions that do no work.
ghost use Rattle.std.specs.Prelude.{◌≡◌, ℕ, List, All};
ghost use Rattle.rq_command.specs.Commands.{IsDecoded};
ghost use Rattle.rq_command.specs.Reading.{IsReadAs};
ghost use Rattle.rq_command.specs.Stored.{IsReadable};
ghost use Rattle.rq_command.specs.Whole.{Decodes};

use rq_canonical::{settled_text_is_read, what_is_read_is_proper};
use rq_sql::each_text_has_one_answer;
use rq_statement::{Item, know_items};

/// Each text is read as one item.
#[tactic(auto, using(crate::proofs::Statements::some_item, crate::proofs::Statements::one_item))]
pub fn each_text_is_read_as_one()
    ensures some { (text : List ℕ) → (item : _) × IsReadAs text item }
    ensures one { (text : List ℕ) (item other : _) → IsReadAs text item → IsReadAs text other → item ≡ other }
{
    each_text_has_one_answer();
    what_is_read_is_proper();
}

/// Each input has one answer.
#[tactic(auto, using(crate::proofs::Told::some_answer, crate::proofs::Told::one_answer))]
pub fn each_command_has_one_answer()
    ensures some { (limit : ℕ) (bytes : List ℕ) → (answer : _) × Decodes limit bytes answer }
    ensures one { (limit : ℕ) (bytes : List ℕ) (answer other : _) → Decodes limit bytes answer → Decodes limit bytes other → answer ≡ other }
{
    each_text_is_read_as_one();
}

/// Each input has one answer, whatever kind of command it spells.
#[tactic(auto, using(crate::proofs::AnyCommand::some_command, crate::proofs::AnyCommand::one_command))]
pub fn each_input_is_decoded_as_one()
    ensures some { (limit : ℕ) (bytes : List ℕ) → (answer : _) × IsDecoded limit bytes answer }
    ensures one { (limit : ℕ) (bytes : List ℕ) (answer other : _) → IsDecoded limit bytes answer → IsDecoded limit bytes other → answer ≡ other }
{
    each_text_is_read_as_one();
}

/// Items in memory can be read again from the log. This changes nothing.
pub fn items_can_be_read(items: &[Item])
    ensures { All IsReadable items.now }
{
    settled_text_is_read();
    know_items(items);
}
