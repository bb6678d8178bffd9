//! Texts of given words.

ghost use Rattle.std.specs.Prelude.{◌≡◌, true, IfOk};
ghost use Rattle.rq_values.specs.Text.{is_plain};

use rq_values::{NoMemory, Text};
use std::alloc::Global;

/// A text of these words.
pub fn plain_text(alloc: Global, plain: &[u8]) -> Result<Text, NoMemory>
    requires { is_plain plain.now ≡ true }
    ensures { IfOk result (λ text. text ≡ plain.now) }
{
    let mut text = Text::empty(alloc);
    match text.push_plain(plain) {
        Ok(()) => Ok(text),
        Err(e) => {
            drop(text);
            Err(e)
        }
    }
}
