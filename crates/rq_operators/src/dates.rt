//! DATE, TIME and DATETIME of a time text.

ghost use Rattle.std.specs.Prelude.{◌≡◌, IsTrue, IfOk};
ghost use Rattle.rq_operators.specs.Outcome as outcome;
ghost use Rattle.rq_operators.specs.Texts as texts;
ghost use Rattle.rq_texts.specs.TimeText.{is_time_text};
ghost use Rattle.rq_operators.specs.declared.operators.TimePart.TheVariants as part;

use crate::error::{OperatorError, ValueError};
use crate::operators::TimePart;
use crate::texts::text_value;
use rq_texts::{date_text, date_time_text, is_time_text, time_text};
use rq_values::{NoMemory, Text, Value};
use std::alloc::Global;

fn part_of(alloc: Global, part: TimePart, text: &Text) -> Result<Text, NoMemory>
    requires { IsTrue (is_time_text text.now) }
    ensures { IfOk result (λ t. t ≡ texts.part_of part text.now) }
{
    match part {
        TimePart::Date => date_text(alloc, text),
        TimePart::Time => time_text(alloc, text),
        TimePart::DateTime => date_time_text(alloc, text),
    }
}

/// DATE, TIME and DATETIME
pub fn time_part(alloc: Global, part: TimePart, a: &Value) -> Result<Value, OperatorError>
    ensures { outcome.Answers (texts.time_part part a.now) result }
{
    match a {
        Value::Null => Ok(Value::Null),
        Value::Int(_) => Err(OperatorError::Says(ValueError::NotTimeText)),
        Value::Text(text) => {
            if is_time_text(text.bytes()) {
                text_value(part_of(alloc, part, text))
            } else {
                Err(OperatorError::Says(ValueError::NotTimeText))
            }
        }
        Value::Blob(_) => Err(OperatorError::Says(ValueError::NotTimeText)),
    }
}
