//! What is known of each value and each word in memory. These functions change nothing; what they say of their argument is in their contracts.
ghost use Rattle.std.specs.Prelude.{◌≡◌, true, map};
ghost use Rattle.rq_grammar.specs.Proper.{all_of, is_literal};
ghost use Rattle.rq_binding.specs.Usable as spec;

use crate::params::{list_of, named_of};
use rq_request::Params;
use rq_values::{Text, Value};

fn know_value(value: &Value)
    ensures { is_literal value.now ≡ true }
{
    match value {
        Value::Null => (),
        Value::Int(number) => {
            let _number = *number;
        }
        Value::Text(_) => (),
        Value::Blob(_) => (),
    }
}

fn know_list(list: &[Value])
    ensures { all_of (map is_literal list.now) ≡ true }
{
    for value in list {
        know_value(value);
    }
}

fn know_named(named: &[(Text, Value)])
    ensures { all_of (map spec.is_named_literal named.now) ≡ true }
{
    for pair in named {
        know_value(&pair.1);
    }
}

/// The values that are given can stand as literals in a statement.
pub fn know_params(params: &Params)
    ensures { spec.are_literals params.now ≡ true }
{
    know_list(list_of(params));
    know_named(named_of(params));
}

/// Words have 64 bits.
pub fn know_words(words: &[u64])
    ensures { spec.are_words words.now ≡ true }
{
    for word in words {
        let _word = *word;
    }
}
