//! Which calls are nodes.
ghost use Rattle.std.specs.Prelude.{◌≡◌, map};
ghost use Rattle.rq_statement.specs.Sights.{is_moment_call as is_moment_call_text, is_now as is_now_text};
ghost use Rattle.rq_binding.specs.Nodes as spec;

use crate::node::{Drawn, Part, Sort};
use rq_grammar::Expr;
use rq_values::{Text, Value};

fn is_now_text(text: &Text) -> bool
    ensures { result ≡ is_now_text text.now }
{
    text.bytes().eq_ignore_ascii_case(b"now")
}

/// Whether the expression is the literal 'now'.
fn is_now(expr: &Expr) -> bool
    ensures { result ≡ spec.is_now (spec.literal_of expr.now) }
{
    match expr {
        Expr::Literal(Value::Text(text)) => is_now_text(text),
        _ => false,
    }
}

/// The integer literal that the expression is.
fn integer_of(expr: &Expr) -> Option<i64>
    ensures { result ≡ spec.integer_of (spec.literal_of expr.now) }
{
    match expr {
        Expr::Literal(Value::Int(number)) => Some(*number),
        _ => None,
    }
}

fn is_moment_call(name: &[u8]) -> bool
    ensures { result ≡ is_moment_call_text name.now }
{
    name == b"DATE".as_slice() || name == b"TIME".as_slice() || name == b"DATETIME".as_slice()
}

fn drawn_without(name: &[u8]) -> Option<Drawn>
    ensures { result ≡ spec.drawn_without name.now }
{
    if name == b"RANDOM".as_slice() {
        Some(Drawn::Random)
    } else if is_moment_call(name) {
        Some(Drawn::Moment(Part::Timestamp))
    } else {
        None
    }
}

fn drawn_with(name: &[u8], arg: &Expr) -> Option<Drawn>
    ensures { result ≡ spec.drawn_with name.now (spec.literal_of arg.now) }
{
    if name == b"RANDOMBLOB".as_slice() {
        Some(Drawn::Blob(integer_of(arg)))
    } else if is_moment_call(name) && is_now(arg) {
        Some(Drawn::Moment(Part::Timestamp))
    } else {
        None
    }
}

fn drawn_call(name: &[u8], args: &[Expr]) -> Option<Drawn>
    ensures { result ≡ spec.drawn_call name.now (map spec.literal_of args.now) }
{
    match args {
        [] => drawn_without(name),
        [arg] => drawn_with(name, arg),
        _ => None,
    }
}

/// The node that the call is.
pub fn call_node(sort: Sort, name: &[u8], args: &[Expr]) -> Option<Drawn>
    ensures { result ≡ spec.call_node sort name.now (map spec.literal_of args.now) }
{
    match sort {
        Sort::Parameters => None,
        Sort::Drawn => drawn_call(name, args),
    }
}
