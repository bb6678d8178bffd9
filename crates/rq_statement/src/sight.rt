//! What is seen of an expression. The recursion is as deep as the expression, at most 100 levels for what is read.
ghost use Rattle.std.specs.Prelude.{◌≡◌, map};
ghost use Rattle.rq_statement.specs.Sights as spec;

use rq_grammar::Expr;
use rq_values::{Text, Value};

/// What is seen of an expression.
#[derive(Clone, Copy)]
pub enum Sight {
    /// It is the text 'now'; or one of several expressions is, and none of them is open.
    Now,
    Fixed,
    /// It has a parameter, a random node or a time node.
    Open,
}

fn is_now(text: &Text) -> bool
    ensures { result ≡ spec.is_now text.now }
{
    text.bytes().eq_ignore_ascii_case(b"now")
}

fn literal_sight(value: &Value) -> Sight
    ensures { result ≡ spec.literal_sight value.now }
{
    match value {
        Value::Text(text) => {
            if is_now(text) {
                Sight::Now
            } else {
                Sight::Fixed
            }
        }
        Value::Null => Sight::Fixed,
        Value::Int(_) => Sight::Fixed,
        Value::Blob(_) => Sight::Fixed,
    }
}

fn both(a: Sight, b: Sight) -> Sight
    ensures { result ≡ spec.both a b }
{
    match (a, b) {
        (Sight::Fixed, b) => b,
        (Sight::Open, _) => Sight::Open,
        (Sight::Now, Sight::Open) => Sight::Open,
        (Sight::Now, Sight::Now) => Sight::Now,
        (Sight::Now, Sight::Fixed) => Sight::Now,
    }
}

fn around(parts: Sight) -> Sight
    ensures { result ≡ spec.around parts }
{
    match parts {
        Sight::Open => Sight::Open,
        Sight::Now => Sight::Fixed,
        Sight::Fixed => Sight::Fixed,
    }
}

fn is_moment_call(name: &[u8]) -> bool
    ensures { result ≡ spec.is_moment_call name.now }
{
    name == b"DATE".as_slice() || name == b"TIME".as_slice() || name == b"DATETIME".as_slice()
}

fn has_now(args: Sight) -> bool
    ensures { result ≡ spec.has_now args }
{
    match args {
        Sight::Now => true,
        Sight::Fixed => false,
        Sight::Open => false,
    }
}

/// Whether a call with so many arguments is a random node or a time node.
fn is_drawn(name: &[u8], count: usize, args: Sight) -> bool
    ensures { result ≡ spec.is_drawn name.now count args }
{
    match count {
        0 => name == b"RANDOM".as_slice() || is_moment_call(name),
        1 => name == b"RANDOMBLOB".as_slice() || (is_moment_call(name) && has_now(args)),
        _ => false,
    }
}

fn call_sight(name: &[u8], count: usize, args: Sight) -> Sight
    ensures { result ≡ spec.call_sight name.now count args }
{
    if is_drawn(name, count, args) {
        Sight::Open
    } else {
        around(args)
    }
}

#[cycle(seen)]
fn list_sight(list: &[Expr]) -> Sight
    ensures { result ≡ spec.list_sight (map spec.sight list.now) }
{
    let mut seen = Sight::Fixed;
    for expr in list {
        let one = sight_of(expr);
        seen = both(seen, one);
    }
    seen
}

#[cycle(seen)]
pub fn sight_of(expr: &Expr) -> Sight
    ensures { result ≡ spec.sight expr.now }
{
    match expr {
        Expr::Literal(value) => literal_sight(value),
        Expr::Param(_) => Sight::Open,
        Expr::Name(_) => Sight::Fixed,
        Expr::Qualified { .. } => Sight::Fixed,
        Expr::CurrentTimestamp => Sight::Open,
        Expr::CurrentDate => Sight::Open,
        Expr::CurrentTime => Sight::Open,
        Expr::CountAll => Sight::Fixed,
        Expr::Call { name, args } => {
            let args = args.as_slice();
            let seen = list_sight(args);
            call_sight(name.bytes(), args.len(), seen)
        }
        Expr::Minus(operand) => {
            let seen = sight_of(operand.get());
            around(seen)
        }
        Expr::Not(operand) => {
            let seen = sight_of(operand.get());
            around(seen)
        }
        Expr::Binary { left, right, .. } => {
            let one = sight_of(left.get());
            let two = sight_of(right.get());
            around(both(one, two))
        }
        Expr::InList { left, list, .. } => {
            let one = sight_of(left.get());
            let two = list_sight(list.as_slice());
            around(both(one, two))
        }
        Expr::Between {
            left,
            low,
            high,
            ..
        } => {
            let one = sight_of(left.get());
            let two = sight_of(low.get());
            let three = sight_of(high.get());
            around(both(one, both(two, three)))
        }
    }
}
