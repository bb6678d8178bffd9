//! The functions that a call may name.

ghost use Rattle.std.specs.Prelude.{◌≡◌, map};
ghost use Rattle.rq_operators.specs.Functions as spec;

use crate::operators::{AggregateOp, Function, TimePart, UnaryOp};

/// The functions and their names.
const FUNCTIONS: [(&[u8], Function); 17] = [
    (b"ABS", Function::Unary(UnaryOp::Abs)),
    (b"LENGTH", Function::Unary(UnaryOp::Length)),
    (b"LOWER", Function::Unary(UnaryOp::Lower)),
    (b"UPPER", Function::Unary(UnaryOp::Upper)),
    (b"HEX", Function::Unary(UnaryOp::Hex)),
    (b"TYPEOF", Function::Unary(UnaryOp::TypeOf)),
    (b"DATE", Function::Unary(UnaryOp::Part(TimePart::Date))),
    (b"TIME", Function::Unary(UnaryOp::Part(TimePart::Time))),
    (
        b"DATETIME",
        Function::Unary(UnaryOp::Part(TimePart::DateTime)),
    ),
    (b"COALESCE", Function::Coalesce),
    (b"IFNULL", Function::IfNull),
    (b"RANDOM", Function::Random),
    (b"RANDOMBLOB", Function::RandomBlob),
    (b"COUNT", Function::Aggregate(AggregateOp::Count)),
    (b"SUM", Function::Aggregate(AggregateOp::Sum)),
    (b"MIN", Function::Aggregate(AggregateOp::Min)),
    (b"MAX", Function::Aggregate(AggregateOp::Max)),
];

fn named_among(functions: &[(&[u8], Function)], name: &[u8]) -> Option<Function>
    ensures { result ≡ spec.named_among (map (λ f. (f.0.now, f.1)) functions.now) name.now }
{
    let mut functions = functions;
    while let [first, rest @ ..] = functions {
        if first.0 == name {
            return Some(first.1);
        }
        functions = rest;
    }
    None
}

/// The function of that name, which stands in upper case.
pub fn function_of(name: &[u8]) -> Option<Function>
    ensures { result ≡ spec.function_of name.now }
{
    named_among(&FUNCTIONS, name)
}

/// Whether the function takes so many arguments.
pub fn takes(function: Function, count: usize) -> bool
    ensures { result ≡ spec.takes function count }
{
    match function {
        Function::Unary(_) => count == 1,
        Function::Coalesce => 2 <= count,
        Function::IfNull => count == 2,
        Function::Aggregate(_) => count == 1,
        Function::Random => count == 0,
        Function::RandomBlob => count == 1,
    }
}
