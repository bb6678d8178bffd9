//! The canonical text of an expression. The recursion is as deep as the expression, at most 100 levels for what is read.
ghost use Rattle.std.specs.Prelude.{◌≡◌, ◌++◌, OnOk, map};
ghost use Rattle.rq_print.specs.Text as spec;

use crate::pieces::{
    between_bytes, in_bytes, operator_bytes, print_bytes, print_literal, print_name,
    print_name_behind, print_parameter,
};
use rq_grammar::Expr;
use rq_values::NoMemory;

/// The expression with something before and behind it.
#[cycle(print)]
pub fn print_within(
    before: &[u8],
    expr: &Expr,
    behind: &[u8],
    into: &mut Vec<u8>,
) -> Result<(), NoMemory>
    ensures { OnOk result (into.new.items ≡ into.old.items ++ (before.now ++ spec.expr_text expr.now ++ behind.now)) }
{
    print_bytes(before, into)?;
    print_expression(expr, into)?;
    print_bytes(behind, into)
}

/// The expressions, with a comma and a blank between.
#[cycle(print)]
fn print_list(list: &[Expr], into: &mut Vec<u8>) -> Result<(), NoMemory>
    ensures { OnOk result (into.new.items ≡ into.old.items ++ spec.listed (map spec.expr_text list.now)) }
{
    let mut between: &[u8] = b"";
    for expr in list {
        print_bytes(between, into)?;
        print_expression(expr, into)?;
        between = b", ";
    }
    Ok(())
}

/// The list with something before and behind it.
#[cycle(print)]
pub fn print_list_within(
    before: &[u8],
    list: &[Expr],
    behind: &[u8],
    into: &mut Vec<u8>,
) -> Result<(), NoMemory>
    ensures { OnOk result (into.new.items ≡ into.old.items ++ (before.now ++ spec.listed (map spec.expr_text list.now) ++ behind.now)) }
{
    print_bytes(before, into)?;
    print_list(list, into)?;
    print_bytes(behind, into)
}

/// The expression. With no memory a part of it may be there.
#[cycle(print)]
pub fn print_expression(expr: &Expr, into: &mut Vec<u8>) -> Result<(), NoMemory>
    ensures { OnOk result (into.new.items ≡ into.old.items ++ spec.expr_text expr.now) }
{
    match expr {
        Expr::Literal(value) => print_literal(value, into),
        Expr::Param(name) => print_parameter(name, into),
        Expr::Name(name) => print_name(name, into),
        Expr::Qualified { table, column } => {
            print_name(table, into)?;
            print_name_behind(b".", column, into)
        }
        Expr::CurrentTimestamp => print_bytes(b"CURRENT_TIMESTAMP", into),
        Expr::CurrentDate => print_bytes(b"CURRENT_DATE", into),
        Expr::CurrentTime => print_bytes(b"CURRENT_TIME", into),
        Expr::CountAll => print_bytes(b"COUNT(*)", into),
        Expr::Call { name, args } => {
            print_bytes(name.bytes(), into)?;
            print_list_within(b"(", args.as_slice(), b")", into)
        }
        Expr::Minus(operand) => print_within(b"-(", operand.get(), b")", into),
        Expr::Not(operand) => print_within(b"(NOT ", operand.get(), b")", into),
        Expr::Binary { op, left, right } => {
            print_within(b"(", left.get(), operator_bytes(*op), into)?;
            print_within(b"", right.get(), b")", into)
        }
        Expr::InList {
            negated,
            left,
            list,
        } => {
            print_within(b"(", left.get(), in_bytes(*negated), into)?;
            print_list_within(b"", list.as_slice(), b"))", into)
        }
        Expr::Between {
            negated,
            left,
            low,
            high,
        } => {
            print_within(b"(", left.get(), between_bytes(*negated), into)?;
            print_within(b"", low.get(), b" AND ", into)?;
            print_within(b"", high.get(), b")", into)
        }
    }
}
