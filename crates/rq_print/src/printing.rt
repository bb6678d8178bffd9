//! Canonical text, all of it or nothing.
ghost use Rattle.std.specs.Prelude.{◌≡◌, ◌++◌, IfOk, OnOk, OnErr};
ghost use Rattle.rq_print.specs.Text as spec;

use crate::expressions::print_expression;
use crate::statements::print_statement;
use rq_grammar::{Expr, Stmt};
use rq_values::NoMemory;
use std::alloc::Global;

/// The statement's canonical text.
pub fn printed(alloc: Global, stmt: &Stmt) -> Result<Vec<u8>, NoMemory>
    ensures { IfOk result (λ text. text.items ≡ spec.text_of stmt.now) }
{
    let mut text = Vec::new(alloc);
    match print_statement(stmt, &mut text) {
        Ok(()) => Ok(text),
        Err(error) => {
            drop(text);
            Err(error)
        }
    }
}

/// The expression's canonical text.
pub fn printed_expr(alloc: Global, expr: &Expr) -> Result<Vec<u8>, NoMemory>
    ensures { IfOk result (λ text. text.items ≡ spec.expr_text expr.now) }
{
    let mut text = Vec::new(alloc);
    match print_expression(expr, &mut text) {
        Ok(()) => Ok(text),
        Err(error) => {
            drop(text);
            Err(error)
        }
    }
}

/// Adds the text, all of it or nothing.
fn add(text: Vec<u8>, into: &mut Vec<u8>) -> Result<(), NoMemory>
    ensures ok { OnOk result (into.new.items ≡ into.old.items ++ text.items) }
    ensures err { OnErr result (into.new.items ≡ into.old.items) }
{
    let added = into.extend_from_slice(&text);
    drop(text);
    added?;
    Ok(())
}

/// Adds the statement's canonical text, all of it or nothing.
pub fn print(stmt: &Stmt, into: &mut Vec<u8>) -> Result<(), NoMemory>
    ensures ok { OnOk result (into.new.items ≡ into.old.items ++ spec.text_of stmt.now) }
    ensures err { OnErr result (into.new.items ≡ into.old.items) }
{
    let text = printed(*into.allocator(), stmt)?;
    add(text, into)
}

/// Adds the expression's canonical text, all of it or nothing.
pub fn print_expr(expr: &Expr, into: &mut Vec<u8>) -> Result<(), NoMemory>
    ensures ok { OnOk result (into.new.items ≡ into.old.items ++ spec.expr_text expr.now) }
    ensures err { OnErr result (into.new.items ≡ into.old.items) }
{
    let text = printed_expr(*into.allocator(), expr)?;
    add(text, into)
}
