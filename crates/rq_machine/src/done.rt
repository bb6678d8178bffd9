//! The token behind an operand of level `m`, and behind a name.

ghost use Rattle.std.specs.Prelude.{◌≡◌, IfOk, None, Some};
ghost use Rattle.rq_grammar.specs.Grammar.{upper};
ghost use Rattle.rq_automaton.specs.declared.frame.State.TheVariants as s;
ghost use Rattle.rq_automaton.specs.Machine as spec;
ghost use Rattle.rq_machine.specs.Marks.{mark_operator};

use crate::ending::ended;
use crate::operators::{among, and, between, binary, is, not};
use rq_automaton::{Measured, Stack, State};
use rq_grammar::{BinaryOp, Token, Word};
use rq_places::Step;
use rq_values::Text;
use std::alloc::Global;

/// The operator that the token is by itself.
fn mark_operator(token: &Token) -> Option<BinaryOp>
    ensures { result ≡ mark_operator token.now }
{
    match token {
        Token::Equal | Token::EqualEqual => Some(BinaryOp::Equal),
        Token::LessGreater | Token::BangEqual => Some(BinaryOp::NotEqual),
        Token::Less => Some(BinaryOp::Less),
        Token::LessEqual => Some(BinaryOp::LessEqual),
        Token::Greater => Some(BinaryOp::Greater),
        Token::GreaterEqual => Some(BinaryOp::GreaterEqual),
        Token::Plus => Some(BinaryOp::Add),
        Token::Minus => Some(BinaryOp::Sub),
        Token::Star => Some(BinaryOp::Mul),
        Token::Slash => Some(BinaryOp::Div),
        Token::Percent => Some(BinaryOp::Rem),
        Token::BarBar => Some(BinaryOp::Concat),
        _ => None,
    }
}

/// The token behind an operand of level `m`.
#[tactic(auto, using(crate::proofs::Marks::operator_done))]
pub(crate) fn done(alloc: Global, m: u8, stack: Stack, expr: Measured, token: Token) -> Step
    ensures { IfOk result (λ x. x ≡ spec.done m stack expr token) }
{
    match mark_operator(&token) {
        Some(op) => binary(alloc, op, m, stack, expr),
        None => done_else(alloc, m, stack, expr, token),
    }
}

/// A token that is no operator by itself.
#[tactic(auto, unfolding(rq_automaton::specs::Machine::done))]
fn done_else(alloc: Global, m: u8, stack: Stack, expr: Measured, token: Token) -> Step
    requires { mark_operator token ≡ None }
    ensures { IfOk result (λ x. x ≡ spec.done m stack expr token) }
{
    match token {
        Token::Word(name, word) => done_word(alloc, m, stack, expr, name, word),
        Token::Comma => ended(alloc, stack, expr, Token::Comma),
        Token::Close => ended(alloc, stack, expr, Token::Close),
        Token::Semi => ended(alloc, stack, expr, Token::Semi),
        other => {
            drop(stack);
            drop(expr);
            drop(other);
            Ok(None)
        }
    }
}

fn done_word(alloc: Global, m: u8, stack: Stack, expr: Measured, name: Text, word: Word) -> Step
    ensures { IfOk result (λ x. x ≡ spec.done_word m stack expr name word) }
{
    match word {
        Word::Or => binary(alloc, BinaryOp::Or, m, stack, expr),
        Word::And => and(alloc, m, stack, expr),
        Word::Is => is(alloc, m, stack, expr),
        Word::Like => binary(alloc, BinaryOp::Like, m, stack, expr),
        Word::Not => not(alloc, m, stack, expr),
        Word::In => among(alloc, m, stack, expr),
        Word::Between => between(alloc, m, stack, expr),
        Word::As
        | Word::From
        | Word::Where
        | Word::Order
        | Word::Asc
        | Word::Desc
        | Word::Limit
        | Word::Offset => ended(alloc, stack, expr, Token::Word(name, word)),
        _ => {
            drop(stack);
            drop(expr);
            Ok(None)
        }
    }
}

/// The token behind a quoted name.
pub(crate) fn quoted(alloc: Global, stack: Stack, name: Text, token: Token) -> Step
    ensures { IfOk result (λ x. x ≡ spec.quoted stack name token) }
{
    match token {
        Token::Dot => Ok(Some(State::Dotted(stack, name))),
        other => done(alloc, 9, stack, Measured::name(name), other),
    }
}

/// The token behind a bare name.
pub(crate) fn named(alloc: Global, stack: Stack, is_count: bool, name: Text, token: Token) -> Step
    ensures { IfOk result (λ x. x ≡ spec.named stack is_count name token) }
{
    match token {
        Token::Dot => Ok(Some(State::Dotted(stack, name))),
        Token::Open => called(alloc, stack, is_count, name),
        other => done(alloc, 9, stack, Measured::name(name), other),
    }
}

/// Behind a bare name and `(`.
fn called(alloc: Global, stack: Stack, is_count: bool, name: Text) -> Step
    ensures { IfOk result (λ x. x ≡ Some (s.Opened stack is_count (upper name))) }
{
    let capitals = name.upper(alloc);
    drop(name);
    match capitals {
        Ok(capitals) => Ok(Some(State::Opened(stack, is_count, capitals))),
        Err(error) => {
            drop(stack);
            Err(error)
        }
    }
}
