//! The token where an operand is to come.

ghost use Rattle.std.specs.Prelude.{◌≡◌, ◌∷◌, IfOk, false, Some};
ghost use Rattle.rq_automaton.specs.Stack as spec;
ghost use Rattle.rq_automaton.specs.Load.{is_clause};
ghost use Rattle.rq_grammar.specs.declared.token.Token.TheVariants as t;
ghost use Rattle.rq_automaton.specs.declared.frame.State.TheVariants as s;

use crate::names::Step;
use rq_automaton::{Frame, Measured, Stack, State};
use rq_grammar::{Token, Word};
use rq_values::{Text, Value};

/// The token where an operand is to come.
pub fn operand(stack: Stack, token: Token) -> Step
    ensures { IfOk result (λ x. x ≡ spec.operand stack token) }
{
    match token {
        Token::Word(name, word) => operand_word(stack, name, word),
        Token::Quoted(name) => Ok(Some(State::Quoted(stack, name))),
        Token::String(text) => Ok(Some(leaf(stack, Measured::literal(Value::Text(text))))),
        Token::Blob(bytes) => Ok(Some(leaf(stack, Measured::literal(Value::Blob(bytes))))),
        Token::Numeral(n) => Ok(numeral(stack, n)),
        Token::Parameter(name) => Ok(Some(leaf(stack, Measured::param(name)))),
        Token::Open => {
            drop(token);
            going_on(stack, Frame::Paren)
        }
        Token::Plus => {
            drop(token);
            with_plus(stack)
        }
        Token::Minus => {
            drop(token);
            Ok(Some(State::Signed(stack)))
        }
        other => {
            drop(stack);
            drop(other);
            Ok(None)
        }
    }
}

/// An operand without parts is read.
fn leaf(stack: Stack, expr: Measured) -> State
    ensures { result ≡ s.Done stack 9 expr }
{
    State::Done(stack, 9, expr)
}

fn operand_word(stack: Stack, name: Text, word: Word) -> Step
    ensures { IfOk result (λ x. x ≡ spec.operand_word stack name word) }
{
    match word {
        Word::Null => {
            drop(name);
            Ok(Some(leaf(stack, Measured::literal(Value::Null))))
        }
        Word::CurrentTimestamp => {
            drop(name);
            Ok(Some(leaf(stack, Measured::current_timestamp())))
        }
        Word::CurrentDate => {
            drop(name);
            Ok(Some(leaf(stack, Measured::current_date())))
        }
        Word::CurrentTime => {
            drop(name);
            Ok(Some(leaf(stack, Measured::current_time())))
        }
        Word::Not => {
            drop(name);
            if stack.room() <= 3 {
                going_on(stack, Frame::Not)
            } else {
                drop(stack);
                Ok(None)
            }
        }
        Word::Count => Ok(Some(State::Named(stack, true, name))),
        _ => {
            if word.is_reserved() {
                drop(name);
                drop(stack);
                Ok(None)
            } else {
                Ok(Some(State::Named(stack, false, name)))
            }
        }
    }
}

/// An integer without a sign.
fn numeral(stack: Stack, n: u64) -> Option<State>
    ensures { result ≡ spec.operand stack (t.Numeral n) }
{
    if n < 0x8000_0000_0000_0000 {
        Some(leaf(stack, Measured::literal(Value::Int(n as i64))))
    } else {
        drop(stack);
        None
    }
}

/// An operand is to come, behind one more prefix `+`.
fn with_plus(stack: Stack) -> Step
    ensures { IfOk result (λ x. x ≡ Some (s.Operand (spec.with_plus stack))) }
{
    if stack.is_behind_plus() {
        Ok(Some(State::Operand(stack)))
    } else {
        going_on(stack, Frame::Plus)
    }
}

/// The token directly behind a prefix `-`.
pub fn signed(stack: Stack, token: Token) -> Step
    ensures { IfOk result (λ x. x ≡ spec.signed stack token) }
{
    match token {
        Token::Numeral(n) => Ok(negative(stack, n)),
        other => pushed(stack, Frame::Minus, other),
    }
}

/// An integer behind a prefix `-`.
fn negative(stack: Stack, n: u64) -> Option<State>
    ensures { result ≡ spec.signed stack (t.Numeral n) }
{
    if n < 0x8000_0000_0000_0000 {
        Some(leaf(stack, Measured::literal(Value::Int(-(n as i64)))))
    } else if n == 0x8000_0000_0000_0000 {
        Some(leaf(stack, Measured::literal(Value::Int(i64::MIN))))
    } else {
        drop(stack);
        None
    }
}

/// An operand is to come, behind one more frame.
pub fn going_on(mut stack: Stack, frame: Frame) -> Step
    requires { is_clause frame ≡ false }
    ensures { IfOk result (λ x. x ≡ Some (s.Operand (frame ∷ stack))) }
{
    match stack.push(frame) {
        Ok(()) => Ok(Some(State::Operand(stack))),
        Err(error) => {
            drop(stack);
            Err(error)
        }
    }
}

/// The token where an operand is to come, behind one more frame.
pub fn pushed(mut stack: Stack, frame: Frame, token: Token) -> Step
    requires { is_clause frame ≡ false }
    ensures { IfOk result (λ x. x ≡ spec.operand (frame ∷ stack) token) }
{
    match stack.push(frame) {
        Ok(()) => operand(stack, token),
        Err(error) => {
            drop(stack);
            drop(token);
            Err(error)
        }
    }
}
