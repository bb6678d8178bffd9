//! The token within an operand, and behind `operand NOT`, `operand IS` and `operand IN`.

ghost use Rattle.std.specs.Prelude.{◌≡◌, IfOk};
ghost use Rattle.rq_automaton.specs.Stack as spec;
ghost use Rattle.rq_grammar.specs.declared.token.Token.TheVariants as t;

use rq_automaton::{Frame, Measured, MeasuredList, Stack, State};
use rq_grammar::{BinaryOp, Token, Word};
use rq_places::{Step, going_on, pushed};
use rq_values::Text;
use std::alloc::Global;

/// Behind `name .`
pub(crate) fn dotted(stack: Stack, table: Text, token: Token) -> Option<State>
    ensures { result ≡ spec.dotted stack table token }
{
    match token {
        Token::Word(column, word) => {
            if word.is_reserved() || word.is_time() {
                drop(stack);
                None
            } else {
                Some(State::Done(stack, 9, Measured::qualified(table, column)))
            }
        }
        Token::Quoted(column) => Some(State::Done(stack, 9, Measured::qualified(table, column))),
        other => {
            drop(stack);
            drop(table);
            drop(other);
            None
        }
    }
}

/// Behind `name (`
pub(crate) fn called(alloc: Global, stack: Stack, is_count: bool, name: Text, token: Token) -> Step
    ensures { IfOk result (λ x. x ≡ spec.opened stack is_count name token) }
{
    match token {
        Token::Close => {
            let call = Measured::call(name, MeasuredList::new(alloc));
            Ok(Some(State::Done(stack, 9, call)))
        }
        Token::Star => {
            if is_count {
                Ok(Some(State::Counted(stack)))
            } else {
                drop(stack);
                Ok(None)
            }
        }
        other => {
            let args = MeasuredList::new(alloc);
            pushed(stack, Frame::Args { name, args }, other)
        }
    }
}

/// Behind `COUNT ( *`
pub(crate) fn counted(stack: Stack, token: Token) -> Option<State>
    ensures { result ≡ spec.counted stack token }
{
    match token {
        Token::Close => Some(State::Done(stack, 9, Measured::count_all())),
        other => {
            drop(stack);
            drop(other);
            None
        }
    }
}

/// Behind `operand NOT`
pub(crate) fn denied(stack: Stack, left: Measured, token: Token) -> Step
    ensures { IfOk result (λ x. x ≡ spec.denied stack left token) }
{
    match token {
        Token::Word(name, word) => denied_word(stack, left, name, word),
        other => {
            drop(stack);
            drop(left);
            drop(other);
            Ok(None)
        }
    }
}

fn denied_word(stack: Stack, left: Measured, name: Text, word: Word) -> Step
    ensures { IfOk result (λ x. x ≡ spec.denied stack left (t.Word name word)) }
{
    drop(name);
    match word {
        Word::Like => going_on(
            stack,
            Frame::Binary {
                op: BinaryOp::NotLike,
                left,
            },
        ),
        Word::In => Ok(Some(State::In(stack, true, left))),
        Word::Between => going_on(
            stack,
            Frame::Low {
                negated: true,
                left,
            },
        ),
        _ => {
            drop(stack);
            drop(left);
            Ok(None)
        }
    }
}

/// Behind `operand IS`
pub(crate) fn is(stack: Stack, left: Measured, token: Token) -> Step
    ensures { IfOk result (λ x. x ≡ spec.is stack left token) }
{
    match token {
        Token::Word(name, Word::Not) => {
            drop(name);
            going_on(
                stack,
                Frame::Binary {
                    op: BinaryOp::IsNot,
                    left,
                },
            )
        }
        other => pushed(
            stack,
            Frame::Binary {
                op: BinaryOp::Is,
                left,
            },
            other,
        ),
    }
}

/// Behind `operand IN`, `operand NOT IN`
pub(crate) fn among(stack: Stack, negated: bool, left: Measured, token: Token) -> Option<State>
    ensures { result ≡ spec.among stack negated left token }
{
    match token {
        Token::Open => Some(State::Listed(stack, negated, left)),
        other => {
            drop(stack);
            drop(left);
            drop(other);
            None
        }
    }
}

/// Behind `operand IN (`
pub(crate) fn listed(
    alloc: Global,
    stack: Stack,
    negated: bool,
    left: Measured,
    token: Token,
) -> Step
    ensures { IfOk result (λ x. x ≡ spec.listed stack negated left token) }
{
    match token {
        Token::Close => {
            let list = MeasuredList::new(alloc);
            match Measured::in_list(alloc, negated, left, list) {
                Ok(expr) => Ok(Some(State::Done(stack, 4, expr))),
                Err(error) => {
                    drop(stack);
                    Err(error)
                }
            }
        }
        other => pushed(
            stack,
            Frame::Among {
                negated,
                left,
                list: MeasuredList::new(alloc),
            },
            other,
        ),
    }
}
