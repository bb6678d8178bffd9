//! Expressions.

ghost use Rattle.std.specs.Prelude.{◌≡◌};
ghost use Rattle.rq_grammar.specs.Grammar.{level};

use rq_values::{Text, Value};
use sqlite_items::{Boxed, Items};

/// An operator between two operands.
#[derive(Clone, Copy, PartialEq, Eq)]
pub enum BinaryOp {
    Or,
    And,
    Equal,
    NotEqual,
    Is,
    IsNot,
    Like,
    NotLike,
    Less,
    LessEqual,
    Greater,
    GreaterEqual,
    Add,
    Sub,
    Mul,
    Div,
    Rem,
    Concat,
}

impl BinaryOp {
    /// How tightly the operator binds, 1 to 8. NOT has level 3, a prefix sign 9.
    pub fn level(self) -> u8
        ensures { result ≡ level self }
    {
        match self {
            BinaryOp::Or => 1,
            BinaryOp::And => 2,
            BinaryOp::Equal
            | BinaryOp::NotEqual
            | BinaryOp::Is
            | BinaryOp::IsNot
            | BinaryOp::Like
            | BinaryOp::NotLike => 4,
            BinaryOp::Less | BinaryOp::LessEqual | BinaryOp::Greater | BinaryOp::GreaterEqual => 5,
            BinaryOp::Add | BinaryOp::Sub => 6,
            BinaryOp::Mul | BinaryOp::Div | BinaryOp::Rem => 7,
            BinaryOp::Concat => 8,
        }
    }
}

/// An expression. Depth counts its nodes on the longest path, a call without arguments as two.
#[derive(Drop)]
pub enum Expr {
    Literal(Value),
    /// `?`, or a named parameter.
    Param(Option<Text>),
    Name(Text),
    Qualified {
        table: Text,
        column: Text,
    },
    CurrentTimestamp,
    CurrentDate,
    CurrentTime,
    /// `COUNT(*)`
    CountAll,
    /// A call, with the name in upper case.
    Call {
        name: Text,
        args: Items<Expr>,
    },
    Minus(Boxed<Expr>),
    Not(Boxed<Expr>),
    Binary {
        op: BinaryOp,
        left: Boxed<Expr>,
        right: Boxed<Expr>,
    },
    InList {
        negated: bool,
        left: Boxed<Expr>,
        list: Items<Expr>,
    },
    Between {
        negated: bool,
        left: Boxed<Expr>,
        low: Boxed<Expr>,
        high: Boxed<Expr>,
    },
}
