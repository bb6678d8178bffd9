//! The names of operators and functions.

/// A part of a date and time.
#[derive(Clone, Copy)]
pub enum TimePart {
    Date,
    Time,
    DateTime,
}

/// What is done to one value.
#[derive(Clone, Copy)]
pub enum UnaryOp {
    Minus,
    Not,
    Abs,
    Length,
    Lower,
    Upper,
    Hex,
    TypeOf,
    Part(TimePart),
}

/// What is done to the values of all rows.
#[derive(Clone, Copy)]
pub enum AggregateOp {
    Count,
    Sum,
    Min,
    Max,
}

/// What a call's name stands for.
#[derive(Clone, Copy)]
pub enum Function {
    Unary(UnaryOp),
    Coalesce,
    IfNull,
    Aggregate(AggregateOp),
    /// `RANDOM()`, which settling replaces.
    Random,
    /// `RANDOMBLOB(n)`, which settling replaces.
    RandomBlob,
}
