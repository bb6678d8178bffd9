//! Bare words.

ghost use Rattle.std.specs.Prelude.{◌≡◌};
ghost use Rattle.rq_grammar.specs.Words.{is_reserved, is_time};

/// What a bare word is to the grammar. Words compare without ASCII case.
#[derive(Clone, Copy)]
pub enum Word {
    And,
    As,
    Asc,
    Between,
    Blob,
    By,
    Count,
    Create,
    CurrentDate,
    CurrentTime,
    CurrentTimestamp,
    Delete,
    Desc,
    Drop,
    Exists,
    From,
    If,
    In,
    Insert,
    Integer,
    Into,
    Is,
    Key,
    Like,
    Limit,
    Not,
    Null,
    Offset,
    Or,
    Order,
    Primary,
    Select,
    Set,
    Table,
    Text,
    Unique,
    Update,
    Values,
    Where,
    /// A word of SQL that stands in no statement of this language. Where it isn't reserved it is a name all the same.
    OutOfProfile { reserved: bool },
    /// Any other word.
    Plain,
}

impl Word {
    /// Whether the word is reserved, so that it is no bare name.
    pub fn is_reserved(self) -> bool
        ensures { result ≡ is_reserved self }
    {
        match self {
            Word::And
            | Word::As
            | Word::Between
            | Word::Create
            | Word::Delete
            | Word::Drop
            | Word::From
            | Word::In
            | Word::Insert
            | Word::Into
            | Word::Is
            | Word::Limit
            | Word::Not
            | Word::Null
            | Word::Or
            | Word::Order
            | Word::Primary
            | Word::Select
            | Word::Set
            | Word::Table
            | Word::Unique
            | Word::Update
            | Word::Values
            | Word::Where => true,
            Word::OutOfProfile { reserved } => reserved,
            _ => false,
        }
    }

    /// Whether the word is the time inside an expression, and no name there.
    pub fn is_time(self) -> bool
        ensures { result ≡ is_time self }
    {
        match self {
            Word::CurrentDate | Word::CurrentTime | Word::CurrentTimestamp => true,
            _ => false,
        }
    }
}
