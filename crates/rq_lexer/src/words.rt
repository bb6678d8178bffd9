//! What a bare word is.
ghost use Rattle.std.specs.Prelude.{◌≡◌, map, bytes_eq};
ghost use Rattle.rq_grammar.specs.Grammar.{upper};
ghost use Rattle.rq_grammar.specs.Spelling as spec;

use rq_grammar::Word;

/// The words of the grammar.
const WORDS: [(&[u8], Word); 39] = [
    (b"AND", Word::And),
    (b"AS", Word::As),
    (b"ASC", Word::Asc),
    (b"BETWEEN", Word::Between),
    (b"BLOB", Word::Blob),
    (b"BY", Word::By),
    (b"COUNT", Word::Count),
    (b"CREATE", Word::Create),
    (b"CURRENT_DATE", Word::CurrentDate),
    (b"CURRENT_TIME", Word::CurrentTime),
    (b"CURRENT_TIMESTAMP", Word::CurrentTimestamp),
    (b"DELETE", Word::Delete),
    (b"DESC", Word::Desc),
    (b"DROP", Word::Drop),
    (b"EXISTS", Word::Exists),
    (b"FROM", Word::From),
    (b"IF", Word::If),
    (b"IN", Word::In),
    (b"INSERT", Word::Insert),
    (b"INTEGER", Word::Integer),
    (b"INTO", Word::Into),
    (b"IS", Word::Is),
    (b"KEY", Word::Key),
    (b"LIKE", Word::Like),
    (b"LIMIT", Word::Limit),
    (b"NOT", Word::Not),
    (b"NULL", Word::Null),
    (b"OFFSET", Word::Offset),
    (b"OR", Word::Or),
    (b"ORDER", Word::Order),
    (b"PRIMARY", Word::Primary),
    (b"SELECT", Word::Select),
    (b"SET", Word::Set),
    (b"TABLE", Word::Table),
    (b"TEXT", Word::Text),
    (b"UNIQUE", Word::Unique),
    (b"UPDATE", Word::Update),
    (b"VALUES", Word::Values),
    (b"WHERE", Word::Where),
];

/// The words out of the profile that are reserved.
const RESERVED_OUT: [&[u8]; 16] = [
    b"CASE",
    b"CHECK",
    b"COLLATE",
    b"CONSTRAINT",
    b"DEFAULT",
    b"DISTINCT",
    b"EXCEPT",
    b"FOREIGN",
    b"GROUP",
    b"HAVING",
    b"INTERSECT",
    b"JOIN",
    b"ON",
    b"REFERENCES",
    b"RETURNING",
    b"UNION",
];

/// The words out of the profile that are names all the same.
const FREE_OUT: [&[u8]; 26] = [
    b"ALTER",
    b"ANALYZE",
    b"ATTACH",
    b"AUTOINCREMENT",
    b"BEGIN",
    b"CAST",
    b"COMMIT",
    b"DETACH",
    b"END",
    b"ESCAPE",
    b"EXPLAIN",
    b"GLOB",
    b"INDEX",
    b"OVER",
    b"PRAGMA",
    b"REINDEX",
    b"RELEASE",
    b"REPLACE",
    b"ROLLBACK",
    b"SAVEPOINT",
    b"STRICT",
    b"TRIGGER",
    b"VACUUM",
    b"VIEW",
    b"WITH",
    b"WITHOUT",
];

/// Whether the word is the one that is given in upper case.
fn is_word(word: &[u8], capitals: &[u8]) -> bool
    ensures { result ≡ bytes_eq capitals.now (upper word.now) }
{
    let mut word = word;
    let mut capitals = capitals;
    while let [byte, more @ ..] = word {
        let [capital, others @ ..] = capitals else {
            return false;
        };
        if byte.to_ascii_uppercase() != *capital {
            return false;
        }
        word = more;
        capitals = others;
    }
    capitals.is_empty()
}

fn is_among(words: &[&[u8]], word: &[u8]) -> bool
    ensures { result ≡ spec.is_among (map (λ w. w.now) words.now) (upper word.now) }
{
    let mut words = words;
    while let [first, rest @ ..] = words {
        if is_word(word, first) {
            return true;
        }
        words = rest;
    }
    false
}

fn other_word(word: &[u8]) -> Word
    ensures { result ≡ spec.other_word (upper word.now) }
{
    if is_among(&RESERVED_OUT, word) {
        Word::OutOfProfile { reserved: true }
    } else if is_among(&FREE_OUT, word) {
        Word::OutOfProfile { reserved: false }
    } else {
        Word::Plain
    }
}

fn word_among(words: &[(&[u8], Word)], word: &[u8]) -> Word
    ensures { result ≡ spec.word_among (map (λ w. (w.0.now, w.1)) words.now) (upper word.now) }
{
    let mut words = words;
    while let [first, rest @ ..] = words {
        if is_word(word, first.0) {
            return first.1;
        }
        words = rest;
    }
    other_word(word)
}

/// What a bare word is to the grammar.
pub fn word_of(word: &[u8]) -> Word
    ensures { result ≡ spec.word_of word.now }
{
    word_among(&WORDS, word)
}
