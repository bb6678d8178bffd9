//! Texts and their refusals. rq_settle has a table of texts and the statements that they spell.
use rq_sql::{ReadError, read};
use std::alloc::Global;
use std::test::Fail;

/// Texts that are refused as near a token, and the bytes from which and to which it stands.
const NEAR: [(&[u8], usize, usize); 37] = [
    (b"", 0, 0),
    (b" ;", 1, 2),
    (b"SELECT", 6, 6),
    (b"SELECT ", 7, 7),
    (b"SELECT 1; SELECT 2", 10, 16),
    (b"SELECT a b", 9, 10),
    (b"SELECT ALL a", 11, 12),
    (b"SELECT a = NOT b", 11, 14),
    (b"SELECT + NOT a", 9, 12),
    (b"SELECT a IN (1) + 2", 16, 17),
    (b"SELECT a BETWEEN b = c", 19, 20),
    (b"SELECT a NOT NULL", 13, 17),
    (b"SELECT (SELECT 1)", 8, 14),
    (b"SELECT \"a\"(1)", 10, 11),
    (b"SELECT t.CURRENT_DATE", 9, 21),
    (b"SELECT CAST(1 AS TEXT)", 14, 16),
    (b"SELECT a OFFSET 1", 9, 15),
    (b"SELECT a LIMIT 1, 2", 16, 17),
    (b"SELECT a FROM t LEFT JOIN u", 16, 20),
    (b"SELECT a FROM select", 14, 20),
    (b"SELECT a.1", 9, 10),
    (b"SELECT ?1", 8, 9),
    (b"SELECT :1", 7, 8),
    (b"SELECT X'ab''cd'", 12, 16),
    (b"SELECT X'abc'", 7, 13),
    (b"SELECT 'abc", 7, 11),
    (b"SELECT \"abc", 7, 11),
    (b"SELECT 'a\xff'", 7, 11),
    (b"SELECT \xff", 7, 8),
    (b"SELECT \xc3\xa9", 7, 9),
    (b"SELECT a\0", 8, 9),
    (b"UPDATE t SET a == 1", 15, 17),
    (b"CREATE TABLE t ()", 16, 17),
    (b"CREATE TABLE t (a INTEGER UNIQUE UNIQUE)", 33, 39),
    (b"CREATE UNIQUE INDEX", 7, 13),
    (b"INSERT INTO t VALUES ()", 22, 23),
    (b"INSERT OR REPLACE", 7, 9),
];

/// The same of texts that are refused as not in the profile.
const NOT_IN_PROFILE: [(&[u8], usize, usize); 10] = [
    (b"SELECT CASE", 7, 11),
    (b"SELECT distinct a", 7, 15),
    (b"SELECT a GLOB b", 9, 13),
    (b"SELECT a FROM t JOIN u", 16, 20),
    (b"BEGIN", 0, 5),
    (b"DROP VIEW v", 5, 9),
    (b"SELECT 9223372036854775808", 7, 26),
    (b"SELECT -+9223372036854775808", 9, 28),
    (b"SELECT 1 9223372036854775808", 9, 28),
    (b"SELECT 1.5", 7, 10),
];

/// Why a text spells no statement.
fn refusal(alloc: Global, text: &[u8]) -> Option<ReadError> {
    match read(alloc, text) {
        Ok(stmt) => {
            drop(stmt);
            None
        }
        Err(error) => Some(error),
    }
}

#[test]
fn texts_and_their_refusals(rt: HostRuntime) -> Result<(), Fail> {
    for &(text, from, to) in &NEAR {
        assert!(rt; refusal(rt.alloc(), text) == Some(ReadError::Near { from, to }));
    }
    for &(text, from, to) in &NOT_IN_PROFILE {
        assert!(rt; refusal(rt.alloc(), text) == Some(ReadError::NotInProfile { from, to }));
    }
    Ok(())
}

/// `SELECT ` and a piece that is repeated between two others.
struct Long {
    prefix: &'static str,
    piece: &'static str,
    count: usize,
    back: &'static str,
    refusal: Option<ReadError>,
}

const LONG: [Long; 13] = [
    Long {
        prefix: "1",
        piece: "+1",
        count: 99,
        back: "",
        refusal: None,
    },
    Long {
        prefix: "1",
        piece: "+1",
        count: 100,
        back: "",
        refusal: Some(ReadError::TooDeep(206)),
    },
    Long {
        prefix: "1",
        piece: "+1",
        count: 100,
        back: " FROM FROM",
        refusal: Some(ReadError::TooDeep(206)),
    },
    Long {
        prefix: "",
        piece: "- ",
        count: 99,
        back: "a",
        refusal: None,
    },
    Long {
        prefix: "",
        piece: "- ",
        count: 100,
        back: "a",
        refusal: Some(ReadError::TooDeep(207)),
    },
    Long {
        prefix: "",
        piece: "- ",
        count: 100,
        back: "5",
        refusal: None,
    },
    Long {
        prefix: "",
        piece: "f(",
        count: 98,
        back: "f())",
        refusal: Some(ReadError::Near { from: 207, to: 207 }),
    },
    Long {
        prefix: "",
        piece: "f(",
        count: 99,
        back: "f",
        refusal: Some(ReadError::Near { from: 206, to: 206 }),
    },
    Long {
        prefix: "",
        piece: "f(",
        count: 99,
        back: "f(",
        refusal: Some(ReadError::TooDeep(206)),
    },
    Long {
        prefix: "",
        piece: "(",
        count: 250,
        back: "a",
        refusal: Some(ReadError::Near { from: 258, to: 258 }),
    },
    Long {
        prefix: "",
        piece: "(",
        count: 251,
        back: "a",
        refusal: Some(ReadError::TooDeep(257)),
    },
    Long {
        prefix: "",
        piece: "(",
        count: 250,
        back: "a IN (1)",
        refusal: Some(ReadError::TooDeep(259)),
    },
    Long {
        prefix: "",
        piece: "+ ",
        count: 1000,
        back: "a",
        refusal: None,
    },
];

fn text_of(alloc: Global, long: &Long) -> Result<String, Fail> {
    let mut text = String::from_str(alloc, "SELECT ")?;
    text.push_str(long.prefix)?;
    text.push_str(&long.piece.repeat(alloc, long.count)?)?;
    text.push_str(long.back)?;
    Ok(text)
}

fn long_refusal(alloc: Global, long: &Long) -> Result<Option<ReadError>, Fail> {
    let text = text_of(alloc, long)?;
    let refusal = refusal(alloc, text.as_bytes());
    drop(text);
    Ok(refusal)
}

#[test]
fn both_sides_of_the_limits(rt: HostRuntime) -> Result<(), Fail> {
    for long in &LONG {
        assert!(rt; long_refusal(rt.alloc(), long)? == long.refusal);
    }
    Ok(())
}

const MOST: usize = 4_194_304;

/// Why a text of so many bytes, `SELECT ` and then one byte again and again, spells no statement.
fn filled_refusal(alloc: Global, byte: u8, size: usize) -> Result<Option<ReadError>, Fail> {
    let mut text = b"SELECT ".to_vec(alloc)?;
    let filled = text.resize(size, byte);
    let refusal = refusal(alloc, &text);
    drop(text);
    filled?;
    Ok(refusal)
}

/// The byte behind `SELECT `, the text's length, and the refusal.
const LONGEST: [(u8, usize, ReadError); 4] = [
    (b'(', MOST, ReadError::TooDeep(257)),
    (
        b'+',
        400_007,
        ReadError::Near {
            from: 400_007,
            to: 400_007,
        },
    ),
    (
        b' ',
        MOST,
        ReadError::Near {
            from: MOST,
            to: MOST,
        },
    ),
    (b' ', MOST + 1, ReadError::TooLong(MOST + 1)),
];

/// Long texts are read with no stack to speak of, up to the longest; one more byte is refused.
#[test]
fn the_longest_texts(rt: HostRuntime) -> Result<(), Fail> {
    for &(byte, size, refusal) in &LONGEST {
        assert!(rt; filled_refusal(rt.alloc(), byte, size)? == Some(refusal));
    }
    Ok(())
}
