//! Texts and their tokens.
use rq_grammar::{Token, Word};
use rq_lexer::{Lexer, Placed};
use std::alloc::Global;
use std::test::Fail;

fn kind_of(word: Word) -> &'static str {
    match word {
        Word::Plain => "word",
        Word::OutOfProfile { reserved: true } => "reserved out",
        Word::OutOfProfile { reserved: false } => "out",
        _ => "own",
    }
}

fn named(alloc: Global, kind: &str, text: &[u8]) -> Result<String, Fail> {
    let shown = String::from_utf8_lossy(alloc, text)?;
    Ok(format!(in alloc; "{kind} {shown}")?)
}

fn hex(alloc: Global, bytes: &[u8]) -> Result<String, Fail> {
    let mut shown = "blob ".to_string(alloc)?;
    for byte in bytes {
        shown.push_str(&format!(in alloc; "{byte:02x}")?)?;
    }
    Ok(shown)
}

fn mark_of(token: &Token) -> &'static str {
    match token {
        Token::Equal => "=",
        Token::EqualEqual => "==",
        Token::LessGreater => "<>",
        Token::BangEqual => "!=",
        Token::Less => "<",
        Token::LessEqual => "<=",
        Token::Greater => ">",
        Token::GreaterEqual => ">=",
        Token::Plus => "+",
        Token::Minus => "-",
        Token::Star => "*",
        Token::Slash => "/",
        Token::Percent => "%",
        Token::BarBar => "||",
        Token::Dot => ".",
        Token::Comma => ",",
        Token::Open => "(",
        Token::Close => ")",
        Token::Semi => ";",
        Token::Parameter(None) => "?",
        _ => "other",
    }
}

fn token_text(alloc: Global, token: &Token) -> Result<String, Fail> {
    match token {
        Token::Word(name, word) => named(alloc, kind_of(*word), name.bytes()),
        Token::Quoted(name) => named(alloc, "quoted", name.bytes()),
        Token::String(text) => named(alloc, "text", text.bytes()),
        Token::Blob(bytes) => hex(alloc, bytes.bytes()),
        Token::Numeral(number) => Ok(format!(in alloc; "number {number}")?),
        Token::OtherNumeral(run) => named(alloc, "numeral", run.bytes()),
        Token::Parameter(Some(name)) => named(alloc, "parameter", name.bytes()),
        mark => Ok(mark_of(mark).to_string(alloc)?),
    }
}

/// A token with its place, behind the others.
fn push_token(alloc: Global, placed: &Placed, shown: &mut String) -> Result<(), Fail> {
    let between = if shown.is_empty() { "" } else { " & " };
    let token = token_text(alloc, &placed.token)?;
    let (start, end) = (placed.start, placed.end);
    let text = format!(in alloc; "{between}{start}-{end} {token}");
    drop(token);
    Ok(shown.push_str(&text?)?)
}

/// The tokens of a text with their places, one after the other.
fn tokens(alloc: Global, text: &[u8]) -> Result<String, Fail> {
    let mut lexer = Lexer::new(text);
    let mut shown = String::new(alloc);
    while let Some(placed) = lexer.next_token(alloc)? {
        let pushed = push_token(alloc, &placed, &mut shown);
        drop(placed);
        pushed?;
    }
    Ok(shown)
}

const CASES: [(&[u8], &str); 31] = [
    (
        b"SELECT a.b FROM t",
        "0-6 own SELECT & 7-8 word a & 8-9 . & 9-10 word b & 11-15 own FROM & 16-17 word t",
    ),
    (
        b"seLeCt Group index _a1 current_timestamp current_times",
        "0-6 own seLeCt & 7-12 reserved out Group & 13-18 out index & 19-22 word _a1 & 23-40 own current_timestamp & 41-54 word current_times",
    ),
    (b"", ""),
    (b" \t\r\n", ""),
    (
        b"a\x0bb\x0c",
        "0-1 word a & 1-2 other & 2-3 word b & 3-4 other",
    ),
    (b"a--b\nc--", "0-1 word a & 5-6 word c"),
    (b"a--b\rc", "0-1 word a"),
    (
        b"a/*b*/c/***//**/d",
        "0-1 word a & 6-7 word c & 16-17 word d",
    ),
    (b"- -/ */*", "0-1 - & 2-3 - & 3-4 / & 5-6 *"),
    (b"a/*/b* /", "0-1 word a"),
    (
        b"\"a\"\"b\" \"\" \"Select\"",
        "0-6 quoted a\"b & 7-9 quoted  & 10-18 quoted Select",
    ),
    (
        b"'it''s' '' '''' 'a\n--'",
        "0-7 text it's & 8-10 text  & 11-15 text ' & 16-22 text a\n--",
    ),
    (b"a'abc", "0-1 word a & 1-5 other"),
    (b"'''", "0-3 other"),
    (b"\"a\"\"", "0-4 other"),
    (b"a \"b--\nc", "0-1 word a & 2-8 other"),
    (
        b"'a\0' \"\0\" '\xff' \"\xe2\x82\" '\xc3\xa9'",
        "0-4 other & 5-8 other & 9-12 other & 13-17 other & 18-22 text é",
    ),
    (b"X'ab''cd'", "0-5 blob ab & 5-9 text cd"),
    (
        b"x'' X'00fF' X 'ab'",
        "0-3 blob  & 4-11 blob 00ff & 12-13 word X & 14-18 text ab",
    ),
    (b"X'abc'X'ag'x'a", "0-6 other & 6-11 other & 11-14 other"),
    (
        b"9223372036854775807 9223372036854775808 9223372036854775809",
        "0-19 number 9223372036854775807 & 20-39 number 9223372036854775808 & 40-59 numeral 9223372036854775809",
    ),
    (
        b"007 00000000000000000000000 99999999999999999999 18446744073709551616",
        "0-3 number 7 & 4-27 number 0 & 28-48 numeral 99999999999999999999 & 49-69 numeral 18446744073709551616",
    ),
    (
        b"1.5 1e5+1 0x1F 1_0 1.a 1. a.1 .5",
        "0-3 numeral 1.5 & 4-7 numeral 1e5 & 7-8 + & 8-9 number 1 & 10-14 numeral 0x1F & 15-18 numeral 1_0 & 19-22 numeral 1.a & 23-25 numeral 1. & 26-27 word a & 27-28 . & 28-29 number 1 & 30-31 . & 31-32 number 5",
    ),
    (
        b"? ?1 :a @select $x1.y",
        "0-1 ? & 2-3 ? & 3-4 number 1 & 5-7 parameter a & 8-15 parameter select & 16-19 parameter x1 & 19-20 . & 20-21 word y",
    ),
    (
        b":1 : a ::b $",
        "0-1 other & 1-2 number 1 & 3-4 other & 5-6 word a & 7-8 other & 8-10 parameter b & 11-12 other",
    ),
    (
        b"===<>!=<=>=||=<>",
        "0-2 == & 2-3 = & 3-5 <> & 5-7 != & 7-9 <= & 9-11 >= & 11-13 || & 13-14 = & 14-16 <>",
    ),
    (
        b"<=><<->|||!a",
        "0-2 <= & 2-3 > & 3-4 < & 4-5 < & 5-6 - & 6-7 > & 7-9 || & 9-10 other & 10-11 other & 11-12 word a",
    ),
    (
        b"+-*/%.,();<>=&~",
        "0-1 + & 1-2 - & 2-3 * & 3-4 / & 4-5 % & 5-6 . & 6-7 , & 7-8 ( & 8-9 ) & 9-10 ; & 10-12 <> & 12-13 = & 13-14 other & 14-15 other",
    ),
    (
        b"a\xc3\xa9\xe2\x82\xac\xf0\x9f\x98\x80\0b",
        "0-1 word a & 1-3 other & 3-6 other & 6-10 other & 10-11 other & 11-12 word b",
    ),
    (
        b"\xe2\x82A\xff\xed\xa0\x80\xc3",
        "0-1 other & 1-2 other & 2-3 word A & 3-4 other & 4-5 other & 5-6 other & 6-7 other & 7-8 other",
    ),
    (
        b"\xf4\x90\x80\x80\xc0\xaf",
        "0-1 other & 1-2 other & 2-3 other & 3-4 other & 4-5 other & 5-6 other",
    ),
];

#[test]
fn texts_and_their_tokens(rt: HostRuntime) -> Result<(), Fail> {
    let alloc = rt.alloc();
    for (text, expected) in &CASES {
        assert_eq!(rt; tokens(alloc, text)?.as_str(), *expected);
    }
    Ok(())
}

/// A long text is read in a loop, with no stack, in a time that is linear.
#[test]
fn a_long_text(rt: HostRuntime) -> Result<(), Fail> {
    let alloc = rt.alloc();
    let text = vec![in alloc; b'('; 1 << 20]?;
    let mut lexer = Lexer::new(&text);
    let mut last = 0;
    while let Some(placed) = lexer.next_token(alloc)? {
        last = placed.end;
        drop(placed);
    }
    assert_eq!(rt; last, 1 << 20);
    Ok(())
}
