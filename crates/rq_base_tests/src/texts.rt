use rq_values::{Rowid, Text, TryCopy, Value, decode_whole, next_i64, put_i64};
use std::alloc::Global;
use std::test::Fail;

/// `table foo 18446744073709551615`, piece by piece.
fn grown(alloc: Global) -> Result<Text, Fail> {
    let mut text = Text::empty(alloc);
    text.push_plain(b"table ")?;
    let name = Text::new(alloc, b"foo ")?.ok_or("no text")?;
    let pushed = text.push_text(&name);
    drop(name);
    pushed?;
    text.push_number(alloc, u64::MAX)?;
    Ok(text)
}

/// Whether the text has these bytes. It is let go.
fn reads(text: Text, bytes: &[u8]) -> bool {
    let is = text.bytes() == bytes;
    drop(text);
    is
}

fn cased(alloc: Global, bytes: &[u8], low: &[u8], high: &[u8]) -> Result<bool, Fail> {
    let text = Text::new(alloc, bytes)?.ok_or("no text")?;
    let lower = text.lower(alloc);
    let upper = text.upper(alloc);
    let both = text.joined(alloc, &text);
    drop(text);
    let is_low = reads(lower?, low);
    let is_high = reads(upper?, high);
    Ok(is_low && is_high && both?.bytes().len() == 2 * bytes.len())
}

#[test]
fn texts_that_are_made(rt: HostRuntime) -> Result<(), Fail> {
    let alloc = rt.alloc();
    assert!(rt; reads(grown(alloc)?, b"table foo 18446744073709551615"));
    for (number, digits) in [
        (0, b"0".as_slice()),
        (-7, b"-7".as_slice()),
        (i64::MIN, b"-9223372036854775808".as_slice()),
    ] {
        assert!(rt; reads(Text::of_integer(alloc, number)?, digits));
    }
    assert!(rt; cased(alloc, b"aZ\xc3\x84z", b"az\xc3\x84z", b"AZ\xc3\x84Z")?);
    Ok(())
}

/// Whether the bytes are taken over as a text.
fn is_taken(alloc: Global, bytes: &[u8]) -> Result<bool, Fail> {
    match Text::from_vec(bytes.to_vec(alloc)?) {
        Some(text) => Ok(reads(text, bytes)),
        None => Ok(false),
    }
}

/// Whether the string is taken over as a text, and is the same again as a `str`.
fn is_taken_string(alloc: Global, string: &str) -> Result<bool, Fail> {
    match Text::from_string(string.to_string(alloc)?) {
        Some(text) => {
            let is = text.as_str() == string;
            drop(text);
            Ok(is)
        }
        None => Ok(false),
    }
}

#[test]
fn texts_that_are_taken_over(rt: HostRuntime) -> Result<(), Fail> {
    let alloc = rt.alloc();
    for (bytes, is) in [
        (b"fiona".as_slice(), true),
        (b"a\0".as_slice(), false),
        (b"\xff".as_slice(), false),
    ] {
        assert!(rt; is_taken(alloc, bytes)? == is);
    }
    assert!(rt; is_taken_string(alloc, "fiona")?);
    assert!(rt; !is_taken_string(alloc, "a\0")?);
    Ok(())
}

fn is_whole(alloc: Global, bytes: &[u8], value: &Value) -> Result<bool, Fail> {
    let read = decode_whole::<Value>(alloc, bytes, 5)
        .ok()
        .ok_or("refused")?;
    let is = read == *value;
    drop(read);
    Ok(is)
}

fn is_signed(alloc: Global, number: i64) -> Result<bool, Fail> {
    let mut bytes = Vec::new(alloc);
    put_i64(number, &mut bytes)?;
    let read = next_i64(&bytes) == Ok((number, b"".as_slice()));
    drop(bytes);
    Ok(read)
}

fn is_copied(alloc: Global, value: Option<Value>) -> Result<bool, Fail> {
    let copy = value.copy(alloc);
    let is = copy? == value;
    drop(value);
    Ok(is)
}

#[test]
fn numbers_options_and_whole_inputs(rt: HostRuntime) -> Result<(), Fail> {
    let alloc = rt.alloc();
    assert!(rt; is_signed(alloc, -2)? && is_signed(alloc, i64::MAX)?);
    assert!(rt; is_whole(alloc, b"\0", &Value::Null)?);
    assert!(rt; is_copied(alloc, Some(Value::Int(3)))? && is_copied(alloc, None)?);
    assert!(rt; Rowid(-1) < Rowid(2) && Value::Int(9) < Value::Text(Text::empty(alloc)));
    Ok(())
}
