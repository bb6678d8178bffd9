use rq_values::{
    Addr, Bytes, DecodeError, Id, Seq, Text, TryCopy, Value, compare, decode, encode, read_text,
    read_u32, read_u64,
};
use std::alloc::Global;
use std::cmp::Ordering;
use std::test::Fail;

fn text(alloc: Global, bytes: &[u8]) -> Result<Value, Fail> {
    let text = Text::new(alloc, bytes)?.ok_or("no text")?;
    Ok(Value::Text(text))
}

fn is_copied(alloc: Global, value: &Value) -> Result<bool, Fail> {
    let copy = value.copy(alloc)?;
    let is_same = copy == *value;
    drop(copy);
    Ok(is_same)
}

/// Whether the value is spelled so and read from that, and equals its copy.
fn is_spelled(alloc: Global, value: &Value, bytes: &[u8]) -> Result<bool, Fail> {
    let mut spelled = Vec::new(alloc);
    let is_same = encode(value, &mut spelled).is_ok() && spelled.as_slice() == bytes;
    drop(spelled);
    let (read, len) = decode(alloc, bytes, 0, 5)?;
    let is_read = read == *value && len == bytes.len();
    drop(read);
    Ok(is_same && is_read && is_copied(alloc, value)?)
}

fn text_is_spelled(alloc: Global, text: &[u8], bytes: &[u8]) -> Result<bool, Fail> {
    let value = self::text(alloc, text)?;
    let is = is_spelled(alloc, &value, bytes);
    drop(value);
    is
}

fn blob_is_spelled(alloc: Global, blob: &[u8], bytes: &[u8]) -> Result<bool, Fail> {
    let value = Value::Blob(Bytes::new(alloc, blob)?);
    let is = is_spelled(alloc, &value, bytes);
    drop(value);
    is
}

/// Each value is spelled as stated, is read again, and equals its copy.
#[test]
fn values_and_their_bytes(rt: HostRuntime) -> Result<(), Fail> {
    let alloc = rt.alloc();
    let minus_one = b"\x01\xff\xff\xff\xff\xff\xff\xff\xff";
    assert!(rt; is_spelled(alloc, &Value::Null, b"\x00")?);
    assert!(rt; is_spelled(alloc, &Value::Int(-1), minus_one)?);
    assert!(rt; is_spelled(alloc, &Value::Int(258), b"\x01\x02\x01\0\0\0\0\0\0")?);
    assert!(rt; text_is_spelled(alloc, b"fiona", b"\x02\x05\0\0\0fiona")?);
    assert!(rt; blob_is_spelled(alloc, b"\0\xff", b"\x03\x02\0\0\0\0\xff")?);
    Ok(())
}

fn refusal(alloc: Global, bytes: &[u8]) -> Option<DecodeError> {
    decode(alloc, bytes, 0, 5).err()
}

/// What isn't the spelling of a value is refused at its place.
#[test]
fn faults_and_their_places(rt: HostRuntime) -> Result<(), Fail> {
    let alloc = rt.alloc();
    for (bytes, error) in [
        (b"".as_slice(), DecodeError::Short(0)),
        (b"\x09".as_slice(), DecodeError::Kind(0, 9)),
        (b"\x02\x05\0\0\0f".as_slice(), DecodeError::Short(6)),
        (b"\x02\x06\0\0\0abcdef".as_slice(), DecodeError::Long(1, 6)),
        (b"\x02\x02\0\0\0a\0".as_slice(), DecodeError::NotText(1)),
        (b"\x02\x01\0\0\0\xff".as_slice(), DecodeError::NotText(1)),
    ] {
        assert!(rt; refusal(alloc, bytes) == Some(error));
    }
    let fields = b"\x01\0\0\0\x02\0\0\0\0\0\0\0\x02\0\0\0hi";
    assert!(rt; read_u32(fields, 0) == Ok((1, 4)));
    assert!(rt; read_u64(fields, 4) == Ok((2, 12)));
    let (hi, end) = read_text(alloc, fields, 12, 2)?;
    let is_hi = hi.bytes() == b"hi".as_slice();
    drop(hi);
    assert!(rt; (is_hi, end) == (true, 18));
    Ok(())
}

fn rise(values: &[&Value]) -> bool {
    for (low, high) in values.iter().zip(values.iter().skip(1)) {
        if compare(low, high) != Ordering::Less {
            return false;
        }
    }
    true
}

#[test]
fn order(rt: HostRuntime) -> Result<(), Fail> {
    let alloc = rt.alloc();
    let a = text(alloc, b"a")?;
    let ab = text(alloc, b"ab")?;
    let blob = Value::Blob(Bytes::new(alloc, b"")?);
    let is_rising = rise(&[
        &Value::Null,
        &Value::Int(-7),
        &Value::Int(3),
        &a,
        &ab,
        &blob,
    ]);
    drop((a, ab, blob));
    assert!(rt; is_rising);
    Ok(())
}

#[test]
fn names(rt: HostRuntime) -> Result<(), Fail> {
    let alloc = rt.alloc();
    for (name, is) in [
        (b"n1".as_slice(), true),
        (b"1n".as_slice(), false),
        (b"".as_slice(), false),
        (b"abcdefghijklmnop".as_slice(), true),
        (b"abcdefghijklmnopq".as_slice(), false),
        (b"nB".as_slice(), false),
    ] {
        assert!(rt; Id::new(name).is_some() == is);
    }
    assert!(rt; Id::new(b"n10") < Id::new(b"n2"));
    assert!(rt; Addr::new(alloc, b"n1:4001")?.is_some());
    assert!(rt; Addr::new(alloc, b"n1 4001")?.is_none());
    Ok(())
}

fn list_is_copied(alloc: Global, list: &Seq<Value>) -> Result<bool, Fail> {
    let copy = list.copy(alloc)?;
    let is_same = copy.as_slice() == list.as_slice();
    drop(copy);
    Ok(is_same)
}

#[test]
fn copies(rt: HostRuntime) -> Result<(), Fail> {
    let mut list = Seq::new(rt.alloc());
    list.push(text(rt.alloc(), b"a")?)?;
    list.push(text(rt.alloc(), b"ab")?)?;
    let is_same = list_is_copied(rt.alloc(), &list);
    drop(list);
    assert!(rt; is_same?);
    Ok(())
}
