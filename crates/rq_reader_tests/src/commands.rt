use rq_command::{decode_command, decode_execute};
use rq_statement::{encode_command, encode_execute};
use rq_values::DecodeError;
use std::alloc::Global;
use std::test::Fail;

/// The command that runs one statement.
const COMMAND: &[u8] =
    b"\x01\0\x01\0\0\0\0\x2d\0\0\0CREATE TABLE \"foo\" (\"id\" INTEGER PRIMARY KEY)";

/// A statement and an error.
const TWO: &[u8] = b"\x01\0\x02\0\0\0\0\x13\0\0\0SELECT * FROM \"foo\"\x01\x09\0\0\0not built";

/// The bytes behind the command.
const TRAILING: &[u8] = b"\x01\0\x01\0\0\0\x01\x01\0\0\0x\0";

fn refusal(alloc: Global, bytes: &[u8]) -> Option<DecodeError> {
    decode_execute(alloc, bytes).err()
}

/// Whether the bytes are read as so many items, which are spelled so.
fn is_read(alloc: Global, bytes: &[u8], count: usize) -> Result<bool, Fail> {
    let items = decode_execute(alloc, bytes).ok().ok_or("refused")?;
    let mut spelled = Vec::new(alloc);
    let done = encode_execute(items.as_slice(), &mut spelled);
    let is_same = done.is_ok() && spelled.as_slice() == bytes && items.len() == count;
    drop((items, spelled));
    Ok(is_same)
}

#[test]
fn commands_and_refusals(rt: HostRuntime) -> Result<(), Fail> {
    let alloc = rt.alloc();
    assert_eq!(rt; COMMAND.len(), 56);
    for (bytes, count) in [(COMMAND, 1), (TWO, 2), (b"\x01\0\0\0\0\0".as_slice(), 0)] {
        assert!(rt; is_read(alloc, bytes, count)?);
    }
    for len in 0..56 {
        assert_eq!(rt;
            refusal(alloc, &COMMAND[..len]),
            Some(DecodeError::Short(len))
        );
    }
    for (bytes, error) in [
        (b"\x02\0\0\0\0\0".as_slice(), DecodeError::Kind(0, 2)),
        (b"\x01\x01\0\0\0\0".as_slice(), DecodeError::Kind(1, 1)),
        (b"\x01\0\x01\0\0\0\x02".as_slice(), DecodeError::Kind(6, 2)),
        (
            b"\x01\0\x01\0\0\0\0\x01\0\x80\0".as_slice(),
            DecodeError::Long(7, 8_388_609),
        ),
        (
            b"\x01\0\x01\0\0\0\0\x01\0\0\0\xff".as_slice(),
            DecodeError::NotText(7),
        ),
        (
            b"\x01\0\x01\0\0\0\x01\x01\0\0\0\0".as_slice(),
            DecodeError::NotText(7),
        ),
        (
            b"\x01\0\x01\0\0\0\0\x11\0\0\0SELECT * FROM foo\0".as_slice(),
            DecodeError::Text(7),
        ),
        (
            b"\x01\0\x01\0\0\0\0\x08\0\0\0SELECT ?".as_slice(),
            DecodeError::Text(7),
        ),
        (TRAILING, DecodeError::Trailing(12)),
    ] {
        assert_eq!(rt; refusal(alloc, bytes), Some(error));
    }
    Ok(())
}

/// A list that was sent on: of `n1` in its boot 1, as number 2, a transaction of one statement.
const ONCE: &[u8] =
    b"\x06\x02\0\0\0n1\x01\0\0\0\0\0\0\0\x02\0\0\0\0\0\0\0\x01\x01\0\0\0\0\x13\0\0\0SELECT * FROM \"foo\"";

/// A command of each kind.
const COMMANDS: [&[u8]; 10] = [
    COMMAND,
    TWO,
    ONCE,
    b"\x01\x01\0\0\0\0",
    b"\x02\0\x01\0\0\0\x01\x01\0\0\0x",
    b"\x03\x01\0\0\0\0\x13\0\0\0SELECT * FROM \"foo\"",
    b"\x04\0\0\0\0",
    b"\x05\0\0\0\0",
    b"\x05\x02\0\0\0\x01\0\0\0\0\0\x01\0\0\0\x01\x01\0\0\0x",
    b"\x06\x02\0\0\0n1\xff\xff\xff\xff\xff\xff\xff\xff\0\0\0\0\0\0\0\0\0\0\0\0\0",
];

const REFUSALS: [(&[u8], DecodeError); 15] = [
    (b"", DecodeError::Short(0)),
    (b"\0", DecodeError::Kind(0, 0)),
    (b"\x07", DecodeError::Kind(0, 7)),
    (b"\x01\x02", DecodeError::Kind(1, 2)),
    (b"\x01\x01\0\0\0", DecodeError::Short(5)),
    (b"\x02\x01\x01\0\0\0\x02", DecodeError::Kind(6, 2)),
    (b"\x03\x01\0\0\0", DecodeError::Short(5)),
    (b"\x04\0\0\0\0\0", DecodeError::Trailing(5)),
    (b"\x05\x01\0\0\0\x02", DecodeError::Kind(5, 2)),
    (
        b"\x05\x02\0\0\0\0\0\0\0\0\x01\x01\0\0\0\x01\x01\0\0\0\0",
        DecodeError::NotText(16),
    ),
    (b"\x06\x02\0\0\0N1", DecodeError::NotText(1)),
    (b"\x06\0\0\0\0", DecodeError::NotText(1)),
    (b"\x06\x01\0\x80\0", DecodeError::Long(1, 8_388_609)),
    (
        b"\x03\x01\0\0\0\0\x11\0\0\0SELECT * FROM foo",
        DecodeError::Text(6),
    ),
    (b"\x04\x01\0\0\0\0\x08\0\0\0SELECT ?", DecodeError::Text(6)),
];

/// Whether the bytes are a command that is spelled so.
fn is_command(alloc: Global, bytes: &[u8]) -> Result<bool, Fail> {
    let command = decode_command(alloc, bytes).ok().ok_or("refused")?;
    let mut spelled = Vec::new(alloc);
    let done = encode_command(&command, &mut spelled);
    let is_same = done.is_ok() && spelled.as_slice() == bytes;
    drop((command, spelled));
    Ok(is_same)
}

#[test]
fn commands_of_all_kinds(rt: HostRuntime) -> Result<(), Fail> {
    let alloc = rt.alloc();
    for bytes in COMMANDS {
        assert!(rt; is_command(alloc, bytes)?);
    }
    for (bytes, error) in REFUSALS {
        assert_eq!(rt; decode_command(alloc, bytes).err(), Some(error));
    }
    for len in 0..ONCE.len() {
        assert_eq!(rt;
            decode_command(alloc, &ONCE[..len]).err(),
            Some(DecodeError::Short(len))
        );
    }
    Ok(())
}
