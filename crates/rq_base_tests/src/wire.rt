use rq_values::{Addr, Bytes, DecodeError, Id, Seq, TryCopy};
use rq_wire::{Body, Config, Entry, Member, decode_entry, encode_config, encode_entry, quorum};
use std::alloc::Global;
use std::test::Fail;

fn addr(alloc: Global, bytes: &[u8]) -> Result<Addr, Fail> {
    Ok(Addr::new(alloc, bytes)?.ok_or("no address")?)
}

/// The member `n1` of a first configuration.
fn first_config(alloc: Global) -> Result<Config, Fail> {
    let http = addr(alloc, b"n1:4001")?;
    let raft = addr(alloc, b"n1:4002")?;
    let mut members = Seq::new(alloc);
    members.push(Member {
        id: Id::new(b"n1").ok_or("no id")?,
        voter: true,
        http,
        raft,
    })?;
    Ok(Config::new(members).ok_or("ids that don't rise")?)
}

const CONFIG: &[u8] = b"\x01\0\0\0\x02\0\0\0n1\x01\x07\0\0\0n1:4001\x07\0\0\0n1:4002";

#[test]
fn a_configuration_and_its_bytes(rt: HostRuntime) -> Result<(), Fail> {
    let alloc = rt.alloc();
    let config = first_config(alloc)?;
    let mut spelled = Vec::new(alloc);
    let is_spelled = encode_config(&config, &mut spelled).is_ok() && spelled.as_slice() == CONFIG;
    let votes = quorum(&config);
    drop((config, spelled));
    assert!(rt; (is_spelled, votes) == (true, 1));
    Ok(())
}

fn is_copied(alloc: Global, entry: &Entry) -> Result<bool, Fail> {
    let copy = entry.copy(alloc)?;
    let is_same = copy == *entry;
    drop(copy);
    Ok(is_same)
}

/// Whether the entry is spelled so and read from that, and equals its copy.
fn is_spelled(alloc: Global, entry: &Entry, bytes: &[u8]) -> Result<bool, Fail> {
    let mut spelled = Vec::new(alloc);
    let is_same = encode_entry(entry, &mut spelled).is_ok() && spelled.as_slice() == bytes;
    drop(spelled);
    let read = decode_entry(alloc, bytes)?;
    let is_read = read == *entry;
    drop(read);
    Ok(is_same && is_read && is_copied(alloc, entry)?)
}

fn body_is_spelled(alloc: Global, term: u64, body: Body, bytes: &[u8]) -> Result<bool, Fail> {
    let entry = Entry { term, body };
    let is = is_spelled(alloc, &entry, bytes);
    drop(entry);
    is
}

/// Entries are spelled as stated, are read again, and equal their copies.
#[test]
fn entries_and_their_bytes(rt: HostRuntime) -> Result<(), Fail> {
    let alloc = rt.alloc();
    let mut bytes = b"\0\0\0\0\0\0\0\0\x01".to_vec(alloc)?;
    bytes.extend_from_slice(CONFIG)?;
    let is = body_is_spelled(alloc, 0, Body::Config(first_config(alloc)?), &bytes);
    drop(bytes);
    assert!(rt; is?);
    assert!(rt; body_is_spelled(alloc, 1, Body::NoOp, b"\x01\0\0\0\0\0\0\0\0")?);
    let data = Body::Data(Bytes::new(alloc, b"\x09")?);
    let bytes = b"\x02\x01\0\0\0\0\0\0\x02\x01\0\0\0\x09";
    assert!(rt; body_is_spelled(alloc, 258, data, bytes)?);
    Ok(())
}

fn refusal(alloc: Global, bytes: &[u8]) -> Option<DecodeError> {
    decode_entry(alloc, bytes).err()
}

/// What isn't the spelling of an entry is refused at its place.
#[test]
fn faults_and_their_places(rt: HostRuntime) -> Result<(), Fail> {
    let alloc = rt.alloc();
    for (bytes, error) in [
        (b"\x01\0\0\0\0\0\0".as_slice(), DecodeError::Short(7)),
        (
            b"\x01\0\0\0\0\0\0\0\x03".as_slice(),
            DecodeError::Kind(8, 3),
        ),
        (
            b"\x01\0\0\0\0\0\0\0\0\0".as_slice(),
            DecodeError::Trailing(9),
        ),
        (
            b"\x01\0\0\0\0\0\0\0\x02\x01\0\x80\0".as_slice(),
            DecodeError::Long(9, 8_388_609),
        ),
        (
            b"\x01\0\0\0\0\0\0\0\x01\x01\0\0\0\x01\0\0\0N".as_slice(),
            DecodeError::NotText(13),
        ),
        (
            b"\x01\0\0\0\0\0\0\0\x01\x02\0\0\0\x01\0\0\0b\0\x01\0\0\0h\x01\0\0\0r\x01\0\0\0b".as_slice(),
            DecodeError::Order(29),
        ),
    ] {
        assert!(rt; refusal(alloc, bytes) == Some(error));
    }
    Ok(())
}
