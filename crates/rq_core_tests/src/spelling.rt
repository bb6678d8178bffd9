//! Packets and their bytes.
use crate::net::id_of;
use rq_log::{Message, Packet};
use rq_packets::{decode_packet, encode_packet};
use rq_values::{Bytes, DecodeError, Seq};
use rq_wire::{Body, Entry};
use std::alloc::Global;
use std::test::Fail;

/// A packet of term 1 of node 1 to node 2 that says this is spelled so, and read from that: what was read is spelled alike.
fn is_spelled(alloc: Global, message: Message<Entry>, fields: &[u8]) -> Result<bool, Fail> {
    let packet = Packet {
        term: 1,
        from: id_of(1).ok_or("no id")?,
        to: id_of(2).ok_or("no id")?,
        message,
    };
    let mut spelled = Vec::new(alloc);
    let done = encode_packet(&packet, &mut spelled);
    drop(packet);
    let read = decode_packet::<Entry>(alloc, &spelled)?;
    let mut again = Vec::new(alloc);
    let twice = encode_packet(&read, &mut again);
    drop(read);
    let is = done.is_ok()
        && twice.is_ok()
        && again == spelled
        && spelled.len() > 22
        && &spelled[2..22] == HEADER
        && &spelled[22..] == fields;
    drop((spelled, again));
    Ok(is)
}

/// Term 1, from `n1` to `n2`.
const HEADER: &[u8] = b"\x01\0\0\0\0\0\0\0\x02\0\0\0n1\x02\0\0\0n2";

/// The first packet of an election of three: a request of `n1` to `n2`, 38 bytes.
const FIRST: &[u8] =
    b"\x01\x01\x01\0\0\0\0\0\0\0\x02\0\0\0n1\x02\0\0\0n2\0\0\0\0\0\0\0\0\0\0\0\0\0\0\0\0";

#[test]
fn packets_and_their_bytes(rt: HostRuntime) -> Result<(), Fail> {
    let alloc = rt.alloc();
    let ask = Message::VoteAsk {
        last_index: 258,
        last_term: 3,
    };
    assert!(rt; is_spelled(alloc, ask, b"\x02\x01\0\0\0\0\0\0\x03\0\0\0\0\0\0\0")?);
    assert!(rt; is_spelled(alloc, Message::VoteSay { granted: true }, b"\x01")?);
    let say = Message::AppendSay {
        ok: false,
        at: 5,
        probe: 6,
    };
    assert!(rt; is_spelled(alloc, say, b"\0\x05\0\0\0\0\0\0\0\x06\0\0\0\0\0\0\0")?);
    let mut entries = Seq::new(alloc);
    let data = Bytes::new(alloc, b"\x09")?;
    entries.push(Entry {
        term: 4,
        body: Body::Data(data),
    })?;
    entries.push(Entry {
        term: 5,
        body: Body::NoOp,
    })?;
    let append = Message::Append {
        prev: 1,
        prev_term: 2,
        commit: 3,
        probe: 7,
        entries,
    };
    assert!(rt;
        is_spelled(
            alloc,
            append,
            b"\x01\0\0\0\0\0\0\0\x02\0\0\0\0\0\0\0\x03\0\0\0\0\0\0\0\x07\0\0\0\0\0\0\0\x02\0\0\0\x04\0\0\0\0\0\0\0\x02\x01\0\0\0\x09\x05\0\0\0\0\0\0\0\0",
        )?
    );
    Ok(())
}

fn refusal(alloc: Global, bytes: &[u8]) -> Option<DecodeError> {
    match decode_packet::<Entry>(alloc, bytes) {
        Ok(packet) => {
            drop(packet);
            None
        }
        Err(error) => Some(error),
    }
}

/// The first packet with that byte in place of its own.
fn refusal_with(alloc: Global, at: usize, byte: u8) -> Result<Option<DecodeError>, Fail> {
    let mut bytes = Vec::from_slice(alloc, FIRST)?;
    match bytes.get_mut(at) {
        Some(place) => *place = byte,
        None => bytes.push(byte)?,
    }
    let refused = refusal(alloc, &bytes);
    drop(bytes);
    Ok(refused)
}

/// What isn't the spelling of a packet is refused at its place. A list that claims 2^32 - 1 entries is cut off at its first one.
#[test]
fn faults_and_their_places(rt: HostRuntime) -> Result<(), Fail> {
    let alloc = rt.alloc();
    for (at, byte, error) in [
        (0, 2, DecodeError::Kind(0, 2)),
        (1, 0, DecodeError::Kind(1, 0)),
        (1, 5, DecodeError::Kind(1, 5)),
        (13, 1, DecodeError::Long(10, 16_777_218)),
        (14, b'N', DecodeError::NotText(10)),
        (20, 0, DecodeError::NotText(16)),
        (38, 7, DecodeError::Trailing(38)),
        (1, 3, DecodeError::Short(38)),
    ] {
        assert!(rt;
            refusal_with(alloc, at, byte)? == Some(error),
            "{at} {byte}"
        );
    }
    assert!(rt; refusal(alloc, FIRST) == None);
    assert!(rt; refusal(alloc, &FIRST[..37]) == Some(DecodeError::Short(37)));
    let claims =
        b"\x01\x03\x01\0\0\0\0\0\0\0\x02\0\0\0n1\x02\0\0\0n2\0\0\0\0\0\0\0\0\0\0\0\0\0\0\0\0\0\0\0\0\0\0\0\0\0\0\0\0\0\0\0\0\xff\xff\xff\xff\0";
    assert!(rt; refusal(alloc, claims) == Some(DecodeError::Short(59)));
    Ok(())
}
