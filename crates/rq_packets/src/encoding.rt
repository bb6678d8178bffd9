//! Writing packets.
ghost use Rattle.std.specs.Prelude.{◌≡◌, ◌++◌, OnOk, OnErr};
ghost use Rattle.rq_values.specs.Spelling.{bool_bytes, list_bytes};
ghost use Rattle.rq_values.specs.Writing.{KeepsPrefix};
ghost use Rattle.rq_packets.specs.Sent.{saying_kind, message_with, packet_with};
ghost use Rattle.rq_packets.specs.Spelling.{two_bytes, header_bytes, fields_bytes, packet_bytes};

use rq_log::{Message, Outgoing, Packet, Saying};
use rq_values::{Encode, Id, NoMemory, put_bool, put_list, put_u8, put_u64};

/// Adds two numbers.
fn put_two(first: u64, second: u64, into: &mut Vec<u8>) -> Result<(), NoMemory>
    ensures ok { OnOk result (into.new.items ≡ into.old.items ++ two_bytes (first, second)) }
    ensures err { OnErr result (KeepsPrefix into.old.items into.new.items) }
{
    put_u64(first, into)?;
    put_u64(second, into)
}

/// The byte of the kind.
fn kind_byte(saying: Saying) -> u8
    ensures { result ≡ saying_kind saying }
{
    match saying {
        Saying::VoteAsk {
            last_index: _,
            last_term: _,
        } => 1,
        Saying::VoteSay { granted: _ } => 2,
        Saying::Append {
            prev: _,
            prev_term: _,
            commit: _,
            probe: _,
            count: _,
        } => 3,
        Saying::AppendSay {
            ok: _,
            at: _,
            probe: _,
        } => 4,
    }
}

/// Adds what stands before the fields of a kind.
fn put_header(kind: u8, term: u64, from: Id, to: Id, into: &mut Vec<u8>) -> Result<(), NoMemory>
    ensures ok { OnOk result (into.new.items ≡ into.old.items ++ header_bytes (1, (kind, (term, (from, to))))) }
    ensures err { OnErr result (KeepsPrefix into.old.items into.new.items) }
{
    put_u8(1, into)?;
    put_u8(kind, into)?;
    put_u64(term, into)?;
    from.put(into)?;
    to.put(into)
}

fn put_append<E: Encode>(
    prev: u64,
    prev_term: u64,
    commit: u64,
    probe: u64,
    entries: &[E],
    into: &mut Vec<u8>,
) -> Result<(), NoMemory>
    ensures ok { OnOk result (into.new.items ≡ into.old.items ++ (two_bytes (prev, prev_term) ++ (two_bytes (commit, probe) ++ list_bytes E.spelled entries.now))) }
    ensures err { OnErr result (KeepsPrefix into.old.items into.new.items) }
{
    put_two(prev, prev_term, into)?;
    put_two(commit, probe, into)?;
    put_list(entries, into)
}

fn put_append_say(ok: bool, at: u64, probe: u64, into: &mut Vec<u8>) -> Result<(), NoMemory>
    ensures ok { OnOk result (into.new.items ≡ into.old.items ++ (bool_bytes ok ++ two_bytes (at, probe))) }
    ensures err { OnErr result (KeepsPrefix into.old.items into.new.items) }
{
    put_bool(ok, into)?;
    put_two(at, probe, into)
}

/// Adds the fields of a kind.
fn put_fields<E: Encode>(saying: Saying, entries: &[E], into: &mut Vec<u8>) -> Result<(), NoMemory>
    ensures ok { OnOk result (into.new.items ≡ into.old.items ++ fields_bytes E.spelled (message_with saying entries.now)) }
    ensures err { OnErr result (KeepsPrefix into.old.items into.new.items) }
{
    match saying {
        Saying::VoteAsk {
            last_index,
            last_term,
        } => put_two(last_index, last_term, into),
        Saying::VoteSay { granted } => put_bool(granted, into),
        Saying::Append {
            prev,
            prev_term,
            commit,
            probe,
            count: _,
        } => put_append(prev, prev_term, commit, probe, entries, into),
        Saying::AppendSay { ok, at, probe } => put_append_say(ok, at, probe, into),
    }
}

fn put_outgoing<E: Encode>(
    packet: &Outgoing,
    entries: &[E],
    into: &mut Vec<u8>,
) -> Result<(), NoMemory>
    ensures ok { OnOk result (into.new.items ≡ into.old.items ++ packet_bytes E.spelled (packet_with packet.now entries.now)) }
    ensures err { OnErr result (KeepsPrefix into.old.items into.new.items) }
{
    put_header(
        kind_byte(packet.saying),
        packet.term,
        packet.from,
        packet.to,
        into,
    )?;
    put_fields(packet.saying, entries, into)
}

/// Adds the one spelling of a packet that is sent with these entries, if it is an append. With no memory nothing is added. A list of
/// 2^32 entries or more has no spelling, and is answered as want of memory.
pub fn encode_outgoing<E: Encode>(
    packet: &Outgoing,
    entries: &[E],
    into: &mut Vec<u8>,
) -> Result<(), NoMemory>
    ensures ok { OnOk result (into.new.items ≡ into.old.items ++ packet_bytes E.spelled (packet_with packet.now entries.now)) }
    ensures err { OnErr result (into.new.items ≡ into.old.items) }
{
    let len = into.len();
    let done = put_outgoing(packet, entries, into);
    if done.is_err() {
        into.truncate(len);
    }
    done
}

/// The packet as its sender has it, with its entries beside it.
fn sent<E: Drop>(packet: &Packet<E>) -> (Outgoing, &[E])
    ensures { packet_with result.0 result.1.now ≡ packet.now }
{
    let (saying, entries) = said(&packet.message);
    let outgoing = Outgoing {
        term: packet.term,
        from: packet.from,
        to: packet.to,
        saying,
    };
    (outgoing, entries)
}

fn said<E: Drop>(message: &Message<E>) -> (Saying, &[E])
    ensures { message_with result.0 result.1.now ≡ message.now }
{
    match message {
        Message::VoteAsk {
            last_index,
            last_term,
        } => (
            Saying::VoteAsk {
                last_index: *last_index,
                last_term: *last_term,
            },
            &[],
        ),
        Message::VoteSay { granted } => (Saying::VoteSay { granted: *granted }, &[]),
        Message::Append {
            prev,
            prev_term,
            commit,
            probe,
            entries,
        } => (
            Saying::Append {
                prev: *prev,
                prev_term: *prev_term,
                commit: *commit,
                probe: *probe,
                count: entries.len(),
            },
            entries.as_slice(),
        ),
        Message::AppendSay { ok, at, probe } => (
            Saying::AppendSay {
                ok: *ok,
                at: *at,
                probe: *probe,
            },
            &[],
        ),
    }
}

/// Adds the packet's one spelling. With no memory nothing is added. A list of 2^32 entries or more has no spelling, and is answered
/// as want of memory.
pub fn encode_packet<E: Encode + Drop>(
    packet: &Packet<E>,
    into: &mut Vec<u8>,
) -> Result<(), NoMemory>
    ensures ok { OnOk result (into.new.items ≡ into.old.items ++ packet_bytes E.spelled packet.now) }
    ensures err { OnErr result (into.new.items ≡ into.old.items) }
{
    let (outgoing, entries) = sent(packet);
    encode_outgoing(&outgoing, entries, into)
}
