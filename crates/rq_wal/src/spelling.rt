//! The bytes of bases and frames.
ghost use Rattle.std.specs.Prelude.{◌≡◌, ◌∷◌, [], ◌++◌, map, IfOk, OnOk, OnErr};
ghost use Rattle.rq_values.specs.Writing.{KeepsPrefix};
ghost use Rattle.rq_wal.specs.Spelling.{own_bytes, snapshot_bytes, base_bytes, payload_bytes, kind_of, piece_of, body_bytes};

use crate::base::Base;
use rq_values::{Bytes, Encode, NoMemory, put_bytes, put_list, put_option, put_u8, put_u64};
use rq_wire::Frame;
use std::alloc::Global;

impl Encode for Base {
    ghost spelled = { base_bytes };

    fn put(&self, into: &mut Vec<u8>) -> Result<(), NoMemory> {
        put_own(self, into)?;
        put_snapshot(self, into)
    }
}

/// What the node knows of itself.
fn put_own(base: &Base, into: &mut Vec<u8>) -> Result<(), NoMemory>
    ensures ok { OnOk result (into.new.items ≡ into.old.items ++ own_bytes base.now) }
    ensures err { OnErr result (KeepsPrefix into.old.items into.new.items) }
{
    put_u64(base.term, into)?;
    put_option(&base.vote, into)?;
    put_u64(base.boot, into)
}

/// What stands for the log.
fn put_snapshot(base: &Base, into: &mut Vec<u8>) -> Result<(), NoMemory>
    ensures ok { OnOk result (into.new.items ≡ into.old.items ++ snapshot_bytes base.now) }
    ensures err { OnErr result (KeepsPrefix into.old.items into.new.items) }
{
    put_u64(base.index, into)?;
    put_u64(base.last_term, into)?;
    base.config.put(into)?;
    base.state.put(into)
}

/// What says which frame it is.
fn kind_byte(frame: &Frame) -> u8
    ensures { result ≡ kind_of frame.now }
{
    match frame {
        Frame::Vote { .. } => 1,
        Frame::Splice { .. } => 2,
        Frame::Boot { .. } => 3,
    }
}

fn put_payload(frame: &Frame, into: &mut Vec<u8>) -> Result<(), NoMemory>
    ensures { OnOk result (into.new.items ≡ into.old.items ++ payload_bytes frame.now) }
{
    match frame {
        Frame::Vote { term, vote } => {
            put_u64(*term, into)?;
            put_option(vote, into)
        }
        Frame::Splice { from, entries } => {
            put_u64(*from, into)?;
            put_list(entries.as_slice(), into)
        }
        Frame::Boot { boot } => put_u64(*boot, into),
    }
}

/// The frame's bytes, and a closed gate.
fn piece(alloc: Global, frame: &Frame) -> Result<Bytes, NoMemory>
    ensures { IfOk result (λ piece. piece ≡ piece_of frame.now) }
{
    let mut payload = Vec::new(alloc);
    put_payload(frame, &mut payload)?;
    let mut bytes = Vec::new(alloc);
    put_u8(kind_byte(frame), &mut bytes)?;
    put_bytes(&payload, &mut bytes)?;
    put_u8(0, &mut bytes)?;
    Ok(Bytes::from_vec(bytes))
}

/// The frames' bytes, each with a closed gate behind it.
pub fn pieces(alloc: Global, frames: &[Frame]) -> Result<Vec<Bytes>, NoMemory>
    ensures { IfOk result (λ pieces. pieces.items ≡ map piece_of frames.now) }
{
    let mut pieces = Vec::new(alloc);
    for frame in frames {
        pieces.push(piece(alloc, frame)?)?;
    }
    Ok(pieces)
}

/// A file that has this base and no frame, behind its first byte.
pub fn body(alloc: Global, generation: u64, base: &Base) -> Result<Vec<u8>, NoMemory>
    ensures { IfOk result (λ body. body.items ≡ body_bytes generation base.now ++ 0 ∷ []) }
{
    let mut spelled = Vec::new(alloc);
    base.put(&mut spelled)?;
    let mut body = Vec::new(alloc);
    body.extend_from_slice(b"RQWAL")?;
    put_u8(1, &mut body)?;
    put_u64(generation, &mut body)?;
    put_u64(spelled.len() as u64, &mut body)?;
    body.extend_from_slice(&spelled)?;
    put_u8(0, &mut body)?;
    Ok(body)
}
