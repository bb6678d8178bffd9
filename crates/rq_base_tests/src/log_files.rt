ghost use Rattle.std.specs.Prelude.{IfOk};
ghost use Rattle.rq_wal.specs.Stored.{IsBase};

use rq_outside::{Disk, DiskPair, FileNo, MemDisk};
use rq_values::{Addr, Bytes, Id, Seq};
use rq_wal::{Base, Frame, OpenError, Stored, WalFile, open};
use rq_wire::{Body, Config, Entry, Member};
use std::alloc::Global;
use std::test::Fail;

// The file of n1 after it was opened and started: the header, the base, and a Boot frame.
const STARTED: &[u8] = b"\x01RQWAL\x01\x01\0\0\0\0\0\0\0\x59\0\0\0\0\0\0\0\
\0\0\0\0\0\0\0\0\0\0\0\0\0\0\0\0\0\0\0\0\0\0\0\0\0\0\0\0\0\0\0\0\0\
\x01\0\0\0\x02\0\0\0n1\x01\x07\0\0\0n1:4001\x07\0\0\0n1:4002\
\x13\0\0\0\x01\0\0\0\0\0\0\0\0\x01\0\0\0\x02\0\0\0n1\
\x01\x03\x08\0\0\0\x01\0\0\0\0\0\0\0\0";

// The same after it was elected: with a Vote frame and a Splice frame more.
const ELECTED: &[u8] = b"\x01RQWAL\x01\x01\0\0\0\0\0\0\0\x59\0\0\0\0\0\0\0\
\0\0\0\0\0\0\0\0\0\0\0\0\0\0\0\0\0\0\0\0\0\0\0\0\0\0\0\0\0\0\0\0\0\
\x01\0\0\0\x02\0\0\0n1\x01\x07\0\0\0n1:4001\x07\0\0\0n1:4002\
\x13\0\0\0\x01\0\0\0\0\0\0\0\0\x01\0\0\0\x02\0\0\0n1\
\x01\x03\x08\0\0\0\x01\0\0\0\0\0\0\0\
\x01\x01\x0f\0\0\0\x01\0\0\0\0\0\0\0\x01\x02\0\0\0n1\
\x01\x02\x15\0\0\0\x01\0\0\0\0\0\0\0\x01\0\0\0\x01\0\0\0\0\0\0\0\0\0";

fn addr(alloc: Global, bytes: &[u8]) -> Result<Addr, Fail> {
    Ok(Addr::new(alloc, bytes)?.ok_or("address")?)
}

fn members(alloc: Global) -> Result<Seq<Member>, Fail> {
    let http = addr(alloc, b"n1:4001")?;
    let raft = addr(alloc, b"n1:4002")?;
    let mut members = Seq::new(alloc);
    members.push(Member {
        id: Id::new(b"n1").ok_or("id")?,
        voter: true,
        http,
        raft,
    })?;
    Ok(members)
}

fn first_base(alloc: Global) -> Result<Base, Fail>
    ensures { IfOk result (λ base. IsBase base) }
{
    let state = Bytes::new(alloc, b"\x01\0\0\0\0\0\0\0\0\x01\0\0\0\x02\0\0\0n1")?;
    Ok(Base {
        term: 0,
        vote: None,
        boot: 0,
        index: 0,
        last_term: 0,
        config: Config::new(members(alloc)?).ok_or("ids that don't rise")?,
        state,
    })
}

fn election_frames(alloc: Global) -> Result<Vec<Frame>, Fail> {
    let mut entries = Seq::new(alloc);
    let entry = Entry {
        term: 1,
        body: Body::NoOp,
    };
    entries.push(entry)?;
    let mut frames = Vec::new(alloc);
    frames.push(Frame::Vote {
        term: 1,
        vote: Id::new(b"n1"),
    })?;
    frames.push(Frame::Splice { from: 1, entries })?;
    Ok(frames)
}

fn content(alloc: Global, pair: &mut DiskPair<MemDisk>) -> Result<Vec<u8>, Fail> {
    let len = pair.len(FileNo::One)?;
    let mut bytes = vec![in alloc; 0u8; len as usize]?;
    pair.read(FileNo::One, 0, &mut bytes)?;
    Ok(bytes)
}

// A pair of which file one has these bytes and file two none.
fn pair_of(alloc: Global, bytes: &[u8]) -> Result<DiskPair<MemDisk>, Fail> {
    let one = MemDisk::new(alloc, bytes.to_vec(alloc)?, Vec::new(alloc));
    let two = MemDisk::new(alloc, Vec::new(alloc), Vec::new(alloc));
    Ok(DiskPair::new(one?, two?))
}

fn opened_pair(
    alloc: Global,
    disks: &mut DiskPair<MemDisk>,
) -> Result<Result<(WalFile, Stored), OpenError>, Fail> {
    let first = first_base(alloc)?;
    let opened = open(alloc, disks, &first);
    drop(first);
    Ok(opened)
}

// Opens the pair, and writes the frames in two batches.
fn begun<D: Disk>(
    alloc: Global,
    disks: &mut DiskPair<D>,
    first: &Base,
    frames: &[Frame],
    more: &[Frame],
) -> Result<WalFile, OpenError>
    requires { IsBase first.now }
{
    let (mut wal, stored) = open(alloc, disks, first)?;
    drop(stored);
    let batch = wal.ready(alloc, disks, frames)?;
    let mut wal = wal.write(disks, batch)?;
    let batch = wal.ready(alloc, disks, more)?;
    Ok(wal.write(disks, batch)?)
}

// The file of n1 after it was opened and started, and after these frames more; with the place of its gate.
fn file_of_n1(
    alloc: Global,
    disks: &mut DiskPair<MemDisk>,
    more: &[Frame],
) -> Result<(Vec<u8>, u64), Fail> {
    let first = first_base(alloc)?;
    let boot = [Frame::Boot { boot: 1 }];
    let wal = begun(alloc, disks, &first, &boot, more);
    drop((first, boot));
    let gate = wal?.end();
    Ok((content(alloc, disks)?, gate))
}

// Whether the file of n1 has these bytes and this gate after it was opened and started, and after these frames more.
fn file_is(alloc: Global, more: &[Frame], bytes: &[u8], gate: u64) -> Result<bool, Fail> {
    let mut pair = pair_of(alloc, b"")?;
    let found = file_of_n1(alloc, &mut pair, more);
    drop(pair);
    let (file, end) = found?;
    let is_same = file.as_slice() == bytes;
    drop(file);
    Ok(is_same && end == gate)
}

#[test]
fn the_file_of_n1_byte_for_byte(rt: HostRuntime) -> Result<(), Fail> {
    let alloc = rt.alloc();
    assert!(rt; file_is(alloc, &[], STARTED, 126)?);
    let election = election_frames(alloc)?;
    let is = file_is(alloc, &election, ELECTED, 174);
    drop(election);
    assert!(rt; is?);
    assert!(rt; (STARTED.len(), ELECTED.len()) == (127, 175));
    Ok(())
}

// What opening a pair answers, of which file one has these bytes and file two none: the boot that is stored and the place
// of the last gate.
fn opened(alloc: Global, bytes: &[u8]) -> Result<Result<(u64, u64), OpenError>, Fail> {
    let mut pair = pair_of(alloc, bytes)?;
    let opened = opened_pair(alloc, &mut pair);
    drop(pair);
    match opened? {
        Ok((wal, stored)) => {
            let boot = stored.boot;
            drop(stored);
            Ok(Ok((boot, wal.end())))
        }
        Err(error) => Ok(Err(error)),
    }
}

#[test]
fn a_damaged_file(rt: HostRuntime) -> Result<(), Fail> {
    let alloc = rt.alloc();
    assert!(rt; opened(alloc, STARTED)? == Ok((1, 126)));
    for (place, byte, answer) in [
        (
            113,
            9,
            Err(OpenError::NotAWal {
                file: 1,
                place: 113,
                byte: Some(9),
            }),
        ),
        (112, 0xff, Ok((0, 112))),
        (6, 7, Err(OpenError::Version(7))),
        (0, 0, Ok((0, 112))),
    ] {
        let mut bytes = STARTED.to_vec(alloc)?;
        if let Some(at) = bytes.get_mut(place) {
            *at = byte;
        }
        let found = opened(alloc, &bytes);
        drop(bytes);
        assert!(rt; found? == answer);
    }
    Ok(())
}

#[test]
fn a_file_cut_at_each_length(rt: HostRuntime) -> Result<(), Fail> {
    let alloc = rt.alloc();
    assert!(rt; opened(alloc, STARTED)? == Ok((1, 126)));
    for len in 0..STARTED.len() {
        let answer = if len < 23 {
            Ok((0, 112))
        } else {
            Err(OpenError::NotAWal {
                file: 1,
                place: len as u64,
                byte: None,
            })
        };
        assert!(rt; opened(alloc, &STARTED[..len])? == answer);
    }
    Ok(())
}
