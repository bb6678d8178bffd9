//! A line's text is written before the next line is done, and files are written at each event.
ghost use Rattle.std.specs.Prelude.{◌<◌, [], length, None, true};
ghost use Rattle.rq_outside.specs.Disk.{Only};
ghost use Rattle.rq_outside.specs.Memory.{journal_means};

use crate::calling::status_of;
use rq_cluster::{MakesDisks, nine_pairs};
use rq_outside::{CrashDisk, Disk, Failed, FileNo, Sink, SinkError, SureDisk, SureSource};
use rq_values::NoMemory;
use std::alloc::Global;
use std::cell::Cell;
use std::test::Fail;

/// A disk that never fails and counts its syncs.
#[derive(Drop)]
struct CountedDisk<'a> {
    disk: SureDisk,
    syncs: &'a Cell<u64>,
}

impl Disk for CountedDisk<'_> {
    ghost use Rattle.rq_outside.specs.MemDisk.{journal_reads, journal_counts, journal_only};

    ghost told = { true };

    ghost means = { λ disk. journal_means disk.disk.journal 0 };

    type Fault = ();

    ghost first_fault = { λ _. None };

    fn fault(&self) -> Option<()> {
        self.disk.fault()
    }

    fn ready(&mut self, bytes: u64, calls: u32) -> Result<(), NoMemory> {
        self.disk.ready(bytes, calls)
    }

    fn len(&mut self) -> Result<u64, Failed> {
        self.disk.len()
    }

    fn read(&mut self, at: u64, into: &mut [u8]) -> Result<usize, Failed> {
        self.disk.read(at, into)
    }

    fn write_at(&mut self, at: u64, piece: &[u8]) -> Result<(), Failed> {
        self.disk.write_at(at, piece)
    }

    fn cut(&mut self, to: u64) -> Result<(), Failed> {
        self.disk.cut(to)
    }

    fn sync(&mut self) -> Result<(), Failed> {
        self.syncs.set(self.syncs.get().saturating_add(1));
        self.disk.sync()
    }

    ghost reads_an_image = { λ _ disk. journal_reads disk.disk.journal 0 };

    ghost counts_now = { λ _ disk t c le now. journal_counts disk.disk.journal 0 t c le now };

    ghost only_now = { λ _ disk c since. journal_only disk.disk.journal 0 c since };
}

impl CrashDisk for CountedDisk<'_> {
    ghost use Rattle.rq_outside.specs.MemDisk.{sure_picked};

    ghost picked = { λ pick disk. sure_picked pick disk.disk };

    fn crash(&mut self, pick: u8) {
        self.disk.crash(pick);
    }
}

/// A sink that notes how many syncs there were when it was given each piece.
#[derive(Drop)]
struct NotingSink<'a> {
    text: Vec<u8>,
    /// Of each piece, where it begins in the text and the syncs before it.
    pieces: Vec<(usize, u64)>,
    syncs: &'a Cell<u64>,
}

impl NotingSink<'_> {
    /// How many syncs there were when the first byte of this word came.
    fn syncs_before(&self, word: &[u8]) -> Option<u64>
        requires { 0 < length word.now }
    {
        let at = self.text.windows(word.len()).position(|w| w == word)?;
        let piece = self.pieces.iter().rev().find(|piece| piece.0 <= at)?;
        Some(piece.1)
    }
}

impl Sink for NotingSink<'_> {
    ghost use Rattle.std.specs.Prelude.{true};

    ghost told = { true };

    ghost taken = { λ sink. sink.text.items };

    ghost faults = { λ _. 0 };

    fn write(&mut self, piece: &[u8]) -> Result<usize, SinkError> {
        let begins = self.text.len();
        if self.pieces.push((begins, self.syncs.get())).is_err() {
            return Err(SinkError::NoMemory);
        }
        match self.text.extend_from_slice(piece) {
            Ok(()) => Ok(piece.len()),
            Err(_) => Err(SinkError::NoMemory),
        }
    }
}

/// What makes such disks, empty.
#[derive(Drop)]
struct CountedDisks<'a> {
    syncs: &'a Cell<u64>,
}

impl<'a> MakesDisks<CountedDisk<'a>> for CountedDisks<'a> {
    ghost made = { λ _ _ _ disk. Only [] (journal_means disk.disk.journal 0).images };

    fn disk(
        &self,
        alloc: Global,
        _place: usize,
        _file: FileNo,
    ) -> Result<CountedDisk<'a>, NoMemory> {
        let mut disk = SureDisk::new(alloc, Vec::new(alloc))?;
        disk.ready(0, 1)?;
        match disk.sync() {
            Ok(()) => Ok(CountedDisk {
                disk,
                syncs: self.syncs,
            }),
            Err(_) => Err(NoMemory),
        }
    }
}

const SCRIPT: &[u8] = b"cluster n1\nelect n1\n\
ask n1 POST /db/execute [\"CREATE TABLE foo (id INTEGER PRIMARY KEY, name TEXT, age INTEGER)\"]\n\
ask n1 POST /db/execute [\"INSERT INTO foo(name, age) VALUES('fiona', 20)\"]\napply n1\n\
ask n1 POST /db/query?level=none [\"SELECT * FROM foo\"]\n";

/// The status, and the syncs before the start and the first answer.
fn ended(
    alloc: Global,
    source: &mut SureSource,
    sink: &mut NotingSink,
) -> Result<(u8, Option<u64>, Option<u64>), Fail> {
    let mut disks = nine_pairs(alloc, &CountedDisks { syncs: sink.syncs })
        .ok()
        .ok_or("memory")?;
    let status = status_of(alloc, &[b"cluster"], source, sink, &mut disks);
    drop(disks);
    Ok((
        status?,
        sink.syncs_before(b"up n1"),
        sink.syncs_before(b"answer 1"),
    ))
}

// Two syncs of the opening, four of the first base and two of the boot come before `up`; two for each of the election's
// two frames and for each list come before the first answer.
#[test]
fn order_of_calls(rt: HostRuntime) -> Result<(), Fail> {
    let alloc = rt.alloc();
    let syncs = Cell::new(0);
    let mut source = SureSource::new(SCRIPT.to_vec(alloc)?);
    let mut sink = NotingSink {
        text: Vec::new(alloc),
        pieces: Vec::new(alloc),
        syncs: &syncs,
    };
    let ended = ended(alloc, &mut source, &mut sink);
    drop((source, sink));
    assert_eq!(rt; ended?, (0, Some(8), Some(16)));
    Ok(())
}
