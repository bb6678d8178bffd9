// A disk in memory that never fails.
ghost use Rattle.std.specs.Prelude.{◌≡◌, IfOk};

use super::journal::Journal;
use crate::disk::{CrashDisk, Disk};
use crate::error::Failed;
use rq_values::NoMemory;
use std::alloc::Global;

/// A disk in memory that never fails.
#[derive(Drop)]
pub struct SureDisk {
    journal: Journal,
}

impl SureDisk {
    ghost use Rattle.rq_outside.specs.Disk.{Only};
    ghost use Rattle.rq_outside.specs.Memory.{journal_means};
    ghost use Rattle.rq_outside.specs.MemDisk.{sure_bytes};

    /// A disk with this content, all of it stable.
    pub fn new(alloc: Global, content: Vec<u8>) -> Result<SureDisk, NoMemory>
        ensures content { IfOk result (λ disk. sure_bytes disk ≡ content.items) }
        ensures stable { IfOk result (λ disk. Only content.items (journal_means disk.journal 0).images) }
    {
        match Journal::new(alloc, content) {
            Ok(journal) => Ok(SureDisk { journal }),
            Err(_) => Err(NoMemory),
        }
    }

    /// The content as it reads.
    pub fn bytes(&self) -> &[u8]
        ensures { result.now ≡ sure_bytes self.now }
    {
        self.journal.bytes()
    }
}

impl Disk for SureDisk {
    ghost use Rattle.std.specs.Prelude.{true, None};
    ghost use Rattle.rq_outside.specs.Memory.{journal_means};
    ghost use Rattle.rq_outside.specs.MemDisk.{journal_reads, journal_counts, journal_only};

    ghost told = { true };

    ghost means = { λ disk. journal_means disk.journal 0 };

    type Fault = ();

    ghost first_fault = { λ _. None };

    fn fault(&self) -> Option<()> {
        None
    }

    fn ready(&mut self, bytes: u64, calls: u32) -> Result<(), NoMemory> {
        match self.journal.ready(bytes, calls as u64) {
            Ok(()) => Ok(()),
            Err(_) => Err(NoMemory),
        }
    }

    fn len(&mut self) -> Result<u64, Failed> {
        Ok(self.journal.len())
    }

    fn read(&mut self, at: u64, into: &mut [u8]) -> Result<usize, Failed> {
        Ok(self.journal.read(at, into))
    }

    fn write_at(&mut self, at: u64, piece: &[u8]) -> Result<(), Failed> {
        self.journal.write(at, piece);
        Ok(())
    }

    fn cut(&mut self, to: u64) -> Result<(), Failed> {
        self.journal.cut(to);
        Ok(())
    }

    fn sync(&mut self) -> Result<(), Failed> {
        self.journal.sync();
        Ok(())
    }

    ghost reads_an_image = { λ _ disk. journal_reads disk.journal 0 };

    ghost counts_now = { λ _ disk t c le now. journal_counts disk.journal 0 t c le now };

    ghost only_now = { λ _ disk c since. journal_only disk.journal 0 c since };
}

impl CrashDisk for SureDisk {
    ghost use Rattle.rq_outside.specs.MemDisk.{sure_picked};

    ghost picked = { λ pick disk. sure_picked pick disk };

    fn crash(&mut self, pick: u8) {
        self.journal.crash(pick);
    }
}
