// A disk in memory that fails at stated calls.
ghost use Rattle.std.specs.Prelude.{◌≡◌, IfOk};

use super::faults::Faults;
use super::journal::Journal;
use crate::disk::{CrashDisk, Disk};
use crate::error::Failed;
use rq_values::NoMemory;
use std::alloc::Global;

/// A disk in memory, which fails at stated calls. A crash leaves, by its pick: 0, the bytes at the last sync; 1, the bytes
/// as they read; 2, as 1 with every byte of each range that was written since the last sync set to 1; 3, as 1 with the
/// second half of each such range put back to its old bytes, 0 where there were none.
#[derive(Drop)]
pub struct MemDisk {
    journal: Journal,
    faults: Faults,
}

impl MemDisk {
    ghost use Rattle.rq_outside.specs.Disk.{Only};
    ghost use Rattle.rq_outside.specs.Memory.{journal_means};
    ghost use Rattle.rq_outside.specs.MemDisk.{disk_bytes};

    /// A disk with this content, all of it stable.
    pub fn new(alloc: Global, content: Vec<u8>, fails: Vec<u64>) -> Result<MemDisk, NoMemory>
        ensures content { IfOk result (λ disk. disk_bytes disk ≡ content.items) }
        ensures stable { IfOk result (λ disk. Only content.items (journal_means disk.journal disk.faults.count).images) }
    {
        match Journal::new(alloc, content) {
            Ok(journal) => Ok(MemDisk {
                journal,
                faults: Faults::new(fails),
            }),
            Err(_) => Err(NoMemory),
        }
    }

    /// The content as it reads.
    pub fn bytes(&self) -> &[u8]
        ensures { result.now ≡ disk_bytes self.now }
    {
        self.journal.bytes()
    }
}

impl Disk for MemDisk {
    ghost use Rattle.std.specs.Prelude.{true};
    ghost use Rattle.rq_outside.specs.Memory.{journal_means};
    ghost use Rattle.rq_outside.specs.MemDisk.{journal_reads, journal_counts, journal_only};
    ghost use Rattle.rq_outside.specs.Scripts.{first_fault_of};

    ghost told = { true };

    ghost means = { λ disk. journal_means disk.journal disk.faults.count };

    type Fault = ();

    ghost first_fault = { λ disk. first_fault_of disk.faults };

    fn fault(&self) -> Option<()> {
        self.faults.first()
    }

    fn ready(&mut self, bytes: u64, calls: u32) -> Result<(), NoMemory> {
        match self.journal.ready(bytes, calls as u64) {
            Ok(()) => Ok(()),
            Err(_) => Err(NoMemory),
        }
    }

    fn len(&mut self) -> Result<u64, Failed> {
        if self.faults.strikes() {
            return Err(Failed);
        }
        Ok(self.journal.len())
    }

    fn read(&mut self, at: u64, into: &mut [u8]) -> Result<usize, Failed> {
        if self.faults.strikes() {
            return Err(Failed);
        }
        Ok(self.journal.read(at, into))
    }

    fn write_at(&mut self, at: u64, piece: &[u8]) -> Result<(), Failed> {
        if self.faults.strikes() {
            return Err(Failed);
        }
        self.journal.write(at, piece);
        Ok(())
    }

    fn cut(&mut self, to: u64) -> Result<(), Failed> {
        if self.faults.strikes() {
            return Err(Failed);
        }
        self.journal.cut(to);
        Ok(())
    }

    fn sync(&mut self) -> Result<(), Failed> {
        if self.faults.strikes() {
            return Err(Failed);
        }
        self.journal.sync();
        Ok(())
    }

    ghost reads_an_image = { λ _ disk. journal_reads disk.journal disk.faults.count };

    ghost counts_now = { λ _ disk t c le now. journal_counts disk.journal disk.faults.count t c le now };

    ghost only_now = { λ _ disk c since. journal_only disk.journal disk.faults.count c since };
}

impl CrashDisk for MemDisk {
    ghost use Rattle.std.specs.Prelude.{◌<◌};
    ghost use Rattle.rq_outside.specs.Disk.{Only, KeepsRoom};
    ghost use Rattle.rq_outside.specs.Memory.{journal_means};
    ghost use Rattle.rq_outside.specs.MemDisk.{disk_bytes, picked_of};

    ghost picked = { λ pick disk. picked_of pick disk };

    fn crash(&mut self, pick: u8)
        requires { pick < 4 }
        ensures picked { disk_bytes self.new ≡ picked_of pick self.old }
        ensures image { (journal_means self.old.journal self.old.faults.count).images (disk_bytes self.new) }
        ensures stable { Only (disk_bytes self.new) (journal_means self.new.journal self.new.faults.count).images }
        ensures room { KeepsRoom (journal_means self.old.journal self.old.faults.count) (journal_means self.new.journal self.new.faults.count) }
        ensures faults { self.new.faults.count ≡ self.old.faults.count }
    {
        self.journal.crash(pick);
    }
}
