//! Pairs of disks for a script in memory.
ghost use Rattle.std.specs.Prelude.{true, [], IfOk};
ghost use Rattle.rq_outside.specs.Disk.{Only};
ghost use Rattle.rq_cluster.specs.Recovery.{AreNew};
ghost use Rattle.rq_cluster.specs.EmptyPairs.{sure_means};

use crate::new_pairs::{MakesDisks, nine_pairs};
use rq_outside::{Disk, DiskPair, FileNo, SureDisk};
use rq_values::NoMemory;
use std::alloc::Global;

/// Disks in memory that never fail.
struct SureDisks;

impl MakesDisks<SureDisk> for SureDisks {
    ghost made = { λ _ _ _ disk. Only [] (sure_means disk).images };

    fn disk(&self, alloc: Global, _place: usize, _file: FileNo) -> Result<SureDisk, NoMemory> {
        let mut disk = SureDisk::new(alloc, Vec::new(alloc))?;
        disk.ready(0, 1)?;
        match disk.sync() {
            Ok(()) => Ok(disk),
            Err(_) => Err(NoMemory),
        }
    }
}

/// Nine pairs of empty disks in memory that never fail, one for each node that a script may name.
pub fn empty_pairs(alloc: Global) -> Result<Vec<DiskPair<SureDisk>>, NoMemory>
    ensures { IfOk result (λ pairs. AreNew true sure_means pairs.items) }
{
    nine_pairs(alloc, &SureDisks)
}
