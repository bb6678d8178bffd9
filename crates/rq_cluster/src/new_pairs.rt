//! Nine pairs of disks, one for each node that a script may name.
ghost use Rattle.std.specs.Prelude.{[], ℕ, IfOk};
ghost use Rattle.rq_outside.specs.declared.pair.FileNo.{FileNo};
ghost use Rattle.rq_outside.specs.Disk.{Only};
ghost use Rattle.rq_cluster.specs.EmptyPairs.{IsMade, AreMade};
ghost use Rattle.rq_cluster.specs.Recovery.{IsNew, AreNew};

use rq_outside::{Disk, DiskPair, FileNo};
use rq_values::NoMemory;
use std::alloc::Global;

/// What makes the disks of the pair at each place, 0 to 8: each is empty, whatever a crash leaves.
pub trait MakesDisks<D: Disk> {
    /// What each disk is that is made for a file of the pair at a place.
    ghost made: { Self → ℕ → FileNo → D → Type 0 };

    fn disk(&self, alloc: Global, place: usize, file: FileNo) -> Result<D, NoMemory>
        ensures empty { IfOk result (λ disk. Only [] (D.means disk).images) }
        ensures made { IfOk result (λ disk. made self.now place file disk) };
}

/// A pair of such disks.
fn new_pair<D: Disk + Drop, M: MakesDisks<D>>(
    alloc: Global,
    maker: &M,
    place: usize,
) -> Result<DiskPair<D>, NoMemory>
    ensures new { IfOk result (λ pair. IsNew D.told D.means pair) }
    ensures made { IfOk result (λ pair. IsMade (M.made maker.now) place pair) }
{
    let one = maker.disk(alloc, place, FileNo::One)?;
    let two = maker.disk(alloc, place, FileNo::Two)?;
    Ok(DiskPair::new(one, two))
}

/// New pairs at the places 0 to 8, of the disks that the maker makes. The error is want of memory.
pub fn nine_pairs<D: Disk + Drop, M: MakesDisks<D>>(
    alloc: Global,
    maker: &M,
) -> Result<Vec<DiskPair<D>>, NoMemory>
    ensures new { IfOk result (λ pairs. AreNew D.told D.means pairs.items) }
    ensures made { IfOk result (λ pairs. AreMade (M.made maker.now) pairs.items) }
{
    let mut pairs = Vec::new(alloc);
    for place in 0..9 {
        pairs.push(new_pair(alloc, maker, place)?)?;
    }
    Ok(pairs)
}
