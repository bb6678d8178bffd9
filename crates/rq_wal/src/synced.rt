// A changing call and the sync behind it.
ghost use Rattle.std.specs.Prelude.{is_err, ◌≡◌, ◌≤◌, ◌<◌, ◌++◌, List, ℕ, length, take, drop, IsTrue, IfOk, OnOk, OnErr};
ghost use Rattle.rq_outside.specs.Disk.{Torn, Holds, Only, LeavesOnly, HasRoom, Uses};
ghost use Rattle.rq_outside.specs.Pair.{other, disk_at};
ghost use Rattle.rq_wal.specs.Spends.{Spends};

use rq_outside::{Disk, DiskPair, Failed, FileNo};

/// Writes a piece, and syncs it.
#[tactic(auto, using(crate::proofs::Spending::calls))]
pub fn write_synced<D: Disk>(
    disks: &mut DiskPair<D>,
    file: FileNo,
    at: u64,
    piece: &[u8],
) -> Result<(), Failed>
    requires durable { IsTrue D.told → Only (D.means (disk_at disks.old file)).content (D.means (disk_at disks.old file)).images }
    requires place { IsTrue D.told → at ≤ length (D.means (disk_at disks.old file)).content }
    requires piece { 0 < length piece.now }
    requires room { HasRoom (D.means (disk_at disks.old file)) (length piece.now) 2 }
    ensures other { disk_at disks.new (other file) ≡ disk_at disks.old (other file) }
    ensures written { IsTrue D.told → OnOk result (Holds (D.means (disk_at disks.old file)).content at piece.now (D.means (disk_at disks.new file)).content) }
    ensures durable { IsTrue D.told → OnOk result (Only (D.means (disk_at disks.new file)).content (D.means (disk_at disks.new file)).images) }
    ensures any_moment { IsTrue D.told → LeavesOnly (D.means (disk_at disks.old file)) (D.means (disk_at disks.new file)) (Torn at (length piece.now) (D.means (disk_at disks.old file)).content) }
    ensures room { Uses (length piece.now) 2 (D.means (disk_at disks.old file)) (D.means (disk_at disks.new file)) }
    ensures spent { Spends D.means 2 (is_err result) disks.old disks.new }
{
    disks.write_at(file, at, piece)?;
    disks.sync(file)?;
    Ok(())
}
