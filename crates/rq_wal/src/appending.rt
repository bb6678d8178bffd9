// Frames behind open gates.
ghost use Rattle.std.specs.Prelude.{is_err, ◌≡◌, ◌≤◌, ◌<◌, ◌+◌, ◌^◌, ◌++◌, List, ℕ, length, take, drop, IsTrue, IfOk, OnOk, OnErr};
ghost use Rattle.rq_outside.specs.Disk.{LeavesOnly, HasRoom, Uses};
ghost use Rattle.rq_outside.specs.Pair.{other, disk_at};
ghost use Rattle.rq_wal.specs.Spends.{Spends};
ghost use Rattle.rq_wal.specs.Gate.{IsAtRest, IsPiece, with_frame, IsBeforeOrAfter};

use crate::synced::write_synced;
use rq_outside::{Disk, DiskPair, Failed, FileNo};

/// Adds the frame of a piece, at the closed gate at this place.
#[tactic(auto, using(crate::proofs::Spending::calls))]
pub fn append<D: Disk>(
    disks: &mut DiskPair<D>,
    file: FileNo,
    place: u64,
    piece: &[u8],
) -> Result<(), Failed>
    requires at_rest { IsTrue D.told → IsAtRest (D.means (disk_at disks.old file)) place }
    requires piece { IsPiece piece.now }
    requires fits { place + length piece.now < 2 ^ 64 }
    requires room { HasRoom (D.means (disk_at disks.old file)) (length piece.now + 1) 4 }
    ensures other { disk_at disks.new (other file) ≡ disk_at disks.old (other file) }
    ensures at_rest { IsTrue D.told → OnOk result (IsAtRest (D.means (disk_at disks.new file)) (place + length piece.now)) }
    ensures done { IsTrue D.told → OnOk result (take (place + length piece.now) (D.means (disk_at disks.new file)).content ≡ with_frame (take place (D.means (disk_at disks.old file)).content) piece.now) }
    ensures any_moment { IsTrue D.told → LeavesOnly (D.means (disk_at disks.old file)) (D.means (disk_at disks.new file)) (IsBeforeOrAfter (take place (D.means (disk_at disks.old file)).content) piece.now) }
    ensures room { Uses (length piece.now + 1) 4 (D.means (disk_at disks.old file)) (D.means (disk_at disks.new file)) }
    ensures spent { Spends D.means 4 (is_err result) disks.old disks.new }
{
    write_synced(disks, file, place + 1, piece)?;
    write_synced(disks, file, place, &[1])?;
    Ok(())
}
