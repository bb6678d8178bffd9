// Several frames in a row.
ghost use Rattle.std.specs.Prelude.{is_err, ◌≡◌, ◌≤◌, ◌<◌, ◌+◌, ◌*◌, ◌^◌, ◌++◌, List, ℕ, length, take, drop, All, IsTrue, IfOk, OnOk, OnErr};
ghost use Rattle.rq_outside.specs.Disk.{LeavesOnly, HasRoom, Uses};
ghost use Rattle.rq_outside.specs.Pair.{other, disk_at};
ghost use Rattle.rq_wal.specs.Spends.{Spends};
ghost use Rattle.rq_wal.specs.Gate.{IsAtRest, IsPiece};
ghost use Rattle.rq_wal.specs.Pieces.{with_frames, bytes_of, HasSomePieces};

use crate::appending::append;
use rq_outside::{Disk, DiskPair, Failed, FileNo};
use rq_values::Bytes;

/// Adds the frames of these pieces in order, at the closed gate at this place, and answers the place of the last gate.
#[tactic(auto, using(crate::proofs::Spending::calls))]
pub fn write_frames<D: Disk>(
    disks: &mut DiskPair<D>,
    file: FileNo,
    place: u64,
    pieces: &[Bytes],
) -> Result<u64, Failed>
    requires at_rest { IsTrue D.told → IsAtRest (D.means (disk_at disks.old file)) place }
    requires pieces { All IsPiece pieces.now }
    requires fits { place + bytes_of pieces.now < 2 ^ 64 }
    requires room { HasRoom (D.means (disk_at disks.old file)) (bytes_of pieces.now + length pieces.now) (4 * length pieces.now) }
    ensures other { disk_at disks.new (other file) ≡ disk_at disks.old (other file) }
    ensures place { IfOk result (λ end. end ≡ place + bytes_of pieces.now) }
    ensures at_rest { IsTrue D.told → IfOk result (λ end. IsAtRest (D.means (disk_at disks.new file)) end) }
    ensures done { IsTrue D.told → IfOk result (λ end. take end (D.means (disk_at disks.new file)).content ≡ with_frames (take place (D.means (disk_at disks.old file)).content) pieces.now) }
    ensures any_moment { IsTrue D.told → LeavesOnly (D.means (disk_at disks.old file)) (D.means (disk_at disks.new file)) (HasSomePieces (take place (D.means (disk_at disks.old file)).content) pieces.now) }
    ensures spent { Spends D.means (4 * length pieces.now) (is_err result) disks.old disks.new }
{
    let mut end = place;
    for piece in pieces {
        let piece = piece.bytes();
        append(disks, file, end, piece)?;
        end += piece.len() as u64;
    }
    Ok(end)
}
