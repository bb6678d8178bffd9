// The other file takes a new base, in eight changing calls.
#![tactic(auto, using(crate::proofs::Spending::calls))]

ghost use Rattle.std.specs.Prelude.{is_err, ◌≡◌, ◌≤◌, ◌<◌, ◌+◌, ◌++◌, ◌∷◌, [], Some, List, ℕ, length, take, drop, IsTrue, IfOk, OnOk, OnErr};
ghost use Rattle.rq_outside.specs.Disk.{Cut, Only, LeavesOnly, HasRoom, Uses};
ghost use Rattle.rq_outside.specs.Pair.{other, disk_at};
ghost use Rattle.rq_wal.specs.Spends.{Spends};
ghost use Rattle.rq_wal.specs.Replace.{generation_of, IsBelow, IsOldOrNew};

use crate::synced::write_synced;
use rq_outside::{Disk, DiskPair, Failed, FileNo};

/// Empties a file whose generation is below the current one's, and closes its gate.
pub fn begin_replace<D: Disk>(
    disks: &mut DiskPair<D>,
    file: FileNo,
    generation: u64,
) -> Result<(), Failed>
    requires durable { IsTrue D.told → Only (D.means (disk_at disks.old file)).content (D.means (disk_at disks.old file)).images }
    requires below { IsTrue D.told → IsBelow generation (D.means (disk_at disks.old file)).content }
    requires room { HasRoom (D.means (disk_at disks.old file)) 1 4 }
    ensures other { disk_at disks.new (other file) ≡ disk_at disks.old (other file) }
    ensures closed { IsTrue D.told → OnOk result ((D.means (disk_at disks.new file)).content ≡ 0 ∷ []) }
    ensures durable { IsTrue D.told → OnOk result (Only (D.means (disk_at disks.new file)).content (D.means (disk_at disks.new file)).images) }
    ensures any_moment { IsTrue D.told → LeavesOnly (D.means (disk_at disks.old file)) (D.means (disk_at disks.new file)) (IsBelow generation) }
    ensures room { Uses 1 4 (D.means (disk_at disks.old file)) (D.means (disk_at disks.new file)) }
    ensures spent { Spends D.means 4 (is_err result) disks.old disks.new }
{
    cut_synced(disks, file, 0)?;
    write_synced(disks, file, 0, &[0])?;
    Ok(())
}

/// Writes the rest of the file behind the closed gate, and opens the gate.
pub fn finish_replace<D: Disk>(
    disks: &mut DiskPair<D>,
    file: FileNo,
    generation: u64,
    rest: &[u8],
) -> Result<(), Failed>
    requires durable { IsTrue D.told → Only (D.means (disk_at disks.old file)).content (D.means (disk_at disks.old file)).images }
    requires closed { IsTrue D.told → (D.means (disk_at disks.old file)).content ≡ 0 ∷ [] }
    requires rest { generation_of (1 ∷ rest.now) ≡ Some (generation + 1) }
    requires some { 0 < length rest.now }
    requires room { HasRoom (D.means (disk_at disks.old file)) (length rest.now + 1) 4 }
    ensures other { disk_at disks.new (other file) ≡ disk_at disks.old (other file) }
    ensures open_now { IsTrue D.told → OnOk result ((D.means (disk_at disks.new file)).content ≡ 1 ∷ rest.now) }
    ensures durable { IsTrue D.told → OnOk result (Only (D.means (disk_at disks.new file)).content (D.means (disk_at disks.new file)).images) }
    ensures any_moment { IsTrue D.told → LeavesOnly (D.means (disk_at disks.old file)) (D.means (disk_at disks.new file)) (IsOldOrNew generation (1 ∷ rest.now)) }
    ensures room { Uses (length rest.now + 1) 4 (D.means (disk_at disks.old file)) (D.means (disk_at disks.new file)) }
    ensures spent { Spends D.means 4 (is_err result) disks.old disks.new }
{
    write_synced(disks, file, 1, rest)?;
    write_synced(disks, file, 0, &[1])?;
    Ok(())
}

/// Cuts a file, and syncs it.
fn cut_synced<D: Disk>(disks: &mut DiskPair<D>, file: FileNo, to: u64) -> Result<(), Failed>
    requires durable { IsTrue D.told → Only (D.means (disk_at disks.old file)).content (D.means (disk_at disks.old file)).images }
    requires place { IsTrue D.told → to ≤ length (D.means (disk_at disks.old file)).content }
    requires room { HasRoom (D.means (disk_at disks.old file)) 0 2 }
    ensures other { disk_at disks.new (other file) ≡ disk_at disks.old (other file) }
    ensures cut { IsTrue D.told → OnOk result ((D.means (disk_at disks.new file)).content ≡ take to (D.means (disk_at disks.old file)).content) }
    ensures durable { IsTrue D.told → OnOk result (Only (D.means (disk_at disks.new file)).content (D.means (disk_at disks.new file)).images) }
    ensures any_moment { IsTrue D.told → LeavesOnly (D.means (disk_at disks.old file)) (D.means (disk_at disks.new file)) (Cut to (D.means (disk_at disks.old file)).content) }
    ensures room { Uses 0 2 (D.means (disk_at disks.old file)) (D.means (disk_at disks.new file)) }
    ensures spent { Spends D.means 2 (is_err result) disks.old disks.new }
{
    disks.cut(file, to)?;
    disks.sync(file)?;
    Ok(())
}
