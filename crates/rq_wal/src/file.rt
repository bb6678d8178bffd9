//! The current file of a pair, and the frames that are to be added to it.
ghost use Rattle.std.specs.Prelude.{is_err, false, ◌≡◌, ◌⊎◌, ◌≤◌, ◌<◌, ◌+◌, ◌*◌, ◌^◌, ◌++◌, List, ℕ, length, take, map, IsTrue, IfOk, OnOk, OnErr};
ghost use Rattle.std.specs.List.{flat_map};
ghost use Rattle.rq_outside.specs.declared.pair.DiskPair.{DiskPair};
ghost use Rattle.rq_outside.specs.Disk.{LeavesOnly, HasRoom, Uses, Stays};
ghost use Rattle.rq_outside.specs.Pair.{other, disk_at};
ghost use Rattle.rq_wire.specs.declared.frame.Frame.{Frame};
ghost use Rattle.rq_wal.specs.declared.base.Base.{Base};
ghost use Rattle.rq_wal.specs.declared.base.Stored.{Stored};
ghost use Rattle.rq_wal.specs.Current.{IsCurrent, IsSome, OnlyRoom, EachImage, EachImageGives, EachSinceGivesSome, SomeImageGives};
ghost use Rattle.rq_wal.specs.Gate.{IsAtRest, HasSomeOf};
ghost use Rattle.rq_wal.specs.Rules.{AreAllowed};
ghost use Rattle.rq_wal.specs.Stored.{applied_all};
ghost use Rattle.rq_wal.specs.Pieces.{bytes_of};
ghost use Rattle.rq_wal.specs.Spends.{Spends};
ghost use Rattle.rq_wal.specs.Spelling.{piece_of, gated};

use crate::framing::write_frames;
use crate::spelling::pieces;
use rq_outside::{Disk, DiskPair, Failed, FileNo};
use rq_values::{Bytes, NoMemory};
use rq_wire::Frame;
use std::alloc::Global;
use std::marker::Model;

/// The current file of a pair. After a failed write it is gone, and the pair is to be opened again.
#[derive(Drop)]
pub struct WalFile {
    pub(crate) file: FileNo,
    pub(crate) generation: u64,
    pub(crate) end: u64,
}

/// Frames that are ready to be written. A contract sees the bytes of each, with a closed gate behind them.
#[derive(Drop)]
pub struct Batch {
    pieces: Vec<Bytes>,
}

impl Model for Batch {
    ghost use Rattle.std.specs.Prelude.{List, ℕ, All};
    ghost use Rattle.rq_wal.specs.Gate.{IsPiece};

    ghost Value = { List (List ℕ) };

    ghost view = { λ batch. batch.pieces.items };

    ghost invariant = { λ batch. All IsPiece batch.pieces.items };
}

/// How many bytes the pieces have together.
fn total(pieces: &[Bytes]) -> Result<u64, NoMemory>
    ensures { IfOk result (λ total. total ≡ bytes_of pieces.now) }
{
    let mut total: u64 = 0;
    for piece in pieces {
        let Some(more) = total.checked_add(piece.bytes().len() as u64) else {
            return Err(NoMemory);
        };
        total = more;
    }
    Ok(total)
}

/// How much room so many pieces of so many bytes take: bytes and changing calls. None is made where a file of this
/// length would grow to 2^63 bytes or more.
fn room(end: u64, bytes: u64, count: usize) -> Result<(u64, u32), NoMemory>
    ensures bytes { IfOk result (λ room. room.0 ≡ bytes + count) }
    ensures calls { IfOk result (λ room. room.1 ≡ 4 * count) }
    ensures fits { OnOk result (end + bytes < 2 ^ 63) }
{
    if end >= 1 << 63 || bytes >= (1 << 63) - end || count >= 1 << 30 {
        return Err(NoMemory);
    }
    Ok((bytes + count as u64, 4 * count as u32))
}

impl WalFile {
    ghost use Rattle.rq_wal.specs.WalFile.{wal_file, wal_end, wal_generation};

    /// The place of the last gate.
    pub fn end(&self) -> u64
        ensures { result ≡ wal_end self.now }
    {
        self.end
    }

    /// How often a base was written to the pair.
    pub fn generation(&self) -> u64
        ensures { result ≡ wal_generation self.now }
    {
        self.generation
    }

    /// Takes all the memory that writing these frames wants, and does nothing else to the pair. None is given where a payload has 2^32 bytes or more, or
    /// where the file would grow to 2^63 bytes.
    #[tactic(auto, using(crate::proofs::Since::room_none, crate::proofs::Spending::room_spent, crate::proofs::Spending::spends_none))]
    pub fn ready<D: Disk>(
        &mut self,
        alloc: Global,
        disks: &mut DiskPair<D>,
        frames: &[Frame],
    ) -> Result<Batch, NoMemory>
        ensures file { self.new ≡ self.old }
        ensures batch { IfOk result (λ batch. batch ≡ map piece_of frames.now) }
        ensures fits { IfOk result (λ batch. wal_end self.new + bytes_of batch < 2 ^ 63) }
        ensures room { IfOk result (λ batch. HasRoom (D.means (disk_at disks.new (wal_file self.new))) (bytes_of batch + length batch) (4 * length batch)) }
        ensures other { disk_at disks.new (other (wal_file self.old)) ≡ disk_at disks.old (other (wal_file self.old)) }
        ensures same { IsTrue D.told → Stays (D.means (disk_at disks.old (wal_file self.old))) (D.means (disk_at disks.new (wal_file self.old))) }
        ensures at_rest { IsTrue D.told → IsAtRest (D.means (disk_at disks.old (wal_file self.old))) (wal_end self.old) → IsAtRest (D.means (disk_at disks.new (wal_file self.new))) (wal_end self.new) }
        ensures current { IsTrue D.told → (first : Base) (stored : Stored) → IsCurrent D.means first disks.old self.old stored → IsCurrent D.means first disks.new self.new stored }
        ensures now { IsTrue D.told → (first : Base) → EachImage D.means first disks.new (SomeImageGives D.means first disks.old) }
        ensures waits { IsTrue D.told → OnlyRoom D.means disks.old disks.new self.old }
        ensures faults { (D.means (disk_at disks.new (wal_file self.old))).faults ≡ (D.means (disk_at disks.old (wal_file self.old))).faults }
        ensures spent { Spends D.means 0 false disks.old disks.new }
    {
        let pieces = pieces(alloc, frames)?;
        match self.make_room(disks, &pieces) {
            Ok(()) => Ok(Batch { pieces }),
            Err(NoMemory) => {
                drop(pieces);
                Err(NoMemory)
            }
        }
    }

    /// Takes the memory that writing these pieces wants.
    #[tactic(auto, using(crate::proofs::Since::room_none, crate::proofs::Spending::room_spent, crate::proofs::Spending::spends_none))]
    fn make_room<D: Disk>(&self, disks: &mut DiskPair<D>, pieces: &[Bytes]) -> Result<(), NoMemory>
        ensures fits { OnOk result (wal_end self.now + bytes_of pieces.now < 2 ^ 63) }
        ensures room { OnOk result (HasRoom (D.means (disk_at disks.new (wal_file self.now))) (bytes_of pieces.now + length pieces.now) (4 * length pieces.now)) }
        ensures other { disk_at disks.new (other (wal_file self.now)) ≡ disk_at disks.old (other (wal_file self.now)) }
        ensures same { IsTrue D.told → Stays (D.means (disk_at disks.old (wal_file self.now))) (D.means (disk_at disks.new (wal_file self.now))) }
        ensures at_rest { IsTrue D.told → IsAtRest (D.means (disk_at disks.old (wal_file self.now))) (wal_end self.now) → IsAtRest (D.means (disk_at disks.new (wal_file self.now))) (wal_end self.now) }
        ensures current { IsTrue D.told → (first : Base) (stored : Stored) → IsCurrent D.means first disks.old self.now stored → IsCurrent D.means first disks.new self.now stored }
        ensures now { IsTrue D.told → (first : Base) → EachImage D.means first disks.new (SomeImageGives D.means first disks.old) }
        ensures waits { IsTrue D.told → OnlyRoom D.means disks.old disks.new self.now }
        ensures faults { (D.means (disk_at disks.new (wal_file self.now))).faults ≡ (D.means (disk_at disks.old (wal_file self.now))).faults }
        ensures spent { Spends D.means 0 false disks.old disks.new }
    {
        let bytes = total(pieces)?;
        let (bytes, calls) = room(self.end, bytes, pieces.len())?;
        disks.ready(self.file, bytes, calls)
    }

    /// Adds the frames in order, by four changing calls each and without memory: the frame and a closed gate behind it; a
    /// sync; the gate before it is opened; a sync. A stop at any moment leaves the first of the frames, each whole; so it
    /// is since any earlier moment, where only room was made in between.
    pub fn write<D: Disk>(self, disks: &mut DiskPair<D>, batch: Batch) -> Result<WalFile, Failed>
        requires at_rest { IsTrue D.told → IsAtRest (D.means (disk_at disks.old (wal_file self))) (wal_end self) }
        requires fits { wal_end self + bytes_of batch < 2 ^ 63 }
        requires room { HasRoom (D.means (disk_at disks.old (wal_file self))) (bytes_of batch + length batch) (4 * length batch) }
        ensures file { IfOk result (λ wal. wal_file wal ≡ wal_file self) }
        ensures generation { IfOk result (λ wal. wal_generation wal ≡ wal_generation self) }
        ensures end { IfOk result (λ wal. wal_end wal ≡ wal_end self + bytes_of batch) }
        ensures other { disk_at disks.new (other (wal_file self)) ≡ disk_at disks.old (other (wal_file self)) }
        ensures at_rest { IfOk result (λ wal. IsTrue D.told → IsAtRest (D.means (disk_at disks.new (wal_file wal))) (wal_end wal)) }
        ensures written { IsTrue D.told → (frames : List Frame) → batch ≡ map piece_of frames → IfOk result (λ wal. take (wal_end wal) (D.means (disk_at disks.new (wal_file self))).content ≡ take (wal_end self) (D.means (disk_at disks.old (wal_file self))).content ++ flat_map gated frames) }
        ensures any_moment { IsTrue D.told → (frames : List Frame) → batch ≡ map piece_of frames → LeavesOnly (D.means (disk_at disks.old (wal_file self))) (D.means (disk_at disks.new (wal_file self))) (HasSomeOf (take (wal_end self) (D.means (disk_at disks.old (wal_file self))).content) frames) }
        ensures current { IsTrue D.told → (first : Base) (stored : Stored) (frames : List Frame) → batch ≡ map piece_of frames → AreAllowed stored frames → IsCurrent D.means first disks.old self stored → IfOk result (λ wal. IsCurrent D.means first disks.new wal (applied_all stored frames)) }
        ensures images { IsTrue D.told → (first : Base) (stored : Stored) (frames : List Frame) → batch ≡ map piece_of frames → AreAllowed stored frames → IsCurrent D.means first disks.old self stored → OnOk result (EachImageGives D.means first disks.new (applied_all stored frames)) }
        ensures some_stand { IsTrue D.told → (first : Base) (stored : Stored) (frames : List Frame) → batch ≡ map piece_of frames → AreAllowed stored frames → IsCurrent D.means first disks.old self stored → EachSinceGivesSome D.means first disks.old disks.new stored frames }
        ensures moments { IsTrue D.told → (began : DiskPair D D.Fault) (first : Base) (stored : Stored) (frames : List Frame) → batch ≡ map piece_of frames → AreAllowed stored frames → IsCurrent D.means first began self stored → OnlyRoom D.means began disks.old self → EachSinceGivesSome D.means first began disks.new stored frames }
        ensures some_now { IsTrue D.told → (first : Base) (stored : Stored) (frames : List Frame) → batch ≡ map piece_of frames → AreAllowed stored frames → IsCurrent D.means first disks.old self stored → EachImage D.means first disks.new (IsSome stored frames) }
        ensures spent { Spends D.means (4 * length batch) (is_err result) disks.old disks.new }
    {
        let end = write_frames(disks, self.file, self.end, &batch.pieces)?;
        Ok(WalFile {
            file: self.file,
            generation: self.generation,
            end,
        })
    }
}
