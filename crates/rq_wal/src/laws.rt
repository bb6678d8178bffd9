//! The laws of reading and writing, and of pairs at rest.
ghost use Rattle.std.specs.Prelude.{◌≡◌, Ok, IsTrue};
ghost use Rattle.rq_outside.specs.declared.pair.DiskPair.{DiskPair};
ghost use Rattle.rq_wal.specs.declared.base.Base.{Base};
ghost use Rattle.rq_wal.specs.declared.base.Stored.{Stored};
ghost use Rattle.rq_wal.specs.declared.file.WalFile.{WalFile};
ghost use Rattle.rq_wal.specs.Current.{IsCurrent, OnlyRoom, EachImage, EachSinceGives};
ghost use Rattle.rq_wal.specs.Log.{ReadsWritten, ReadsNothingElse};

use rq_outside::Disk;

/// A log is read exactly where it was written: frames that the rules allow, behind open gates, and then a closed gate.
pub fn logs_are_read_as_written()
    ensures written { ReadsWritten }
    ensures nothing_else { ReadsNothingElse }
{}

/// Whatever a crash leaves of a pair whose current file is a log at rest stands for what is stored in it.
pub fn current_logs_stand<D: Disk>()
    ensures { (first : Base) (pair : DiskPair D D.Fault) (wal : WalFile) (stored : Stored) → IsCurrent D.means first pair wal stored → EachImage D.means first pair (λ reading. reading ≡ Ok stored) }
{}

/// Where since such a moment only room was made, whatever a crash since then left stands for that too.
pub fn logs_stand_while_room_is_made<D: Disk>()
    ensures { IsTrue D.told → (first : Base) (old new : DiskPair D D.Fault) (wal : WalFile) (stored : Stored) → IsCurrent D.means first old wal stored → OnlyRoom D.means old new wal → EachSinceGives D.means first old new stored }
{}
