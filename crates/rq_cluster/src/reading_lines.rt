// A source, read to its end.
ghost use Rattle.std.specs.Prelude.{◌≡◌, ◌≤◌, ◌++◌, [], List, ℕ, IsTrue, OnOk, OnErr, IsErrOf};
ghost use Rattle.rq_outside.specs.Counts.{Rose};
ghost use Rattle.rq_outside.specs.declared.pair.DiskPair.{DiskPair as ThePair};
ghost use Rattle.rq_cluster.specs.Refines.{IsReady};
ghost use Rattle.rq_cluster.specs.Recovery.{Holds};
ghost use Rattle.rq_cluster.specs.Outcome.{BrokenOff};
ghost use Rattle.rq_cluster.specs.Feed.{StopsKept, GoesOn, Stopped};
ghost use Rattle.rq_cluster.specs.declared.feeding.Stop.TheVariants.{Outside as StopOutside, Sink as StopSink, Source as StopSource, Memory as StopMemory};

use crate::feeding::{Stop, feed};
use crate::progress::Progress;
use crate::recovery::refined_clusters_stand;
use rq_outside::{CrashDisk, DiskPair, Sink, Source};
use std::alloc::Global;

/// Reads all that is left of a source, and does its lines. Each piece is worked off before the next is read.
pub fn read_all<S: Source, D: CrashDisk, K: Sink>(
    progress: &mut Progress,
    alloc: Global,
    source: &mut S,
    disks: &mut Vec<DiskPair<D>>,
    sink: &mut K,
) -> Result<(), Stop>
    requires ready { IsReady D.told D.means disks.old.items progress.old.world }
    ensures ok { IsTrue S.told → OnOk result (GoesOn D.told D.means disks.old.items disks.new.items K.told (K.taken sink.old) (K.taken sink.new) progress.old progress.new (S.left source.old)) }
    ensures drained { IsTrue S.told → OnOk result (S.left source.new ≡ []) }
    ensures ready { OnOk result (IsReady D.told D.means disks.new.items progress.new.world) }
    ensures outside { IsErrOf result StopOutside → IsTrue S.told → Stopped D.told D.means disks.old.items disks.new.items K.told (K.taken sink.old) (K.taken sink.new) progress.old (S.left source.old) (λ start. StopsKept (Holds D.told D.means start disks.new.items) progress.new.number) }
    ensures fault { IsErrOf result StopSource → IsTrue S.told → (read : List ℕ) × (S.left source.old ≡ read ++ S.left source.new) × GoesOn D.told D.means disks.old.items disks.new.items K.told (K.taken sink.old) (K.taken sink.new) progress.old progress.new read }
    ensures part { IsTrue S.told → OnErr result (Stopped D.told D.means disks.old.items disks.new.items K.told (K.taken sink.old) (K.taken sink.new) progress.old (S.left source.old) (λ start all out. BrokenOff all (Holds D.told D.means start disks.new.items) out)) }
    ensures later { K.faults sink.old ≤ K.faults sink.new }
    ensures cause { IsErrOf result StopSink → Rose (K.faults sink.old) (K.faults sink.new) }
    ensures source_cause { IsErrOf result StopSource → Rose (S.faults source.old) (S.faults source.new) }
{
    refined_clusters_stand::<D>();
    let mut buffer = [0u8; 4096];
    'reading: loop {
        match source.read(&mut buffer) {
            Err(_) => return Err(Stop::Source),
            Ok(0) => return Ok(()),
            Ok(count) => match feed(progress, alloc, disks, sink, &buffer[..count]) {
                Ok(()) => {}
                Err(stop) => return Err(stop),
            },
        }
    }
}
