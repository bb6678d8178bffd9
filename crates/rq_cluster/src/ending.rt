// The end of a script, and last lines.
ghost use Rattle.std.specs.Prelude.{◌≡◌, ◌≢◌, ◌≤◌, ◌<◌, ◌⊎◌, ◌+◌, ◌++◌, [], flat_map, List, ℕ, IsTrue, IfOk, OnOk, OnErr, IsErrOf};
ghost use Rattle.rq_outside.specs.Counts.{Rose};
ghost use Rattle.rq_outside.specs.declared.pair.DiskPair.{DiskPair as ThePair};
ghost use Rattle.rq_script.specs.Cluster.{Cluster};
ghost use Rattle.rq_script.specs.Lines.{lines_of};
ghost use Rattle.rq_script.specs.ScriptText.{pending_text};
ghost use Rattle.rq_cluster.specs.Outcome.{Took, BrokenOff, Wrote};
ghost use Rattle.rq_cluster.specs.LastLines.{stopped_line, LastLine};
ghost use Rattle.rq_cluster.specs.Feed.{IsAfter, StopsKept, AtEnd};
ghost use Rattle.rq_cluster.specs.Refines.{IsReady, Refines, pending_in};
ghost use Rattle.rq_cluster.specs.Recovery.{Holds};
ghost use Rattle.rq_cluster.specs.declared.feeding.Stop.TheVariants.{Outside as StopOutside, Sink as StopSink, Source as StopSource};

use crate::feeding::{Stop, do_line};
use crate::giving::give;
use crate::progress::Progress;
use crate::recovery::refined_clusters_stand;
use crate::world::World;
use rq_outside::{CrashDisk, DiskPair, Sink, SinkError};
use rq_settle::each_text_is_prepared;
use std::alloc::Global;

/// Does the line that has no LF, and answers the number of a line after the last.
pub fn last_held<D: CrashDisk, K: Sink>(
    progress: &mut Progress,
    alloc: Global,
    disks: &mut Vec<DiskPair<D>>,
    sink: &mut K,
) -> Result<u64, Stop>
    requires ready { IsReady D.told D.means disks.old.items progress.old.world }
    ensures ok { IfOk result (λ number. (start : List (ThePair D D.Fault)) (read text : List ℕ) → IsAfter D.told D.means start disks.old.items read text progress.old → Took K.told (K.taken sink.old) (K.taken sink.new) (λ out. (c : Cluster) × AtEnd (lines_of read) (text ++ out) c number × Refines D.told D.means start disks.new.items progress.new.world c)) }
    ensures ready { OnOk result (IsReady D.told D.means disks.new.items progress.new.world) }
    ensures outside { IsErrOf result StopOutside → (start : List (ThePair D D.Fault)) (read text : List ℕ) → IsAfter D.told D.means start disks.old.items read text progress.old → Took K.told (K.taken sink.old) (K.taken sink.new) (λ out. StopsKept (Holds D.told D.means start disks.new.items) progress.new.number (lines_of read) (text ++ out)) }
    ensures part { OnErr result ((start : List (ThePair D D.Fault)) (read text : List ℕ) → IsAfter D.told D.means start disks.old.items read text progress.old → Took K.told (K.taken sink.old) (K.taken sink.new) (λ out. BrokenOff (lines_of read) (Holds D.told D.means start disks.new.items) (text ++ out))) }
    ensures later { K.faults sink.old ≤ K.faults sink.new }
    ensures cause { IsErrOf result StopSink → Rose (K.faults sink.old) (K.faults sink.new) }
    ensures not_source { IsErrOf result StopSource → ⊥ }
{
    if progress.held.is_empty() {
        return Ok(progress.number);
    }
    match do_line(alloc, &mut progress.world, disks, sink, &progress.held) {
        Ok(()) => Ok(progress.number + 1),
        Err(stop) => Err(stop),
    }
}

/// Writes a last line, and answers the status.
pub fn last_line<K: Sink>(sink: &mut K, line: &[u8], status: u8) -> u8
    requires { status ≢ 5 }
    ensures statuses { (result ≡ status) ⊎ (result ≡ 5) ⊎ (result ≡ 6) }
    ensures wrote { Took K.told (K.taken sink.old) (K.taken sink.new) (LastLine status line.now result) }
    ensures later { K.faults sink.old ≤ K.faults sink.new }
    ensures cause { result ≡ 5 → Rose (K.faults sink.old) (K.faults sink.new) }
{
    match give(sink, line) {
        Ok(()) => status,
        Err(SinkError::Failed) => 5,
        Err(SinkError::NoMemory) => 6,
    }
}

/// Writes that a line is outside, and answers the status.
pub fn stop_at<K: Sink>(alloc: Global, sink: &mut K, number: u64) -> u8
    ensures statuses { (result ≡ 3) ⊎ (result ≡ 5) ⊎ (result ≡ 6) }
    ensures wrote { Took K.told (K.taken sink.old) (K.taken sink.new) (LastLine 3 (stopped_line number) result) }
    ensures later { K.faults sink.old ≤ K.faults sink.new }
    ensures cause { result ≡ 5 → Rose (K.faults sink.old) (K.faults sink.new) }
{
    match format!(in alloc; "stopped: line {number}\n") {
        Ok(line) => last_line(sink, line.as_bytes(), 3),
        Err(_) => 6,
    }
}

/// Writes the end of a script that was done whole, and answers the status.
pub fn give_ending<K: Sink>(alloc: Global, sink: &mut K, world: &World) -> u8
    ensures statuses { (result ≡ 0) ⊎ (result ≡ 5) ⊎ (result ≡ 6) }
    ensures wrote { Took K.told (K.taken sink.old) (K.taken sink.new) (LastLine 0 (flat_map pending_text (pending_in world.now.host)) result) }
    ensures later { K.faults sink.old ≤ K.faults sink.new }
    ensures cause { result ≡ 5 → Rose (K.faults sink.old) (K.faults sink.new) }
{
    let mut text = Vec::new(alloc);
    match world.write_ending(alloc, &mut text) {
        Ok(()) => last_line(sink, &text, 0),
        Err(_) => 6,
    }
}

/// Does what is left at the end of the input, and answers the status.
pub fn end_script<D: CrashDisk, K: Sink>(
    progress: &mut Progress,
    alloc: Global,
    disks: &mut Vec<DiskPair<D>>,
    sink: &mut K,
) -> u8
    requires ready { IsReady D.told D.means disks.old.items progress.old.world }
    ensures wrote { (start : List (ThePair D D.Fault)) (read text : List ℕ) → IsAfter D.told D.means start disks.old.items read text progress.old → Took K.told (K.taken sink.old) (K.taken sink.new) (λ out. Wrote read [] ⊥ (Holds D.told D.means start disks.new.items) result (text ++ out)) }
    ensures statuses { (result ≡ 0) ⊎ (result ≡ 3) ⊎ (result ≡ 5) ⊎ (result ≡ 6) }
    ensures later { K.faults sink.old ≤ K.faults sink.new }
    ensures cause { result ≡ 5 → Rose (K.faults sink.old) (K.faults sink.new) }
{
    each_text_is_prepared();
    refined_clusters_stand::<D>();
    match last_held(progress, alloc, disks, sink) {
        Ok(number) => {
            if progress.world.is_started() {
                give_ending(alloc, sink, &progress.world)
            } else {
                stop_at(alloc, sink, number)
            }
        }
        Err(Stop::Outside) => stop_at(alloc, sink, progress.number),
        Err(Stop::Sink) => 5,
        Err(_) => 6,
    }
}
