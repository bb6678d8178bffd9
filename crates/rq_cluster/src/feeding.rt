// Lines out of bytes that come in any pieces, each done when its end comes.
ghost use Rattle.std.specs.Prelude.{◌≡◌, ◌≢◌, ◌≤◌, ◌<◌, ◌⊎◌, ◌+◌, ◌++◌, ◌∷◌, [], List, ℕ, length, take, slice_index, IsTrue, IfOk, OnOk, OnErr, IsErrOf};
ghost use Rattle.rq_outside.specs.Counts.{Rose};
ghost use Rattle.rq_outside.specs.declared.pair.DiskPair.{DiskPair as ThePair};
ghost use Rattle.rq_script.specs.Cluster.{Cluster, first_cluster, Steps, IsOutside};
ghost use Rattle.rq_script.specs.Lines.{drop_cr, lines_of};
ghost use Rattle.rq_script.specs.Runs.{StopsAt};
ghost use Rattle.rq_cluster.specs.Feed.{After, IsAfter, IsBetween, PartOf, StopsKept, GoesOn, Stopped, HasNoLineEnd};
ghost use Rattle.rq_cluster.specs.Outcome.{Took, BrokenOff};
ghost use Rattle.rq_cluster.specs.Refines.{IsReady, Refines};
ghost use Rattle.rq_cluster.specs.Recovery.{Holds};
ghost use Rattle.rq_cluster.specs.declared.feeding.Stop.TheVariants.{Outside as StopOutside, Sink as StopSink, Source as StopSource};

use crate::giving::give;
use crate::line_error::LineError;
use crate::progress::Progress;
use crate::reason::Reason;
use crate::recovery::refined_clusters_stand;
use crate::world::World;
use rq_outside::{CrashDisk, DiskPair, Sink, SinkError};
use rq_values::{MAX_LINE, MAX_SCRIPT};
use std::alloc::Global;

/// What ends a script early.
#[derive(Clone, Copy, Debug, PartialEq, Eq)]
pub enum Stop {
    /// A line is outside the grammar or the limits.
    Outside,
    Source,
    Sink,
    Memory,
}

impl Progress {
    /// Before the first byte.
    pub fn new(alloc: Global) -> Progress
        ensures after { After [] [] first_cluster result.number result.held.items result.read }
        ensures host { result.world.host ≡ None }
        ensures asks { result.world.asks ≡ 0 }
    {
        Progress {
            world: World::new(),
            number: 1,
            held: Vec::new(alloc),
            read: 0,
            passes: None,
            is_ended: false,
        }
    }
}

/// Does a line, and gives its text to the sink.
pub fn do_line<D: CrashDisk, K: Sink>(
    alloc: Global,
    world: &mut World,
    disks: &mut Vec<DiskPair<D>>,
    sink: &mut K,
    line: &[u8],
) -> Result<(), Stop>
    requires { IsReady D.told D.means disks.old.items world.old }
    ensures ok { OnOk result ((start : List (ThePair D D.Fault)) (c : Cluster) → Refines D.told D.means start disks.old.items world.old c → (next : Cluster) × (text : List ℕ) × (length line.now ≤ 2097152) × Steps c line.now text next × (IsTrue K.told → K.taken sink.new ≡ K.taken sink.old ++ text) × Refines D.told D.means start disks.new.items world.new next) }
    ensures ready { OnOk result (IsReady D.told D.means disks.new.items world.new) }
    ensures outside { IsErrOf result StopOutside → (start : List (ThePair D D.Fault)) (c : Cluster) → Refines D.told D.means start disks.old.items world.old c → ((2097152 < length line.now) ⊎ IsOutside c line.now) × Holds D.told D.means start disks.new.items c }
    ensures unwritten { IsErrOf result StopOutside → IsTrue K.told → K.taken sink.new ≡ K.taken sink.old }
    ensures part { OnErr result ((start : List (ThePair D D.Fault)) (c : Cluster) → Refines D.told D.means start disks.old.items world.old c → Took K.told (K.taken sink.old) (K.taken sink.new) (PartOf (Holds D.told D.means start disks.new.items) c line.now)) }
    ensures later { K.faults sink.old ≤ K.faults sink.new }
    ensures cause { IsErrOf result StopSink → Rose (K.faults sink.old) (K.faults sink.new) }
    ensures not_source { IsErrOf result StopSource → ⊥ }
{
    refined_clusters_stand::<D>();
    if line.len() > MAX_LINE {
        return Err(Stop::Outside);
    }
    let mut text = Vec::new(alloc);
    match world.step(alloc, disks, line, &mut text) {
        Ok(()) => {}
        Err(LineError::Outside) => return Err(Stop::Outside),
        Err(LineError::NoMemory) => return Err(Stop::Memory),
    }
    match give(sink, &text) {
        Ok(()) => Ok(()),
        Err(SinkError::Failed) => Err(Stop::Sink),
        Err(SinkError::NoMemory) => Err(Stop::Memory),
    }
}

/// The line without a CR at its end.
pub fn without_cr(line: &[u8]) -> &[u8]
    ensures { result.now ≡ drop_cr line.now }
{
    if line.is_empty() {
        return line;
    }
    if line[line.len() - 1] == b'\r' {
        &line[..line.len() - 1]
    } else {
        line
    }
}

/// Does the line that is held, since its LF came.
fn end_line<D: CrashDisk, K: Sink>(
    progress: &mut Progress,
    alloc: Global,
    disks: &mut Vec<DiskPair<D>>,
    sink: &mut K,
) -> Result<(), Stop>
    requires ready { IsReady D.told D.means disks.old.items progress.old.world }
    ensures ok { OnOk result (GoesOn D.told D.means disks.old.items disks.new.items K.told (K.taken sink.old) (K.taken sink.new) progress.old progress.new (10 ∷ [])) }
    ensures read { OnOk result (progress.new.read ≡ progress.old.read + 1) }
    ensures ready { OnOk result (IsReady D.told D.means disks.new.items progress.new.world) }
    ensures outside { IsErrOf result StopOutside → (rest : List ℕ) → Stopped D.told D.means disks.old.items disks.new.items K.told (K.taken sink.old) (K.taken sink.new) progress.old (10 ∷ rest) (λ start. StopsKept (Holds D.told D.means start disks.new.items) progress.new.number) }
    ensures part { OnErr result ((rest : List ℕ) → Stopped D.told D.means disks.old.items disks.new.items K.told (K.taken sink.old) (K.taken sink.new) progress.old (10 ∷ rest) (λ start all out. BrokenOff all (Holds D.told D.means start disks.new.items) out)) }
    ensures later { K.faults sink.old ≤ K.faults sink.new }
    ensures cause { IsErrOf result StopSink → Rose (K.faults sink.old) (K.faults sink.new) }
    ensures not_source { IsErrOf result StopSource → ⊥ }
{
    refined_clusters_stand::<D>();
    if progress.read == MAX_SCRIPT {
        progress.passes = Some(Reason::LongScript);
        return Err(Stop::Outside);
    }
    match do_line(
        alloc,
        &mut progress.world,
        disks,
        sink,
        without_cr(&progress.held),
    ) {
        Ok(()) => {
            progress.read += 1;
            progress.number += 1;
            progress.held.clear();
            Ok(())
        }
        Err(stop) => {
            progress.is_ended = true;
            Err(stop)
        }
    }
}

/// Holds bytes of the line to come.
fn hold(progress: &mut Progress, bytes: &[u8]) -> Result<(), Stop>
    requires { HasNoLineEnd bytes.now }
    ensures ok { OnOk result ((read text : List ℕ) (c : Cluster) → After read text c progress.old.number progress.old.held.items progress.old.read → After (read ++ bytes.now) text c progress.new.number progress.new.held.items progress.new.read) }
    ensures read { OnOk result (progress.new.read ≡ progress.old.read + length bytes.now) }
    ensures world { progress.new.world ≡ progress.old.world }
    ensures outside { IsErrOf result StopOutside → (rest read text : List ℕ) (c : Cluster) → After read text c progress.old.number progress.old.held.items progress.old.read → StopsAt (lines_of (read ++ (bytes.now ++ rest))) progress.new.number text c }
    ensures part { OnErr result ((rest read text : List ℕ) (c : Cluster) → After read text c progress.old.number progress.old.held.items progress.old.read → IsBetween c (lines_of (read ++ (bytes.now ++ rest))) text) }
    ensures neither { (IsErrOf result StopSink → ⊥) × (IsErrOf result StopSource → ⊥) }
{
    let count = bytes.len() as u64;
    if count > MAX_SCRIPT - progress.read {
        progress.passes = Some(Reason::LongScript);
        return Err(Stop::Outside);
    }
    if progress.held.len() + bytes.len() > MAX_LINE + 1 {
        progress.passes = Some(Reason::LongLine);
        return Err(Stop::Outside);
    }
    match progress.held.extend_from_slice(bytes) {
        Ok(()) => {
            progress.read += count;
            Ok(())
        }
        Err(_) => Err(Stop::Memory),
    }
}

/// The place of the first LF, or the length where there is none.
fn line_end(piece: &[u8]) -> usize
    ensures within { result ≤ length piece.now }
    ensures before { (k : ℕ) → k < result → slice_index piece.now k ≢ 10 }
    ensures found { result < length piece.now → slice_index piece.now result ≡ 10 }
{
    for (i, byte) in piece.iter().enumerate() {
        if *byte == b'\n' {
            return i;
        }
    }
    piece.len()
}

/// Takes the bytes up to and with the first LF, or all where there is none, and answers how many.
fn take_prefix<D: CrashDisk, K: Sink>(
    progress: &mut Progress,
    alloc: Global,
    disks: &mut Vec<DiskPair<D>>,
    sink: &mut K,
    piece: &[u8],
) -> Result<usize, Stop>
    requires ready { IsReady D.told D.means disks.old.items progress.old.world }
    requires some { 0 < length piece.now }
    ensures count { IfOk result (λ n. (0 < n) × (n ≤ length piece.now)) }
    ensures ok { IfOk result (λ n. GoesOn D.told D.means disks.old.items disks.new.items K.told (K.taken sink.old) (K.taken sink.new) progress.old progress.new (take n piece.now)) }
    ensures read { IfOk result (λ n. progress.new.read ≡ progress.old.read + n) }
    ensures ready { OnOk result (IsReady D.told D.means disks.new.items progress.new.world) }
    ensures outside { IsErrOf result StopOutside → (rest : List ℕ) → Stopped D.told D.means disks.old.items disks.new.items K.told (K.taken sink.old) (K.taken sink.new) progress.old (piece.now ++ rest) (λ start. StopsKept (Holds D.told D.means start disks.new.items) progress.new.number) }
    ensures part { OnErr result ((rest : List ℕ) → Stopped D.told D.means disks.old.items disks.new.items K.told (K.taken sink.old) (K.taken sink.new) progress.old (piece.now ++ rest) (λ start all out. BrokenOff all (Holds D.told D.means start disks.new.items) out)) }
    ensures later { K.faults sink.old ≤ K.faults sink.new }
    ensures cause { IsErrOf result StopSink → Rose (K.faults sink.old) (K.faults sink.new) }
    ensures not_source { IsErrOf result StopSource → ⊥ }
{
    refined_clusters_stand::<D>();
    let count = line_end(piece);
    match hold(progress, &piece[..count]) {
        Ok(()) => {}
        Err(stop) => return Err(stop),
    }
    if count == piece.len() {
        return Ok(count);
    }
    match end_line(progress, alloc, disks, sink) {
        Ok(()) => Ok(count + 1),
        Err(stop) => Err(stop),
    }
}

/// Takes a piece of the script.
pub fn feed<D: CrashDisk, K: Sink>(
    progress: &mut Progress,
    alloc: Global,
    disks: &mut Vec<DiskPair<D>>,
    sink: &mut K,
    piece: &[u8],
) -> Result<(), Stop>
    requires ready { IsReady D.told D.means disks.old.items progress.old.world }
    ensures ok { OnOk result (GoesOn D.told D.means disks.old.items disks.new.items K.told (K.taken sink.old) (K.taken sink.new) progress.old progress.new piece.now) }
    ensures read { OnOk result (progress.new.read ≡ progress.old.read + length piece.now) }
    ensures ready { OnOk result (IsReady D.told D.means disks.new.items progress.new.world) }
    ensures outside { IsErrOf result StopOutside → (rest : List ℕ) → Stopped D.told D.means disks.old.items disks.new.items K.told (K.taken sink.old) (K.taken sink.new) progress.old (piece.now ++ rest) (λ start. StopsKept (Holds D.told D.means start disks.new.items) progress.new.number) }
    ensures part { OnErr result ((rest : List ℕ) → Stopped D.told D.means disks.old.items disks.new.items K.told (K.taken sink.old) (K.taken sink.new) progress.old (piece.now ++ rest) (λ start all out. BrokenOff all (Holds D.told D.means start disks.new.items) out)) }
    ensures later { K.faults sink.old ≤ K.faults sink.new }
    ensures cause { IsErrOf result StopSink → Rose (K.faults sink.old) (K.faults sink.new) }
    ensures not_source { IsErrOf result StopSource → ⊥ }
{
    let mut fed = 0;
    while fed < piece.len() {
        match take_prefix(progress, alloc, disks, sink, &piece[fed..]) {
            Ok(count) => fed += count,
            Err(stop) => return Err(stop),
        }
    }
    Ok(())
}
