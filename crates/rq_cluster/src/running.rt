// The top call: words, then the script of a source.
ghost use Rattle.std.specs.Prelude.{◌≡◌, ◌≤◌, ◌⊎◌, ◌++◌, [], List, ℕ, IsTrue, IsSome, Some, None};
ghost use Rattle.rq_outside.specs.Counts.{Rose};
ghost use Rattle.rq_node.specs.Node.{Node};
ghost use Rattle.rq_script.specs.Answering.{AppliesAnswerAll};
ghost use Rattle.rq_script.specs.Cluster.{Server, Cluster, Steps, first_cluster, first_ids, unanswered};
ghost use Rattle.rq_script.specs.FromAsks.{IsAsked};
ghost use Rattle.rq_script.specs.History.{history, node_in, notes_of};
ghost use Rattle.rq_script.specs.Lines.{Line, IsWithin};
ghost use Rattle.rq_script.specs.Numbering.{AreNumbered};
ghost use Rattle.rq_script.specs.OpenAsks.{Opens};
ghost use Rattle.rq_script.specs.Promise.{IsKept, Keeps, Grows};
ghost use Rattle.rq_script.specs.Runs.{Runs};
ghost use Rattle.rq_script.specs.ScriptLine.{line_of};
ghost use Rattle.rq_script.specs.Writing.{Tells, ReadsSeeApplied};
ghost use Rattle.rq_cluster.specs.CommandWords.{wrong_word};
ghost use Rattle.rq_cluster.specs.Feed.{After};
ghost use Rattle.rq_cluster.specs.LastLines.{stopped_word, LastLine};
ghost use Rattle.rq_cluster.specs.Outcome.{Took, Wrote, IsStatus};
ghost use Rattle.rq_cluster.specs.Recovery.{AreNew, Holds};

use crate::ending::{end_script, last_line, stop_at};
use crate::feeding::{Stop, without_cr};
use crate::progress::Progress;
use crate::reading_lines::read_all;
use crate::reason::{Reason, Stopped};
use crate::recovery::refined_clusters_stand;
use crate::words::{first_wrong, refuse};
use rq_outside::{CrashDisk, DiskPair, Draws, Sink, Source, Word};
use rq_script::laws::{
    answers_are_noted, applies_answer_all, asks_are_numbered, each_list_was_asked_once,
    each_moment_is_kept, pending_asks_are_open, reads_see_what_was_applied, the_one_log_grows,
    what_was_chosen_is_kept,
};
use rq_settle::each_text_is_prepared;
use rq_values::MAX_LINE;
use std::alloc::Global;

/// How a run of the top call ends: its status, and why a script was stopped at a line.
#[derive(Clone, Copy, Debug)]
pub struct Ended {
    pub status: u8,
    /// There only with the status 3.
    pub stopped: Option<Stopped>,
}

/// Runs the script that a source gives, from before its first byte, and answers the status.
fn run_script<S: Source, D: CrashDisk, K: Sink>(
    progress: &mut Progress,
    alloc: Global,
    source: &mut S,
    sink: &mut K,
    disks: &mut Vec<DiskPair<D>>,
) -> u8
    requires new { AreNew D.told D.means disks.old.items }
    requires after { After [] [] first_cluster progress.old.number progress.old.held.items progress.old.read }
    requires host { progress.old.world.host ≡ None }
    requires asks { progress.old.world.asks ≡ 0 }
    ensures wrote { IsTrue S.told → IsTrue D.told → Took K.told (K.taken sink.old) (K.taken sink.new) (Wrote (S.left source.old) (S.left source.new) (Rose (S.faults source.old) (S.faults source.new)) (Holds D.told D.means disks.old.items disks.new.items) result) }
    ensures drained { IsTrue S.told → result ≡ 0 → S.left source.new ≡ [] }
    ensures statuses { (result ≡ 0) ⊎ (result ≡ 3) ⊎ (result ≡ 4) ⊎ (result ≡ 5) ⊎ (result ≡ 6) }
    ensures source { result ≡ 4 → Rose (S.faults source.old) (S.faults source.new) }
    ensures sink { result ≡ 5 → Rose (K.faults sink.old) (K.faults sink.new) }
{
    each_text_is_prepared();
    refined_clusters_stand::<D>();
    match read_all(progress, alloc, source, disks, sink) {
        Ok(()) => end_script(progress, alloc, disks, sink),
        Err(Stop::Outside) => stop_at(alloc, sink, progress.number),
        Err(Stop::Source) => last_line(sink, b"stopped: read fault\n", 4),
        Err(Stop::Sink) => 5,
        Err(Stop::Memory) => 6,
    }
}

/// Runs the script of the source over the pairs, if the words are right, and answers the status. The k-th node of the
/// script uses the k-th pair. The words are those after the program's name.
pub fn cluster_main<S: Source, K: Sink, D: CrashDisk, R: Draws>(
    alloc: Global,
    words: &[Word],
    source: &mut S,
    sink: &mut K,
    disks: &mut Vec<DiskPair<D>>,
    draws: &mut R,
) -> u8
    requires { AreNew D.told D.means disks.old.items }

    ensures statuses { IsStatus result }

    // Wrong words: the place and the word, whole with status 2, or a prefix of it with 5 or 6. The source isn't read.
    ensures words { (place : ℕ) (word : List ℕ) → wrong_word words.now ≡ Some (place, word) →
        Took K.told (K.taken sink.old) (K.taken sink.new) (LastLine 2 (stopped_word place word) result) }
    ensures unread { (place : ℕ) (word : List ℕ) → wrong_word words.now ≡ Some (place, word) → S.left source.new ≡ S.left source.old }
    ensures unused { (place : ℕ) (word : List ℕ) → wrong_word words.now ≡ Some (place, word) → disks.new ≡ disks.old }
    ensures right_words { wrong_word words.now ≡ None → result ≡ 2 → ⊥ }

    // Right words, and disks that tell what they hold: what each status says of the source's bytes, what was written, and
    // what the files keep.
    ensures script { wrong_word words.now ≡ None → IsTrue S.told → IsTrue D.told →
        Took K.told (K.taken sink.old) (K.taken sink.new)
        (Wrote (S.left source.old) (S.left source.new) (Rose (S.faults source.old) (S.faults source.new)) (Holds D.told D.means disks.old.items disks.new.items) result) }

    // A fault is told only where it came, and else the script is read to its end or to the first line outside.
    ensures drained { IsTrue S.told → result ≡ 0 → S.left source.new ≡ [] }
    ensures source { result ≡ 4 → Rose (S.faults source.old) (S.faults source.new) }
    ensures sink { result ≡ 5 → Rose (K.faults sink.old) (K.faults sink.new) }
    ensures complete { wrong_word words.now ≡ None → (Rose (S.faults source.old) (S.faults source.new) → ⊥) → (Rose (K.faults sink.old) (K.faults sink.new) → ⊥) →
        (result ≡ 0) ⊎ (result ≡ 3) ⊎ (result ≡ 6) }
    ensures refused { (place : ℕ) (word : List ℕ) → wrong_word words.now ≡ Some (place, word) → (Rose (K.faults sink.old) (K.faults sink.new) → ⊥) →
        (result ≡ 2) ⊎ (result ≡ 6) }

    // At each moment of that run, as of every run, the replica is the fold of a prefix of the one log and each answer is right;
    // what was chosen stands in what the server keeps, running or down; and what was chosen and noted only grows.
    ensures each_moment { (lines : List Line) (text : List ℕ) (c : Cluster) (run : Runs lines text c) → Keeps (first_ids c.server) (history run) (node_in c) }
    ensures kept { (lines : List Line) (text : List ℕ) (c : Cluster) (run : Runs lines text c) (s : Server) → c.server ≡ Some s → IsKept (history run).chosen s.stand }
    ensures grows { (lines : List Line) (text : List ℕ) (c : Cluster) (run : Runs lines text c) (l : Line) (more : List ℕ) (next : Cluster) (within : IsWithin l) (steps : Steps c l.text more next) →
        Grows (history run) (history (Runs.line l more next run within steps)) }
    // Asks are numbered one by one; each is open from when it is put until it is answered, once; and what is pending is what is open.
    ensures numbered { (lines : List Line) (text : List ℕ) (c : Cluster) (run : Runs lines text c) → AreNumbered 0 (history run).book c.asks }
    ensures pending { (lines : List Line) (text : List ℕ) (c : Cluster) (run : Runs lines text c) → Opens [] (history run).book (unanswered c.server) }
    // Each list in a log was asked as a write, each at most once, answered or not; and an apply answers all that wait there.
    ensures asked { (lines : List Line) (text : List ℕ) (c : Cluster) (run : Runs lines text c) (s : Server) → c.server ≡ Some s → IsAsked (history run).book c.asks s.stand }
    ensures applied { (lines : List Line) (text : List ℕ) (c : Cluster) (run : Runs lines text c) (n : Node) → node_in c ≡ Some n → AppliesAnswerAll n }
    // The answers that a line writes are those that are noted of it, and a read sees all that its node had applied.
    ensures noted { (c : Cluster) (bytes text : List ℕ) (next : Cluster) (steps : Steps c bytes text next) → Tells text (notes_of c (line_of bytes) steps.0.items steps.0.course) }
    ensures reads { (c : Cluster) (bytes text : List ℕ) (next : Cluster) (steps : Steps c bytes text next) → ReadsSeeApplied c (notes_of c (line_of bytes) steps.0.items steps.0.course) }

    ensures undrawn { draws.new ≡ draws.old }
{
    each_moment_is_kept();
    what_was_chosen_is_kept();
    the_one_log_grows();
    asks_are_numbered();
    pending_asks_are_open();
    each_list_was_asked_once();
    applies_answer_all();
    answers_are_noted();
    reads_see_what_was_applied();
    run_cluster(alloc, words, source, sink, disks, draws).status
}

/// What `cluster_main` does, with where and why a script was stopped. Its status is that of `cluster_main`.
pub fn run_cluster<S: Source, K: Sink, D: CrashDisk, R: Draws>(
    alloc: Global,
    words: &[Word],
    source: &mut S,
    sink: &mut K,
    disks: &mut Vec<DiskPair<D>>,
    draws: &mut R,
) -> Ended
    requires { AreNew D.told D.means disks.old.items }

    ensures statuses { IsStatus result.status }

    ensures words { (place : ℕ) (word : List ℕ) → wrong_word words.now ≡ Some (place, word) →
        Took K.told (K.taken sink.old) (K.taken sink.new) (LastLine 2 (stopped_word place word) result.status) }
    ensures unread { (place : ℕ) (word : List ℕ) → wrong_word words.now ≡ Some (place, word) → S.left source.new ≡ S.left source.old }
    ensures unused { (place : ℕ) (word : List ℕ) → wrong_word words.now ≡ Some (place, word) → disks.new ≡ disks.old }
    ensures right_words { wrong_word words.now ≡ None → result.status ≡ 2 → ⊥ }

    ensures script { wrong_word words.now ≡ None → IsTrue S.told → IsTrue D.told →
        Took K.told (K.taken sink.old) (K.taken sink.new)
        (Wrote (S.left source.old) (S.left source.new) (Rose (S.faults source.old) (S.faults source.new)) (Holds D.told D.means disks.old.items disks.new.items) result.status) }

    ensures drained { IsTrue S.told → result.status ≡ 0 → S.left source.new ≡ [] }
    ensures source { result.status ≡ 4 → Rose (S.faults source.old) (S.faults source.new) }
    ensures sink { result.status ≡ 5 → Rose (K.faults sink.old) (K.faults sink.new) }
    ensures complete { wrong_word words.now ≡ None → (Rose (S.faults source.old) (S.faults source.new) → ⊥) → (Rose (K.faults sink.old) (K.faults sink.new) → ⊥) →
        (result.status ≡ 0) ⊎ (result.status ≡ 3) ⊎ (result.status ≡ 6) }
    ensures refused { (place : ℕ) (word : List ℕ) → wrong_word words.now ≡ Some (place, word) → (Rose (K.faults sink.old) (K.faults sink.new) → ⊥) →
        (result.status ≡ 2) ⊎ (result.status ≡ 6) }

    ensures undrawn { draws.new ≡ draws.old }
{
    let _draws = draws;
    match first_wrong(words) {
        Some((place, word)) => Ended {
            status: refuse(alloc, sink, place, word),
            stopped: None,
        },
        None => run_lines(alloc, source, sink, disks),
    }
}

/// The same, with where and why the script was stopped.
fn run_lines<S: Source, D: CrashDisk, K: Sink>(
    alloc: Global,
    source: &mut S,
    sink: &mut K,
    disks: &mut Vec<DiskPair<D>>,
) -> Ended
    requires { AreNew D.told D.means disks.old.items }
    ensures wrote { IsTrue S.told → IsTrue D.told → Took K.told (K.taken sink.old) (K.taken sink.new) (Wrote (S.left source.old) (S.left source.new) (Rose (S.faults source.old) (S.faults source.new)) (Holds D.told D.means disks.old.items disks.new.items) result.status) }
    ensures drained { IsTrue S.told → result.status ≡ 0 → S.left source.new ≡ [] }
    ensures statuses { (result.status ≡ 0) ⊎ (result.status ≡ 3) ⊎ (result.status ≡ 4) ⊎ (result.status ≡ 5) ⊎ (result.status ≡ 6) }
    ensures source { result.status ≡ 4 → Rose (S.faults source.old) (S.faults source.new) }
    ensures sink { result.status ≡ 5 → Rose (K.faults sink.old) (K.faults sink.new) }
{
    let mut progress = Progress::new(alloc);
    let status = run_script(&mut progress, alloc, source, sink, disks);
    let stopped = stopped_with(status, &progress);
    drop(progress);
    Ended { status, stopped }
}

/// Where and why a script was stopped that came so far and ended with this status, if it was.
fn stopped_with(status: u8, progress: &Progress) -> Option<Stopped> {
    if status == 3 {
        Some(stopped_at(progress))
    } else {
        None
    }
}

/// Where and why a script was stopped that came so far.
fn stopped_at(progress: &Progress) -> Stopped {
    let line = if progress.is_ended {
        without_cr(&progress.held)
    } else {
        progress.held.as_slice()
    };
    let is_skipped = line.is_empty() || line[0] == b'#';
    match progress.passes {
        Some(reason) => at_line(progress.number, reason),
        None if line.len() > MAX_LINE => at_line(progress.number, Reason::LongLine),
        None if !is_skipped => at_line(progress.number, progress.world.reason(line)),
        // A `cluster` line that is missing is charged to the line after the last.
        None if line.is_empty() => at_line(progress.number, Reason::NoCluster),
        None => at_line(progress.number + 1, Reason::NoCluster),
    }
}

/// At this line for this reason.
fn at_line(line: u64, reason: Reason) -> Stopped {
    Stopped { line, reason }
}
