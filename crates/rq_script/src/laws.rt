//! What is proved of every run of a script's lines. Each law is the contract of a function that does nothing.

ghost use Rattle.std.specs.Prelude.{◌≡◌, [], ℕ, List, Some};
ghost use Rattle.rq_node.specs.Node.{Node};
ghost use Rattle.rq_script.specs.Answering.{AppliesAnswerAll};
ghost use Rattle.rq_script.specs.Cluster.{Server, Cluster, Steps, first_ids, unanswered};
ghost use Rattle.rq_script.specs.FromAsks.{IsAsked};
ghost use Rattle.rq_script.specs.History.{history, node_in, notes_of};
ghost use Rattle.rq_script.specs.Lines.{Line, IsWithin};
ghost use Rattle.rq_script.specs.Numbering.{AreNumbered};
ghost use Rattle.rq_script.specs.OpenAsks.{Opens};
ghost use Rattle.rq_script.specs.Promise.{IsKept, Keeps, Grows};
ghost use Rattle.rq_script.specs.Runs.{Runs};
ghost use Rattle.rq_script.specs.ScriptLine.{line_of};
ghost use Rattle.rq_script.specs.Writing.{Tells, ReadsSeeApplied};

/// At each moment of a run, a running node's replica is the fold of a prefix of the one log, and each answer that was given is
/// right: a write has a place of its own in that log, which no other write's answer has, and the answer is its entry's outcome
/// there; a read is answered from the fold of a prefix.
#[tactic(auto, using(crate::proofs::Promises::promised))]
pub fn each_moment_is_kept()
    ensures { (lines : List Line) (text : List ℕ) (c : Cluster) (run : Runs lines text c) → Keeps (first_ids c.server) (history run) (node_in c) }
{}

/// From one moment to the next the one log and the book of what happened only grow.
#[tactic(auto, using(crate::proofs::Promises::grows))]
pub fn the_one_log_grows()
    ensures { (lines : List Line) (text : List ℕ) (c : Cluster) (run : Runs lines text c) (l : Line) (more : List ℕ) (next : Cluster) (within : IsWithin l) (steps : Steps c l.text more next) → Grows (history run) (history (Runs.line l more next run within steps)) }
{}

/// At each moment of a run, what was chosen stands in the log of the server's node, and of one that is down in what its files
/// show, however much stands there of what a failing disk broke off.
pub fn what_was_chosen_is_kept()
    ensures { (lines : List Line) (text : List ℕ) (c : Cluster) (run : Runs lines text c) (s : Server) → c.server ≡ Some s → IsKept (history run).chosen s.stand }
{}

/// What a line writes is the answers that are noted of it, in their order; or it tells how a node stands, and no answer is noted.
pub fn answers_are_noted()
    ensures { (c : Cluster) (bytes text : List ℕ) (next : Cluster) (steps : Steps c bytes text next) → Tells text (notes_of c (line_of bytes) steps.0.items steps.0.course) }
{}

/// Each read that a line answers with results is answered from the replica of a node, and sees all that this node had applied.
pub fn reads_see_what_was_applied()
    ensures { (c : Cluster) (bytes text : List ℕ) (next : Cluster) (steps : Steps c bytes text next) → ReadsSeeApplied c (notes_of c (line_of bytes) steps.0.items steps.0.course) }
{}

/// The asks of a run are numbered one by one, from 1: no two have one number.
#[tactic(auto, using(crate::proofs::Numbering::asks_numbered))]
pub fn asks_are_numbered()
    ensures { (lines : List Line) (text : List ℕ) (c : Cluster) (run : Runs lines text c) → AreNumbered 0 (history run).book c.asks }
{}

/// What is written as pending is exactly the asks that the book leaves open: an ask is open from when it is put until it is
/// answered, and only an open one is answered.
#[tactic(auto, using(crate::proofs::OpenAsks::open_asks))]
pub fn pending_asks_are_open()
    ensures { (lines : List Line) (text : List ℕ) (c : Cluster) (run : Runs lines text c) → Opens [] (history run).book (unanswered c.server) }
{}

/// Each list in the log of a server, running or down, is that of a write that was asked, answered or not, and no ask has two.
#[tactic(auto, using(crate::proofs::FromAsks::from_asks))]
pub fn each_list_was_asked_once()
    ensures { (lines : List Line) (text : List ℕ) (c : Cluster) (run : Runs lines text c) (s : Server) → c.server ≡ Some s → IsAsked (history run).book c.asks s.stand }
{}

/// All that wait at a running node are answered by its next apply.
#[tactic(auto, using(crate::proofs::Answering::all_answered))]
pub fn applies_answer_all()
    ensures { (lines : List Line) (text : List ℕ) (c : Cluster) (run : Runs lines text c) (n : Node) → node_in c ≡ Some n → AppliesAnswerAll n }
{}
