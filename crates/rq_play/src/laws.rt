//! What holds of each run of a script's lines, each the contract of a function that does nothing when it runs.

ghost use Rattle.std.specs.Prelude.{◌≡◌, ℕ, List};
ghost use Rattle.rq_history.specs.History.{NodeId};
ghost use Rattle.rq_statement.specs.declared.item.Item.{Item};
ghost use Rattle.rq_route.specs.declared.path.Path.{Path};
ghost use Rattle.rq_route.specs.declared.request.Request.{Request};
ghost use Rattle.rq_asking.specs.Asked.{op_at};
ghost use Rattle.rq_world.specs.Node.{Node};
ghost use Rattle.rq_world.specs.World.{Running};
ghost use Rattle.rq_play.specs.Line.{Line, At, Apply};
ghost use Rattle.rq_play.specs.Said.{Said};
ghost use Rattle.rq_play.specs.Cluster.{Cluster, state_in};
ghost use Rattle.rq_play.specs.Runs.{Runs, Steps};
ghost use Rattle.rq_play.specs.Promise.{EachActIsAtOne, EachStartIsAtOne, EachStopIsAtOne, IsDecided, IsTold, AreKept, ReadsCover, IsOpen, AreSo, HasRule, HasApplied};

/// An act, a start and a stop at a server change that server alone, as its own definition has it, and send what that says.
pub fn acts_change_one_server()
    ensures { EachActIsAtOne × EachStartIsAtOne × EachStopIsAtOne }
{}

/// Each line leads somewhere, or can't stand, or no random word is left for it, and never two of these.
pub fn lines_are_decided()
    ensures { (c : Cluster) (line : Line) → IsDecided c line }
{
    rq_sql::each_text_has_one_answer();
    rq_preparing::each_text_is_prepared_once();
}

/// Whatever a request asks for, the world has a rule for it.
#[tactic(auto, using(crate::proofs::Ruled::ruled))]
pub fn each_request_has_its_rule()
    ensures { (path : Path) (request : Request) (items : List Item) → HasRule (op_at path request items) }
{}

/// What the lines say of asks and answers is what the world's book has, in order.
#[tactic(auto, using(crate::proofs::Telling::runs_are_told))]
pub fn answers_are_told()
    ensures { (words : List ℕ) (lines : List Line) (said : List Said) (c : Cluster) → Runs words lines said c → IsTold said c }
{}

/// The asks of a run are numbered one by one, no two in the book have one number, and the world's laws hold of the run: at each moment each
/// running node's replica is the fold of a prefix of the one log, each answer is right, each acknowledged write has a place of its
/// own, each list in a log was asked, each ask was appended at most once, and is answered behind its note, and once.
pub fn each_run_is_kept()
    ensures { (words : List ℕ) (lines : List Line) (said : List Said) (c : Cluster) → Runs words lines said c → AreKept said c }
{
    rq_world::laws::each_moment_is_kept();
    rq_world::laws::each_write_has_its_place();
    rq_world::laws::each_list_was_asked();
    rq_world::laws::each_ask_appends_once();
    rq_world::laws::each_ask_is_answered_once();
}

/// Each answer to a read with results is its queries' value on a prefix of the one log, and sees what its level promises.
pub fn each_read_covers()
    ensures { (words : List ℕ) (lines : List Line) (said : List Said) (c : Cluster) → Runs words lines said c → ReadsCover c }
{
    rq_world::laws::each_read_covers();
}

/// Each ask that wasn't answered is among those that are unanswered at the end, and these were asked and not answered.
pub fn pending_asks_are_open()
    ensures { (words : List ℕ) (lines : List Line) (said : List Said) (c : Cluster) → Runs words lines said c → IsOpen said c }
{
    rq_world::laws::each_turn_keeps_asks();
}

/// What a run's lines say of a server was so at some moment of the run: that it is up as this node, that it is down, how it is shown.
pub fn what_is_said_is_so()
    ensures { (words : List ℕ) (lines : List Line) (said : List Said) (c : Cluster) → Runs words lines said c → AreSo said c }
{}

/// Behind an apply line nothing waits at its server for an entry that its node had committed: all such asks were answered.
pub fn applies_answer_all()
    ensures { (words : List ℕ) (lines : List Line) (said more : List Said) (c next : Cluster) (i : NodeId) (n : Node) → Runs words lines said c → Steps c (At i Apply) more next → state_in c i ≡ Running n → HasApplied c next i n }
{
    rq_world::laws::each_run_is_safe();
    rq_world::laws::each_wait_is_ahead();
}
