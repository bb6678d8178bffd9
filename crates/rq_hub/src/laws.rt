//! What holds of every history.
ghost use Rattle.std.specs.Prelude.{ℕ, ◌≡◌, ◌+◌, List};
ghost use Rattle.rq_node.specs.declared.event.Event.{Event};
ghost use Rattle.rq_node.specs.Node.{Persistent};
ghost use Rattle.rq_node.specs.Rules.{started};
ghost use Rattle.rq_hub.specs.Runs.{run, asked_times, answered_times, waiting_times};

/// Of each number, over every history of a node that was started: the asks are those that were answered and those that
/// wait. So no ask is lost, and none is answered more often than it was asked.
#[tactic(auto, using(crate::proofs::Counts::started_counts))]
pub fn no_ask_is_lost_or_answered_twice()
    ensures { (x : ℕ) (id : List ℕ) (kept : Persistent) (events : List Event) → asked_times x events ≡ answered_times x (run (started id kept).node events).answers + waiting_times x (run (started id kept).node events).node.waiting }
{}
