//! A law of what calls leave, the contract of a function that does nothing when it runs.
ghost use Rattle.rq_log.specs.declared.moves.Moves.{Moves};
ghost use Rattle.rq_raft.specs.Node.{RaftNode, RaftTurn};
ghost use Rattle.rq_core.specs.Durable.{IsStored};

/// What a call leaves to be stored, the term and the vote first, is what its rule makes durable, in order.
#[tactic(auto, using(crate::proofs::Durable::all_is_stored))]
pub fn what_is_stored_is_the_rules<E>()
    ensures { (before : RaftNode E) (turn : RaftTurn E) (now : RaftNode E) (moves : Moves) → IsStored before turn now moves }
{}
