//! What holds of each run of the world, each the contract of a function that does nothing when it runs.

ghost use Rattle.std.specs.Prelude.{List};
ghost use Rattle.rq_wire.specs.declared.config.Member.{Member};
ghost use Rattle.rq_world.specs.Answers.{EachAskIsAnsweredOnce, EachAnswerFollowsItsAsk};
ghost use Rattle.rq_world.specs.Appends.{EachAskAppendsOnce, EachWriteHasItsPlace};
ghost use Rattle.rq_world.specs.Asks.{EachTurnKeepsAsks, EachWaitIsAhead};
ghost use Rattle.rq_world.specs.Covers.{EachReadCovers};
ghost use Rattle.rq_world.specs.Laws.{AreSafe};
ghost use Rattle.rq_world.specs.Origins.{EachListWasAsked};
ghost use Rattle.rq_world.specs.Passes.{PassCovers, PassCoversAcknowledged};
ghost use Rattle.rq_world.specs.Promise.{EachMomentIsKept};

use crate::log_entry::LogEntry;

/// Over every run of any nodes, with messages lost, repeated and reordered, elections, and stops within any write: one leader a
/// term, logs that match, one log that only grows.
pub fn each_run_is_safe()
    ensures { (first : List Member) → AreSafe first }
{
    rq_raft::laws::turns_are_moves::<LogEntry>();
    rq_history::laws::one_leader::<LogEntry>();
    rq_history::laws::logs_match::<LogEntry>();
    rq_history::laws::leaders_grow::<LogEntry>();
    rq_history::laws::commits_are_backed::<LogEntry>();
    rq_history::laws::committed_stays::<LogEntry>();
    rq_history::laws::committed_prefixes_agree::<LogEntry>();
    rq_history::laws::moments_are_ordered::<LogEntry>();
}

/// At each moment of each run, each running node's database is the fold of a prefix of the one log, and each answer is right.
pub fn each_moment_is_kept()
    ensures { (first : List Member) → EachMomentIsKept first }
{
    rq_raft::laws::turns_are_moves::<LogEntry>();
    rq_raft::laws::leaders_lead_on::<LogEntry>();
    rq_history::laws::one_leader::<LogEntry>();
    rq_history::laws::logs_match::<LogEntry>();
    rq_history::laws::leaders_grow::<LogEntry>();
    rq_history::laws::commits_are_backed::<LogEntry>();
    rq_history::laws::committed_stays::<LogEntry>();
    rq_history::laws::committed_prefixes_agree::<LogEntry>();
    rq_history::laws::moments_are_ordered::<LogEntry>();
}

/// Reads: a pass that is ready while its leader still leads is at or above all that any node had committed, and so all that was
/// acknowledged, when it was begun.
pub fn passes_cover()
    ensures { (first : List Member) → PassCovers first × PassCoversAcknowledged first }
{
    rq_raft::laws::turns_are_moves::<LogEntry>();
    rq_raft::laws::leaders_lead_on::<LogEntry>();
    rq_raft::laws::probes_are_kept::<LogEntry>();
    rq_history::laws::one_leader::<LogEntry>();
    rq_history::laws::logs_match::<LogEntry>();
    rq_history::laws::leaders_grow::<LogEntry>();
    rq_history::laws::commits_are_backed::<LogEntry>();
    rq_history::laws::committed_stays::<LogEntry>();
    rq_history::laws::committed_prefixes_agree::<LogEntry>();
    rq_history::laws::moments_are_ordered::<LogEntry>();
    rq_history::laws::time_goes_on::<LogEntry>();
    rq_history::laws::leaders_do_not_stand_again::<LogEntry>();
    rq_history::laws::leaders_cover::<LogEntry>();
    rq_history::laws::later_entries_cover::<LogEntry>();
}

/// Each acknowledged write has a place of its own: the index of its entry, and its position there.
pub fn each_write_has_its_place()
    ensures { (first : List Member) → EachWriteHasItsPlace first }
{
    rq_raft::laws::turns_are_moves::<LogEntry>();
    rq_raft::laws::leaders_lead_on::<LogEntry>();
    rq_raft::laws::probes_are_kept::<LogEntry>();
    rq_history::laws::one_leader::<LogEntry>();
    rq_history::laws::logs_match::<LogEntry>();
    rq_history::laws::leaders_grow::<LogEntry>();
    rq_history::laws::commits_are_backed::<LogEntry>();
    rq_history::laws::committed_stays::<LogEntry>();
    rq_history::laws::committed_prefixes_agree::<LogEntry>();
    rq_history::laws::moments_are_ordered::<LogEntry>();
    rq_history::laws::time_goes_on::<LogEntry>();
    rq_history::laws::leaders_do_not_stand_again::<LogEntry>();
    rq_history::laws::leaders_cover::<LogEntry>();
    rq_history::laws::later_entries_cover::<LogEntry>();
}

/// Each answer to a read is its query's value on a prefix of the one log; at levels linearizable and strong that prefix holds every
/// write that was acknowledged before the read was asked.
pub fn each_read_covers()
    ensures { (first : List Member) → EachReadCovers first }
{
    rq_raft::laws::turns_are_moves::<LogEntry>();
    rq_raft::laws::leaders_lead_on::<LogEntry>();
    rq_raft::laws::probes_are_kept::<LogEntry>();
    rq_history::laws::one_leader::<LogEntry>();
    rq_history::laws::logs_match::<LogEntry>();
    rq_history::laws::leaders_grow::<LogEntry>();
    rq_history::laws::commits_are_backed::<LogEntry>();
    rq_history::laws::committed_stays::<LogEntry>();
    rq_history::laws::committed_prefixes_agree::<LogEntry>();
    rq_history::laws::moments_are_ordered::<LogEntry>();
    rq_history::laws::time_goes_on::<LogEntry>();
    rq_history::laws::leaders_do_not_stand_again::<LogEntry>();
    rq_history::laws::leaders_cover::<LogEntry>();
    rq_history::laws::later_entries_cover::<LogEntry>();
}

/// Each ask is appended at most once, by itself or in a batch, and different asks at different terms, indexes and positions.
pub fn each_ask_appends_once()
    ensures { (first : List Member) → EachAskAppendsOnce first }
{
    rq_raft::laws::turns_are_moves::<LogEntry>();
    rq_raft::laws::leaders_lead_on::<LogEntry>();
    rq_raft::laws::probes_are_kept::<LogEntry>();
    rq_history::laws::one_leader::<LogEntry>();
    rq_history::laws::logs_match::<LogEntry>();
    rq_history::laws::leaders_grow::<LogEntry>();
    rq_history::laws::commits_are_backed::<LogEntry>();
    rq_history::laws::committed_stays::<LogEntry>();
    rq_history::laws::committed_prefixes_agree::<LogEntry>();
    rq_history::laws::moments_are_ordered::<LogEntry>();
    rq_history::laws::time_goes_on::<LogEntry>();
    rq_history::laws::leaders_do_not_stand_again::<LogEntry>();
    rq_history::laws::leaders_cover::<LogEntry>();
    rq_history::laws::later_entries_cover::<LogEntry>();
}

/// No ask is answered twice, whatever the answers say, and each answer stands in the book behind the note of its ask.
pub fn each_ask_is_answered_once()
    ensures { (first : List Member) → EachAskIsAnsweredOnce first × EachAnswerFollowsItsAsk first }
{
    rq_raft::laws::turns_are_moves::<LogEntry>();
    rq_raft::laws::leaders_lead_on::<LogEntry>();
    rq_raft::laws::probes_are_kept::<LogEntry>();
    rq_history::laws::one_leader::<LogEntry>();
    rq_history::laws::logs_match::<LogEntry>();
    rq_history::laws::leaders_grow::<LogEntry>();
    rq_history::laws::commits_are_backed::<LogEntry>();
    rq_history::laws::committed_stays::<LogEntry>();
    rq_history::laws::committed_prefixes_agree::<LogEntry>();
    rq_history::laws::moments_are_ordered::<LogEntry>();
    rq_history::laws::time_goes_on::<LogEntry>();
    rq_history::laws::leaders_do_not_stand_again::<LogEntry>();
    rq_history::laws::leaders_cover::<LogEntry>();
}

/// No turn forgets an ask: what waits behind it and what it answers are, together, what waited before and what it was asked.
#[tactic(auto, using(crate::proofs::Counting::each_turn_keeps_asks))]
pub fn each_turn_keeps_asks()
    ensures { (first : List Member) → EachTurnKeepsAsks first }
{}

/// What waits for an entry waits for one that its node hasn't applied: behind an apply nothing waits for what is applied.
pub fn each_wait_is_ahead()
    ensures { (first : List Member) → EachWaitIsAhead first }
{
    rq_raft::laws::turns_are_moves::<LogEntry>();
    rq_raft::laws::leaders_lead_on::<LogEntry>();
    rq_raft::laws::probes_are_kept::<LogEntry>();
    rq_history::laws::one_leader::<LogEntry>();
    rq_history::laws::logs_match::<LogEntry>();
    rq_history::laws::leaders_grow::<LogEntry>();
    rq_history::laws::commits_are_backed::<LogEntry>();
    rq_history::laws::committed_stays::<LogEntry>();
    rq_history::laws::committed_prefixes_agree::<LogEntry>();
    rq_history::laws::moments_are_ordered::<LogEntry>();
    rq_history::laws::time_goes_on::<LogEntry>();
    rq_history::laws::leaders_do_not_stand_again::<LogEntry>();
    rq_history::laws::leaders_cover::<LogEntry>();
}

/// Each list in the log of a node, running or down, was asked, answered or not: its entry is the one that the rule for that ask, or
/// for a flush with it, appended at that index.
pub fn each_list_was_asked()
    ensures { (first : List Member) → EachListWasAsked first }
{
    rq_raft::laws::turns_are_moves::<LogEntry>();
    rq_raft::laws::leaders_lead_on::<LogEntry>();
    rq_raft::laws::probes_are_kept::<LogEntry>();
    rq_history::laws::one_leader::<LogEntry>();
    rq_history::laws::logs_match::<LogEntry>();
    rq_history::laws::leaders_grow::<LogEntry>();
    rq_history::laws::commits_are_backed::<LogEntry>();
    rq_history::laws::committed_stays::<LogEntry>();
    rq_history::laws::committed_prefixes_agree::<LogEntry>();
    rq_history::laws::moments_are_ordered::<LogEntry>();
    rq_history::laws::time_goes_on::<LogEntry>();
    rq_history::laws::leaders_do_not_stand_again::<LogEntry>();
    rq_history::laws::leaders_cover::<LogEntry>();
}
