//! Small runs that are computed, and wrong changes that no run has.

ghost use Rattle.rq_history.specs.Examples.{
  ExamplesAreRuns,
  VoteIsLost,
  OlderLogIsRefused,
  EarlierTermIsRefused,
  NeedlessCutIsRefused,
  EarlyChangeIsRefused,
};

/// An election, a commit by two of three nodes, and a change of the voters behind it.
pub fn small_runs()
    ensures { ExamplesAreRuns }
{}

/// A candidate whose votes are lost never leads the term that another leads.
pub fn vote_is_lost()
    ensures { VoteIsLost }
{}

/// No vote is given to a candidate with an older log.
pub fn older_log_is_refused()
    ensures { OlderLogIsRefused }
{}

/// No entry of an earlier term is committed by counting its copies.
pub fn earlier_term_is_refused()
    ensures { EarlierTermIsRefused }
{}

/// No log is cut where nothing conflicts.
pub fn needless_cut_is_refused()
    ensures { NeedlessCutIsRefused }
{}

/// No configuration is appended before an entry of the leader's term is committed.
pub fn early_change_is_refused()
    ensures { EarlyChangeIsRefused }
{}
