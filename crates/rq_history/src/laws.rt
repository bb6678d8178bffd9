//! The laws, each the contract of a function with an empty body. `E` is the type of a log's entries, and `view` is what an
//! entry tells: its term, and its voters if it is a configuration. The statements are in `specs/Laws.antt`.

ghost use Rattle.rq_history.specs.History.{EntryView};
ghost use Rattle.rq_history.specs.Laws.{
  OneLeaderATerm,
  OneVoteATerm,
  TimeGoesOn,
  LogsMatch,
  EntriesComeFromLeaders,
  TermsRise,
  TermsAreReached,
  LeadersGrow,
  LeadersDontStandAgain,
  VotesTell,
  LeadersAreElected,
  LeadersAreComplete,
  CommitsAreBacked,
  CommittedStays,
  LeadersAgree,
  CommittedPrefixesAgree,
  ChosenGrows,
  ChosenHolds,
  ChosenWasCommitted,
  LeadersCover,
  LaterEntriesCover,
  NeighboursMeet,
  ConfigurationsCountFromAppend,
  MeetingQuorumsSuffice,
  MomentsAreOrdered,
  ChangesAreLocal,
};

/// Election Safety: at most one node ever leads a term.
pub fn one_leader<E>()
    ensures { (view : EntryView E) → OneLeaderATerm view }
{}

/// A node votes for one candidate in a term.
pub fn one_vote<E>()
    ensures { (view : EntryView E) → OneVoteATerm view }
{}

/// A node's term never falls, and in one term its vote stays.
pub fn time_goes_on<E>()
    ensures { (view : EntryView E) → TimeGoesOn view }
{}

/// Log Matching: two logs with an entry of one term at one index are equal up to it.
pub fn logs_match<E>()
    ensures { (view : EntryView E) → LogsMatch view }
{}

/// Each entry was in the log of a leader of its term, with all that stands before it.
pub fn entries_come_from_leaders<E>()
    ensures { (view : EntryView E) → EntriesComeFromLeaders view }
{}

/// Terms never fall along a log.
pub fn terms_rise<E>()
    ensures { (view : EntryView E) → TermsRise view }
{}

/// No entry is of a term above its node's.
pub fn terms_are_reached<E>()
    ensures { (view : EntryView E) → TermsAreReached view }
{}

/// Leader Append-Only: while a node leads, its log and its commit index only grow.
pub fn leaders_grow<E>()
    ensures { (view : EntryView E) → LeadersGrow view }
{}

/// Who has led a term is not its candidate afterwards.
pub fn leaders_do_not_stand_again<E>()
    ensures { (view : EntryView E) → LeadersDontStandAgain view }
{}

/// What a vote says of the voter's log: it was no newer than the candidate's, and had kept what the voter ever had.
pub fn votes_tell<E>()
    ensures { (view : EntryView E) → VotesTell view }
{}

/// Who leads a term stood in it, and was voted for by a quorum.
pub fn leaders_are_elected<E>()
    ensures { (view : EntryView E) → LeadersAreElected view }
{}

/// Leader Completeness: what was committed directly in a term is in the log of each leader of a higher term.
pub fn leaders_are_complete<E>()
    ensures { (view : EntryView E) → LeadersAreComplete view }
{}

/// What a node has committed, a leader of no later term has committed directly.
pub fn commits_are_backed<E>()
    ensures { (view : EntryView E) → CommitsAreBacked view }
{}

/// What a node has committed is in the log of each leader of a higher term, before or after.
pub fn committed_stays<E>()
    ensures { (view : EntryView E) → CommittedStays view }
{}

/// A leader agrees with what the nodes of no later term have committed, as far as its log goes.
pub fn leaders_agree<E>()
    ensures { (view : EntryView E) → LeadersAgree view }
{}

/// State Machine Safety: the committed prefixes of any two moments are comparable.
pub fn committed_prefixes_agree<E>()
    ensures { (view : EntryView E) → CommittedPrefixesAgree view }
{}

/// The longest that was committed so far only grows.
pub fn chosen_grows<E>()
    ensures { (view : EntryView E) → ChosenGrows view }
{}

/// It begins with what each node has committed.
pub fn chosen_holds<E>()
    ensures { (view : EntryView E) → ChosenHolds view }
{}

/// It is what some node had committed.
pub fn chosen_was_committed<E>()
    ensures { ChosenWasCommitted E }
{}

/// Reads: a leader that a quorum confirms after a moment covers every commit up to that moment.
pub fn leaders_cover<E>()
    ensures { (view : EntryView E) → LeadersCover view }
{}

/// Reads through the log: an entry appended after a moment is, once committed, behind every commit up to that moment.
pub fn later_entries_cover<E>()
    ensures { (view : EntryView E) → LaterEntriesCover view }
{}

/// Quorums of two configurations that differ by one voter have a voter in common.
pub fn neighbours_meet()
    ensures { NeighboursMeet }
{}

/// A configuration counts from its append on, committed or not, and no other entry changes the voters.
pub fn configurations_count_from_append<E>()
    ensures { (view : EntryView E) → ConfigurationsCountFromAppend view }
{}

/// Where any two quorums meet there is one leader a term, and leaders are complete.
pub fn meeting_quorums_suffice<E>()
    ensures { (view : EntryView E) → MeetingQuorumsSuffice view }
{}

/// The moments of a node are ordered, and the last is what it is now.
pub fn moments_are_ordered<E>()
    ensures { MomentsAreOrdered E }
{}

/// A change changes one node.
pub fn changes_are_local<E>()
    ensures { ChangesAreLocal E }
{}
