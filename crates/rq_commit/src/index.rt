//! The greatest index that a quorum holds and whose entry is of the leader's term: docs/RAFT.md, "Commit".
ghost use Rattle.std.specs.Prelude.{◌≡◌, ◌-◌, ◌<◌, ◌≤◌, length, false};
ghost use Rattle.rq_history.specs.Configurations.{greatest};
ghost use Rattle.rq_raft.specs.Entries.{voters};
ghost use Rattle.rq_raft.specs.Lead.{is_quorum};
ghost use Rattle.rq_log.specs.Tally.{holds_in};
ghost use Rattle.rq_commit.specs.Commit.{may_commit_in};

use rq_log::{Log, LogEntry, is_held, lower_match};
use rq_raft::Peer;
use rq_values::Id;
use rq_wire::Member;

/// The next index below that more may hold.
#[tactic(auto, using(crate::proofs::Quorum::skip_unheld, crate::proofs::Quorum::lower_match_less))]
fn below<E: LogEntry>(
    log: &Log<E>,
    members: &[Member],
    peers: &[Peer],
    own: Id,
    term: u64,
    commit: u64,
    index: u64,
) -> u64
    requires { commit < index }
    ensures from { commit ≤ result }
    ensures less { result < index }
    ensures skips { is_quorum (voters members.now) (holds_in peers.now own index) ≡ false → greatest (may_commit_in E.entries log.now.0 (voters members.now) peers.now own term) commit (index - commit) ≡ greatest (may_commit_in E.entries log.now.0 (voters members.now) peers.now own term) commit (result - commit) }
{
    let _ = (log.len(), members.len(), own, term);
    lower_match(peers, index).max(commit)
}

/// The greatest index above the commit index that a quorum of these members holds, the node itself its whole log and the others what
/// is matched, and whose entry is of this term; else the commit index. Work is in the members, and in indexes that a quorum holds
/// whose entries are of other terms.
#[tactic(auto, using(crate::proofs::Quorum::skip_other_term, crate::proofs::Quorum::passes_here))]
pub fn reached<E: LogEntry>(
    log: &Log<E>,
    members: &[Member],
    peers: &[Peer],
    own: Id,
    term: u64,
    commit: u64,
) -> u64
    requires { commit ≤ length log.now.0 }
    ensures value { result ≡ greatest (may_commit_in E.entries log.now.0 (voters members.now) peers.now own term) commit (length log.now.0 - commit) }
    ensures from { commit ≤ result }
    ensures within { result ≤ length log.now.0 }
{
    let mut index = log.len();
    while index > commit {
        if !is_held(members, peers, own, index) {
            index = below(log, members, peers, own, term, commit, index);
        } else if log.term_at(index) == term {
            return index;
        } else {
            index -= 1;
        }
    }
    commit
}
