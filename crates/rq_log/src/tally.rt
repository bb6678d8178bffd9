//! Counts over members and peers.
ghost use Rattle.std.specs.Prelude.{◌≡◌, ◌+◌, ◌*◌, ◌<◌, ◌&&◌, nat_lt, nat_le, bytes_eq, if◌then◌else◌, true, false, count_by, length};
ghost use Rattle.rq_raft.specs.Entries.{voters};
ghost use Rattle.rq_raft.specs.Node.{one_of, has_peer};
ghost use Rattle.rq_raft.specs.Lead.{is_quorum};
ghost use Rattle.rq_log.specs.Tally.{holds_in, confirms_in, lower_match};

use rq_raft::Peer;
use rq_values::Id;
use rq_wire::Member;

/// Whether the id is one of these.
#[tactic(auto, using(crate::proofs::Tallies::one_yes, crate::proofs::Tallies::one_no))]
pub fn is_one_of(ids: &[Id], id: Id) -> bool
    ensures { result ≡ one_of ids.now id }
{
    for one in ids {
        if id == *one {
            return true;
        }
    }
    false
}

/// Whether a voter has the log up to an index: the node itself, or one of the peers.
pub fn holds(peers: &[Peer], own: Id, index: u64, id: Id) -> bool
    ensures { result ≡ holds_in peers.now own index id }
{
    if id == own {
        return true;
    }
    has_match(peers, index, id)
}

#[tactic(auto, using(crate::proofs::Tallies::peer_yes, crate::proofs::Tallies::peer_no))]
fn has_match(peers: &[Peer], index: u64, id: Id) -> bool
    ensures { result ≡ has_peer (λ p. nat_le index p.matched) peers.now id }
{
    for peer in peers {
        if peer.id == id && index <= peer.matched {
            return true;
        }
    }
    false
}

/// Whether one of the peers has this id.
#[tactic(auto, using(crate::proofs::Tallies::peer_yes, crate::proofs::Tallies::peer_no))]
pub fn is_peer(peers: &[Peer], id: Id) -> bool
    ensures { result ≡ has_peer (λ p. true) peers.now id }
{
    for peer in peers {
        if peer.id == id {
            return true;
        }
    }
    false
}

/// Whether one of the voters has this id.
#[tactic(auto, using(crate::proofs::Tallies::voter_yes, crate::proofs::Tallies::voter_no))]
pub fn is_voter(members: &[Member], id: Id) -> bool
    ensures { result ≡ one_of (voters members.now) id }
{
    for member in members {
        if member.voter && id == member.id {
            return true;
        }
    }
    false
}

#[tactic(auto, using(crate::proofs::Tallies::count_voters))]
fn voter_count(members: &[Member]) -> usize
    ensures { result ≡ length (voters members.now) }
{
    members.iter().filter(|member| member.voter).count()
}

/// How many voters gave their vote.
#[tactic(auto, using(crate::proofs::Tallies::count_passing))]
fn vote_count(members: &[Member], votes: &[Id]) -> usize
    ensures { result ≡ count_by (one_of votes.now) (voters members.now) }
{
    members
        .iter()
        .filter(|member| member.voter && is_one_of(votes, member.id))
        .count()
}

/// Whether more than half of the voters gave their vote.
#[tactic(auto, using(crate::proofs::Tallies::half))]
pub fn are_quorum(members: &[Member], votes: &[Id]) -> bool
    ensures { result ≡ is_quorum (voters members.now) (one_of votes.now) }
{
    voter_count(members) / 2 < vote_count(members, votes)
}

/// How many voters have the log up to an index.
#[tactic(auto, using(crate::proofs::Tallies::count_passing))]
fn holder_count(members: &[Member], peers: &[Peer], own: Id, index: u64) -> usize
    ensures { result ≡ count_by (holds_in peers.now own index) (voters members.now) }
{
    members
        .iter()
        .filter(|member| member.voter && holds(peers, own, index, member.id))
        .count()
}

/// Whether more than half of the voters have the log up to an index.
#[tactic(auto, using(crate::proofs::Tallies::half))]
pub fn is_held(members: &[Member], peers: &[Peer], own: Id, index: u64) -> bool
    ensures { result ≡ is_quorum (voters members.now) (holds_in peers.now own index) }
{
    voter_count(members) / 2 < holder_count(members, peers, own, index)
}

/// Whether a voter answered a probe above the mark: the node itself, or one of the peers.
fn confirms(peers: &[Peer], own: Id, mark: u64, id: Id) -> bool
    ensures { result ≡ confirms_in peers.now own mark id }
{
    if id == own {
        return true;
    }
    has_acked(peers, mark, id)
}

#[tactic(auto, using(crate::proofs::Tallies::peer_yes, crate::proofs::Tallies::peer_no))]
fn has_acked(peers: &[Peer], mark: u64, id: Id) -> bool
    ensures { result ≡ has_peer (λ p. nat_lt mark p.acked) peers.now id }
{
    for peer in peers {
        if peer.id == id && mark < peer.acked {
            return true;
        }
    }
    false
}

/// How many voters answered a probe above the mark.
#[tactic(auto, using(crate::proofs::Tallies::count_passing))]
fn confirmer_count(members: &[Member], peers: &[Peer], own: Id, mark: u64) -> usize
    ensures { result ≡ count_by (confirms_in peers.now own mark) (voters members.now) }
{
    members
        .iter()
        .filter(|member| member.voter && confirms(peers, own, mark, member.id))
        .count()
}

/// Whether more than half of the voters answered a probe above the mark.
#[tactic(auto, using(crate::proofs::Tallies::half))]
pub fn is_confirmed(members: &[Member], peers: &[Peer], own: Id, mark: u64) -> bool
    ensures { result ≡ is_quorum (voters members.now) (confirms_in peers.now own mark) }
{
    voter_count(members) / 2 < confirmer_count(members, peers, own, mark)
}

/// The greatest match below an index.
pub fn lower_match(peers: &[Peer], index: u64) -> u64
    ensures { result ≡ lower_match index peers.now }
{
    peers.iter().fold(
        0,
        |best, peer| if peer.matched < index {
            best.max(peer.matched)
        } else {
            best
        },
    )
}
