//! A leader's tables of the other members.
ghost use Rattle.std.specs.Prelude.{◌≡◌, IfOk};
ghost use Rattle.rq_raft.specs.Lead.{peer_for, tables_for};

use crate::table::Table;
use rq_raft::Peer;
use rq_values::{Id, NoMemory};
use rq_wire::Member;
use std::alloc::Global;

/// What is known of a member: its table, or, where there is none, nothing yet.
#[tactic(auto, using(crate::proofs::Following::for_yes, crate::proofs::Following::for_no))]
fn peer_for(next: u64, peers: &[Peer], id: Id) -> Peer
    ensures { result ≡ peer_for next peers.now id }
{
    for peer in peers {
        if peer.id == id {
            return Peer {
                id: peer.id,
                next: peer.next,
                matched: peer.matched,
                acked: peer.acked,
                flight: peer.flight,
            };
        }
    }
    Peer {
        id,
        next,
        matched: 0,
        acked: 0,
        flight: None,
    }
}

/// The tables of a leader for these members: those that there are, and for who is new one that begins at this index.
#[tactic(auto, using(crate::proofs::Following::tables_on, crate::proofs::Following::tables_off))]
pub fn tables_for(
    alloc: Global,
    own: Id,
    next: u64,
    peers: &[Peer],
    members: &[Member],
) -> Result<Table<Peer>, NoMemory>
    ensures { IfOk result (λ tables. tables ≡ tables_for own next peers.now members.now) }
{
    let mut tables = Table::new(alloc);
    for member in members {
        if member.id == own {
            continue;
        }
        tables.push(peer_for(next, peers, member.id))?;
    }
    Ok(tables)
}
