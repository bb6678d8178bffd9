//! To whom something is sent, and what is then in flight.
ghost use Rattle.std.specs.Prelude.{Some, OnOk, ◌≡◌, ◌+◌, ◌<◌, ◌^◌, length};
ghost use Rattle.rq_raft.specs.Lead.{in_flight, probe_after, is_idle, same_flight, after_ok, after_no};
ghost use Rattle.rq_raft.specs.Node.{with_peer};
ghost use Rattle.rq_log.specs.Tally.{after_reply};
ghost use Rattle.rq_log.specs.Tally.{wanted_by};

use crate::recipients::Recipients;
use crate::table::Table;
use rq_raft::Peer;
use rq_values::{Id, NoMemory};

/// Whether the probe is the one in flight.
pub fn is_flight(flight: Option<u64>, probe: u64) -> bool
    ensures { result ≡ same_flight flight probe }
{
    match flight {
        None => false,
        Some(number) => number == probe,
    }
}

pub fn is_idle(flight: Option<u64>) -> bool
    ensures { result ≡ is_idle flight }
{
    match flight {
        None => true,
        Some(_) => false,
    }
}

pub fn is_wanted(to: &Recipients, peer: &Peer) -> bool
    ensures { result ≡ wanted_by to.now peer.now }
{
    match to {
        Recipients::All => true,
        Recipients::Idle => is_idle(peer.flight),
        Recipients::More { from, last } => peer.id == *from
            && is_idle(peer.flight)
            && peer.next <= *last,
        Recipients::Waits { from, probe } => peer.id == *from && is_flight(peer.flight, *probe),
    }
}

/// The peer, with this probe in flight.
fn with_flight(peer: &Peer, probe: u64) -> Peer
    ensures { result ≡ record peer.now { flight = Some probe } }
{
    Peer {
        id: peer.id,
        next: peer.next,
        matched: peer.matched,
        acked: peer.acked,
        flight: Some(probe),
    }
}

/// What is sent is in flight. Answers the last probe.
#[tactic(auto, using(crate::proofs::Sendings::marked_on, crate::proofs::Sendings::marked_off, crate::proofs::Sendings::after_on, crate::proofs::Sendings::after_off))]
pub fn mark(peers: &mut Table<Peer>, to: &Recipients, probe: u64) -> u64
    requires { probe + length peers.old < 2 ^ 64 }
    ensures peers { peers.new ≡ in_flight (wanted_by to.now) probe peers.old }
    ensures last { result ≡ probe_after (wanted_by to.now) probe peers.old }
{
    let mut last = probe;
    for i in 0..peers.len() {
        let peer = &peers.as_slice()[i];
        if !is_wanted(to, peer) {
            continue;
        }
        last += 1;
        let sent = with_flight(peer, last);
        peers.set(i, sent);
    }
    last
}

/// The peer after its reply.
fn after(old: &Peer, ok: bool, at: u64, probe: u64) -> Peer
    requires low { at < 2 ^ 62 }
    requires low_match { old.now.matched < 2 ^ 62 }
    ensures { result ≡ after_reply ok at probe old.now }
{
    let here = is_flight(old.flight, probe);
    if ok {
        let matched = old.matched.max(at);
        Peer {
            id: old.id,
            next: old.next.max(matched + 1),
            matched,
            acked: old.acked.max(probe),
            flight: if here { None } else { old.flight },
        }
    } else {
        Peer {
            id: old.id,
            next: if here {
                (old.matched + 1).max(at + 1)
            } else {
                old.next
            },
            matched: old.matched,
            acked: old.acked.max(probe),
            flight: old.flight,
        }
    }
}

/// The peer of this id replied. No log is as long as what would be too long.
#[tactic(auto, using(crate::proofs::Replying::changed_on, crate::proofs::Replying::changed_off))]
pub fn answer(
    peers: &mut Table<Peer>,
    from: Id,
    ok: bool,
    at: u64,
    probe: u64,
) -> Result<(), NoMemory>
    requires { at < 2 ^ 62 }
    ensures { OnOk result (peers.new ≡ with_peer (after_reply ok at probe) from peers.old) }
{
    for i in 0..peers.len() {
        let peer = &peers.as_slice()[i];
        if !(peer.id == from) {
            continue;
        }
        if peer.matched >= 1 << 62 {
            return Err(NoMemory);
        }
        let new = after(peer, ok, at, probe);
        peers.set(i, new);
    }
    Ok(())
}
