//! Reads by a pass at a leader, and calls that no other test makes.
use crate::following::answers_are_right;
use crate::lookups::lookups_are_right;
use crate::net::{Net, id_of};
use rq_core::Core;
use rq_log::{Message, Packet};
use rq_reads::{Pass, begin, freshness, ready};
use rq_values::TryCopy;
use rq_wire::Entry;
use std::alloc::Global;
use std::test::Fail;

/// Three nodes, of which the first leads.
fn led(alloc: Global) -> Result<Net, Fail> {
    let mut net = Net::new(alloc, 3, 0)?;
    let outcome = elect_first(alloc, &mut net);
    match outcome {
        Ok(()) => Ok(net),
        Err(error) => {
            drop(net);
            Err(error)
        }
    }
}

fn elect_first(alloc: Global, net: &mut Net) -> Result<(), Fail> {
    net.elect(alloc, 1)?;
    for number in 1..6 {
        net.deliver(alloc, number)?;
    }
    Ok(())
}

/// The reply of a node that it has the leader's first entry, to the packet with that probe.
fn reply(core: &mut Core<Entry>, node: usize, probe: u64) -> Result<(), Fail> {
    let from = id_of(node).ok_or("no id")?;
    let moves = core.deliver(
        Packet {
            term: core.term(),
            from,
            to: core.id(),
            message: Message::AppendSay {
                ok: true,
                at: 1,
                probe,
            },
        },
        0,
    )?;
    drop(moves);
    Ok(())
}

/// The pass that is begun, and how many packets are sent with it.
fn begun(core: &mut Core<Entry>) -> Result<(Pass, usize), Fail> {
    match begin(core, 7) {
        Ok((pass, moves)) => {
            let count = moves.packets.len();
            drop(moves);
            Ok((pass, count))
        }
        Err(_) => Err("no pass".into()),
    }
}

/// Whether a pass is ready before a reply, after one to what was sent before it, and after one to what was sent with it.
fn passes(core: &mut Core<Entry>) -> Result<[bool; 3], Fail> {
    let (pass, count) = begun(core)?;
    let before = count != 2 || ready(core, &pass);
    reply(core, 2, pass.mark)?;
    let early = ready(core, &pass);
    reply(core, 3, pass.mark.saturating_add(1))?;
    Ok([before, early, ready(core, &pass)])
}

/// Whether a follower heard of its leader lately enough, with limits, at moment 10.
fn are_fresh(net: &Net) -> Result<[bool; 3], Fail> {
    let core = net.cores.get(1).ok_or("no node")?;
    Ok([
        freshness(core, Some(10), 10).is_ok(),
        freshness(core, Some(9), 10).is_ok(),
        freshness(core, Some(0), 10).is_ok(),
    ])
}

/// How a copy stands, and how much it has applied after it was to apply more than is committed.
fn copied(alloc: Global, core: &Core<Entry>) -> Result<[u64; 4], Fail> {
    let mut copy = core.copy(alloc)?;
    copy.applied_to(5);
    let stands = [copy.term(), copy.last(), copy.commit(), copy.applied()];
    drop(copy);
    Ok(stands)
}

/// All of it: passes, freshness, a copy, and what its source has applied.
fn outcomes(alloc: Global, net: &mut Net) -> Result<([bool; 3], [bool; 3], [u64; 4], u64), Fail> {
    let fresh = are_fresh(net)?;
    let leader = net.cores.get_mut(0).ok_or("no node")?;
    let passes = passes(leader)?;
    let stands = copied(alloc, leader)?;
    Ok((passes, fresh, stands, leader.applied()))
}

/// A pass counts replies to what was sent with it or later; a follower is fresh within a limit; a copy stands alike; a follower takes
/// an append where it has the entry before; a core tells what it is asked.
#[test]
fn single_calls(rt: HostRuntime) -> Result<(), Fail> {
    let mut net = led(rt.alloc())?;
    let outcomes = outcomes(rt.alloc(), &mut net);
    drop(net);
    let expected = ([false, false, true], [true, false, true], [1, 1, 1, 1], 0);
    assert!(rt; outcomes? == expected && answers_are_right(rt.alloc())?);
    assert!(rt; lookups_are_right(rt.alloc())?);
    Ok(())
}
