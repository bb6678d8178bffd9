//! The pass of a linearizable read, and freshness: docs/RAFT.md, "Reads by a pass", "Freshness".
ghost use Rattle.std.specs.Prelude.{◌≡◌, ◌⊎◌, true, false, Ok, Err, OnOk, OnErr, IfOk, IfErr};
ghost use Rattle.rq_raft.specs.Node.{is_leader};
ghost use Rattle.rq_raft.specs.Lead.{beat};
ghost use Rattle.rq_raft.specs.Passes.{is_ready};
ghost use Rattle.rq_log.specs.Views.{Gives, is_moved};
ghost use Rattle.rq_reads.specs.Reads.{pass_of, is_stale, limit_of};
ghost use Rattle.rq_reads.specs.declared.pass.BeginError.TheVariants.{NotLeader, NoMemory};

use rq_core::Core;
use rq_log::{LogEntry, Moves, is_confirmed};
use rq_values::Id;

/// The pass of a linearizable read: the number of what was asked, the index that must be applied, the probe above which replies count,
/// and the term.
#[derive(Clone, Copy)]
pub struct Pass {
    pub id: u64,
    pub least: u64,
    pub mark: u64,
    pub term: u64,
}

/// Why no pass was begun.
#[derive(Clone, Copy)]
pub enum BeginError {
    NotLeader { known: Option<Id>, term: u64 },
    NoMemory,
}

/// The leader was heard longer ago than the limit. A limit and the moments have one unit.
#[derive(Clone, Copy)]
pub struct Stale {
    pub contact: Option<u64>,
    pub now: u64,
    pub limit: u64,
}

fn pass_of<E: LogEntry>(core: &Core<E>, id: u64) -> Pass
    ensures { result ≡ pass_of core.now.node id }
{
    Pass {
        id,
        least: core.commit().max(core.first_index()),
        mark: core.probe(),
        term: core.term(),
    }
}

/// Begins the pass of a linearizable read at a leader: it sends to every other member, as at a beat. On a refusal nothing changes.
pub fn begin<E: LogEntry>(core: &mut Core<E>, id: u64) -> Result<(Pass, Moves), BeginError>
    ensures leads { OnOk result (is_leader core.old.node.role ≡ true) }
    ensures pass { IfOk result (λ begun. begun.0 ≡ pass_of core.old.node id) }
    ensures moves { IfOk result (λ begun. Gives (beat E.entries core.old.first core.old.node) core.new.node begun.1) }
    ensures vote { IfOk result (λ begun. begun.1.vote ≡ is_moved core.new.before core.new.node) }
    ensures before { OnOk result (core.new.before ≡ core.old.node) }
    ensures first { core.new.first ≡ core.old.first }
    ensures err { OnErr result (core.new.node ≡ core.old.node) }
    ensures refusals { IfErr result (λ e. (e ≡ NoMemory) ⊎ ((is_leader core.old.node.role ≡ false) × (e ≡ NotLeader core.old.node.leader core.old.node.term))) }
    ensures not_leader { is_leader core.old.node.role ≡ false → result ≡ Err (NotLeader core.old.node.leader core.old.node.term) }
{
    if !core.leads() {
        return Err(BeginError::NotLeader {
            known: core.leader(),
            term: core.term(),
        });
    }
    let pass = pass_of(core, id);
    match core.beat() {
        Ok(moves) => Ok((pass, moves)),
        Err(_) => Err(BeginError::NoMemory),
    }
}

/// Whether the node still leads the pass's term, and a quorum of the voters has answered what was sent since the pass was begun.
pub fn ready<E: LogEntry>(core: &Core<E>, pass: &Pass) -> bool
    ensures { result ≡ is_ready E.entries core.now.first core.now.node pass.now.term pass.now.mark }
{
    core.leads()
        && core.term() == pass.term
        && is_confirmed(core.members(), core.peers(), core.id(), pass.mark)
}

/// Refused where a node that doesn't lead has not heard of its leader within the limit. No limit and 0 are the same, and a contact
/// that isn't yet is now.
pub fn freshness<E: LogEntry>(core: &Core<E>, limit: Option<u64>, now: u64) -> Result<(), Stale>
    ensures fresh { is_stale core.now.node limit now ≡ false → result ≡ Ok tt }
    ensures stale { is_stale core.now.node limit now ≡ true → result ≡ Err (record { contact = core.now.node.contact; now = now; limit = limit_of limit }) }
{
    let limit = match limit {
        None => return Ok(()),
        Some(limit) => limit,
    };
    if core.leads() || limit == 0 {
        return Ok(());
    }
    let contact = core.contact();
    let is_old = match contact {
        None => true,
        Some(at) => limit < now.saturating_sub(at),
    };
    if is_old {
        Err(Stale {
            contact,
            now,
            limit,
        })
    } else {
        Ok(())
    }
}
