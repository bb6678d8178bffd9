//! The hub.
ghost use Rattle.std.specs.Prelude.{ℕ, List, ◌≡◌, ◌⊎◌, ◌≤◌, ◌<◌, ◌+◌, ◌^◌, ◌++◌, ◌∷◌, [], length, false, true, IfOk, OnOk, OnErr, IfSome, IfNone, IsErrOf};
ghost use Rattle.std.proofs.Props.{props};
ghost use Rattle.std.specs.Coded.{codes};
ghost use Rattle.rq_values.specs.contracts.value.Value as value;
ghost use Rattle.rq_grammar.specs.contracts.stmt.ColumnDef as column;
ghost use Rattle.rq_statement.specs.contracts.item.Item as item;
ghost use Rattle.rq_engine.specs.Coding.{state_code};
ghost use Rattle.rq_node.specs.Events.{rule};
ghost use Rattle.rq_node.specs.Node.{persistent_of};
ghost use Rattle.rq_node.specs.Recovery.{IsOpen, Moments};
ghost use Rattle.rq_hub.specs.Runs.{run, is_apply};
ghost use Rattle.rq_hub.specs.declared.hub.HubError.TheVariants.{NoMemory as OutOfMemory};

use crate::naming::Naming;
use crate::outputs::Outputs;
use rq_node::{Effects, Event, Node, Role, State, TurnError};
use rq_outside::{Disk, DiskPair};
use rq_tokens::{History, Known};
use std::alloc::Global;
use std::marker::PhantomData;

/// So many events come to a hub.
const MOST: u64 = 1 << 62;

/// Why a rule wasn't done.
#[derive(Clone, Copy, Drop)]
pub enum HubError {
    /// Nothing has changed.
    NoMemory,
    /// A disk failed: the hub has stopped.
    Disk,
    /// Memory was wanting where the rule was half done: the hub has stopped.
    HalfDone,
    /// So much has come to the hub that it takes nothing more: the hub has stopped.
    Ended,
}

/// A node over its files, with the history of all that came to it since it was opened.
#[derive(Drop)]
pub struct Hub<D: Disk, J: Naming> {
    pub node: Node,
    pub disks: DiskPair<D>,
    history: History<Event>,
    pub known: Known<Event>,
    said: u64,
    stopped: bool,
    of: PhantomData<J>,
    ghost one: { known.seen.book ≡ history.head.book },
    ghost named: { known.seen.book ≡ J.book },
    ghost ran: { stopped ≡ false → node.state ≡ (run J.start known.seen.log).node } by { Prim.hlevel (props, codes, item.the_row.coded, state_code column.the_row.coded value.the_row.coded) },
    ghost told: { stopped ≡ false → said ≡ length (run J.start known.seen.log).answers },
}

impl<D: Disk, J: Naming> Hub<D, J> {
    /// A hub over a node that was just opened, with a new history.
    pub fn new(
        node: Node,
        disks: DiskPair<D>,
        history: History<Event>,
        known: Known<Event>,
    ) -> Hub<D, J>
        requires start { node.state ≡ J.start }
        requires empty { known.seen.log ≡ [] }
        requires one { known.seen.book ≡ history.head.book }
        requires named { known.seen.book ≡ J.book }
        ensures parts { (result.node ≡ node) × (result.disks ≡ disks) }
        ensures going { result.stopped ≡ false }
        ensures empty { result.known.seen.log ≡ [] }
    {
        Hub {
            node,
            disks,
            history,
            known,
            said: 0,
            stopped: false,
            of: PhantomData,
        }
    }

    /// Whether the hub takes no more events.
    pub fn stopped(&self) -> bool
        ensures { result ≡ self.now.stopped }
    {
        self.stopped
    }

    /// What the node knows.
    pub fn state(&self) -> &State
        ensures { result.now ≡ self.now.node.state }
    {
        &self.node.state
    }

    /// Whether the node leads.
    pub fn leads(&self) -> bool {
        self.node.state.role() == Role::Leader
    }

    /// Whether something that is committed isn't applied yet.
    pub fn is_behind(&self) -> bool {
        self.node.state.applied() < self.node.state.commit()
    }

    /// What the first fault of a disk left, if any.
    pub fn disk_fault(&self) -> Option<D::Fault> {
        self.disks.fault()
    }

    /// Does what the rule of this event says. What it stores is durable when its answers are there.
    #[tactic(auto, using(crate::proofs::Steps::run_snoc, crate::proofs::Steps::given_last, crate::proofs::Steps::more_answers, crate::proofs::Steps::left_same))]
    pub fn turn(&mut self, alloc: Global, event: Event) -> Result<Outputs<J>, HubError>
        requires going { self.old.stopped ≡ false }
        requires open { IsOpen D.told D.means self.old.disks self.old.node }
        ensures log { OnOk result (self.new.known.seen.log ≡ self.old.known.seen.log ++ event ∷ []) }
        ensures going { OnOk result (self.new.stopped ≡ false) }
        ensures answers { IfOk result (λ o. (o.answers.items ≡ (rule event self.old.node.state).answers) × (o.known ≡ self.new.known)) }
        ensures node { OnOk result (self.new.node.state ≡ (rule event self.old.node.state).node) }
        ensures open { self.new.stopped ≡ false → IsOpen D.told D.means self.new.disks self.new.node }
        ensures moments { Moments D.told D.means self.old.disks self.new.disks self.old.node.state.id (persistent_of self.old.node.state) (rule event self.old.node.state).records }
        ensures no_memory { IsErrOf result OutOfMemory → (self.new.stopped ≡ false) × (self.new.known ≡ self.old.known) × (self.new.node.state ≡ self.old.node.state) }
        ensures stopped { OnErr result (IsErrOf result OutOfMemory ⊎ (self.new.stopped ≡ true)) }
    {
        if self.known.number >= MOST {
            drop(event);
            self.stopped = true;
            return Err(HubError::Ended);
        }
        let applies = is_apply(&event);
        let planned = self.known.plan(&event);
        match self.node.turn(alloc, &mut self.disks, event) {
            Ok(effects) => {
                let Effects { stored: _, answers } = effects;
                let answers = answers.into_vec();
                let place = self.said;
                let Some(said) = place.checked_add(answers.len() as u64) else {
                    self.stopped = true;
                    return Err(HubError::Ended);
                };
                let mut known = self.known.again();
                if !known.add(&self.history, planned) {
                    self.stopped = true;
                    return Err(HubError::Ended);
                }
                self.known = known;
                self.said = said;
                Ok(Outputs::new(answers, place, said, self.known.again()))
            }
            Err(TurnError::NoMemory) => {
                if applies {
                    self.stopped = true;
                    return Err(HubError::HalfDone);
                }
                Err(HubError::NoMemory)
            }
            Err(TurnError::Disk) => {
                self.stopped = true;
                Err(HubError::Disk)
            }
        }
    }
}

/// Whether what is committed is to be applied.
fn is_apply(event: &Event) -> bool
    ensures { result ≡ is_apply event.now }
{
    match event {
        Event::Apply => true,
        Event::Execute {
            number: _,
            items: _,
        }
        | Event::Query {
            number: _,
            items: _,
        }
        | Event::Elect => false,
    }
}
