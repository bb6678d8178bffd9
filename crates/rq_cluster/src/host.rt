//! A server of the script: its node while it runs, and what is left of it when it is down.
ghost use Rattle.std.specs.Prelude.{◌≡◌, ◌≢◌, ◌≤◌, ◌+◌, ◌-◌, ◌*◌, ◌^◌, ◌++◌, ◌∷◌, ◌↔◌, [], List, ℕ, None, Some, flat_map, length, All, IsTrue, IsSome, IfOk, OnOk, OnErr, OnSome, is_some, true, false, ⊤};
ghost use Rattle.rq_outside.specs.declared.pair.Arm.TheVariants.{Passes, Struck};
ghost use Rattle.rq_outside.specs.declared.pair.FileNo.{FileNo};
ghost use Rattle.rq_outside.specs.Pair.{arm_of, disk_at};
ghost use Rattle.rq_script.specs.Cluster.{numbers as numbers_of, left_after};
ghost use Rattle.rq_script.specs.ScriptText.{down_text, pending_text};
ghost use Rattle.rq_cluster.specs.declared.arming.Arming.{Arming as TheArming};
ghost use Rattle.rq_cluster.specs.Acting as act;
ghost use Rattle.rq_cluster.specs.Acting.{pending_at, asked_of, HasStruck, Crashed};
ghost use Rattle.rq_cluster.specs.Refines.{HostReady, IsArmed, LetsPass, Goes, BreaksOff, armed_of};

use crate::arming::Arming;
use rq_node::{Event, Node, NodeError, State, TurnError, Waiting};
use rq_outside::{CrashDisk, DiskPair};
use rq_script::{
    write_all_pending, write_answers, write_down, write_show, write_show_down, write_up,
};
use rq_values::{Id, NoMemory};
use rq_wal::current_logs_stand;
use std::alloc::Global;

/// A server of the script.
#[derive(Drop)]
pub struct Host {
    id: Id,
    /// The node, while it runs.
    node: Option<Node>,
    armed: Option<Arming>,
    /// The asks that were lost when the node went down, and those put to it while it was down, in rising order.
    lost: Vec<u64>,
    /// How often a failing disk took the node down or kept it from starting.
    failures: u64,
}

impl Host {
    pub fn id(&self) -> &Id
        ensures { result.now ≡ self.now.id }
    {
        &self.id
    }

    pub fn is_running(&self) -> bool
        ensures { result ≡ is_some self.now.node }
    {
        self.node.is_some()
    }

    /// A server of that name, whose node was never started.
    pub fn new(alloc: Global, id: Id) -> Host
        ensures id { result.id ≡ id }
        ensures node { result.node ≡ None }
        ensures armed { result.armed ≡ None }
        ensures lost { result.lost.items ≡ [] }
        ensures failures { result.failures ≡ 0 }
    {
        Host {
            id,
            node: None,
            armed: None,
            lost: Vec::new(alloc),
            failures: 0,
        }
    }

    /// Opens the files of a node that is down, starts it, and tells how that went.
    pub fn start<D: CrashDisk>(
        &mut self,
        alloc: Global,
        disks: &mut DiskPair<D>,
        text: &mut Vec<u8>,
    ) -> Result<(), NoMemory>
        requires down { is_some self.old.node ≡ false }
        ensures ok { OnOk result (Goes D.told D.means act.start disks.old disks.new self.old self.new text.old.items text.new.items) }
        ensures ready { OnOk result (HostReady D.told D.means disks.new self.new) }
        ensures broken { OnErr result (BreaksOff D.told D.means act.start disks.old disks.new self.old) }
    {
        current_logs_stand::<D>();
        self.let_pass(disks);
        match Node::open(alloc, disks, self.id) {
            Ok(node) => {
                write_up(alloc, &node.state, text)?;
                self.node = Some(node);
                Ok(())
            }
            Err(NodeError::Disk) => {
                self.failures = self.failures.checked_add(1).ok_or(NoMemory)?;
                write_down(&self.id, text)
            }
            Err(_) => Err(NoMemory),
        }
    }

    /// Hands an event to the node, and writes what it answers. Where the node is down, an ask is lost.
    pub fn turn<D: CrashDisk>(
        &mut self,
        alloc: Global,
        disks: &mut DiskPair<D>,
        event: Event,
        text: &mut Vec<u8>,
    ) -> Result<(), NoMemory>
        requires ready { HostReady D.told D.means disks.old self.old }
        ensures ok { OnOk result (Goes D.told D.means (act.turn event) disks.old disks.new self.old self.new text.old.items text.new.items) }
        ensures ready { OnOk result (HostReady D.told D.means disks.new self.new) }
        ensures broken { OnErr result (BreaksOff D.told D.means (act.turn event) disks.old disks.new self.old) }
    {
        current_logs_stand::<D>();
        self.let_pass(disks);
        let asked = event.asked();
        let Some(mut node) = self.node.take() else {
            drop(event);
            return lose(asked, &mut self.lost);
        };
        match node.turn(alloc, disks, event) {
            Ok(effects) => {
                self.go_on(node, effects.stored);
                write_answers(alloc, effects.answers.as_slice(), text)
            }
            Err(TurnError::NoMemory) => Err(NoMemory),
            Err(TurnError::Disk) => self.go_down(disks, &node.state, asked, text),
        }
    }

    /// Stops the running node at once.
    pub fn stop<D: CrashDisk>(
        &mut self,
        disks: &mut DiskPair<D>,
        text: &mut Vec<u8>,
    ) -> Result<(), NoMemory>
        requires ready { HostReady D.told D.means disks.old self.old }
        requires running { is_some self.old.node ≡ true }
        ensures ok { OnOk result (Goes D.told D.means act.stop disks.old disks.new self.old self.new text.old.items text.new.items) }
        ensures ready { OnOk result (HostReady D.told D.means disks.new self.new) }
        ensures broken { OnErr result (BreaksOff D.told D.means act.stop disks.old disks.new self.old) }
        ensures picked { IsTrue D.told → (file : FileNo) → (D.means (disk_at disks.new file)).content ≡ D.picked 0 (disk_at disks.old file) }
    {
        current_logs_stand::<D>();
        let Some(node) = self.node.take() else {
            unreachable!()
        };
        disks.crash(0);
        self.armed = None;
        add_numbers(&node.state, &mut self.lost)?;
        write_down(&self.id, text)
    }

    /// Lets the running node go down in the event that needs more than so many changing calls.
    pub fn arm<D: CrashDisk>(&mut self, disks: &mut DiskPair<D>, arming: Arming)
        requires ready { HostReady D.told D.means disks.old self.old }
        requires running { is_some self.old.node ≡ true }
        ensures ok { (bytes : List ℕ) → Goes D.told D.means (act.arm arming.calls arming.pick) disks.old disks.new self.old self.new bytes bytes }
        ensures ready { HostReady D.told D.means disks.new self.new }
    {
        disks.arm(arming.calls);
        self.armed = Some(arming);
    }

    /// `show ID ..`
    pub fn show(&self, alloc: Global, text: &mut Vec<u8>) -> Result<(), NoMemory>
        ensures { OnOk result (act.ShownAs self.now text.old.items text.new.items) }
    {
        match &self.node {
            Some(node) => write_show(alloc, &node.state, text),
            None => write_show_down(&self.id, text),
        }
    }

    /// Appends a line for each ask that has no answer, in rising order.
    pub fn write_pending(&self, alloc: Global, text: &mut Vec<u8>) -> Result<(), NoMemory>
        ensures { OnOk result (text.new.items ≡ text.old.items ++ flat_map pending_text (pending_at self.now)) }
    {
        let mut asks = Vec::new(alloc);
        asks.extend_from_slice(self.lost.as_slice())?;
        if let Some(node) = &self.node {
            add_numbers(&node.state, &mut asks)?;
        }
        write_all_pending(alloc, asks.as_slice(), text)
    }

    /// Lets the pair pass all calls, where no line `stop ID K P` holds.
    fn let_pass<D: CrashDisk>(&self, disks: &mut DiskPair<D>)
        ensures one { disk_at disks.new FileNo.One ≡ disk_at disks.old FileNo.One }
        ensures two { disk_at disks.new FileNo.Two ≡ disk_at disks.old FileNo.Two }
        ensures passes { IsArmed D.told D.means disks.old (armed_of self.now.armed) → LetsPass D.told D.means disks.new (armed_of self.now.armed) }
    {
        match self.armed {
            None => disks.arm(u64::MAX),
            Some(_) => {}
        }
    }

    /// The node goes on, with so many things made durable by four changing calls each.
    fn go_on(&mut self, node: Node, count: u64)
        ensures id { self.new.id ≡ self.old.id }
        ensures node { self.new.node ≡ Some node }
        ensures armed { armed_of self.new.armed ≡ left_after (armed_of self.old.armed) (4 * count) }
        ensures lost { self.new.lost ≡ self.old.lost }
        ensures failures { self.new.failures ≡ self.old.failures }
    {
        self.armed = left(self.armed, count);
        self.node = Some(node);
    }

    /// The node has gone down with all that waits there: a line `stop ID K P` has struck, or a disk has failed.
    fn go_down<D: CrashDisk>(
        &mut self,
        disks: &mut DiskPair<D>,
        state: &State,
        asked: Option<u64>,
        text: &mut Vec<u8>,
    ) -> Result<(), NoMemory>
        ensures id { OnOk result (self.new.id ≡ self.old.id) }
        ensures node { OnOk result (self.new.node ≡ self.old.node) }
        ensures armed { OnOk result (self.new.armed ≡ None) }
        ensures lost { OnOk result (self.new.lost.items ≡ self.old.lost.items ++ (numbers_of state.now.waiting ++ asked_of asked)) }
        ensures text { OnOk result (text.new.items ≡ text.old.items ++ down_text self.old.id) }
        ensures struck { HasStruck (arm_of disks.old) self.old.armed → Crashed D.told D.means disks.old disks.new }
        ensures picked { (arming : TheArming) → self.old.armed ≡ Some arming → HasStruck (arm_of disks.old) self.old.armed → IsTrue D.told → (file : FileNo) → (D.means (disk_at disks.new file)).content ≡ D.picked arming.pick (disk_at disks.old file) }
        ensures struck_failures { HasStruck (arm_of disks.old) self.old.armed → OnOk result (self.new.failures ≡ self.old.failures) }
        ensures failed { (HasStruck (arm_of disks.old) self.old.armed → ⊥) → disks.new ≡ disks.old }
        ensures failures { (HasStruck (arm_of disks.old) self.old.armed → ⊥) → OnOk result (self.new.failures ≡ self.old.failures + 1) }
    {
        match self.armed.take() {
            Some(arming) if disks.struck() => disks.crash(arming.pick),
            _ => self.failures = self.failures.checked_add(1).ok_or(NoMemory)?,
        }
        add_numbers(state, &mut self.lost)?;
        if let Some(number) = asked {
            self.lost.push(number)?;
        }
        write_down(&self.id, text)
    }
}

/// An ask to a node that is down is lost.
fn lose(asked: Option<u64>, lost: &mut Vec<u64>) -> Result<(), NoMemory>
    ensures { OnOk result (lost.new.items ≡ lost.old.items ++ asked_of asked) }
{
    match asked {
        Some(number) => Ok(lost.push(number)?),
        None => Ok(()),
    }
}

/// What is left of a line `stop ID K P` when so many things were made durable.
fn left(armed: Option<Arming>, count: u64) -> Option<Arming>
    ensures { armed_of result ≡ left_after (armed_of armed) (4 * count) }
{
    match armed {
        Some(arming) => Some(Arming {
            calls: arming.calls.saturating_sub(count.saturating_mul(4)),
            pick: arming.pick,
        }),
        None => None,
    }
}

/// Appends the numbers of the asks that wait at a node.
#[tactic(auto, using(crate::proofs::Hosts::two_pieces))]
fn add_numbers(state: &State, numbers: &mut Vec<u64>) -> Result<(), NoMemory>
    ensures { OnOk result (numbers.new.items ≡ numbers.old.items ++ numbers_of state.now.waiting) }
{
    let (first, rest) = state.waiting();
    add_all(first, numbers)?;
    add_all(rest, numbers)
}

/// Appends the numbers of these asks.
fn add_all(waiting: &[Waiting], lost: &mut Vec<u64>) -> Result<(), NoMemory>
    ensures { OnOk result (lost.new.items ≡ lost.old.items ++ numbers_of waiting.now) }
{
    for ask in waiting {
        lost.push(ask.number)?;
    }
    Ok(())
}
