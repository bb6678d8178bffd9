//! The thread that has the hub.
ghost use Rattle.std.specs.Prelude.{◌≡◌, false, OnOk};
ghost use Rattle.rq_node.specs.Recovery.{IsOpen};

use crate::gate::Gate;
use crate::mail::{Put, Shared};
use crate::slot::DeskError;
use crate::waiters::Waiters;
use rq_hub::{Hub, HubError, Naming, Past};
use rq_node::Event;
use rq_outside::{Clock, Disk, Draws};
use std::alloc::Global;
use std::mem::replace;
use std::sync::Wait;
use std::time;
use std::time::Duration;

/// So many milliseconds the thread waits for asks, before it looks at the clock.
const LOOK: u64 = 50;

/// A node that hears of no leader for so many milliseconds, and up to as many more, stands for election.
const ELECTION: u64 = 300;

/// Why the hub's thread ended.
#[derive(Clone, Copy, Drop)]
pub enum HubEnd<D, C, R> {
    /// A disk failed, and left this.
    Disk(D),
    /// The clock failed, and left this.
    Clock(C),
    /// The random words failed, and left this.
    Draws(R),
    Memory,
    /// A number has come to its end.
    Past(Past),
    /// Another thread ended the program.
    Closed,
}

/// Why the thread ends, before the fault is looked up.
#[derive(Clone, Copy, Drop)]
enum Stop {
    Hub(HubError),
    Clock,
    Draws,
    Closed,
}

/// Runs the hub until something ends it: takes up the asks that were put, applies what they committed, hands over the
/// answers, and stands for election when it is time. From then on nothing is taken up.
pub fn run_hub<D: Disk, J: Naming, C: Clock, R: Draws, G: Gate, W: Wait + time::Clock>(
    rt: &W,
    alloc: Global,
    hub: &mut Hub<D, J>,
    shared: &Shared<J>,
    clock: &mut C,
    draws: &mut R,
    gate: &G,
) -> HubEnd<D::Fault, C::Fault, R::Fault>
    requires going { hub.old.stopped ≡ false }
    requires open { IsOpen D.told D.means hub.old.disks hub.old.node }
{
    let mut waiters = Waiters::new(alloc);
    let stop = run(rt, alloc, hub, shared, &mut waiters, clock, draws, gate);
    waiters.fail_all(rt);
    fail_puts(rt, last_puts(rt, alloc, shared));
    match stop {
        Stop::Hub(error) => hub_end(hub, error),
        Stop::Clock => match clock.fault() {
            Some(fault) => HubEnd::Clock(fault),
            None => HubEnd::Memory,
        },
        Stop::Draws => match draws.fault() {
            Some(fault) => HubEnd::Draws(fault),
            None => HubEnd::Memory,
        },
        Stop::Closed => closed_end(rt, shared),
    }
}

/// The end where the hub stopped.
fn hub_end<D: Disk, J: Naming, C, R>(hub: &Hub<D, J>, error: HubError) -> HubEnd<D::Fault, C, R> {
    match (error, hub.disk_fault()) {
        (HubError::Disk, Some(fault)) => HubEnd::Disk(fault),
        _ => HubEnd::Memory,
    }
}

/// The end where another thread closed the desks.
fn closed_end<J: Naming, D, C, R, W: Wait>(rt: &W, shared: &Shared<J>) -> HubEnd<D, C, R> {
    match shared.mail.lock(rt).numbers.past() {
        Some(past) => HubEnd::Past(past),
        None => HubEnd::Closed,
    }
}

/// The asks that were put last. From now on none is.
fn last_puts<J: Naming, W: Wait>(rt: &W, alloc: Global, shared: &Shared<J>) -> Vec<Put<J>> {
    let mut mail = shared.mail.lock(rt);
    mail.closed = true;
    replace(&mut mail.puts, Vec::new(alloc))
}

/// Tells those that put an ask that the program ends.
fn fail_puts<J: Naming, W: Wait>(rt: &W, puts: Vec<Put<J>>) {
    for put in puts {
        put.slot.fail(rt, put.number, DeskError::Failed);
        drop(put);
    }
}

fn run<D: Disk, J: Naming, C: Clock, R: Draws, G: Gate, W: Wait + time::Clock>(
    rt: &W,
    alloc: Global,
    hub: &mut Hub<D, J>,
    shared: &Shared<J>,
    waiters: &mut Waiters<J>,
    clock: &mut C,
    draws: &mut R,
    gate: &G,
) -> Stop
    requires going { hub.old.stopped ≡ false }
    requires open { IsOpen D.told D.means hub.old.disks hub.old.node }
{
    let mut elects_at = match election_at(clock, draws) {
        Ok(moment) => moment,
        Err(stop) => return stop,
    };
    let mut applies = 0;
    for _ in rt.forever() {
        let Some(puts) = next_puts(rt, alloc, shared) else {
            return Stop::Closed;
        };
        match look(
            rt,
            alloc,
            hub,
            puts,
            waiters,
            clock,
            draws,
            &mut elects_at,
            gate,
            &mut applies,
        ) {
            Ok(()) => {}
            Err(stop) => return stop,
        }
    }
    unreachable!()
}

/// Takes up these asks, stands for election when it is time, and applies what is committed: so a node that leads has
/// applied what was committed before.
fn look<D: Disk, J: Naming, C: Clock, R: Draws, G: Gate, W: Wait>(
    rt: &W,
    alloc: Global,
    hub: &mut Hub<D, J>,
    puts: Vec<Put<J>>,
    waiters: &mut Waiters<J>,
    clock: &mut C,
    draws: &mut R,
    elects_at: &mut u64,
    gate: &G,
    applies: &mut u64,
) -> Result<(), Stop>
    requires going { hub.old.stopped ≡ false }
    requires open { IsOpen D.told D.means hub.old.disks hub.old.node }
    ensures going { OnOk result (hub.new.stopped ≡ false) }
    ensures open { OnOk result (IsOpen D.told D.means hub.new.disks hub.new.node) }
{
    match take_up_all(rt, alloc, hub, puts, waiters) {
        Ok(()) => {}
        Err(error) => return Err(Stop::Hub(error)),
    }
    match stand(alloc, hub, clock, draws, elects_at) {
        Ok(()) => {}
        Err(stop) => return Err(stop),
    }
    match apply_committed(rt, alloc, hub, waiters, gate, applies) {
        Ok(()) => Ok(()),
        Err(error) => Err(Stop::Hub(error)),
    }
}

/// The moment at which the node is to stand for election.
fn election_at<C: Clock, R: Draws>(clock: &mut C, draws: &mut R) -> Result<u64, Stop> {
    let Ok(moment) = clock.moment() else {
        return Err(Stop::Clock);
    };
    let Ok(word) = draws.word() else {
        return Err(Stop::Draws);
    };
    Ok(moment.saturating_add(ELECTION + word % ELECTION))
}

/// Waits for asks, but not long, and takes them. None where the program ends.
fn next_puts<J: Naming, W: Wait + time::Clock>(
    rt: &W,
    alloc: Global,
    shared: &Shared<J>,
) -> Option<Vec<Put<J>>> {
    let (mut mail, _late) = shared.arrived.wait_timeout_while(
        rt,
        shared.mail.lock(rt),
        Duration::from_millis(LOOK),
        |mail| mail.puts.is_empty() && !mail.closed,
    );
    if mail.closed {
        return None;
    }
    Some(replace(&mut mail.puts, Vec::new(alloc)))
}

/// Applies what is committed, and hands over the answers.
fn apply_committed<D: Disk, J: Naming, G: Gate, W: Wait>(
    rt: &W,
    alloc: Global,
    hub: &mut Hub<D, J>,
    waiters: &mut Waiters<J>,
    gate: &G,
    applies: &mut u64,
) -> Result<(), HubError>
    requires going { hub.old.stopped ≡ false }
    requires open { IsOpen D.told D.means hub.old.disks hub.old.node }
    ensures going { OnOk result (hub.new.stopped ≡ false) }
    ensures open { OnOk result (IsOpen D.told D.means hub.new.disks hub.new.node) }
{
    if !hub.is_behind() {
        return Ok(());
    }
    *applies = applies.saturating_add(1);
    gate.at_apply(*applies);
    match hub.turn(alloc, Event::Apply) {
        Ok(outputs) => {
            waiters.post_all(rt, outputs);
            Ok(())
        }
        Err(error) => Err(error),
    }
}

/// Takes up these asks, in the order in which they were put. After an error the rest are told that the program ends.
fn take_up_all<D: Disk, J: Naming, W: Wait>(
    rt: &W,
    alloc: Global,
    hub: &mut Hub<D, J>,
    puts: Vec<Put<J>>,
    waiters: &mut Waiters<J>,
) -> Result<(), HubError>
    requires going { hub.old.stopped ≡ false }
    requires open { IsOpen D.told D.means hub.old.disks hub.old.node }
    ensures going { OnOk result (hub.new.stopped ≡ false) }
    ensures open { OnOk result (IsOpen D.told D.means hub.new.disks hub.new.node) }
{
    let mut outcome = Ok(());
    for put in puts {
        match outcome {
            Ok(()) => outcome = take_up(rt, alloc, hub, put, waiters),
            Err(_) => {
                put.slot.fail(rt, put.number, DeskError::Failed);
                drop(put);
            }
        }
    }
    outcome
}

/// Takes up an ask.
fn take_up<D: Disk, J: Naming, W: Wait>(
    rt: &W,
    alloc: Global,
    hub: &mut Hub<D, J>,
    put: Put<J>,
    waiters: &mut Waiters<J>,
) -> Result<(), HubError>
    requires going { hub.old.stopped ≡ false }
    requires open { IsOpen D.told D.means hub.old.disks hub.old.node }
    ensures going { OnOk result (hub.new.stopped ≡ false) }
    ensures open { OnOk result (IsOpen D.told D.means hub.new.disks hub.new.node) }
{
    let Put {
        number,
        wanted,
        slot,
    } = put;
    if !waiters.add(rt, number, slot) {
        drop(wanted);
        return Ok(());
    }
    let event = wanted.event(number, hub.leads());
    match hub.turn(alloc, event) {
        Ok(outputs) => {
            waiters.post_all(rt, outputs);
            Ok(())
        }
        Err(HubError::NoMemory) => {
            waiters.fail(rt, number, DeskError::NoMemory);
            Ok(())
        }
        Err(error) => Err(error),
    }
}

/// Stands for election, where the node doesn't lead and it is time.
fn stand<D: Disk, J: Naming, C: Clock, R: Draws>(
    alloc: Global,
    hub: &mut Hub<D, J>,
    clock: &mut C,
    draws: &mut R,
    elects_at: &mut u64,
) -> Result<(), Stop>
    requires going { hub.old.stopped ≡ false }
    requires open { IsOpen D.told D.means hub.old.disks hub.old.node }
    ensures going { OnOk result (hub.new.stopped ≡ false) }
    ensures open { OnOk result (IsOpen D.told D.means hub.new.disks hub.new.node) }
{
    if hub.leads() {
        return Ok(());
    }
    let Ok(now) = clock.moment() else {
        return Err(Stop::Clock);
    };
    if now < *elects_at {
        return Ok(());
    }
    *elects_at = election_at(clock, draws)?;
    match hub.turn(alloc, Event::Elect) {
        Ok(outputs) => {
            drop(outputs);
            Ok(())
        }
        Err(HubError::NoMemory) => Ok(()),
        Err(error) => Err(Stop::Hub(error)),
    }
}
