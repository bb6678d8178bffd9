//! The workers: each accepts a connection, serves it, and accepts the next.
use crate::desk::HubDesk;
use crate::locked::{LockedClock, LockedDraws};
use crate::port::WorkerPort;
use rq_desk::{Shared, Slot, close};
use rq_http::serve_connection;
use rq_hub::Naming;
use rq_outside::{Clock, Draws, Failed, Sink, Source};
use rq_system::{Listener, Spawner};
use std::alloc::Global;
use std::sync::{Arc, Mutex, Wait};

/// So many connections are served at once.
const MOST_WORKERS: u32 = 64;

/// Why not every worker was started.
#[derive(Clone, Copy, Drop)]
pub enum Unstarted<W> {
    Spawn(W),
    Memory,
}

/// Waits for a connection. While a worker waits, the others wait for it.
fn accepted<L: Listener, H: Wait>(
    rt: &H,
    listener: &Mutex<L>,
) -> Result<(L::In, L::Out), Option<L::Fault>> {
    let mut listener = listener.lock(rt);
    match listener.accept() {
        Ok(halves) => Ok(halves),
        Err(Failed) => Err(listener.fault()),
    }
}

/// Serves one connection after another, until none comes. Answers why.
fn work<L: Listener, J: Naming, R: Draws + Drop, C: Clock + Drop, H: Wait + Copy + Drop>(
    rt: H,
    alloc: Global,
    listener: &Mutex<L>,
    shared: Arc<Shared<J>, Global>,
    slot: Arc<Slot<J>, Global>,
    draws: Arc<Mutex<R>, Global>,
    clock: Arc<Mutex<C>, Global>,
) -> Option<L::Fault> {
    let mut port = WorkerPort::new(
        HubDesk::new(rt, shared, slot),
        LockedDraws::new(rt, draws),
        LockedClock::new(rt, clock),
    );
    for _ in rt.forever() {
        match accepted(&rt, listener) {
            Ok((source, sink)) => {
                let mut source = source;
                let mut sink = sink;
                let _served = serve_connection(alloc, &mut source, &mut sink, &mut port);
            }
            Err(fault) => return fault,
        }
    }
    unreachable!()
}

/// Starts a worker. Where no connection comes any more, it leaves why, and closes the desk.
fn start_worker<
    I: Source + Drop + Send + 'static,
    O: Sink + Drop + Send + 'static,
    L: Listener<In = I, Out = O> + Drop + Send + 'static,
    W: Spawner,
    J: Naming + Drop + Send + Sync + 'static,
    R: Draws + Drop + Send + 'static,
    C: Clock + Drop + Send + 'static,
    H: Wait + Copy + Drop + Send + Sync + 'static,
>(
    rt: H,
    alloc: Global,
    spawner: &mut W,
    listener: Arc<Mutex<L>, Global>,
    shared: Arc<Shared<J>, Global>,
    slot: Arc<Slot<J>, Global>,
    draws: Arc<Mutex<R>, Global>,
    clock: Arc<Mutex<C>, Global>,
    left: Arc<Mutex<Option<L::Fault>>, Global>,
    ending: Arc<Shared<J>, Global>,
) -> Result<(), Failed> {
    spawner.start(move || {
        let fault = work(rt, alloc, &*listener, shared, slot, draws, clock);
        *left.lock(&rt) = fault;
        close(&rt, &*ending);
    })
}

/// Starts the workers.
pub fn start_workers<
    I: Source + Drop + Send + 'static,
    O: Sink + Drop + Send + 'static,
    L: Listener<In = I, Out = O> + Drop + Send + 'static,
    W: Spawner,
    J: Naming + Drop + Send + Sync + 'static,
    R: Draws + Drop + Send + 'static,
    C: Clock + Drop + Send + 'static,
    H: Wait + Copy + Drop + Send + Sync + 'static,
>(
    rt: H,
    alloc: Global,
    spawner: &mut W,
    listener: &Arc<Mutex<L>, Global>,
    shared: &Arc<Shared<J>, Global>,
    draws: &Arc<Mutex<R>, Global>,
    clock: &Arc<Mutex<C>, Global>,
    left: &Arc<Mutex<Option<L::Fault>>, Global>,
) -> Result<(), Unstarted<W::Fault>> {
    for _ in 0..MOST_WORKERS {
        let Ok(slot) = Arc::new(alloc, Slot::new()) else {
            return Err(Unstarted::Memory);
        };
        let (Ok(listener), Ok(shared), Ok(draws), Ok(clock), Ok(left), Ok(ending)) = (
            Arc::try_clone(listener),
            Arc::try_clone(shared),
            Arc::try_clone(draws),
            Arc::try_clone(clock),
            Arc::try_clone(left),
            Arc::try_clone(shared),
        ) else {
            return Err(Unstarted::Memory);
        };
        let started = start_worker(
            rt, alloc, spawner, listener, shared, slot, draws, clock, left, ending,
        );
        if started.is_err() {
            return Err(spawn_fault(spawner));
        }
    }
    Ok(())
}

fn spawn_fault<W: Spawner>(spawner: &W) -> Unstarted<W::Fault> {
    match spawner.fault() {
        Some(fault) => Unstarted::Spawn(fault),
        None => Unstarted::Memory,
    }
}
