//! Networks and threads that fail at stated calls.
use rq_outside::{Failed, SureSink, SureSource};
use rq_system::{Listener, Network, Spawner};
use rq_values::Addr;
use std::alloc::Global;
use std::sync::Arc;
use std::sync::atomic::{AtomicU64, Ordering};
use std::thread;
use std::thread::Threads;
use std::time::{Clock, Duration};

/// So many milliseconds a test waits at most.
const MOST_WAITING: u32 = 20_000;

/// Whether the test is over.
pub type Over = Arc<AtomicU64, Global>;

/// Waits until the test is over.
fn wait<R: Clock>(rt: &R, over: &Over) {
    for _ in 0..MOST_WAITING {
        if over.load(Ordering::SeqCst) != 0 {
            return;
        }
        thread::sleep(rt, Duration::from_millis(1));
    }
}

/// Listens by another listener, but for one connection: its second call waits until the test is over, and fails.
#[derive(Drop)]
pub struct OneConnection<R, L> {
    rt: R,
    listener: L,
    accepted: bool,
    over: Over,
    pub faults: u64,
}

impl<R: Clock, L: Listener> Listener for OneConnection<R, L> {
    ghost faults = { λ l. l.faults };

    type In = L::In;

    type Out = L::Out;

    type Fault = ();

    fn fault(&self) -> Option<()> {
        if self.faults == 0 { None } else { Some(()) }
    }

    fn accept(&mut self) -> Result<(L::In, L::Out), Failed> {
        if !self.accepted {
            self.accepted = true;
            if let Ok(halves) = self.listener.accept() {
                return Ok(halves);
            }
        }
        wait(&self.rt, &self.over);
        self.faults = self.faults.saturating_add(1);
        Err(Failed)
    }
}

/// Listens by another network, for one connection.
#[derive(Drop)]
pub struct OnePort<R, N> {
    rt: R,
    network: N,
    over: Option<Over>,
    pub faults: u64,
}

impl<R, N> OnePort<R, N> {
    pub fn new(rt: R, network: N, over: Over) -> OnePort<R, N> {
        OnePort {
            rt,
            network,
            over: Some(over),
            faults: 0,
        }
    }
}

impl<R: Clock + Copy + Drop + Send + 'static, N: Network> Network for OnePort<R, N> {
    ghost faults = { λ n. n.faults };

    type In = N::In;

    type Out = N::Out;

    type L = OneConnection<R, N::L>;

    type Fault = ();

    fn fault(&self) -> Option<()> {
        if self.faults == 0 { None } else { Some(()) }
    }

    fn listen(&mut self, at: &Addr) -> Result<OneConnection<R, N::L>, Failed> {
        if let Some(over) = self.over.take() {
            match self.network.listen(at) {
                Ok(listener) => {
                    return Ok(OneConnection {
                        rt: self.rt,
                        listener,
                        accepted: false,
                        over,
                        faults: 0,
                    });
                }
                Err(Failed) => drop(over),
            }
        }
        self.faults = self.faults.saturating_add(1);
        Err(Failed)
    }
}

/// Passes so many connections on which nothing comes, and then fails, at once or when the test is over.
#[derive(Drop)]
pub struct FewConnections<R> {
    rt: R,
    alloc: Global,
    left: u64,
    over: Option<Over>,
    pub faults: u64,
}

impl<R: Clock> Listener for FewConnections<R> {
    ghost faults = { λ l. l.faults };

    type In = SureSource;

    type Out = SureSink;

    type Fault = ();

    fn fault(&self) -> Option<()> {
        if self.faults == 0 { None } else { Some(()) }
    }

    fn accept(&mut self) -> Result<(SureSource, SureSink), Failed> {
        if self.left > 0 {
            self.left -= 1;
            let source = SureSource::new(Vec::new(self.alloc));
            return Ok((source, SureSink::new(Vec::new(self.alloc))));
        }
        if let Some(over) = &self.over {
            wait(&self.rt, over);
        }
        self.faults = self.faults.saturating_add(1);
        Err(Failed)
    }
}

/// A network with one port, at which so many connections come. Where it has none, or a second is asked for, it fails.
#[derive(Drop)]
pub struct FewPort<R> {
    port: Option<FewConnections<R>>,
    pub faults: u64,
}

impl<R> FewPort<R> {
    pub fn none() -> FewPort<R> {
        FewPort {
            port: None,
            faults: 0,
        }
    }

    pub fn new(rt: R, alloc: Global, left: u64, over: Option<Over>) -> FewPort<R> {
        FewPort {
            port: Some(FewConnections {
                rt,
                alloc,
                left,
                over,
                faults: 0,
            }),
            faults: 0,
        }
    }
}

impl<R: Clock + Drop + Send + 'static> Network for FewPort<R> {
    ghost faults = { λ n. n.faults };

    type In = SureSource;

    type Out = SureSink;

    type L = FewConnections<R>;

    type Fault = ();

    fn fault(&self) -> Option<()> {
        if self.faults == 0 { None } else { Some(()) }
    }

    fn listen(&mut self, _at: &Addr) -> Result<FewConnections<R>, Failed> {
        match self.port.take() {
            Some(port) => Ok(port),
            None => {
                self.faults = self.faults.saturating_add(1);
                Err(Failed)
            }
        }
    }
}

/// Starts so many threads, and then none.
#[derive(Drop)]
pub struct FewThreads<R> {
    rt: R,
    left: u64,
    pub faults: u64,
}

impl<R> FewThreads<R> {
    pub fn new(rt: R, left: u64) -> FewThreads<R> {
        FewThreads {
            rt,
            left,
            faults: 0,
        }
    }
}

impl<R: Threads> Spawner for FewThreads<R> {
    ghost faults = { λ s. s.faults };

    type R = R;

    type Fault = ();

    fn fault(&self) -> Option<()> {
        if self.faults == 0 { None } else { Some(()) }
    }

    fn handle(&self) -> &R {
        &self.rt
    }

    fn allow(&mut self) -> Result<(), Failed> {
        if self.left > 0 {
            self.left -= 1;
            return Ok(());
        }
        self.faults = self.faults.saturating_add(1);
        Err(Failed)
    }

    fn refused(&mut self) {
        self.faults = self.faults.saturating_add(1);
    }
}
