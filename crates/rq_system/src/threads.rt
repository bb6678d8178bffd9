//! Who starts threads.
ghost use Rattle.std.specs.Prelude.{ℕ, ◌≡◌, ◌↔◌, IsNone, OnErr};
ghost use Rattle.rq_outside.specs.Counts.{Rose, HasCause};

use crate::counting::{Faults, SystemFault};
use rq_outside::Failed;
use std::thread;
use std::thread::Threads;

/// Who starts threads.
pub trait Spawner {
    /// How often a start has failed. It never falls.
    ghost faults: { Self → ℕ };

    type R: Threads;

    /// What a fault leaves to be shown.
    type Fault: Copy + Drop + Send + 'static;

    /// The first fault, if any.
    fn fault(&self) -> Option<Self::Fault>
        ensures { IsNone result ↔ (faults self.now ≡ 0) };

    fn handle(&self) -> &Self::R;

    /// Whether the next start may be tried.
    fn allow(&mut self) -> Result<(), Failed>
        ensures { HasCause (faults self.old) (faults self.new) result };

    /// Counts a start that failed.
    fn refused(&mut self)
        ensures { Rose (faults self.old) (faults self.new) };

    /// Starts a thread that does the job. Where it can't, the job is dropped.
    final fn start<F: FnOnce() + Send + Drop + 'static>(&mut self, job: F) -> Result<(), Failed>
        requires { F.pre job }
        ensures { OnErr result (Rose (faults self.old) (faults self.new)) }
    {
        match self.allow() {
            Ok(()) => {}
            Err(Failed) => {
                drop(job);
                return Err(Failed);
            }
        }
        if started(self.handle(), job) {
            return Ok(());
        }
        self.refused();
        Err(Failed)
    }
}

fn started<R: Threads, F: FnOnce() + Send + Drop + 'static>(rt: &R, job: F) -> bool
    requires { F.pre job }
{
    thread::spawn(rt, job).is_ok()
}

/// Threads of the system.
#[derive(Drop)]
pub struct SystemThreads<R> {
    rt: R,
    pub faults: Faults,
}

impl<R> SystemThreads<R> {
    pub fn new(rt: R) -> SystemThreads<R>
        ensures { result.faults.count ≡ 0 }
    {
        SystemThreads {
            rt,
            faults: Faults::none(),
        }
    }
}

impl<R: Threads> Spawner for SystemThreads<R> {
    ghost faults = { λ s. s.faults.count };

    type R = R;

    type Fault = SystemFault;

    fn fault(&self) -> Option<SystemFault> {
        self.faults.first()
    }

    fn handle(&self) -> &R {
        &self.rt
    }

    fn allow(&mut self) -> Result<(), Failed> {
        Ok(())
    }

    fn refused(&mut self) {
        self.faults.add(SystemFault::Other);
    }
}
