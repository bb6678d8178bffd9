//! Faults of the system, counted.
ghost use Rattle.std.specs.Prelude.{◌≡◌, ◌≤◌, ◌↔◌, IsNone, is_some, nat_lt, Ok, IfOk};
ghost use Rattle.rq_outside.specs.Counts.{Rose, HasCause};

use rq_outside::Failed;
use std::io;
use std::io::ErrorKind;

/// Why a call of the system failed.
#[derive(Clone, Copy, Drop)]
pub enum SystemFault {
    /// Another process has the file, or the address.
    InUse,
    Missing,
    NotAllowed,
    /// The address isn't one of this machine.
    NotHere,
    /// The address isn't spelled as a host and a port.
    Malformed,
    DiskFull,
    ReadOnly,
    Other,
}

impl SystemFault {
    /// In words.
    pub fn text(self) -> &'static str {
        match self {
            SystemFault::InUse => "in use by another process",
            SystemFault::Missing => "no such file or address",
            SystemFault::NotAllowed => "permission denied",
            SystemFault::NotHere => "the address isn't one of this machine",
            SystemFault::Malformed => "it isn't spelled as HOST:PORT",
            SystemFault::DiskFull => "the disk is full",
            SystemFault::ReadOnly => "the disk can't be written",
            SystemFault::Other => "the system refused it",
        }
    }
}

/// What the system tells.
pub fn fault_of(kind: ErrorKind) -> SystemFault {
    match kind {
        ErrorKind::AddrInUse | ErrorKind::WouldBlock | ErrorKind::ResourceBusy =>
            SystemFault::InUse,
        ErrorKind::NotFound => SystemFault::Missing,
        ErrorKind::PermissionDenied => SystemFault::NotAllowed,
        ErrorKind::AddrNotAvailable => SystemFault::NotHere,
        ErrorKind::InvalidInput => SystemFault::Malformed,
        ErrorKind::StorageFull => SystemFault::DiskFull,
        ErrorKind::ReadOnlyFilesystem => SystemFault::ReadOnly,
        _ => SystemFault::Other,
    }
}

/// How often a thing has failed, and the first fault. The count stops at its type's end.
#[derive(Drop)]
pub struct Faults {
    pub count: u64,
    first: Option<SystemFault>,
    ghost same: { is_some first ≡ nat_lt 0 count },
}

impl Faults {
    /// Nothing has failed.
    pub fn none() -> Faults
        ensures { result.count ≡ 0 }
    {
        Faults {
            count: 0,
            first: None,
        }
    }

    /// The first fault, if any.
    pub fn first(&self) -> Option<SystemFault>
        ensures first { result ≡ self.now.first }
        ensures none { IsNone result ↔ (self.now.count ≡ 0) }
    {
        self.first
    }

    /// Counts a fault.
    pub fn add(&mut self, fault: SystemFault)
        ensures rose { Rose self.old.count self.new.count }
        ensures later { self.old.count ≤ self.new.count }
    {
        let first = match self.first {
            Some(first) => first,
            None => fault,
        };
        *self = Faults {
            count: self.count.saturating_add(1),
            first: Some(first),
        };
    }

    /// Counts the fault of a call that failed.
    pub fn counted<T>(&mut self, outcome: Result<T, SystemFault>) -> Result<T, Failed>
        ensures cause { HasCause self.old.count self.new.count result }
        ensures value { IfOk result (λ value. outcome ≡ Ok value) }
    {
        match outcome {
            Ok(value) => Ok(value),
            Err(fault) => {
                self.add(fault);
                Err(Failed)
            }
        }
    }
}

/// The outcome of a call of the system.
pub fn told<T>(outcome: io::Result<T>) -> Result<T, SystemFault> {
    match outcome {
        Ok(value) => Ok(value),
        Err(error) => Err(fault_of(error.kind())),
    }
}
