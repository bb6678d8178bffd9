//! A file as a disk.
ghost use Rattle.std.specs.Prelude.{◌≡◌, ◌≤◌, length, IfOk};
ghost use Rattle.rq_outside.specs.Counts.{HasCause};

use crate::counting::{Faults, SystemFault, fault_of, told};
use rq_outside::{Disk, Failed};
use rq_values::NoMemory;
use std::fs::{File, Files, OpenOptions, TryLockError};
use std::os::unix::fs::FileExt;

/// How many bytes are read at once.
const PIECE: usize = 4096;

/// A file of the system, opened by the first call and made where it is missing. While it is open no other process can
/// open it so. It tells no bytes, and its calls take no memory.
///
/// A sync is fdatasync. It makes a file's bytes durable, and its length after a write past the end or a cut, since a
/// later read needs that. What it leaves out, the times of the file, no read gives.
#[derive(Drop)]
pub struct FileDisk<R: Files<File = File>> {
    rt: R,
    path: String,
    file: Option<File>,
    pub faults: Faults,
}

impl<R: Files<File = File>> FileDisk<R> {
    /// The file at this path, which isn't looked at yet.
    pub fn new(rt: R, path: String) -> FileDisk<R>
        ensures { result.faults.count ≡ 0 }
    {
        FileDisk {
            rt,
            path,
            file: None,
            faults: Faults::none(),
        }
    }

    /// Opens the file, where it isn't open yet.
    fn open(&mut self) -> Result<(), SystemFault>
        ensures { self.new.faults ≡ self.old.faults }
    {
        if self.file.is_none() {
            let file = opened(&self.rt, self.path.as_str())?;
            self.file = Some(file);
        }
        Ok(())
    }

    fn length(&mut self) -> Result<u64, SystemFault>
        ensures { self.new.faults ≡ self.old.faults }
    {
        self.open()?;
        match &self.file {
            Some(file) => Ok(told(file.metadata())?.len()),
            None => Err(SystemFault::InUse),
        }
    }

    fn bytes_at(&mut self, at: u64, into: &mut [u8]) -> Result<usize, SystemFault>
        ensures same { self.new.faults ≡ self.old.faults }
        ensures count { IfOk result (λ n. n ≤ length into.old) }
        ensures within { length into.new ≡ length into.old }
    {
        self.open()?;
        match &self.file {
            Some(file) => whole_read(file, at, into),
            None => Err(SystemFault::InUse),
        }
    }

    fn put(&mut self, at: u64, piece: &[u8]) -> Result<(), SystemFault>
        ensures { self.new.faults ≡ self.old.faults }
    {
        self.open()?;
        match &self.file {
            Some(file) => told(file.write_all_at(piece, at)),
            None => Err(SystemFault::InUse),
        }
    }

    fn cut_to(&mut self, to: u64) -> Result<(), SystemFault>
        ensures { self.new.faults ≡ self.old.faults }
    {
        self.open()?;
        match &self.file {
            Some(file) => told(file.set_len(to)),
            None => Err(SystemFault::InUse),
        }
    }

    fn make_durable(&mut self) -> Result<(), SystemFault>
        ensures { self.new.faults ≡ self.old.faults }
    {
        self.open()?;
        match &self.file {
            Some(file) => told(file.sync_data()),
            None => Err(SystemFault::InUse),
        }
    }
}

/// The file at this path, made where it is missing, for this process alone.
fn opened<R: Files<File = File>>(rt: &R, path: &str) -> Result<File, SystemFault> {
    let mut options = OpenOptions::new();
    options.read(true).write(true).create(true);
    let file = told(options.open(rt, path))?;
    match file.try_lock() {
        Ok(()) => Ok(file),
        Err(TryLockError::WouldBlock) => {
            drop(file);
            Err(SystemFault::InUse)
        }
        Err(TryLockError::Error(error)) => {
            let fault = fault_of(error.kind());
            drop(error);
            drop(file);
            Err(fault)
        }
    }
}

/// Reads up to the end of the file or of `into`.
fn whole_read(file: &File, at: u64, into: &mut [u8]) -> Result<usize, SystemFault>
    ensures count { IfOk result (λ n. n ≤ length into.old) }
    ensures within { length into.new ≡ length into.old }
{
    let mut done = 0;
    for _ in 0..u64::MAX {
        let count = part_read(file, at.saturating_add(done as u64), &mut into[done..])?;
        if count == 0 {
            break;
        }
        done += count;
    }
    Ok(done)
}

/// Reads some bytes, none where the file ends or `into` is empty.
fn part_read(file: &File, at: u64, into: &mut [u8]) -> Result<usize, SystemFault>
    ensures count { IfOk result (λ n. n ≤ length into.old) }
    ensures within { length into.new ≡ length into.old }
{
    let mut piece = [0; PIECE];
    let most = into.len().min(PIECE);
    match file.read_at(&mut piece[..most], at) {
        Ok(count) => {
            into[..count].copy_from_slice(&piece[..count]);
            Ok(count)
        }
        Err(error) => Err(fault_of(error.kind())),
    }
}

impl<R: Files<File = File>> Disk for FileDisk<R> {
    ghost use Rattle.std.specs.Prelude.{false};
    ghost use Rattle.rq_system.specs.Untold.{untold};

    ghost told = { false };

    ghost means = { λ disk. untold disk.faults.count };

    type Fault = SystemFault;

    ghost first_fault = { λ disk. disk.faults.first };

    ghost reads_an_image = { λ told disk. tt };

    ghost counts_now = { λ told disk t c now image. tt };

    ghost only_now = { λ told disk c image. tt };

    fn fault(&self) -> Option<SystemFault> {
        self.faults.first()
    }

    fn ready(&mut self, _bytes: u64, _calls: u32) -> Result<(), NoMemory> {
        Ok(())
    }

    fn len(&mut self) -> Result<u64, Failed> {
        let outcome = self.length();
        self.faults.counted(outcome)
    }

    fn read(&mut self, at: u64, into: &mut [u8]) -> Result<usize, Failed> {
        let outcome = self.bytes_at(at, into);
        self.faults.counted(outcome)
    }

    fn write_at(&mut self, at: u64, piece: &[u8]) -> Result<(), Failed> {
        let outcome = self.put(at, piece);
        self.faults.counted(outcome)
    }

    fn cut(&mut self, to: u64) -> Result<(), Failed> {
        let outcome = self.cut_to(to);
        self.faults.counted(outcome)
    }

    fn sync(&mut self) -> Result<(), Failed> {
        let outcome = self.make_durable();
        self.faults.counted(outcome)
    }
}
