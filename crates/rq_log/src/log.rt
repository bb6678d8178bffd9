//! A log that knows where its newest configuration stands, and its way back.
ghost use Rattle.std.specs.Prelude.{◌≡◌, ◌+◌, ◌<◌, ◌≤◌, ◌^◌, [], ◌∷◌, ◌++◌, length, take, drop, OnOk, OnErr, IfOk, vec_len, vec_capacity, List};
ghost use Rattle.std.specs.Option.{option_copied};
ghost use Rattle.rq_raft.specs.Entries.{entry_view};
ghost use Rattle.rq_history.specs.History.{term_at, entry_at};
ghost use Rattle.rq_history.specs.Configurations.{configuration_index, is_configuration, is_given, greatest};

mod upto;

use crate::entry::LogEntry;
use rq_values::{NoMemory, TryCopy};
use std::alloc::Global;
use std::marker::Model;

/// The entries of a log. A contract sees them, and those before the last change.
#[derive(Drop)]
pub struct Log<E: LogEntry> {
    entries: Vec<E>,
    // where the newest configuration stands; 0: nowhere
    config_at: usize,
    // the log before the last change: the first entries of this one, and these
    cut_at: usize,
    cut: Vec<E>,
    config_before: usize,
}

impl<E: LogEntry> Model for Log<E> {
    ghost use Rattle.std.specs.Prelude.{List, take, ◌++◌, vec_capacity};
    ghost use Rattle.std.specs.Coded.{coded×, coded_list};
    ghost use Rattle.rq_log.specs.Parts.{IsLog};

    ghost Value = { List E × List E };

    ghost coded = { coded× (coded_list E.code) (coded_list E.code) };

    ghost view = { λ log. (log.entries.items, take log.cut_at log.entries.items ++ log.cut.items) };

    ghost invariant = { λ log. IsLog E.entries log.entries.items log.config_at log.cut_at log.cut.items log.config_before (vec_capacity log.entries) };
}

impl<E: LogEntry> Log<E> {
    pub fn len(&self) -> u64
        ensures { result ≡ length self.now.0 }
    {
        self.entries.len() as u64
    }

    pub fn new(entries: Vec<E>) -> Log<E>
        ensures { result ≡ (entries.items, entries.items) }
    {
        let alloc = *entries.allocator();
        let config_at = newest(entries.as_slice(), 0, 0);
        let count = entries.len();
        Log {
            entries,
            config_at,
            cut_at: count,
            cut: Vec::new(alloc),
            config_before: config_at,
        }
    }

    pub fn allocator(&self) -> Global {
        *self.entries.allocator()
    }

    /// The term of the entry at an index, counted from 1; 0 where there is none.
    pub fn term_at(&self, index: u64) -> u64
        ensures { result ≡ term_at (entry_view E.entries) self.now.0 index }
    {
        if index == 0 {
            return 0;
        }
        match self.entries.get((index - 1) as usize) {
            Some(entry) => entry.term(),
            None => 0,
        }
    }

    /// The entry at an index, counted from 1.
    pub fn entry(&self, index: u64) -> Option<&E>
        ensures { option_copied result ≡ entry_at self.now.0 index }
    {
        if index == 0 {
            return None;
        }
        self.entries.get((index - 1) as usize)
    }

    /// The entries behind an index.
    pub fn behind(&self, index: u64) -> &[E]
        ensures { result.now ≡ drop index self.now.0 }
    {
        let at = (index as usize).min(self.entries.len());
        &self.entries.as_slice()[at..]
    }

    /// Where the newest configuration stands; 0 where there is none.
    pub fn config_at(&self) -> u64
        ensures value { result ≡ configuration_index (entry_view E.entries) self.now.0 }
    {
        self.config_at as u64
    }

    /// The way back leads here.
    pub fn remember(&mut self)
        ensures { self.new ≡ (self.old.0, self.old.0) }
    {
        self.cut.clear();
        self.cut_at = self.entries.len();
        self.config_before = self.config_at;
    }

    /// The log before its last change.
    pub fn take_back(&mut self)
        ensures { self.new ≡ (self.old.1, self.old.1) }
    {
        self.entries.truncate(self.cut_at);
        let _ = self.entries.append(&mut self.cut);
        self.config_at = self.config_before;
        self.cut_at = self.entries.len();
    }

    /// One entry more.
    #[tactic(auto, using(crate::proofs::Newest::pushed_new, crate::proofs::Newest::pushed_other))]
    pub fn push(&mut self, entry: E) -> Result<(), NoMemory>
        ensures ok { OnOk result (self.new ≡ (self.old.0 ++ entry ∷ [], self.old.0)) }
        ensures err { OnErr result (self.new ≡ self.old) }
    {
        let is_config = is_config(&entry);
        self.entries.push(entry)?;
        let count = self.entries.len();
        self.cut.clear();
        self.cut_at = count - 1;
        self.config_before = self.config_at;
        if is_config {
            self.config_at = count;
        }
        Ok(())
    }

    /// The entries behind an index become these.
    #[tactic(auto, using(crate::proofs::Newest::known_below))]
    pub fn splice(&mut self, at: u64, entries: &mut Vec<E>) -> Result<(), NoMemory>
        requires { at ≤ length self.old.0 }
        ensures ok { OnOk result (self.new ≡ (take at self.old.0 ++ entries.old.items, self.old.0)) }
        ensures err { OnErr result (self.new ≡ self.old) }
    {
        let at = at as usize;
        self.entries.reserve(entries.len())?;
        let tail = self.entries.split_off(at)?;
        drop(std::mem::replace(&mut self.cut, tail));
        self.cut_at = at;
        self.config_before = self.config_at;
        let _ = self.entries.append(entries);
        if self.config_at <= at {
            self.config_at = newest(self.entries.as_slice(), at, self.config_at);
            Ok(())
        } else {
            self.config_at = newest(self.entries.as_slice(), 0, 0);
            Ok(())
        }
    }
}

/// A copy of each item, in order.
fn copies<T: TryCopy + Drop>(alloc: Global, items: &[T]) -> Result<Vec<T>, NoMemory>
    ensures { IfOk result (λ copies. copies.items ≡ items.now) }
{
    let mut copies = Vec::with_capacity(alloc, items.len())?;
    for item in items {
        copies.push(item.copy(alloc)?)?;
    }
    Ok(copies)
}

impl<E: LogEntry + TryCopy> TryCopy for Log<E> {
    fn copy(&self, alloc: Global) -> Result<Log<E>, NoMemory> {
        let cut = copies(alloc, self.cut.as_slice())?;
        let mut entries = match copies(alloc, self.entries.as_slice()) {
            Ok(entries) => entries,
            Err(error) => {
                drop(cut);
                return Err(error);
            }
        };
        match entries.reserve(cut.len()) {
            Ok(()) => Ok(Log {
                entries,
                config_at: self.config_at,
                cut_at: self.cut_at,
                cut,
                config_before: self.config_before,
            }),
            Err(_) => {
                drop(entries);
                drop(cut);
                Err(NoMemory)
            }
        }
    }
}

/// Whether the entry is a configuration.
fn is_config<E: LogEntry>(entry: &E) -> bool
    ensures { result ≡ is_given ((entry_view E.entries).voters_of entry.now) }
{
    match entry.members() {
        Some(_) => true,
        None => false,
    }
}

/// The newest configuration, where that up to an index is known.
#[tactic(auto, using(crate::proofs::Newest::here, crate::proofs::Newest::passes))]
fn newest<E: LogEntry>(entries: &[E], low: usize, with_commit: usize) -> usize
    requires within { low ≤ length entries.now }
    requires with_commit { with_commit ≡ greatest (is_configuration (entry_view E.entries) entries.now) 0 low }
    ensures { result ≡ configuration_index (entry_view E.entries) entries.now }
{
    let mut n = entries.len();
    while n > low {
        if is_config(&entries[n - 1]) {
            return n;
        }
        n -= 1;
    }
    with_commit
}
