//! The configuration of a log's beginning.
ghost use Rattle.std.specs.Prelude.{◌≡◌, take};
ghost use Rattle.rq_raft.specs.Entries.{entry_view};
ghost use Rattle.rq_history.specs.History.{entry_at};
ghost use Rattle.rq_history.specs.Configurations.{configuration_index};

use super::{Log, newest};
use crate::entry::LogEntry;

impl<E: LogEntry> Log<E> {
    /// Where the newest configuration at or below an index stands; 0 where there is none. Work is in the entries between the two,
    /// and none where that is the newest one of the log.
    #[tactic(auto, using(crate::proofs::Upto::newest_upto, crate::proofs::Upto::newest_entry, crate::proofs::Upto::none_behind))]
    pub fn config_upto(&self, index: u64) -> u64
        ensures value { result ≡ configuration_index (entry_view E.entries) (take index self.now.0) }
        ensures entry { entry_at self.now.0 result ≡ entry_at (take index self.now.0) result }
    {
        let at = (index as usize).min(self.entries.len());
        if self.config_at <= at {
            return self.config_at as u64;
        }
        newest(&self.entries.as_slice()[..at], 0, 0) as u64
    }
}
