//! What the core asks of the entries of its log.
ghost use Rattle.std.specs.Prelude.{◌≡◌};
ghost use Rattle.std.specs.Option.{option_copied};
ghost use Rattle.rq_raft.specs.Entries.{Entries, AreRight};

use rq_wire::Member;

/// An entry of a log.
pub trait LogEntry: Sized + Drop {
    ghost entries: { Entries Self };

    fn term(&self) -> u64
        ensures { result ≡ entries.term_of self.now };

    /// The members, if it is a configuration.
    fn members(&self) -> Option<&[Member]>
        ensures { option_copied result ≡ entries.members_of self.now };

    /// The entry with which a leader of this term begins.
    fn empty(term: u64) -> Self
        ensures { result ≡ entries.empty term };

    /// How many of these go into one packet.
    fn fit(list: &[Self]) -> usize
        ensures { result ≡ entries.fit list.now };

    ghost right: { AreRight entries };
}
