//! The spelling of members, configurations and entries.
ghost use Rattle.std.specs.Prelude.{◌≡◌, ◌++◌, OnOk, OnErr};
ghost use Rattle.rq_wire.specs.Spelling.{member_bytes, config_bytes, body_bytes, entry_bytes};

use crate::config::{Config, Member};
use crate::entry::{Body, Entry};
use rq_values::{Encode, NoMemory, encode_whole, put_bool, put_list, put_u8, put_u64};

impl Encode for Member {
    ghost spelled = { member_bytes };

    fn put(&self, into: &mut Vec<u8>) -> Result<(), NoMemory> {
        self.id.put(into)?;
        put_bool(self.voter, into)?;
        self.http.put(into)?;
        self.raft.put(into)
    }
}

impl Encode for Config {
    ghost spelled = { config_bytes };

    fn put(&self, into: &mut Vec<u8>) -> Result<(), NoMemory> {
        put_list(self.members(), into)
    }
}

impl Encode for Body {
    ghost spelled = { body_bytes };

    fn put(&self, into: &mut Vec<u8>) -> Result<(), NoMemory> {
        match self {
            Body::NoOp => put_u8(0, into),
            Body::Config(config) => {
                put_u8(1, into)?;
                config.put(into)
            }
            Body::Data(data) => {
                put_u8(2, into)?;
                data.put(into)
            }
        }
    }
}

impl Encode for Entry {
    ghost spelled = { entry_bytes };

    fn put(&self, into: &mut Vec<u8>) -> Result<(), NoMemory> {
        put_u64(self.term, into)?;
        self.body.put(into)
    }
}

/// Adds the configuration's one spelling. With no memory nothing is added.
pub fn encode_config(config: &Config, into: &mut Vec<u8>) -> Result<(), NoMemory>
    ensures ok { OnOk result (into.new.items ≡ into.old.items ++ config_bytes config.now) }
    ensures err { OnErr result (into.new.items ≡ into.old.items) }
{
    encode_whole(config, into)
}

/// Adds the entry's one spelling. With no memory nothing is added. A command of 2^32 bytes or more has no spelling, and
/// is answered as want of memory.
pub fn encode_entry(entry: &Entry, into: &mut Vec<u8>) -> Result<(), NoMemory>
    ensures ok { OnOk result (into.new.items ≡ into.old.items ++ entry_bytes entry.now) }
    ensures err { OnErr result (into.new.items ≡ into.old.items) }
{
    encode_whole(entry, into)
}
