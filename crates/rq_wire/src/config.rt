//! Members, configurations and their quorums.
ghost use Rattle.std.specs.Prelude.{◌≡◌, length, IsTrue};
ghost use Rattle.rq_values.specs.Reading.{last_of};
ghost use Rattle.rq_wire.specs.Config.{quorum_of, comes_after, ids_rise, IsConfigOf};

use rq_values::{Addr, Id, NoMemory, Seq, TryCopy};
use std::alloc::Global;
use std::marker::Model;

/// A node of the cluster: its id, whether it votes, and where it is reached.
#[derive(Debug, PartialEq, Eq)]
pub struct Member {
    pub id: Id,
    pub voter: bool,
    pub http: Addr,
    pub raft: Addr,
}

impl Drop for Member {
    fn drop(self) {
        let Member {
            id: _,
            voter: _,
            http,
            raft,
        } = self;
        drop(http);
        drop(raft);
    }
}

impl TryCopy for Member {
    fn copy(&self, alloc: Global) -> Result<Member, NoMemory> {
        Ok(Member {
            id: self.id,
            voter: self.voter,
            http: self.http.copy(alloc)?,
            raft: self.raft.copy(alloc)?,
        })
    }
}

/// The members of the cluster, in rising order of their ids. A contract sees their list.
#[derive(Debug, Drop)]
pub struct Config {
    members: Seq<Member>,
}

impl Model for Config {
    ghost use Rattle.std.specs.Prelude.{List, IsTrue};
    ghost use Rattle.rq_wire.specs.declared.config.Member.{Member};
    ghost use Rattle.rq_wire.specs.Config.{ids_rise};

    ghost Value = { List Member };

    ghost view = { λ config. config.members };

    ghost invariant = { λ config. IsTrue (ids_rise config.members) };
}

/// Whether an id comes after that of the last member.
pub(crate) fn is_after(before: &[Member], id: &Id) -> bool
    ensures { result ≡ comes_after (last_of before.now) id.now }
{
    match before.last() {
        None => true,
        Some(last) => last.id < *id,
    }
}

/// Whether the members' ids rise.
fn do_ids_rise(members: &[Member]) -> bool
    ensures { result ≡ ids_rise members.now }
{
    for i in 0..members.len() {
        if !is_after(&members[..i], &members[i].id) {
            return false;
        }
    }
    true
}

impl Config {
    /// A configuration of these members, or None exactly where their ids don't rise.
    pub fn new(members: Seq<Member>) -> Option<Config>
        ensures { IsConfigOf members result }
    {
        if do_ids_rise(members.as_slice()) {
            Some(Config { members })
        } else {
            drop(members);
            None
        }
    }

    /// A configuration of these members, whose ids rise.
    pub(crate) fn rising(members: Seq<Member>) -> Config
        requires { IsTrue (ids_rise members) }
        ensures { result ≡ members }
    {
        Config { members }
    }

    /// Its members, in rising order of their ids.
    pub fn members(&self) -> &[Member]
        ensures members { result.now ≡ self.now }
        ensures rise { IsTrue (ids_rise self.now) }
    {
        self.members.as_slice()
    }
}

impl PartialEq for Config {
    ghost use Rattle.std.proofs.Common.{rules};
    ghost use Rattle.std.specs.Cmp.Lexicographic.{pointwise, lists_per};
    ghost use Rattle.std.specs.Cmp.Rules.{comparing};

    ghost eq = { pointwise ⟦<Member as PartialEq>⟧.eq };

    ghost laws = { lists_per (Prim.search (comparing, rules)) };

    fn eq(&self, other: &Config) -> bool {
        self.members == other.members
    }
}

impl TryCopy for Config {
    fn copy(&self, alloc: Global) -> Result<Config, NoMemory> {
        Ok(Config {
            members: self.members.copy(alloc)?,
        })
    }
}

/// How many voters decide: more than half of them.
pub fn quorum(config: &Config) -> usize
    ensures { result ≡ quorum_of config.now }
{
    let voters = config
        .members()
        .iter()
        .filter(|member| member.voter)
        .count();
    voters / 2 + 1
}
