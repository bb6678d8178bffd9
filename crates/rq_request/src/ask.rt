//! What a node is asked.
use rq_statement::{Item, StatementList};
use rq_values::{Addr, Bytes, Id, Seq};

/// How fresh the answer to a read is to be.
#[derive(Clone, Copy, PartialEq, Eq)]
pub enum Level {
    /// The node that is asked reads its own tables.
    None,
    /// It is the leader in its own eyes.
    Weak,
    /// It confirms by a quorum that it leads, and has applied what was committed before.
    Linearizable,
    /// The read is an entry of the log.
    Strong,
}

/// A server of the cluster.
pub struct Member {
    pub id: Id,
    pub voter: bool,
    pub http: Addr,
    pub raft: Addr,
}

impl Drop for Member {
    fn drop(self) {
        let Member {
            id,
            voter: _,
            http,
            raft,
        } = self;
        drop(id);
        drop(http);
        drop(raft);
    }
}

/// What is asked for.
pub enum Op {
    /// A list that is written; a mixed one may read too.
    Write {
        list: StatementList,
        mixed: bool,
    },
    /// A list that is written with the next batch, answered when that is applied, or at once.
    Queue {
        list: StatementList,
        wait: bool,
    },
    /// A read. The freshness is how long ago, in milliseconds, the leader may have been heard.
    Read {
        items: Seq<Item>,
        level: Level,
        freshness: Option<u64>,
    },
    Backup {
        level: Level,
    },
    Load {
        items: Seq<Item>,
    },
    Nodes,
    Ready,
    Join {
        member: Member,
    },
    Remove {
        id: Id,
    },
}

impl Drop for Op {
    fn drop(self) {
        match self {
            Op::Write { list, mixed: _ } => drop(list),
            Op::Queue { list, wait: _ } => drop(list),
            Op::Read {
                items,
                level: _,
                freshness: _,
            } => drop(items),
            Op::Backup { level: _ } => (),
            Op::Load { items } => drop(items),
            Op::Nodes => (),
            Op::Ready => (),
            Op::Join { member } => drop(member),
            Op::Remove { id } => drop(id),
        }
    }
}

/// An ask with its number, how long it may wait in milliseconds, and the target of the request from which it came.
pub struct Ask {
    pub number: u64,
    pub timeout: u64,
    pub target: Bytes,
    pub op: Op,
}

impl Drop for Ask {
    fn drop(self) {
        let Ask {
            number: _,
            timeout: _,
            target,
            op,
        } = self;
        drop(target);
        drop(op);
    }
}
