//! What waits at a node beside its log.
use rq_reads::Pass;
use rq_statement::{Item, StatementList};
use rq_values::Seq;
use std::marker::Model;

/// A linearizable read that waits for its pass.
#[derive(Drop)]
pub struct PendingRead {
    pub pass: Pass,
    pub items: Seq<Item>,
    /// The moment at which it was put.
    pub asked: u64,
    pub timeout: u64,
}

impl Model for PendingRead {
    ghost use Rattle.std.specs.Coded.{codes};
    ghost use Rattle.rq_statement.specs.contracts.item.Item as item;
    ghost use Rattle.rq_world.specs.Node.{PendingRead as ThePendingRead};

    ghost Value = { ThePendingRead };

    ghost coded = { Prim.hlevel (codes, item.the_row.coded) };

    ghost view = { λ r. record {
      pass = record { id = r.pass.id; least = r.pass.least; mark = r.pass.mark; term = r.pass.term };
      items = r.items;
      asked = r.asked;
      timeout = r.timeout;
    } };
}

/// A queued write that isn't appended yet. As a command its list has at most 64,000 bytes.
#[derive(Drop)]
pub struct QueuedWrite {
    pub sequence: u64,
    pub number: u64,
    pub list: StatementList,
    /// Whether its ask still waits.
    pub waits: bool,
    /// The moment at which it was put.
    pub asked: u64,
    pub timeout: u64,
}

impl Model for QueuedWrite {
    ghost use Rattle.std.specs.Prelude.{◌≤◌, length};
    ghost use Rattle.std.specs.Coded.{codes};
    ghost use Rattle.rq_statement.specs.Bytes.{command_bytes};
    ghost use Rattle.rq_statement.specs.declared.command.Command.TheVariants.{Execute};
    ghost use Rattle.rq_statement.specs.contracts.item.Item as item;
    ghost use Rattle.rq_world.specs.Node.{QueuedWrite as TheQueuedWrite};

    ghost Value = { TheQueuedWrite };

    ghost coded = { Prim.hlevel (codes, item.the_row.coded) };

    ghost view = { λ q. record {
      sequence = q.sequence;
      number = q.number;
      list = q.list;
      waits = q.waits;
      asked = q.asked;
      timeout = q.timeout;
    } };

    ghost invariant = { λ q. length (command_bytes (Execute q.list)) ≤ 64000 };
}
