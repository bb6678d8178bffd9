//! Reads: docs/RAFT.md, "Reads".
ghost use Rattle.std.specs.Prelude.{◌≡◌, ◌⊎◌, ◌≤◌, ◌<◌, ◌^◌, ◌-◌, ◌∷◌, ◌++◌, [], true, length, take, IfOk, IfErr, OnOk, OnErr};
ghost use Rattle.rq_values.specs.declared.limits.TheConstants.{MAX_COMMAND};
ghost use Rattle.rq_statement.specs.Bytes.{command_bytes};
ghost use Rattle.rq_statement.specs.declared.command.Command.TheVariants.{StrongQuery};
ghost use Rattle.rq_raft.specs.Node.{is_leader};
ghost use Rattle.rq_world.specs.Node.{Node as TheNode};
ghost use Rattle.rq_world.specs.Reads.{is_due, begin};
ghost use Rattle.rq_world.specs.Rules.{query, query_if_fresh, due_answers, if_leads, not_due, begun, proposed, reads, read};
ghost use Rattle.rq_member.specs.declared.turn_error.TurnError.TheVariants as failures;
ghost use Rattle.rq_member.specs.Files.{IsReadable};
ghost use Rattle.rq_member.specs.Held.{IsOpen};
ghost use Rattle.rq_member.specs.Turned.{Brings, Did, IsFault};

use super::{Node, Put, State};
use crate::engine::Engine;
use crate::entry::LogEntry;
use crate::event::Effects;
use crate::turn_error::TurnError;
use crate::waiting::PendingRead;
use rq_command::items_can_be_read;
use rq_core::Core;
use rq_log::{Moves, Outgoing, Table};
use rq_outside::{Disk, DiskPair};
use rq_reads::{BeginError, Pass, Stale, begin, freshness, ready};
use rq_request::{Answer, Level, NodeRefusal, Say};
use rq_statement::{Command, Item};
use rq_values::Seq;
use rq_wal::logs_stand_while_room_is_made;
use std::alloc::Global;

/// Whether the pass is ready, and what it needs is applied.
fn is_due(core: &Core<LogEntry>, pass: &Pass) -> bool
    ensures { result ≡ is_due core.now.first core.now.node (record { id = pass.now.id; least = pass.now.least; mark = pass.now.mark; term = pass.now.term }) }
{
    ready(core, pass) && pass.least <= core.applied()
}

/// The queries are answered where they stand in the log.
#[tactic(auto, using(crate::proofs::Short::strong_readable))]
fn strong_query(items: Seq<Item>) -> Command
    ensures command { result ≡ StrongQuery items }
    ensures readable { length (command_bytes result) ≤ MAX_COMMAND → IsReadable result }
{
    items_can_be_read(items.as_slice());
    Command::StrongQuery(items)
}

fn forget_due(core: &Core<LogEntry>, reads: &mut Vec<PendingRead>)
    ensures { (n : TheNode) → n.raft ≡ core.now.node → reads.new.items ≡ not_due core.now.first n reads.old.items }
{
    let mut at = 0;
    while at < reads.len() {
        if is_due(core, &reads[at].pass) {
            drop(reads.remove(at));
        } else {
            at += 1;
        }
    }
}

impl<R: Engine> State<R> {
    /// The answer of the node's own replica.
    fn query(&self, alloc: Global, number: u64, items: &[Item]) -> Result<Effects, TurnError>
        ensures effects { IfOk result (Brings (query self.now.first self.now.node number items.now)) }
        ensures refusals { IfErr result (λ e. (e ≡ failures.NoMemory) ⊎ (e ≡ failures.Engine)) }
    {
        let results = self.replica.query(alloc, items)?;
        self.says(alloc, number, Say::Results(results))
    }

    /// The answer of a leader's own replica; else why there is none.
    fn query_if_leads(
        &self,
        alloc: Global,
        number: u64,
        items: &[Item],
    ) -> Result<Effects, TurnError>
        ensures effects { IfOk result (Brings (if_leads self.now.first self.now.node number (query self.now.first self.now.node number items.now))) }
        ensures refusals { IfErr result (λ e. (e ≡ failures.NoMemory) ⊎ (e ≡ failures.Engine)) }
    {
        if !self.core.leads() {
            return self.no_leader(alloc, number);
        }
        self.query(alloc, number, items)
    }

    fn query_if_fresh(
        &self,
        alloc: Global,
        put: Put,
        items: &[Item],
        limit: Option<u64>,
    ) -> Result<Effects, TurnError>
        ensures refusals { IfErr result (λ e. (e ≡ failures.NoMemory) ⊎ (e ≡ failures.Engine)) }
        ensures effects { IfOk result (Brings (query_if_fresh self.now.first self.now.node put.number put.moment items.now limit)) }
    {
        match freshness(&self.core, limit, put.moment) {
            Ok(()) => self.query(alloc, put.number, items),
            Err(
                Stale {
                    contact,
                    now,
                    limit,
                },
            ) => self.refuses(
                alloc,
                put.number,
                NodeRefusal::Stale {
                    contact,
                    now,
                    limit,
                },
            ),
        }
    }

    /// Whether the pass is ready, and what it needs is applied.
    pub(super) fn is_due(&self, pass: &Pass) -> bool
        ensures { result ≡ is_due self.now.first self.now.node.raft (record { id = pass.now.id; least = pass.now.least; mark = pass.now.mark; term = pass.now.term }) }
    {
        is_due(&self.core, pass)
    }

    /// Answers each read whose pass is due, in their order.
    pub(super) fn answer_due(
        &self,
        alloc: Global,
        answers: &mut Vec<Answer>,
    ) -> Result<(), TurnError>
        ensures ok { OnOk result (answers.new.items ≡ answers.old.items ++ due_answers self.now.first self.now.node self.now.node.pending_reads) }
        ensures refusals { IfErr result (λ e. (e ≡ failures.NoMemory) ⊎ (e ≡ failures.Engine)) }
    {
        for place in 0..self.pending_reads.len() {
            self.answer_if_due(alloc, &self.pending_reads[place], answers)?;
        }
        Ok(())
    }

    fn answer_if_due(
        &self,
        alloc: Global,
        read: &PendingRead,
        answers: &mut Vec<Answer>,
    ) -> Result<(), TurnError>
        ensures ok { OnOk result (answers.new.items ≡ answers.old.items ++ due_answers self.now.first self.now.node (read.now ∷ [])) }
        ensures refusals { IfErr result (λ e. (e ≡ failures.NoMemory) ⊎ (e ≡ failures.Engine)) }
    {
        if self.is_due(&read.pass) {
            let results = self.replica.query(alloc, read.items.as_slice())?;
            answers.push(Answer {
                number: read.pass.id,
                say: Say::Results(results),
            })?;
        }
        Ok(())
    }

    /// The reads that are due wait no more.
    pub(super) fn forget_due(&mut self)
        ensures { self.new ≡ record self.old { node = record self.old.node { pending_reads = not_due self.old.first self.old.node self.old.node.pending_reads } } }
    {
        forget_due(&self.core, &mut self.pending_reads);
    }

    /// Begins the pass of a read, and answers it, and others, if they are due.
    fn begin_read(
        &mut self,
        alloc: Global,
        put: Put,
        items: Seq<Item>,
    ) -> Result<Effects, TurnError>
        requires { is_leader self.old.node.raft.role ≡ true }
        ensures node { OnOk result (self.new.node ≡ (reads self.old.first (begun self.old.first self.old.node put.number put.moment put.timeout items (begin self.old.first self.old.node.raft))).node) }
        ensures effects { IfOk result (Brings (reads self.old.first (begun self.old.first self.old.node put.number put.moment put.timeout items (begin self.old.first self.old.node.raft)))) }
        ensures err { OnErr result (self.new.node ≡ self.old.node) }
        ensures refusals { IfErr result (λ e. (e ≡ failures.NoMemory) ⊎ (e ≡ failures.Engine)) }
        ensures first { self.new.first ≡ self.old.first }
    {
        if self.pending_reads.reserve(1).is_err() {
            drop(items);
            return Err(TurnError::NoMemory);
        }
        let (pass, moves) = match begin(&mut self.core, put.number) {
            Ok(begun) => begun,
            Err(BeginError::NotLeader { known: _, term: _ }) => {
                drop(items);
                return self.no_leader(alloc, put.number);
            }
            Err(BeginError::NoMemory) => {
                drop(items);
                return Err(TurnError::NoMemory);
            }
        };
        let Moves {
            vote: _,
            splice: _,
            packets,
        } = moves;
        self.pending_reads.push_reserved(PendingRead {
            pass,
            items,
            asked: put.moment,
            timeout: put.timeout,
        });
        self.read_begun(alloc, packets)
    }

    /// Begins the pass of a read at a leader; else says why not.
    fn begin_if_leads(
        &mut self,
        alloc: Global,
        put: Put,
        items: Seq<Item>,
    ) -> Result<Effects, TurnError>
        ensures node { OnOk result (self.new.node ≡ (if_leads self.old.first self.old.node put.number (reads self.old.first (begun self.old.first self.old.node put.number put.moment put.timeout items (begin self.old.first self.old.node.raft)))).node) }
        ensures effects { IfOk result (Brings (if_leads self.old.first self.old.node put.number (reads self.old.first (begun self.old.first self.old.node put.number put.moment put.timeout items (begin self.old.first self.old.node.raft))))) }
        ensures err { OnErr result (self.new.node ≡ self.old.node) }
        ensures refusals { IfErr result (λ e. (e ≡ failures.NoMemory) ⊎ (e ≡ failures.Engine)) }
        ensures first { self.new.first ≡ self.old.first }
    {
        if !self.core.leads() {
            drop(items);
            return self.no_leader(alloc, put.number);
        }
        self.begin_read(alloc, put, items)
    }

    /// The last of the reads that wait was begun.
    fn read_begun(&mut self, alloc: Global, packets: Table<Outgoing>) -> Result<Effects, TurnError>
        requires { 0 < length self.old.node.pending_reads }
        ensures node { OnOk result (self.new ≡ record self.old { node = record self.old.node { pending_reads = not_due self.old.first self.old.node self.old.node.pending_reads } }) }
        ensures effects { IfOk result (λ effects. (effects.stored ≡ 0) × (effects.packets ≡ packets) × (effects.answers ≡ due_answers self.old.first self.old.node self.old.node.pending_reads)) }
        ensures err { OnErr result (self.new.node ≡ record self.old.node { raft = self.old.before; pending_reads = take (length self.old.node.pending_reads - 1) self.old.node.pending_reads }) }
        ensures refusals { IfErr result (λ e. (e ≡ failures.NoMemory) ⊎ (e ≡ failures.Engine)) }
        ensures first { self.new.first ≡ self.old.first }
    {
        let mut answers = Vec::new(alloc);
        match self.answer_due(alloc, &mut answers) {
            Ok(()) => {
                self.forget_due();
                Ok(Effects {
                    stored: 0,
                    packets,
                    answers: Seq::from_vec(answers),
                })
            }
            Err(error) => {
                drop((packets, answers));
                drop(self.pending_reads.pop());
                self.core.take_back();
                Err(error)
            }
        }
    }
}

impl<R: Engine> Node<R> {
    pub(super) fn read<D: Disk>(
        &mut self,
        alloc: Global,
        disks: &mut DiskPair<D>,
        put: Put,
        items: Seq<Item>,
        level: Level,
        limit: Option<u64>,
    ) -> Result<Effects, TurnError>
        requires open { IsOpen self.old.state.first D.told D.means disks.old self.old.state.node self.old.file }
        requires short { length self.old.state.node.raft.log < 2 ^ 62 }
        ensures did { Did self.old.state.first D.told D.means (read self.old.state.first self.old.state.node put.number put.moment put.timeout items level limit) disks.old disks.new self.old.state.node self.new.state.node self.new.file result }
        ensures refusals { IfErr result IsFault }
        ensures first { self.new.state.first ≡ self.old.state.first }
        ensures generation { self.new.generation ≡ self.old.generation }
    {
        logs_stand_while_room_is_made::<D>();
        match level {
            Level::None => {
                let effects = self
                    .state
                    .query_if_fresh(alloc, put, items.as_slice(), limit);
                drop(items);
                effects
            }
            Level::Weak => {
                let effects = self
                    .state
                    .query_if_leads(alloc, put.number, items.as_slice());
                drop(items);
                effects
            }
            Level::Linearizable => self.state.begin_if_leads(alloc, put, items),
            Level::Strong => self.query_in_log(alloc, disks, put, items),
        }
    }

    /// A leader appends the queries.
    fn query_in_log<D: Disk>(
        &mut self,
        alloc: Global,
        disks: &mut DiskPair<D>,
        put: Put,
        items: Seq<Item>,
    ) -> Result<Effects, TurnError>
        requires open { IsOpen self.old.state.first D.told D.means disks.old self.old.state.node self.old.file }
        requires short { length self.old.state.node.raft.log < 2 ^ 62 }
        ensures did { Did self.old.state.first D.told D.means (if_leads self.old.state.first self.old.state.node put.number (proposed self.old.state.first self.old.state.node put.number put.moment put.timeout (StrongQuery items) (length (command_bytes (StrongQuery items))))) disks.old disks.new self.old.state.node self.new.state.node self.new.file result }
        ensures refusals { IfErr result (λ e. (e ≡ failures.Disk) ⊎ (e ≡ failures.NoMemory)) }
        ensures first { self.new.state.first ≡ self.old.state.first }
        ensures generation { self.new.generation ≡ self.old.generation }
    {
        logs_stand_while_room_is_made::<D>();
        if !self.state.core.leads() {
            drop(items);
            return self.state.no_leader(alloc, put.number);
        }
        self.propose(alloc, disks, put, strong_query(items))
    }
}
