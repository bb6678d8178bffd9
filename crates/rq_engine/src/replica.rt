//! What an engine promises.
ghost use Rattle.std.specs.Prelude.{◌≡◌, List, length, map, IfOk, OnErr};
ghost use Rattle.std.specs.List.{list_any};
ghost use Rattle.rq_statement.specs.declared.item.Item.{Item as AnItem};
ghost use Rattle.rq_engine.specs.Fold as fold;

use crate::outcome::Outcome;
use rq_statement::{Command, Item, Res};
use rq_values::{Id, NoMemory, Seq};
use std::alloc::Global;

/// The state that the commands of a log made.
pub trait Replica {
    /// The state of the fold for which it stands.
    ghost state: { Self → fold.State };

    /// Runs a command of the log. With no memory nothing has happened.
    fn apply(&mut self, alloc: Global, command: &Command) -> Result<Outcome, NoMemory>
        ensures ran { IfOk result (λ outcome. fold.run (state self.old) command.now ≡ (state self.new, outcome)) }
        ensures err { OnErr result (state self.new ≡ state self.old) };

    /// Runs a command, and answers lists of queries behind it. With no memory nothing has happened.
    fn apply_then(
        &mut self,
        alloc: Global,
        command: &Command,
        reads: &[Seq<Item>],
    ) -> Result<(Outcome, Seq<Seq<Res>>), NoMemory>
        ensures ran { IfOk result (λ r. fold.run (state self.old) command.now ≡ (state self.new, r.0)) }
        ensures answers { IfOk result (λ r. r.1 ≡ map (fold.answer (state self.new)) reads.now) }
        ensures err { OnErr result (state self.new ≡ state self.old) };

    /// Answers queries. This changes nothing.
    fn query(&mut self, alloc: Global, items: &[Item]) -> Result<Seq<Res>, NoMemory>
        ensures answers { IfOk result (λ results. results ≡ fold.answer (state self.old) items.now) }
        ensures same { state self.new ≡ state self.old };

    /// Whether a server of that id ever was in a configuration.
    fn has_id(&self, id: &Id) -> bool
        ensures { result ≡ fold.has_id (state self.now) id.now };

    /// How many ids ever were in a configuration.
    fn id_count(&self) -> usize
        ensures { result ≡ length (state self.now).ids };
}

/// A replica that begins with nothing.
pub trait Engine: Replica + Sized {
    /// The state before all commands, with the ids of the first configuration.
    fn first(alloc: Global, ids: &[Id]) -> Result<Self, NoMemory>
        ensures { IfOk result (λ engine. Self.state engine ≡ fold.first ids.now) };
}

/// An engine that answers queries while others look at it.
pub trait SharedEngine: Engine {
    /// Answers queries.
    fn look(&self, alloc: Global, items: &[Item]) -> Result<Seq<Res>, NoMemory>
        ensures { IfOk result (λ results. results ≡ fold.answer (Self.state self.now) items.now) };
}
