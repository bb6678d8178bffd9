//! What a node asks of its engine.
ghost use Rattle.std.specs.Prelude.{◌≡◌, ℕ, OnErr, IfOk, IfErr, map};
ghost use Rattle.rq_engine.specs.Fold.{State};
ghost use Rattle.rq_engine.specs.Fold as fold;

use rq_engine::Outcome;
use rq_statement::{Command, Item, Res};
use rq_values::{Id, NoMemory, Seq};
use std::alloc::Global;

/// Why an engine doesn't answer.
#[derive(Clone, Copy)]
pub enum EngineError {
    /// Its own device failed.
    Fault,
    NoMemory,
}

/// A replica of the commands of a log. On a refusal its state is as before.
pub trait Engine: Sized + Drop {
    /// What the commands so far made.
    ghost state: { Self → State };

    /// How often its device failed.
    ghost faults: { Self → ℕ };

    /// Before all commands, with the ids of the first configuration.
    fn first(alloc: Global, ids: &[Id]) -> Result<Self, NoMemory>
        ensures { IfOk result (λ engine. state engine ≡ fold.first ids.now) };

    /// Answers queries. It changes nothing.
    fn query(&self, alloc: Global, items: &[Item]) -> Result<Seq<Res>, EngineError>
        ensures { IfOk result (λ results. results ≡ fold.answer (state self.now) items.now) };

    /// Runs a command, and then answers each of these lists of queries.
    fn apply_then(
        &mut self,
        alloc: Global,
        command: &Command,
        reads: &[&Seq<Item>],
    ) -> Result<(Outcome, Vec<Seq<Res>>), EngineError>
        ensures ran { IfOk result (λ done. fold.run (state self.old) command.now ≡ (state self.new, done.0)) }
        ensures read { IfOk result (λ done. done.1.items ≡ map (λ items. fold.answer (state self.new) items.now) reads.now) }
        ensures err { OnErr result (state self.new ≡ state self.old) };
}
