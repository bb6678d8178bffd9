//! The tables of a replica.

ghost use Rattle.std.specs.Prelude.{◌≡◌, false, [], IfOk, OnErr};
ghost use Rattle.rq_statement.specs.declared.command.Command.TheVariants as command;
ghost use Rattle.rq_engine.specs.declared.outcome.Outcome.TheVariants as outcome;
ghost use Rattle.rq_engine.specs.Fold as fold;

use crate::commands::{add_ids, run_and_answer};
use crate::lists::{Mode, answers, run_each};
use crate::staged::StagedTables;
use rq_engine::{Engine, Outcome, Replica, SharedEngine};
use rq_statement::{Command, Item, Res};
use rq_values::{Id, NoMemory, Seq};
use std::alloc::Global;
use std::collections::{BTreeMap, BTreeSet};
use std::marker::Model;

/// The tables, the marks of lists that were sent on, and the ids of all servers that ever were in a configuration.
pub struct Tables {
    staged: StagedTables,
    marks: BTreeMap<Id, (u64, u64)>,
    ids: BTreeSet<Id>,
}

impl Model for Tables {
    ghost use Rattle.std.specs.Prelude.{◌≡◌};
    ghost use Rattle.rq_values.specs.contracts.value.Value as v;
    ghost use Rattle.rq_grammar.specs.contracts.stmt.ColumnDef as c;
    ghost use Rattle.rq_engine.specs.Coding.{state_code};
    ghost use Rattle.rq_engine.specs.Fold.{State};
    ghost use Rattle.rq_tables.specs.Entries.{start_db, now_db};
    ghost use Rattle.rq_tables.specs.Commands.{state};

    ghost Value = { State };

    ghost coded = { state_code c.the_row.coded v.the_row.coded };

    ghost view = { λ t. state (now_db t.staged) t.marks.entries t.ids.keys };

    ghost invariant = { λ t. start_db t.staged ≡ now_db t.staged };
}

impl Drop for Tables {
    fn drop(self) {
        let Tables { staged, marks, ids } = self;
        drop(staged);
        drop(marks);
        drop(ids);
    }
}

/// No ids but these.
fn only_ids(alloc: Global, ids: &[Id]) -> Result<BTreeSet<Id>, NoMemory>
    ensures { IfOk result (λ all. all.keys ≡ fold.with_ids [] ids.now) }
{
    let mut all = BTreeSet::new(alloc);
    match add_ids(&mut all, ids) {
        Ok(()) => Ok(all),
        Err(e) => {
            drop(all);
            Err(e)
        }
    }
}

impl Tables {
    /// Runs the command that executes the items, each by itself. With no memory nothing has happened.
    #[tactic(auto, unfolding(rq_engine::specs::Fold::run))]
    pub fn execute(&mut self, alloc: Global, items: &[Item]) -> Result<Seq<Res>, NoMemory>
        ensures ran { IfOk result (λ results. fold.run self.old (command.Execute (record { transaction = false; items = items.now })) ≡ (self.new, outcome.Results results)) }
        ensures err { OnErr result (self.new ≡ self.old) }
    {
        match run_each(alloc, &mut self.staged, Mode::Write, items) {
            Ok(results) => {
                self.staged.keep();
                Ok(results)
            }
            Err(e) => {
                self.staged.take_all_back();
                Err(e)
            }
        }
    }
}

impl Replica for Tables {
    ghost state = { λ s. s };

    fn apply(&mut self, alloc: Global, command: &Command) -> Result<Outcome, NoMemory> {
        match self.apply_then(alloc, command, &[]) {
            Ok((outcome, results)) => {
                drop(results);
                Ok(outcome)
            }
            Err(e) => Err(e),
        }
    }

    #[tactic(auto, unfolding(rq_engine::specs::Fold::answer))]
    fn apply_then(
        &mut self,
        alloc: Global,
        command: &Command,
        reads: &[Seq<Item>],
    ) -> Result<(Outcome, Seq<Seq<Res>>), NoMemory> {
        match run_and_answer(
            alloc,
            &mut self.staged,
            &mut self.marks,
            &mut self.ids,
            command,
            reads,
        ) {
            Ok(done) => {
                self.staged.keep();
                Ok(done)
            }
            Err(e) => {
                self.staged.take_all_back();
                Err(e)
            }
        }
    }

    fn query(&mut self, alloc: Global, items: &[Item]) -> Result<Seq<Res>, NoMemory> {
        self.look(alloc, items)
    }

    fn has_id(&self, id: &Id) -> bool {
        self.ids.contains(id)
    }

    fn id_count(&self) -> usize {
        self.ids.len()
    }
}

impl Engine for Tables {
    #[tactic(auto, unfolding(rq_engine::specs::Fold::first))]
    fn first(alloc: Global, ids: &[Id]) -> Result<Tables, NoMemory> {
        match only_ids(alloc, ids) {
            Ok(ids) => Ok(Tables {
                staged: StagedTables::new(alloc),
                marks: BTreeMap::new(alloc),
                ids,
            }),
            Err(e) => Err(e),
        }
    }
}

impl SharedEngine for Tables {
    #[tactic(auto, unfolding(rq_engine::specs::Fold::answer))]
    fn look(&self, alloc: Global, items: &[Item]) -> Result<Seq<Res>, NoMemory> {
        answers(alloc, &self.staged, items)
    }
}
