//! Commands of the log.

ghost use Rattle.std.specs.Prelude.{◌≡◌, map, IfOk, OnOk, OnErr};
ghost use Rattle.rq_statement.specs.declared.command.Command.TheVariants as command;
ghost use Rattle.rq_engine.specs.declared.outcome.Outcome.TheVariants as outcome;
ghost use Rattle.rq_engine.specs.Fold as fold;
ghost use Rattle.rq_meaning.specs.Database.{Database};
ghost use Rattle.rq_meaning.specs.Lists as meaning;
ghost use Rattle.rq_tables.specs.Entries.{now_db, start_db};
ghost use Rattle.rq_tables.specs.Running.{step_of};
ghost use Rattle.rq_tables.specs.declared.commands.Ending.TheVariants as ending;
ghost use Rattle.rq_tables.specs.Commands as spec;

use crate::lists::{Mode, all_answers, answers, errors, run_all, run_list, run_lists};
use crate::staged::StagedTables;
use rq_engine::Outcome;
use rq_statement::{Command, Item, Res, StatementList};
use rq_values::{Id, NoMemory, Seq};
use std::alloc::Global;
use std::collections::{BTreeMap, BTreeSet};

/// What becomes of the marks and the ids behind a command.
pub enum Ending {
    Nothing,
    Mark { id: Id, boot: u64, number: u64 },
    Ids(BTreeSet<Id>),
}

impl Drop for Ending {
    fn drop(self) {
        match self {
            Ending::Nothing => (),
            Ending::Mark {
                id: _,
                boot: _,
                number: _,
            } => (),
            Ending::Ids(ids) => drop(ids),
        }
    }
}

impl Ending {
    /// Marks and ids as a command leaves them. With no memory they stay as they were.
    fn end(
        self,
        marks: &mut BTreeMap<Id, (u64, u64)>,
        ids: &mut BTreeSet<Id>,
    ) -> Result<(), NoMemory>
        ensures ok { OnOk result ((db : Database) → spec.state db marks.new.entries ids.new.keys ≡ spec.ended (spec.state db marks.old.entries ids.old.keys) self) }
        ensures err { OnErr result ((marks.new.entries ≡ marks.old.entries) × (ids.new.keys ≡ ids.old.keys)) }
    {
        match self {
            Ending::Nothing => Ok(()),
            Ending::Mark { id, boot, number } => {
                marks.insert(id, (boot, number))?;
                Ok(())
            }
            Ending::Ids(all) => {
                drop(std::mem::replace(ids, all));
                Ok(())
            }
        }
    }
}

// ---- ids and marks

/// Adds the ids. With no memory a part of them may be there.
pub fn add_ids(known: &mut BTreeSet<Id>, ids: &[Id]) -> Result<(), NoMemory>
    ensures { IfOk result (λ _. known.new.keys ≡ fold.with_ids known.old.keys ids.now) }
{
    for id in ids {
        known.insert(*id)?;
    }
    Ok(())
}

/// The ids with more of them.
fn with_ids(known: &BTreeSet<Id>, ids: &[Id]) -> Result<BTreeSet<Id>, NoMemory>
    ensures { IfOk result (λ all. all.keys ≡ fold.with_ids known.now.keys ids.now) }
{
    let mut all = known.clone()?;
    match add_ids(&mut all, ids) {
        Ok(()) => Ok(all),
        Err(e) => {
            drop(all);
            Err(e)
        }
    }
}

fn mark_of(marks: &BTreeMap<Id, (u64, u64)>, id: &Id) -> Option<(u64, u64)>
    ensures { result ≡ fold.mark_of marks.now.entries id.now }
{
    match marks.get(id) {
        Some(mark) => Some(*mark),
        None => None,
    }
}

fn is_newer(last: Option<(u64, u64)>, boot: u64, number: u64) -> bool
    ensures { result ≡ fold.is_newer last boot number }
{
    match last {
        None => true,
        Some((last_boot, last_number)) => {
            last_boot < boot || (last_boot == boot && last_number < number)
        }
    }
}

// ---- what commands answer

fn list_outcome(
    alloc: Global,
    tables: &mut StagedTables,
    mode: Mode,
    list: &StatementList,
) -> Result<Outcome, NoMemory>
    ensures means { IfOk result (λ o. spec.Answered (meaning.list_run (step_of mode) (now_db tables.old) list.now) (now_db tables.new) o) }
    ensures start { start_db tables.new ≡ start_db tables.old }
{
    match run_list(alloc, tables, mode, list) {
        Ok(results) => Ok(Outcome::Results(results)),
        Err(e) => Err(e),
    }
}

fn query_outcome(alloc: Global, tables: &StagedTables, items: &[Item]) -> Result<Outcome, NoMemory>
    ensures { IfOk result (λ o. o ≡ outcome.Results (meaning.answers (now_db tables.now) items.now)) }
{
    match answers(alloc, tables, items) {
        Ok(results) => Ok(Outcome::Results(results)),
        Err(e) => Err(e),
    }
}

fn outcome_of_errors(errors: Seq<Res>) -> Outcome
    ensures { result ≡ fold.load_outcome errors }
{
    if errors.as_slice().is_empty() {
        drop(errors);
        Outcome::Loaded
    } else {
        Outcome::Results(errors)
    }
}

fn load_outcome(
    alloc: Global,
    tables: &mut StagedTables,
    items: &[Item],
) -> Result<Outcome, NoMemory>
    ensures means { IfOk result (λ o. spec.Loads (meaning.all_or_none meaning.means (now_db tables.old) items.now) (now_db tables.new) o) }
    ensures start { start_db tables.new ≡ start_db tables.old }
{
    match run_all(alloc, tables, Mode::Write, items) {
        Ok(results) => match errors(alloc, results) {
            Ok(errors) => Ok(outcome_of_errors(errors)),
            Err(e) => Err(e),
        },
        Err(e) => Err(e),
    }
}

fn batch_outcome(
    alloc: Global,
    tables: &mut StagedTables,
    lists: &[StatementList],
) -> Result<Outcome, NoMemory>
    ensures means { IfOk result (λ o. (o ≡ outcome.Nothing) × (meaning.after_lists (now_db tables.old) lists.now ≡ now_db tables.new)) }
    ensures start { start_db tables.new ≡ start_db tables.old }
{
    match run_lists(alloc, tables, lists) {
        Ok(()) => Ok(Outcome::Nothing),
        Err(e) => Err(e),
    }
}

/// An outcome behind which marks and ids stay.
fn alone(outcome: Result<Outcome, NoMemory>) -> Result<(Outcome, Ending), NoMemory>
    ensures { result ≡ spec.alone outcome }
{
    match outcome {
        Ok(outcome) => Ok((outcome, Ending::Nothing)),
        Err(e) => Err(e),
    }
}

fn config(known: &BTreeSet<Id>, ids: &[Id]) -> Result<(Outcome, Ending), NoMemory>
    ensures { IfOk result (λ p. (p.0 ≡ outcome.Nothing) × spec.IsIds (fold.with_ids known.now.keys ids.now) p.1) }
{
    match with_ids(known, ids) {
        Ok(all) => Ok((Outcome::Nothing, Ending::Ids(all))),
        Err(e) => Err(e),
    }
}

fn run_once(
    alloc: Global,
    tables: &mut StagedTables,
    id: Id,
    boot: u64,
    number: u64,
    list: &StatementList,
) -> Result<(Outcome, Ending), NoMemory>
    ensures means { IfOk result (λ p. spec.Answered (meaning.list_run meaning.means_or_answers (now_db tables.old) list.now) (now_db tables.new) p.0 × (p.1 ≡ ending.Mark id boot number)) }
    ensures start { start_db tables.new ≡ start_db tables.old }
{
    match list_outcome(alloc, tables, Mode::WriteAndRead, list) {
        Ok(outcome) => Ok((outcome, Ending::Mark { id, boot, number })),
        Err(e) => Err(e),
    }
}

/// What a command makes of the tables, and answers, and what becomes of the marks and the ids.
fn run_command(
    alloc: Global,
    tables: &mut StagedTables,
    marks: &BTreeMap<Id, (u64, u64)>,
    ids: &BTreeSet<Id>,
    command: &Command,
) -> Result<(Outcome, Ending), NoMemory>
    ensures means { IfOk result (λ p. fold.run (spec.state (now_db tables.old) marks.now.entries ids.now.keys) command.now ≡ (spec.ended (spec.state (now_db tables.new) marks.now.entries ids.now.keys) p.1, p.0)) }
    ensures start { start_db tables.new ≡ start_db tables.old }
{
    match command {
        Command::NoOp => Ok((Outcome::Nothing, Ending::Nothing)),
        Command::Config(more) => config(ids, more.as_slice()),
        Command::Execute(list) => alone(list_outcome(alloc, tables, Mode::Write, list)),
        Command::Request(list) => alone(list_outcome(alloc, tables, Mode::WriteAndRead, list)),
        Command::StrongQuery(items) => alone(query_outcome(alloc, tables, items.as_slice())),
        Command::Load(items) => alone(load_outcome(alloc, tables, items.as_slice())),
        Command::Batch(lists) => alone(batch_outcome(alloc, tables, lists.as_slice())),
        Command::Once {
            id,
            boot,
            number,
            list,
        } => {
            if is_newer(mark_of(marks, id), *boot, *number) {
                run_once(alloc, tables, *id, *boot, *number, list)
            } else {
                Ok((Outcome::Stale, Ending::Nothing))
            }
        }
    }
}

// ---- a command as a whole

/// Runs a command, and answers lists of queries behind it. With no memory marks and ids stay as they were, and the tables are
/// somewhere on the way.
pub fn run_and_answer(
    alloc: Global,
    tables: &mut StagedTables,
    marks: &mut BTreeMap<Id, (u64, u64)>,
    ids: &mut BTreeSet<Id>,
    command: &Command,
    reads: &[Seq<Item>],
) -> Result<(Outcome, Seq<Seq<Res>>), NoMemory>
    ensures ran { IfOk result (λ r. fold.run (spec.state (now_db tables.old) marks.old.entries ids.old.keys) command.now ≡ (spec.state (now_db tables.new) marks.new.entries ids.new.keys, r.0)) }
    ensures answers { IfOk result (λ r. r.1 ≡ map (meaning.answers (now_db tables.new)) reads.now) }
    ensures start { start_db tables.new ≡ start_db tables.old }
    ensures err { OnErr result ((marks.new.entries ≡ marks.old.entries) × (ids.new.keys ≡ ids.old.keys)) }
{
    let (outcome, ending) = match run_command(alloc, tables, marks, ids, command) {
        Ok(done) => done,
        Err(e) => return Err(e),
    };
    match all_answers(alloc, tables, reads) {
        Ok(results) => match ending.end(marks, ids) {
            Ok(()) => Ok((outcome, results)),
            Err(e) => {
                drop(outcome);
                drop(results);
                Err(e)
            }
        },
        Err(e) => {
            drop(outcome);
            drop(ending);
            Err(e)
        }
    }
}
