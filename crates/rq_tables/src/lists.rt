//! Items and lists of them.

ghost use Rattle.std.specs.Prelude.{◌≡◌, if◌then◌else◌, Some, None, IfOk, map};
ghost use Rattle.std.specs.List.{filter};
ghost use Rattle.rq_statement.specs.declared.res.Res.TheVariants as res;
ghost use Rattle.rq_meaning.specs.Lists as spec;
ghost use Rattle.rq_tables.specs.Entries.{Rest, now_db, start_db};
ghost use Rattle.rq_tables.specs.Running as run;

use crate::staged::StagedTables;
use crate::statements::{execute, query};
use rq_eval::EvalError;
use rq_grammar::Stmt;
use rq_statement::{Item, Res, StatementList};
use rq_values::{NoMemory, Seq, Text, TryCopy};
use std::alloc::Global;

/// Whether the items of a list may read.
#[derive(Clone, Copy)]
pub enum Mode {
    Write,
    WriteAndRead,
}

// ---- items

fn failed(alloc: Global, text: &Text) -> Result<Res, NoMemory>
    ensures { IfOk result (λ r. r ≡ res.Error text.now) }
{
    match text.copy(alloc) {
        Ok(text) => Ok(Res::Error(text)),
        Err(e) => Err(e),
    }
}

/// The text of an error as an answer.
fn error_res(alloc: Global, error: &EvalError) -> Result<Res, NoMemory>
    ensures { IfOk result (λ r. run.IsError error.now r) }
{
    match error {
        EvalError::Says(error) => match error.to_text(alloc) {
            Ok(text) => Ok(Res::Error(text)),
            Err(e) => Err(e),
        },
        EvalError::NoMemory => Err(NoMemory),
    }
}

/// The same, of an error that isn't needed any more.
fn answer_error(alloc: Global, error: EvalError) -> Result<Res, NoMemory>
    ensures { IfOk result (λ r. run.IsError error r) }
{
    let res = error_res(alloc, &error);
    drop(error);
    res
}

/// What an item answers that is queried.
pub fn answer(alloc: Global, tables: &StagedTables, item: &Item) -> Result<Res, NoMemory>
    ensures { IfOk result (λ r. r ≡ spec.answer_of (now_db tables.now) item.now) }
{
    match item {
        Item::Run(settled) => match query(alloc, tables, settled.stmt()) {
            Ok(res) => Ok(res),
            Err(error) => answer_error(alloc, error),
        },
        Item::Fail(text) => failed(alloc, text),
    }
}

fn is_select(item: &Item) -> bool
    ensures { result ≡ spec.is_select item.now }
{
    match item {
        Item::Run(settled) => match settled.stmt() {
            Stmt::Select(_) => true,
            _ => false,
        },
        Item::Fail(_) => false,
    }
}

fn may_read(mode: Mode) -> bool
    ensures { result ≡ run.may_read mode }
{
    match mode {
        Mode::Write => false,
        Mode::WriteAndRead => true,
    }
}

/// Whether an item of a list only reads.
fn only_reads(mode: Mode, item: &Item) -> bool
    ensures { result ≡ run.only_reads mode item.now }
{
    may_read(mode) && is_select(item)
}

pub fn is_error(res: &Res) -> bool
    ensures { result ≡ spec.is_error res.now }
{
    match res {
        Res::Error(_) => true,
        Res::Done { .. } => false,
        Res::Rows { .. } => false,
    }
}

/// What an item that writes makes of the tables, and answers. After an error the tables are somewhere on the way.
fn write(alloc: Global, tables: &mut StagedTables, item: &Item) -> Result<Res, NoMemory>
    ensures means { IfOk result (λ r. spec.means (now_db tables.old) item.now ≡ (run.left (now_db tables.old) (now_db tables.new) r, r)) }
    ensures rest { Rest tables.old tables.new }
{
    match item {
        Item::Run(settled) => match execute(alloc, tables, settled.stmt()) {
            Ok(done) => Ok(Res::Done {
                last_insert_id: done.last_insert_id,
                rows_affected: done.rows_affected,
            }),
            Err(error) => answer_error(alloc, error),
        },
        Item::Fail(text) => failed(alloc, text),
    }
}

/// What an item makes of the tables, and answers. After an error the tables are somewhere on the way.
fn run_item(
    alloc: Global,
    tables: &mut StagedTables,
    mode: Mode,
    item: &Item,
) -> Result<Res, NoMemory>
    ensures means { IfOk result (λ r. run.step_of mode (now_db tables.old) item.now ≡ (run.left (now_db tables.old) (now_db tables.new) r, r)) }
    ensures rest { Rest tables.old tables.new }
{
    let reads = only_reads(mode, item);
    if reads {
        answer(alloc, tables, item)
    } else {
        write(alloc, tables, item)
    }
}

// ---- lists

/// An item by itself: where it fails it changes nothing.
fn run_alone(
    alloc: Global,
    tables: &mut StagedTables,
    mode: Mode,
    item: &Item,
) -> Result<Res, NoMemory>
    ensures means { IfOk result (λ r. run.step_of mode (now_db tables.old) item.now ≡ (now_db tables.new, r)) }
    ensures start { start_db tables.new ≡ start_db tables.old }
{
    tables.begin();
    match run_item(alloc, tables, mode, item) {
        Ok(res) => {
            let fails = is_error(&res);
            if fails {
                tables.take_back();
                Ok(res)
            } else {
                Ok(res)
            }
        }
        Err(e) => Err(e),
    }
}

pub fn run_each(
    alloc: Global,
    tables: &mut StagedTables,
    mode: Mode,
    items: &[Item],
) -> Result<Seq<Res>, NoMemory>
    ensures means { IfOk result (λ rs. spec.each (run.step_of mode) (now_db tables.old) items.now ≡ (now_db tables.new, rs)) }
    ensures start { start_db tables.new ≡ start_db tables.old }
{
    let mut results = Seq::new(alloc);
    for item in items {
        match run_alone(alloc, tables, mode, item) {
            Ok(res) => results.push(res)?,
            Err(e) => {
                drop(results);
                return Err(e);
            }
        }
    }
    Ok(results)
}

/// The items up to the first error, and whether there is one. After an error the tables are somewhere on the way.
fn run_to_error(
    alloc: Global,
    tables: &mut StagedTables,
    mode: Mode,
    items: &[Item],
) -> Result<(Seq<Res>, bool), NoMemory>
    ensures means { IfOk result (λ p. spec.up_to_error (run.step_of mode) (now_db tables.old) items.now ≡ ((if p.1 then None else Some (now_db tables.new)), p.0)) }
    ensures rest { Rest tables.old tables.new }
{
    let mut results = Seq::new(alloc);
    for item in items {
        match run_item(alloc, tables, mode, item) {
            Ok(res) => {
                let failed = is_error(&res);
                results.push(res)?;
                if failed {
                    return Ok((results, true));
                }
            }
            Err(e) => {
                drop(results);
                return Err(e);
            }
        }
    }
    Ok((results, false))
}

/// All of the items, or none.
pub fn run_all(
    alloc: Global,
    tables: &mut StagedTables,
    mode: Mode,
    items: &[Item],
) -> Result<Seq<Res>, NoMemory>
    ensures means { IfOk result (λ rs. spec.all_or_none (run.step_of mode) (now_db tables.old) items.now ≡ (now_db tables.new, rs)) }
    ensures start { start_db tables.new ≡ start_db tables.old }
{
    tables.begin();
    match run_to_error(alloc, tables, mode, items) {
        Ok((results, failed)) => {
            if failed {
                tables.take_back();
                Ok(results)
            } else {
                Ok(results)
            }
        }
        Err(e) => Err(e),
    }
}

pub fn run_list(
    alloc: Global,
    tables: &mut StagedTables,
    mode: Mode,
    list: &StatementList,
) -> Result<Seq<Res>, NoMemory>
    ensures means { IfOk result (λ rs. spec.list_run (run.step_of mode) (now_db tables.old) list.now ≡ (now_db tables.new, rs)) }
    ensures start { start_db tables.new ≡ start_db tables.old }
{
    if list.transaction() {
        run_all(alloc, tables, mode, list.items())
    } else {
        run_each(alloc, tables, mode, list.items())
    }
}

/// Lists that are executed one after the other.
pub fn run_lists(
    alloc: Global,
    tables: &mut StagedTables,
    lists: &[StatementList],
) -> Result<(), NoMemory>
    ensures means { IfOk result (λ _. spec.after_lists (now_db tables.old) lists.now ≡ now_db tables.new) }
    ensures start { start_db tables.new ≡ start_db tables.old }
{
    for list in lists {
        match run_list(alloc, tables, Mode::Write, list) {
            Ok(results) => drop(results),
            Err(e) => return Err(e),
        }
    }
    Ok(())
}

/// What items answer that are queried.
pub fn answers(alloc: Global, tables: &StagedTables, items: &[Item]) -> Result<Seq<Res>, NoMemory>
    ensures { IfOk result (λ rs. rs ≡ spec.answers (now_db tables.now) items.now) }
{
    let mut results = Seq::new(alloc);
    for item in items {
        match answer(alloc, tables, item) {
            Ok(res) => results.push(res)?,
            Err(e) => {
                drop(results);
                return Err(e);
            }
        }
    }
    Ok(results)
}

/// What lists of items answer that are queried.
pub fn all_answers(
    alloc: Global,
    tables: &StagedTables,
    reads: &[Seq<Item>],
) -> Result<Seq<Seq<Res>>, NoMemory>
    ensures { IfOk result (λ rs. rs ≡ map (spec.answers (now_db tables.now)) reads.now) }
{
    let mut all = Seq::new(alloc);
    for items in reads {
        match answers(alloc, tables, items.as_slice()) {
            Ok(results) => all.push(results)?,
            Err(e) => {
                drop(all);
                return Err(e);
            }
        }
    }
    Ok(all)
}

/// The errors among results.
pub fn errors(alloc: Global, results: Seq<Res>) -> Result<Seq<Res>, NoMemory>
    ensures { IfOk result (λ rs. rs ≡ filter spec.is_error results) }
{
    let mut all = Seq::new(alloc);
    for res in results.into_vec() {
        if is_error(&res) {
            all.push(res)?;
        } else {
            drop(res);
        }
    }
    Ok(all)
}
