//! Answers a SELECT over a table of so many rows, so many times, and prints how many rows it showed in all:
//! `select_timing ROWS TIMES SELECT`. docs/PERFORMANCE.md says what was measured by it.
//!
//! The table is `t (id INTEGER PRIMARY KEY, n INTEGER)`, with rows 1, 2, .. and numbers that neither rise nor fall.
#![tactic(auto)]

use rq_grammar::{ColumnDef, ColumnKind, SelectStmt, Stmt};
use rq_select::select;
use rq_select_tests::MemTable;
use rq_sql::read;
use rq_statement::Res;
use rq_values::{Seq, Text, Value};
use std::alloc::Global;
use std::process::ExitCode;
use std::rt::Env;

/// The number that a word of the command line is.
fn number(rt: &impl Env, place: usize) -> Option<u64> {
    let mut buffer = [0u8; 32];
    match rt.arg(place, &mut buffer) {
        Ok(len) => match std::str::from_utf8(&buffer[..len]) {
            Ok(word) => word.parse().ok(),
            Err(_) => None,
        },
        Err(_) => None,
    }
}

/// The statement that a word of the command line is.
fn statement(rt: &impl Env, alloc: Global, place: usize) -> Option<Stmt> {
    let mut buffer = [0u8; 1024];
    match rt.arg(place, &mut buffer) {
        Ok(len) => read(alloc, &buffer[..len]).ok(),
        Err(_) => None,
    }
}

fn integer_column(alloc: Global, name: &str, primary: bool) -> Option<ColumnDef> {
    match Text::new(alloc, name.as_bytes()) {
        Ok(Some(name)) => Some(ColumnDef {
            name,
            kind: ColumnKind::Integer,
            primary,
            not_null: false,
            unique: false,
        }),
        _ => None,
    }
}

/// The table without rows.
fn empty_table(alloc: Global) -> Option<MemTable> {
    let id = integer_column(alloc, "id", true)?;
    let n = integer_column(alloc, "n", false)?;
    let mut columns = Seq::new(alloc);
    columns.push(id).ok()?;
    columns.push(n).ok()?;
    match Text::new(alloc, b"t") {
        Ok(Some(name)) => MemTable::new(alloc, name, columns, 0).ok(),
        _ => None,
    }
}

fn table_of(alloc: Global, rows: u64) -> Option<MemTable> {
    let mut table = empty_table(alloc)?;
    for row in 0..rows {
        let id = (row % 1_000_000_000) as i64 + 1;
        let mut values = Seq::new(alloc);
        values.push(Value::Int(id)).ok()?;
        values.push(Value::Int(id * 7919 % 1_000_003)).ok()?;
        table.insert(id, values).ok()?;
    }
    Some(table)
}

/// How many rows the SELECT shows.
fn shown(alloc: Global, stmt: &SelectStmt, table: &MemTable) -> Option<usize> {
    let answer = select(alloc, stmt, Some(table));
    match &answer {
        Ok(Res::Rows { values, .. }) => Some(values.len()),
        _ => None,
    }
}

/// How many rows the SELECT shows in all.
fn shown_in_all(alloc: Global, stmt: &Stmt, rows: u64, times: u64) -> Option<usize> {
    match stmt {
        Stmt::Select(stmt) => {
            let table = table_of(alloc, rows)?;
            let mut all = 0usize;
            for _ in 0..times {
                all = all.wrapping_add(shown(alloc, stmt, &table)?);
            }
            Some(all)
        }
        _ => None,
    }
}

fn counted(rt: &HostRuntime, alloc: Global) -> Option<usize> {
    let rows = number(rt, 1)?;
    let times = number(rt, 2)?;
    let stmt = statement(rt, alloc, 3)?;
    shown_in_all(alloc, &stmt, rows, times)
}

fn main(rt: HostRuntime) -> ExitCode {
    let alloc = rt.alloc();
    match counted(&rt, alloc) {
        Some(all) => match println!(rt; "{all}") {
            Ok(()) => ExitCode::SUCCESS,
            Err(_) => ExitCode::from(1),
        },
        None => ExitCode::from(2),
    }
}
