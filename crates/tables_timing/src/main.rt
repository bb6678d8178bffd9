//! Runs the statements of standard input, one a line, so many to a command, and prints how many there were and how many were refused:
//! `tables_timing STATEMENTS`. docs/PERFORMANCE.md says what was measured by it.
#![tactic(auto)]

use rq_engine::Engine;
use rq_settle::prepare;
use rq_statement::{Item, Res};
use rq_tables::Tables;
use rq_values::{NoMemory, Seq};
use std::alloc::Global;
use std::process::ExitCode;
use std::rt::Env;

/// How many statements ran, and how many of them were refused.
#[derive(Drop)]
struct Counts {
    statements: u64,
    refused: u64,
}

/// The number that the word of the command line is.
fn number(rt: &impl Env) -> Option<usize> {
    let mut buffer = [0u8; 32];
    match rt.arg(1, &mut buffer) {
        Ok(len) => match std::str::from_utf8(&buffer[..len]) {
            Ok(word) => word.parse().ok(),
            Err(_) => None,
        },
        Err(_) => None,
    }
}

fn refused(results: &[Res]) -> u64 {
    let mut count = 0u64;
    for res in results {
        if let Res::Error(_) = res {
            count = count.wrapping_add(1);
        }
    }
    count
}

/// Runs the statements as a command.
fn run(
    alloc: Global,
    tables: &mut Tables,
    items: &[Item],
    counts: &mut Counts,
) -> Result<(), NoMemory> {
    let results = tables.execute(alloc, items)?;
    counts.statements = counts.statements.wrapping_add(results.len() as u64);
    counts.refused = counts.refused.wrapping_add(refused(results.as_slice()));
    drop(results);
    Ok(())
}

/// Takes a statement, and runs the command that it makes full.
fn take(
    alloc: Global,
    tables: &mut Tables,
    items: &mut Seq<Item>,
    counts: &mut Counts,
    most: usize,
    line: &[u8],
) -> Result<(), NoMemory> {
    items.push(prepare(alloc, line)?)?;
    if items.len() >= most {
        run(alloc, tables, items.as_slice(), counts)?;
        drop(std::mem::replace(items, Seq::new(alloc)));
    }
    Ok(())
}

fn run_all(rt: &HostRuntime, alloc: Global, most: usize) -> Option<Counts> {
    let mut tables = Tables::first(alloc, &[]).ok()?;
    let mut items = Seq::new(alloc);
    let mut counts = Counts {
        statements: 0,
        refused: 0,
    };
    for line in rt.lines(alloc) {
        let line = line.ok()?;
        take(
            alloc,
            &mut tables,
            &mut items,
            &mut counts,
            most,
            line.as_bytes(),
        )
        .ok()?;
    }
    run(alloc, &mut tables, items.as_slice(), &mut counts).ok()?;
    Some(counts)
}

fn main(rt: HostRuntime) -> ExitCode {
    let alloc = rt.alloc();
    let Some(most) = number(&rt) else {
        return ExitCode::from(2);
    };
    match run_all(&rt, alloc, most) {
        Some(counts) => {
            match println!(rt;
                "{} statements, {} refused",
                counts.statements, counts.refused
            ) {
                Ok(()) => ExitCode::SUCCESS,
                Err(_) => ExitCode::from(1),
            }
        }
        None => ExitCode::from(1),
    }
}
