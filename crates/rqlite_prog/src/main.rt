//! rqlite: a relational database that several servers keep together.
//!
//! `rqlite node` serves a node over HTTP: docs/SERVING.md. `rqlite cluster` runs the script of its standard input on
//! disks in memory: docs/SCRIPT.md.
#![tactic(auto)]

ghost use Rattle.std.specs.Prelude.{IfOk};
ghost use Rattle.rq_cluster.specs.Outcome.{IsStatus};

use command_line::words_of;
use random_words::RandomWords;
use rq_cluster::{Ended, Stopped, empty_pairs, run_cluster};
use rq_outside::Word;
use rq_values::NoMemory;
use standard_input::StandardInput;
use standard_output::StandardOutput;
use std::io::Write;
use std::process::ExitCode;

mod command_line;
mod node;
mod random_words;
mod standard_input;
mod standard_output;

/// The status where standard output failed.
const OUTPUT_FAILED: u8 = 5;

/// The status of a run for which memory was wanting.
const OUT_OF_MEMORY: u8 = 6;

const USAGE: &str = "usage: rqlite cluster < SCRIPT";

const HELP: &str = "usage: rqlite cluster < SCRIPT
       rqlite node --id ID --http HOST:PORT --raft HOST:PORT --dir DIR --first ID=HTTP/RAFT

cluster runs the script of standard input on disks in memory, and writes what happens to standard output.
docs/SCRIPT.md has the lines of a script, and examples/ has three.
node serves a node over HTTP, with its log in a directory. docs/SERVING.md has its words and the status of each end.

  --help     prints this
  --version  prints the version

status of cluster: 0, the script was done; 2, wrong words; 3, it was stopped at a line; 4, reading failed; 5, writing
failed; 6, memory was wanting. Standard error has the reason.";

const VERSION: &str = "rqlite 0.1.0 (Lidzgora)";

fn main(rt: HostRuntime) -> ExitCode {
    let Ok(words) = words_of(&rt, rt.alloc()) else {
        return ExitCode::from(OUT_OF_MEMORY);
    };
    let status = if is_only(&words, b"--help") {
        print(&rt, HELP)
    } else if is_only(&words, b"--version") {
        print(&rt, VERSION)
    } else if is_first(&words, b"node") {
        node::run_node(rt, rt.alloc(), &words)
    } else {
        explained(&rt, &words)
    };
    drop(words);
    ExitCode::from(status)
}

/// Whether this is the one word of the command line.
fn is_only(words: &[Word], option: &[u8]) -> bool {
    match words {
        [word] => word.bytes() == option,
        _ => false,
    }
}

/// Whether this is the first word of the command line.
fn is_first(words: &[Word], name: &[u8]) -> bool {
    match words {
        [word, ..] => word.bytes() == name,
        [] => false,
    }
}

/// Prints a text, and answers the status.
fn print(rt: &HostRuntime, text: &str) -> u8 {
    match rt.println(text) {
        Ok(()) => 0,
        Err(_) => OUTPUT_FAILED,
    }
}

/// Runs the words, writes to standard error why it went wrong, if it did, and answers the status.
fn explained(rt: &HostRuntime, words: &[Word]) -> u8 {
    match run(rt, words) {
        Ok(ended) => explain_end(rt, &ended),
        Err(NoMemory) => {
            explain(rt, "out of memory");
            OUT_OF_MEMORY
        }
    }
}

/// Writes to standard error why a run went wrong, if it did, and answers its status.
fn explain_end(rt: &HostRuntime, ended: &Ended) -> u8 {
    match ended.status {
        2 => explain(rt, USAGE),
        4 => explain(rt, "standard input can't be read"),
        5 => explain(rt, "standard output can't be written"),
        6 => explain(rt, "out of memory"),
        _ => {}
    }
    if let Some(stopped) = &ended.stopped {
        explain_line(rt, stopped);
    }
    ended.status
}

/// Writes a line to standard error. That it can't be written is told nowhere.
fn explain(rt: &HostRuntime, why: &str) {
    let _written = eprintln!(rt; "rqlite: {why}");
}

/// Writes to standard error why a script was stopped at a line.
fn explain_line(rt: &HostRuntime, stopped: &Stopped) {
    let mut text = Vec::new(rt.alloc());
    let line = stopped.line;
    let is_whole = stopped.reason.write(&mut text).is_ok() && text.push(b'\n').is_ok();
    if is_whole && eprint!(rt; "rqlite: line {line}: ").is_ok() {
        let _written = rt.stderr().write_all(&text);
    }
    drop(text);
}

fn run(rt: &HostRuntime, words: &[Word]) -> Result<Ended, NoMemory>
    ensures { IfOk result (λ ended. IsStatus ended.status) }
{
    let alloc = rt.alloc();
    let mut disks = empty_pairs(alloc)?;
    let mut source = StandardInput::new(rt);
    let mut sink = StandardOutput::new(rt);
    let mut draws = RandomWords::new([0; 32]);
    Ok(run_cluster(alloc, words, &mut source, &mut sink, &mut disks, &mut draws))
}
