//! `rqlite node`: one server over files and sockets.
use rq_node::NodeError;
use rq_outside::{DiskPair, Word};
use rq_serve::{NodeEnd, NodeWords, WordsError, node_words, serve_node};
use rq_system::{
    FileDisk, RandomWords, SteadyClock, SystemFault, SystemThreads, TcpNetwork, WallClock,
    system_seed,
};
use std::alloc::Global;
use std::fs::{File, Files};
use std::io::{Eprint, Print};
use std::net::{Net, TcpListener, TcpStream};
use std::random::RandomSource;
use std::str::from_utf8;
use std::sync::Wait;
use std::thread::Threads;
use std::time::Clock;
use std::{fs, io};

const USAGE: &str =
    "rqlite: usage: rqlite node --id ID --http HOST:PORT --raft HOST:PORT --dir DIR --first ID=HTTP/RAFT";

/// The file of this name in a directory.
fn path_in(alloc: Global, dir: &str, name: &str) -> Option<String> {
    match format!(in alloc; "{dir}/{name}") {
        Ok(path) => Some(path),
        Err(_) => None,
    }
}

/// Runs a node until it ends, writes to standard error why, and answers the status.
pub fn run_node<
    H: Wait
        + Threads
        + Clock
        + RandomSource
        + Print
        + Eprint
        + Files<File = File>
        + Net<Listener = TcpListener, Stream = TcpStream>
        + Copy
        + Drop
        + Send
        + Sync
        + 'static,
>(rt: H, alloc: Global, words: &[Word]) -> u8 {
    match node_words(alloc, words) {
        Ok(words) => {
            let status = run_named(rt, alloc, &words);
            drop(words);
            status
        }
        Err(WordsError::Refused) => {
            let _told = eprintln!(rt; "{USAGE}");
            2
        }
        Err(WordsError::NoMemory) => 6,
    }
}

/// Runs the node that these words name.
fn run_named<
    H: Wait
        + Threads
        + Clock
        + RandomSource
        + Print
        + Eprint
        + Files<File = File>
        + Net<Listener = TcpListener, Stream = TcpStream>
        + Copy
        + Drop
        + Send
        + Sync
        + 'static,
>(rt: H, alloc: Global, words: &NodeWords) -> u8 {
    let _made = fs::create_dir_all(&rt, words.dir.as_str());
    let (Some(one), Some(two)) = (
        path_in(alloc, words.dir.as_str(), "one.wal"),
        path_in(alloc, words.dir.as_str(), "two.wal"),
    ) else {
        return 6;
    };
    let Some(seed) = system_seed(&rt) else {
        let _told = eprintln!(rt; "rqlite: the system gives no random bytes");
        return 7;
    };
    let mut net = TcpNetwork::new(rt);
    let end = serve_node(
        rt,
        alloc,
        words,
        &mut net,
        DiskPair::new(FileDisk::new(rt, one), FileDisk::new(rt, two)),
        SteadyClock::new(rt),
        WallClock::new(rt),
        RandomWords::new(seed),
        SystemThreads::new(rt),
    );
    explain(&rt, words, &end);
    end.status()
}

/// Why a node ended, where all that fails is the system's.
type End = NodeEnd<SystemFault, SystemFault, SystemFault, SystemFault, (), SystemFault>;

/// Writes to standard error why a node ended. That it can't be written is told nowhere.
fn explain<H: Eprint>(rt: &H, words: &NodeWords, end: &End) {
    let dir = words.dir.as_str();
    let http = from_utf8(words.http.bytes()).unwrap_or("");
    let _told = match end {
        NodeEnd::Words => eprintln!(rt; "{USAGE}"),
        NodeEnd::Listen(fault) => {
            let why = fault.text();
            eprintln!(rt; "rqlite: can't listen at {http}: {why}; take another address for --http")
        }
        NodeEnd::Accept(fault) => {
            let why = fault.text();
            eprintln!(rt; "rqlite: no more connections are accepted at {http}: {why}")
        }
        NodeEnd::Memory => eprintln!(rt; "rqlite: out of memory"),
        NodeEnd::Draws(()) => eprintln!(rt; "rqlite: no random words"),
        NodeEnd::Disk(fault) => {
            let why = fault.text();
            eprintln!(rt; "rqlite: the log files in {dir} can't be used: {why}")
        }
        NodeEnd::Files(error) => explain_files(rt, dir, *error),
        NodeEnd::Past(past) => {
            let number = past.number();
            eprintln!(rt;
                "rqlite: {number} asks were numbered, and no more are; start the node again"
            )
        }
        NodeEnd::Clock(fault) => {
            let why = fault.text();
            eprintln!(rt; "rqlite: the clock can't be read: {why}")
        }
        NodeEnd::Spawn(fault) => {
            let why = fault.text();
            eprintln!(rt; "rqlite: no thread could be started: {why}")
        }
    };
}

/// Writes to standard error why files are those of no node.
fn explain_files<H: Eprint>(rt: &H, dir: &str, error: NodeError) -> io::Result<()> {
    match error {
        NodeError::NotAWal {
            file,
            place,
            byte: _,
        } => {
            eprintln!(rt;
                "rqlite: log file {file} in {dir} is none of a node's from byte {place} on; take another --dir, or put the files back"
            )
        }
        NodeError::Version(version) => {
            eprintln!(rt;
                "rqlite: the log files in {dir} have version {version}, which this program doesn't read; take the program that wrote them"
            )
        }
        NodeError::Command { index, error: _ } => {
            eprintln!(rt;
                "rqlite: entry {index} of the log in {dir} is no command; put the files back"
            )
        }
        NodeError::Config { index } => {
            eprintln!(rt;
                "rqlite: entry {index} of the log in {dir} is a configuration, which this program doesn't read"
            )
        }
        NodeError::Ended(boots) => {
            eprintln!(rt; "rqlite: the node in {dir} was started {boots} times, and no more")
        }
        NodeError::Disk | NodeError::NoMemory => eprintln!(rt;
            "rqlite: the log files in {dir} can't be used"
        ),
    }
}
