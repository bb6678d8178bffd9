//! The words of a node.
use clap::{Arg, ArgAction, ArgMatches, Command, Error};
use rq_outside::Word;
use rq_values::{Addr, Id, NoMemory};
use std::alloc::Global;
use std::str::from_utf8;

/// What the words name.
#[derive(Drop)]
pub struct NodeWords {
    pub id: Id,
    /// Where clients ask.
    pub http: Addr,
    /// Where other nodes send.
    pub raft: Addr,
    /// Where the log files lie.
    pub dir: String,
}

/// Why words name no node.
#[derive(Clone, Copy, Drop)]
pub enum WordsError {
    Refused,
    NoMemory,
}

impl From<NoMemory> for WordsError {
    fn from(_error: NoMemory) -> WordsError {
        WordsError::NoMemory
    }
}

/// An option that takes a value, and must be there.
fn needed<'a>(alloc: Global, name: &'a str) -> Arg<'a> {
    Arg::new(alloc, name)
        .long(name)
        .required(true)
        .action(ArgAction::Set)
}

/// The values of the options of `node`.
fn matches<'a>(alloc: Global, words: &'a [&'a str]) -> Result<ArgMatches<'a>, Error> {
    let command = Command::new(alloc, "node")
        .arg(needed(alloc, "id"))?
        .arg(needed(alloc, "http"))?
        .arg(needed(alloc, "raft"))?
        .arg(needed(alloc, "dir"))?
        .arg(needed(alloc, "first"))?;
    command.try_get_matches_from(words)
}

/// The words as texts.
fn texts<'a>(alloc: Global, words: &'a [Word]) -> Result<Vec<&'a str>, WordsError> {
    let mut texts = Vec::new(alloc);
    for word in words {
        match from_utf8(word.bytes()) {
            Ok(text) => {
                if texts.push(text).is_err() {
                    return Err(WordsError::NoMemory);
                }
            }
            Err(_) => return Err(WordsError::Refused),
        }
    }
    Ok(texts)
}

fn id_of(text: Option<&str>) -> Result<Id, WordsError> {
    match text {
        Some(text) => Id::new(text.as_bytes()).ok_or(WordsError::Refused),
        None => Err(WordsError::Refused),
    }
}

fn addr_of(alloc: Global, text: Option<&str>) -> Result<Addr, WordsError> {
    match text {
        Some(text) => match Addr::new(alloc, text.as_bytes())? {
            Some(addr) => Ok(addr),
            None => Err(WordsError::Refused),
        },
        None => Err(WordsError::Refused),
    }
}

/// Whether this is the list `ID=HTTP/RAFT` with the node alone. Clusters of several nodes aren't built.
fn is_alone(list: &[u8], id: &[u8], http: &[u8], raft: &[u8]) -> bool {
    let Some(rest) = list.strip_prefix(id) else {
        return false;
    };
    let Some(rest) = rest.strip_prefix(b"=".as_slice()) else {
        return false;
    };
    let Some(rest) = rest.strip_prefix(http) else {
        return false;
    };
    let Some(rest) = rest.strip_prefix(b"/".as_slice()) else {
        return false;
    };
    rest == raft
}

fn named(alloc: Global, matches: &ArgMatches<'_>) -> Result<NodeWords, WordsError> {
    let id = id_of(matches.get_str("id"))?;
    let http = addr_of(alloc, matches.get_str("http"))?;
    let raft = addr_of(alloc, matches.get_str("raft"))?;
    let (Some(dir), Some(first)) = (matches.get_str("dir"), matches.get_str("first")) else {
        return Err(WordsError::Refused);
    };
    if !is_alone(first.as_bytes(), id.bytes(), http.bytes(), raft.bytes()) {
        return Err(WordsError::Refused);
    }
    match dir.to_string(alloc) {
        Ok(dir) => Ok(NodeWords {
            id,
            http,
            raft,
            dir,
        }),
        Err(_) => Err(WordsError::NoMemory),
    }
}

/// What the words name, the first of which is `node`.
pub fn node_words(alloc: Global, words: &[Word]) -> Result<NodeWords, WordsError> {
    let texts = texts(alloc, words)?;
    match matches(alloc, texts.as_slice()) {
        Ok(matches) => named(alloc, &matches),
        Err(_) => Err(WordsError::Refused),
    }
}
