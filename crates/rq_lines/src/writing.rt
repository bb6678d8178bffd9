// What a script writes: docs/SCRIPT.md, "Output" and "The end".
ghost use Rattle.std.specs.Prelude.{◌≡◌, ◌++◌, codes, decimal, flat_map, OnOk};
ghost use Rattle.rq_request.specs.Say.{status_of};
ghost use Rattle.rq_play.specs.Said.{up_text, down_text, answer_text, written_body, role_text, show_text, show_down_text, pending_text};
ghost use Rattle.rq_lines.specs.Stopped.{stopped_text};

use rq_raft::Role;
use rq_replies::reply;
use rq_request::{Say, Shape};
use rq_values::{Id, NoMemory};
use std::alloc::Global;

/// How a node stands.
#[derive(Clone, Copy)]
pub struct Standing {
    pub role: Role,
    pub term: u64,
    /// The index at which its files begin.
    pub base: u64,
    /// The index of its last log entry.
    pub last: u64,
    pub commit: u64,
    pub applied: u64,
}

/// Why a script stops before its end.
#[derive(Clone, Copy)]
pub enum Stopped<'a> {
    /// The word of this place of the command line is wrong, or missing and then empty.
    Word { place: u64, word: &'a [u8] },
    /// The line of this number is the first outside.
    Line(u64),
    /// The input failed.
    ReadFault,
    /// No random word is left for what is asked.
    RandomWords,
}

/// Appends words and a number.
fn write_number(alloc: Global, words: &str, number: u64, text: &mut Vec<u8>) -> Result<(), NoMemory>
    ensures { OnOk result (text.new.items ≡ text.old.items ++ words.now ++ decimal number) }
{
    let piece = format!(in alloc; "{words}{number}")?;
    text.extend_from_slice(piece.as_bytes())?;
    Ok(())
}

/// Appends words, a name, and words behind it.
fn write_name(before: &[u8], name: &[u8], behind: &[u8], text: &mut Vec<u8>) -> Result<(), NoMemory>
    ensures { OnOk result (text.new.items ≡ text.old.items ++ before.now ++ name.now ++ behind.now) }
{
    text.extend_from_slice(before)?;
    text.extend_from_slice(name)?;
    text.extend_from_slice(behind)?;
    Ok(())
}

/// `up ID boot B term T last L`: a node was opened.
pub fn write_up(
    alloc: Global,
    id: &Id,
    boot: u64,
    term: u64,
    last: u64,
    text: &mut Vec<u8>,
) -> Result<(), NoMemory>
    ensures { OnOk result (text.new.items ≡ text.old.items ++ up_text id.now boot term last) }
{
    write_name(b"up ", id.bytes(), b"", text)?;
    write_number(alloc, " boot ", boot, text)?;
    write_number(alloc, " term ", term, text)?;
    write_number(alloc, " last ", last, text)?;
    text.push(b'\n')?;
    Ok(())
}

/// `down ID`: a node went down, or couldn't be opened.
pub fn write_down(id: &Id, text: &mut Vec<u8>) -> Result<(), NoMemory>
    ensures { OnOk result (text.new.items ≡ text.old.items ++ down_text id.now) }
{
    write_name(b"down ", id.bytes(), b"\n", text)
}

/// What a node is, in lower case.
fn role_name(role: Role) -> &'static str
    ensures { result.now ≡ role_text role }
{
    match role {
        Role::Follower => "follower",
        Role::Candidate => "candidate",
        Role::Leader => "leader",
    }
}

/// ` ROLE term T base B last L`
fn write_log(alloc: Global, standing: &Standing, text: &mut Vec<u8>) -> Result<(), NoMemory>
    ensures { OnOk result (text.new.items ≡ text.old.items ++ codes " " ++ role_text standing.now.role ++ codes " term " ++ decimal standing.now.term ++ codes " base " ++ decimal standing.now.base ++ codes " last " ++ decimal standing.now.last) }
{
    write_name(b" ", role_name(standing.role).as_bytes(), b"", text)?;
    write_number(alloc, " term ", standing.term, text)?;
    write_number(alloc, " base ", standing.base, text)?;
    write_number(alloc, " last ", standing.last, text)
}

/// `show ID ROLE term T base B last L commit C applied A`
pub fn write_show(
    alloc: Global,
    id: &Id,
    standing: &Standing,
    text: &mut Vec<u8>,
) -> Result<(), NoMemory>
    ensures { OnOk result (text.new.items ≡ text.old.items ++ show_text id.now (record { role = standing.now.role; term = standing.now.term; base = standing.now.base; last = standing.now.last; commit = standing.now.commit; applied = standing.now.applied })) }
{
    write_name(b"show ", id.bytes(), b"", text)?;
    write_log(alloc, standing, text)?;
    write_number(alloc, " commit ", standing.commit, text)?;
    write_number(alloc, " applied ", standing.applied, text)?;
    text.push(b'\n')?;
    Ok(())
}

/// `show ID down`
pub fn write_show_down(id: &Id, text: &mut Vec<u8>) -> Result<(), NoMemory>
    ensures { OnOk result (text.new.items ≡ text.old.items ++ show_down_text id.now) }
{
    write_name(b"show ", id.bytes(), b" down\n", text)
}

/// `answer K S `
fn write_status(alloc: Global, number: u64, status: u16, text: &mut Vec<u8>) -> Result<(), NoMemory>
    ensures { OnOk result (text.new.items ≡ text.old.items ++ codes "answer " ++ decimal number ++ codes " " ++ decimal status ++ codes " ") }
{
    write_number(alloc, "answer ", number, text)?;
    write_number(alloc, " ", u64::from(status), text)?;
    text.push(b' ')?;
    Ok(())
}

/// The body of an answer, or the address to which its request is sent on.
fn write_body(alloc: Global, shape: Shape, say: &Say, text: &mut Vec<u8>) -> Result<(), NoMemory>
    ensures { OnOk result (text.new.items ≡ text.old.items ++ written_body shape say.now) }
{
    match say {
        Say::Moved(address) => {
            text.extend_from_slice(address.bytes())?;
            Ok(())
        }
        _ => reply(alloc, say, shape, text),
    }
}

/// `answer K S BODY`: what a node says to ask K, in the shape that its request asks for.
pub fn write_answer(
    alloc: Global,
    number: u64,
    shape: Shape,
    say: &Say,
    text: &mut Vec<u8>,
) -> Result<(), NoMemory>
    ensures { OnOk result (text.new.items ≡ text.old.items ++ answer_text number (status_of say.now) (written_body shape say.now)) }
{
    write_status(alloc, number, say.status(), text)?;
    write_body(alloc, shape, say, text)?;
    text.push(b'\n')?;
    Ok(())
}

/// `answer K S BODY`: the request of ask K is refused with this reply.
pub fn write_rejected(
    alloc: Global,
    number: u64,
    status: u16,
    body: &[u8],
    text: &mut Vec<u8>,
) -> Result<(), NoMemory>
    ensures { OnOk result (text.new.items ≡ text.old.items ++ answer_text number status body.now) }
{
    write_status(alloc, number, status, text)?;
    write_name(b"", body, b"\n", text)
}

/// `pending K`
fn write_one_pending(alloc: Global, number: u64, text: &mut Vec<u8>) -> Result<(), NoMemory>
    ensures { OnOk result (text.new.items ≡ text.old.items ++ pending_text number) }
{
    write_number(alloc, "pending ", number, text)?;
    text.push(b'\n')?;
    Ok(())
}

/// A line for each ask that has no answer, in order.
pub fn write_pending(alloc: Global, asks: &[u64], text: &mut Vec<u8>) -> Result<(), NoMemory>
    ensures { OnOk result (text.new.items ≡ text.old.items ++ flat_map pending_text asks.now) }
{
    for number in asks {
        write_one_pending(alloc, *number, text)?;
    }
    Ok(())
}

/// The last line of a script that stops before its end.
pub fn write_stopped(
    alloc: Global,
    stopped: Stopped<'_>,
    text: &mut Vec<u8>,
) -> Result<(), NoMemory>
    ensures { OnOk result (text.new.items ≡ text.old.items ++ stopped_text stopped.entry) }
{
    match stopped {
        Stopped::Word { place, word } => {
            write_number(alloc, "stopped: word ", place, text)?;
            write_name(b": ", word, b"\n", text)
        }
        Stopped::Line(number) => {
            write_number(alloc, "stopped: line ", number, text)?;
            text.push(b'\n')?;
            Ok(())
        }
        Stopped::ReadFault => write_name(b"stopped: read fault\n", b"", b"", text),
        Stopped::RandomWords => write_name(b"stopped: random words\n", b"", b"", text),
    }
}
