//! What a script writes: docs/SCRIPT.md, "Output".
ghost use Rattle.std.specs.Prelude.{◌≡◌, ◌++◌, codes, decimal, length, flat_map, OnOk};
ghost use Rattle.rq_script.specs.ScriptText.{up_text, down_text, answer_text, answers_text, pending_text, role_text, show_text, show_down_text};

use rq_node::{Role, State};
use rq_replies::reply;
use rq_request::{Answer, Say, Shape};
use rq_values::{Id, NoMemory};
use std::alloc::Global;

/// The form of a reply in a script.
const PLAIN: Shape = Shape {
    associative: false,
    pretty: false,
};

/// Appends words and a number.
fn write_number(alloc: Global, words: &str, number: u64, text: &mut Vec<u8>) -> Result<(), NoMemory>
    ensures { OnOk result (text.new.items ≡ text.old.items ++ words.now ++ decimal number) }
{
    let piece = format!(in alloc; "{words}{number}")?;
    text.extend_from_slice(piece.as_bytes())?;
    Ok(())
}

/// `up ID boot B term T last L`
pub fn write_up(alloc: Global, state: &State, text: &mut Vec<u8>) -> Result<(), NoMemory>
    ensures { OnOk result (text.new.items ≡ text.old.items ++ up_text state.now) }
{
    text.extend_from_slice(b"up ")?;
    text.extend_from_slice(state.id().bytes())?;
    write_number(alloc, " boot ", state.boot(), text)?;
    write_number(alloc, " term ", state.term(), text)?;
    write_number(alloc, " last ", state.last(), text)?;
    text.push(b'\n')?;
    Ok(())
}

/// `down ID`
pub fn write_down(id: &Id, text: &mut Vec<u8>) -> Result<(), NoMemory>
    ensures { OnOk result (text.new.items ≡ text.old.items ++ down_text id.now) }
{
    text.extend_from_slice(b"down ")?;
    text.extend_from_slice(id.bytes())?;
    text.push(b'\n')?;
    Ok(())
}

/// What a node is, in lower case.
fn role_name(role: Role) -> &'static str
    ensures { result.now ≡ role_text role }
{
    match role {
        Role::Follower => "follower",
        Role::Candidate => "candidate",
        Role::Leader => "leader",
    }
}

/// `show ID ROLE`
fn write_role(state: &State, text: &mut Vec<u8>) -> Result<(), NoMemory>
    ensures { OnOk result (text.new.items ≡ text.old.items ++ codes "show " ++ state.now.id ++ codes " " ++ role_text state.now.role) }
{
    text.extend_from_slice(b"show ")?;
    text.extend_from_slice(state.id().bytes())?;
    text.push(b' ')?;
    text.extend_from_slice(role_name(state.role()).as_bytes())?;
    Ok(())
}

/// ` base 0 last L commit C applied A`
fn write_indexes(alloc: Global, state: &State, text: &mut Vec<u8>) -> Result<(), NoMemory>
    ensures { OnOk result (text.new.items ≡ text.old.items ++ codes " base 0 last " ++ decimal (length state.now.log) ++ codes " commit " ++ decimal state.now.commit ++ codes " applied " ++ decimal state.now.applied) }
{
    write_number(alloc, " base 0 last ", state.last(), text)?;
    write_number(alloc, " commit ", state.commit(), text)?;
    write_number(alloc, " applied ", state.applied(), text)?;
    Ok(())
}

/// `show ID ROLE term T base 0 last L commit C applied A`
pub fn write_show(alloc: Global, state: &State, text: &mut Vec<u8>) -> Result<(), NoMemory>
    ensures { OnOk result (text.new.items ≡ text.old.items ++ show_text state.now) }
{
    write_role(state, text)?;
    write_number(alloc, " term ", state.term(), text)?;
    write_indexes(alloc, state, text)?;
    text.push(b'\n')?;
    Ok(())
}

/// `show ID down`
pub fn write_show_down(id: &Id, text: &mut Vec<u8>) -> Result<(), NoMemory>
    ensures { OnOk result (text.new.items ≡ text.old.items ++ show_down_text id.now) }
{
    text.extend_from_slice(b"show ")?;
    text.extend_from_slice(id.bytes())?;
    text.extend_from_slice(b" down\n")?;
    Ok(())
}

/// `answer K S BODY`
pub fn write_answer(
    alloc: Global,
    number: u64,
    say: &Say,
    text: &mut Vec<u8>,
) -> Result<(), NoMemory>
    ensures { OnOk result (text.new.items ≡ text.old.items ++ answer_text (record { number = number; say = say.now })) }
{
    write_number(alloc, "answer ", number, text)?;
    write_number(alloc, " ", u64::from(say.status()), text)?;
    text.push(b' ')?;
    reply(alloc, say, PLAIN, text)?;
    text.push(b'\n')?;
    Ok(())
}

/// A line for each answer, in order.
pub fn write_answers(alloc: Global, answers: &[Answer], text: &mut Vec<u8>) -> Result<(), NoMemory>
    ensures { OnOk result (text.new.items ≡ text.old.items ++ answers_text answers.now) }
{
    for answer in answers {
        write_answer(alloc, answer.number, &answer.say, text)?;
    }
    Ok(())
}

/// `pending K`
fn write_one_pending(alloc: Global, number: u64, text: &mut Vec<u8>) -> Result<(), NoMemory>
    ensures { OnOk result (text.new.items ≡ text.old.items ++ pending_text number) }
{
    write_number(alloc, "pending ", number, text)?;
    text.push(b'\n')?;
    Ok(())
}

/// A line for each ask that has no answer, in order.
pub fn write_all_pending(alloc: Global, asks: &[u64], text: &mut Vec<u8>) -> Result<(), NoMemory>
    ensures { OnOk result (text.new.items ≡ text.old.items ++ flat_map pending_text asks.now) }
{
    for number in asks {
        write_one_pending(alloc, *number, text)?;
    }
    Ok(())
}
