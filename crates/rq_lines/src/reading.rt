// Lines of a script, read: docs/SCRIPT.md, "Lines".
ghost use Rattle.std.specs.Prelude.{◌≡◌, IfSome, IfOk};
ghost use Rattle.rq_lines.specs.Spelled as spec;
ghost use Rattle.rq_lines.specs.Read.{IsRead, Answers, HasPick, HasPickAt, AnswersOf, action_read, error_at};

use crate::form::{Form, form_of};
use crate::line::{LineError, ScriptAction, ScriptLine};
use crate::names::names_of;
use crate::numbers::{number_of, pick_of};
use crate::words::{first_blank, is_word};
use rq_values::{Id, NoMemory};
use std::alloc::Global;

/// An action at the server whose id is all that is left.
fn action_line<'a>(action: ScriptAction<'a>, rest: &[u8]) -> Option<ScriptLine<'a>>
    requires pick { HasPickAt action }
    ensures read { IsRead (spec.of_action (action_read action.entry) rest.now) result }
    ensures picks { IfSome result (λ line. HasPick line) }
{
    let id = Id::new(rest)?;
    Some(ScriptLine::At { id, action })
}

/// The ids of the cluster.
fn cluster_line(alloc: Global, rest: &[u8]) -> Result<Option<ScriptLine<'_>>, NoMemory>
    ensures read { IfOk result (IsRead (spec.cluster_of rest.now)) }
    ensures picks { IfOk result (λ o. IfSome o (λ line. HasPick line)) }
{
    match names_of(alloc, rest) {
        Ok(Some(ids)) => Ok(Some(ScriptLine::Cluster { ids })),
        Ok(None) => Ok(None),
        Err(error) => Err(error),
    }
}

/// A request with this target and body.
fn target_line<'a>(
    id: Id,
    method: &'a [u8],
    target: &'a [u8],
    body: &'a [u8],
) -> Option<ScriptLine<'a>>
    ensures read { IsRead (spec.target_of id method.now target.now body.now) result }
    ensures picks { IfSome result (λ line. HasPick line) }
{
    if !is_word(target) {
        return None;
    }
    let action = ScriptAction::Ask {
        method,
        target,
        body,
    };
    Some(ScriptLine::At { id, action })
}

/// The target and the body behind the method.
fn request_line<'a>(id: Id, method: &'a [u8], rest: &'a [u8]) -> Option<ScriptLine<'a>>
    ensures read { IsRead (spec.request_of id method.now rest.now) result }
    ensures picks { IfSome result (λ line. HasPick line) }
{
    if !is_word(method) {
        return None;
    }
    match first_blank(rest) {
        Some(end) => target_line(id, method, &rest[..end], &rest[end + 1..]),
        None => target_line(id, method, rest, b""),
    }
}

/// The method and what is behind it.
fn method_line(id: Id, rest: &[u8]) -> Option<ScriptLine<'_>>
    ensures read { IsRead (spec.behind_id id rest.now) result }
    ensures picks { IfSome result (λ line. HasPick line) }
{
    let end = first_blank(rest)?;
    request_line(id, &rest[..end], &rest[end + 1..])
}

/// The ask that stands behind the word `ask` and its blank.
fn ask_line(rest: &[u8]) -> Option<ScriptLine<'_>>
    ensures read { IsRead (spec.ask_of rest.now) result }
    ensures picks { IfSome result (λ line. HasPick line) }
{
    let end = first_blank(rest)?;
    let id = Id::new(&rest[..end])?;
    method_line(id, &rest[end + 1..])
}

/// What stands behind the word `stop` and its blank.
fn stop_line(rest: &[u8]) -> Option<ScriptLine<'_>>
    ensures read { IsRead (spec.stop_of rest.now) result }
    ensures picks { IfSome result (λ line. HasPick line) }
{
    let Some(end) = first_blank(rest) else {
        return action_line(ScriptAction::Stop, rest);
    };
    let id = Id::new(&rest[..end])?;
    stop_within_line(id, &rest[end + 1..])
}

/// The number of calls and the pick behind the id.
fn stop_within_line(id: Id, rest: &[u8]) -> Option<ScriptLine<'_>>
    ensures read { IsRead (spec.within_of id rest.now) result }
    ensures picks { IfSome result (λ line. HasPick line) }
{
    let end = first_blank(rest)?;
    let calls = number_of(&rest[..end])?;
    let pick = pick_of(&rest[end + 1..])?;
    let action = ScriptAction::StopWithin { calls, pick };
    Some(ScriptLine::At { id, action })
}

fn deliver_line(rest: &[u8]) -> Option<ScriptLine<'_>>
    ensures read { IsRead (spec.deliver_of rest.now) result }
    ensures picks { IfSome result (λ line. HasPick line) }
{
    let number = number_of(rest)?;
    Some(ScriptLine::Deliver { number })
}

fn run_line(rest: &[u8]) -> Option<ScriptLine<'_>>
    ensures read { IsRead (spec.run_of rest.now) result }
    ensures picks { IfSome result (λ line. HasPick line) }
{
    let times = number_of(rest)?;
    if times > 100_000 {
        return None;
    }
    Some(ScriptLine::Run { times })
}

fn clock_line(rest: &[u8]) -> Option<ScriptLine<'_>>
    ensures read { IsRead (spec.clock_of rest.now) result }
    ensures picks { IfSome result (λ line. HasPick line) }
{
    if rest.len() > 15 {
        return None;
    }
    let moment = number_of(rest)?;
    Some(ScriptLine::Clock { moment })
}

/// What stands behind the first word, which is of this form, and its blank.
fn form_line(alloc: Global, form: Form, rest: &[u8]) -> Result<Option<ScriptLine<'_>>, NoMemory>
    ensures read { IfOk result (IsRead (spec.of_form form rest.now)) }
    ensures picks { IfOk result (λ o. IfSome o (λ line. HasPick line)) }
{
    match form {
        Form::Cluster => cluster_line(alloc, rest),
        Form::Elect => Ok(action_line(ScriptAction::Elect, rest)),
        Form::Beat => Ok(action_line(ScriptAction::Beat, rest)),
        Form::Flush => Ok(action_line(ScriptAction::Flush, rest)),
        Form::Apply => Ok(action_line(ScriptAction::Apply, rest)),
        Form::Compact => Ok(action_line(ScriptAction::Compact, rest)),
        Form::Ask => Ok(ask_line(rest)),
        Form::Stop => Ok(stop_line(rest)),
        Form::Start => Ok(action_line(ScriptAction::Start, rest)),
        Form::Cut => Ok(action_line(ScriptAction::Cut, rest)),
        Form::Heal => Ok(action_line(ScriptAction::Heal, rest)),
        Form::Show => Ok(action_line(ScriptAction::Show, rest)),
        Form::Deliver => Ok(deliver_line(rest)),
        Form::Run => Ok(run_line(rest)),
        Form::Clock => Ok(clock_line(rest)),
    }
}

/// The error of a line with this form, or with none.
fn error_at(form: Option<Form>) -> LineError
    ensures { result ≡ error_at form }
{
    match form {
        Some(form) => LineError::NotOfForm(form),
        None => LineError::NoSuchLine,
    }
}

/// The line of these words.
fn word_line<'a>(alloc: Global, word: &[u8], rest: &'a [u8]) -> Result<ScriptLine<'a>, LineError>
    ensures read { AnswersOf (spec.of_word word.now rest.now) (error_at (spec.form_of word.now)) result }
    ensures picks { IfOk result (λ line. HasPick line) }
{
    let Some(form) = form_of(word) else {
        return Err(LineError::NoSuchLine);
    };
    match form_line(alloc, form, rest) {
        Ok(Some(line)) => Ok(line),
        Ok(None) => Err(LineError::NotOfForm(form)),
        Err(_) => Err(LineError::NoMemory),
    }
}

/// The line that the bytes spell, or why they spell none.
pub fn script_line(alloc: Global, line: &[u8]) -> Result<ScriptLine<'_>, LineError>
    ensures read { Answers line.now result }
    ensures picks { IfOk result (λ line. HasPick line) }
{
    if line.is_empty() || line[0] == b'#' {
        return Ok(ScriptLine::Skip);
    }
    match first_blank(line) {
        Some(end) => word_line(alloc, &line[..end], &line[end + 1..]),
        None => Err(error_at(form_of(line))),
    }
}
