//! Lines of a script: docs/SCRIPT.md, "Lines".
ghost use Rattle.std.specs.Prelude.{◌≡◌, ◌==◌, ◌<◌, ◌^◌, ◌-◌, min, length, position, IfSome};
ghost use Rattle.std.specs.List.{list_all};
ghost use Rattle.rq_script.specs.ScriptLine as spec;
ghost use Rattle.rq_script.specs.ReadLine.{IsRead, HasPick, HasPickAt, action_read};

use rq_values::Id;

/// A line of a script, read.
#[derive(Clone, Copy, Debug)]
pub enum ScriptLine<'a> {
    /// An empty line or a comment.
    Skip,
    /// The nodes of the cluster: one.
    Cluster { id: Id },
    /// Something is done at the node of this id.
    At { id: Id, action: Action<'a> },
}

/// What is done at one node.
#[derive(Clone, Copy, Debug)]
pub enum Action<'a> {
    /// The node stands for election.
    Elect,
    /// The node applies what is committed.
    Apply,
    /// A list of statements to be executed, as a JSON list of strings.
    Execute { body: &'a [u8] },
    /// A list of queries that the node answers from its own replica.
    Query { body: &'a [u8] },
    /// The node stops at once.
    Stop,
    /// The node stops in the event that needs more than so many changing calls of its disks, which leave the image of this
    /// pick, 0 to 3.
    StopWithin { calls: u64, pick: u8 },
    /// The node, which is down, starts.
    Start,
    /// The node is printed.
    Show,
}

/// The line that the bytes spell, or None exactly where they spell none.
pub fn script_line(line: &[u8]) -> Option<ScriptLine<'_>>
    ensures read { IsRead (spec.line_of line.now) result }
    ensures picks { IfSome result (λ line. HasPick line) }
{
    if line.is_empty() || line[0] == b'#' {
        return Some(ScriptLine::Skip);
    }
    if let Some(rest) = line.strip_prefix(b"cluster ") {
        return Some(ScriptLine::Cluster { id: Id::new(rest)? });
    }
    if let Some(rest) = line.strip_prefix(b"elect ") {
        return action_line(Action::Elect, rest);
    }
    if let Some(rest) = line.strip_prefix(b"apply ") {
        return action_line(Action::Apply, rest);
    }
    if let Some(rest) = line.strip_prefix(b"ask ") {
        return ask_line(rest);
    }
    if let Some(rest) = line.strip_prefix(b"stop ") {
        return stop_line(rest);
    }
    if let Some(rest) = line.strip_prefix(b"start ") {
        return action_line(Action::Start, rest);
    }
    let rest = line.strip_prefix(b"show ")?;
    action_line(Action::Show, rest)
}

/// An action at the node whose id is all that is left.
fn action_line<'a>(action: Action<'a>, rest: &[u8]) -> Option<ScriptLine<'a>>
    requires pick { HasPickAt action }
    ensures read { IsRead (spec.of_action (action_read action.entry) rest.now) result }
    ensures picks { IfSome result (λ line. HasPick line) }
{
    let id = Id::new(rest)?;
    Some(ScriptLine::At { id, action })
}

/// What stands behind the word `stop` and its blank.
fn stop_line(rest: &[u8]) -> Option<ScriptLine<'_>>
    ensures read { IsRead (spec.stop_of rest.now) result }
    ensures picks { IfSome result (λ line. HasPick line) }
{
    let Some(end) = first_blank(rest) else {
        return action_line(Action::Stop, rest);
    };
    let id = Id::new(&rest[..end])?;
    stop_within_line(id, &rest[end + 1..])
}

/// The number of calls and the pick behind the id.
fn stop_within_line(id: Id, rest: &[u8]) -> Option<ScriptLine<'_>>
    ensures read { IsRead (spec.stop_within_of id rest.now) result }
    ensures picks { IfSome result (λ line. HasPick line) }
{
    let end = first_blank(rest)?;
    let calls = calls_of(&rest[..end])?;
    let pick = pick_of(&rest[end + 1..])?;
    let action = Action::StopWithin { calls, pick };
    Some(ScriptLine::At { id, action })
}

/// A number of calls: decimal digits without a leading zero. One of 2^64 - 1 or more is taken as 2^64 - 1.
fn calls_of(digits: &[u8]) -> Option<u64>
    ensures { result ≡ spec.calls_of digits.now }
{
    if is_number(digits) {
        Some(value_of(digits))
    } else {
        None
    }
}

/// Whether these are digits without a leading zero.
fn is_number(digits: &[u8]) -> bool
    ensures { result ≡ spec.is_number digits.now }
{
    match digits {
        [] => false,
        [digit] => digit.is_ascii_digit(),
        [first, ..] => are_digits(digits) && *first >= b'1',
    }
}

fn are_digits(bytes: &[u8]) -> bool
    ensures { result ≡ list_all spec.is_digit bytes.now }
{
    bytes.iter().all(|byte| byte.is_ascii_digit())
}

/// The number that digits spell, or 2^64 - 1 if it is greater.
fn value_of(digits: &[u8]) -> u64
    ensures { result ≡ min (spec.value_behind 0 digits.now) (2 ^ 64 - 1) }
{
    let mut value: u64 = 0;
    for digit in digits {
        value = value
            .saturating_mul(10)
            .saturating_add(u64::from(digit.saturating_sub(b'0')));
    }
    value
}

/// 0 to 3.
fn pick_of(digits: &[u8]) -> Option<u8>
    ensures value { result ≡ spec.pick_of digits.now }
    ensures pick { IfSome result (λ pick. pick < 4) }
{
    match digits {
        [digit] if *digit >= b'0' && *digit <= b'3' => Some(*digit - b'0'),
        _ => None,
    }
}

/// The ask that stands behind the word `ask` and its blank.
fn ask_line(rest: &[u8]) -> Option<ScriptLine<'_>>
    ensures read { IsRead (spec.ask_of rest.now) result }
    ensures picks { IfSome result (λ line. HasPick line) }
{
    let Some(end) = first_blank(rest) else {
        return None;
    };
    let Some(id) = Id::new(&rest[..end]) else {
        return None;
    };
    request_line(id, &rest[end..])
}

/// Where the first blank stands.
fn first_blank(bytes: &[u8]) -> Option<usize>
    ensures place { result ≡ position (λ byte. byte == 32) bytes.now }
    ensures within { IfSome result (λ at. at < length bytes.now) }
{
    bytes.iter().position(|byte| *byte == b' ')
}

/// The request that stands behind the id.
fn request_line(id: Id, request: &[u8]) -> Option<ScriptLine<'_>>
    ensures read { IsRead (spec.request_of id request.now) result }
    ensures picks { IfSome result (λ line. HasPick line) }
{
    if let Some(body) = request.strip_prefix(b" POST /db/execute ") {
        let action = Action::Execute { body };
        return Some(ScriptLine::At { id, action });
    }
    let body = request.strip_prefix(b" POST /db/query?level=none ")?;
    let action = Action::Query { body };
    Some(ScriptLine::At { id, action })
}
