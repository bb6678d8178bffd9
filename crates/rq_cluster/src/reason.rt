//! Why a script ends at a line: docs/SCRIPT.md, "The end".
use rq_values::{Id, NoMemory};

/// Why a line can't stand where it stands.
#[derive(Clone, Copy, Debug)]
pub enum Reason {
    /// No line of a script begins so.
    NoSuchLine,
    /// It begins as a line of this form, and isn't of it.
    NotOfForm(Form),
    /// It has more bytes than a line may have.
    LongLine,
    /// The script has more bytes than a script may have.
    LongScript,
    /// No `cluster` line stands before it, or in the script.
    NoCluster,
    /// The cluster has its `cluster` line.
    SecondCluster,
    /// The cluster has no such node.
    NoNode(Id),
    /// The node is down.
    Down(Id),
    /// The node runs.
    Running(Id),
    /// The body isn't a list of statements.
    NoStatements,
}

/// The line at which a script ends, from 1, and why.
#[derive(Clone, Copy, Debug)]
pub struct Stopped {
    pub line: u64,
    pub reason: Reason,
}

/// The forms of lines, by their first words.
#[derive(Clone, Copy, Debug)]
pub enum Form {
    Cluster,
    Elect,
    Apply,
    Ask,
    Stop,
    Start,
    Show,
}

impl Form {
    /// The form of the lines that begin with this word.
    fn of(word: &[u8]) -> Option<Form> {
        match word {
            b"cluster" => Some(Form::Cluster),
            b"elect" => Some(Form::Elect),
            b"apply" => Some(Form::Apply),
            b"ask" => Some(Form::Ask),
            b"stop" => Some(Form::Stop),
            b"start" => Some(Form::Start),
            b"show" => Some(Form::Show),
            _ => None,
        }
    }

    /// Its text.
    fn text(self) -> &'static str {
        match self {
            Form::Cluster => "cluster ID",
            Form::Elect => "elect ID",
            Form::Apply => "apply ID",
            Form::Ask => "ask ID POST /db/execute BODY, or ask ID POST /db/query?level=none BODY",
            Form::Stop => "stop ID, or stop ID CALLS PICK",
            Form::Start => "start ID",
            Form::Show => "show ID",
        }
    }
}

/// The reason of a line that is spelled wrongly.
pub fn misspelled(line: &[u8]) -> Reason {
    match Form::of(first_word(line)) {
        Some(form) => Reason::NotOfForm(form),
        None => Reason::NoSuchLine,
    }
}

/// What stands before the first blank.
fn first_word(line: &[u8]) -> &[u8] {
    match line.iter().position(|byte| *byte == b' ') {
        Some(end) if end < line.len() => &line[..end],
        _ => line,
    }
}

/// Appends a text with a name in it.
fn write_parts(
    before: &str,
    name: &[u8],
    behind: &str,
    text: &mut Vec<u8>,
) -> Result<(), NoMemory> {
    text.extend_from_slice(before.as_bytes())?;
    text.extend_from_slice(name)?;
    text.extend_from_slice(behind.as_bytes())?;
    Ok(())
}

impl Reason {
    /// Appends the reason in words.
    pub fn write(&self, text: &mut Vec<u8>) -> Result<(), NoMemory> {
        match self {
            Reason::NotOfForm(form) => write_parts("not of the form ", b"", form.text(), text),
            Reason::NoNode(id) => write_parts("no node ", id.bytes(), " in this cluster", text),
            Reason::Down(id) => write_parts("the node ", id.bytes(), " is down", text),
            Reason::Running(id) => write_parts("the node ", id.bytes(), " is running", text),
            reason => write_parts(reason.words(), b"", "", text),
        }
    }

    /// What is said of those that name nothing.
    fn words(&self) -> &'static str {
        match self {
            Reason::LongLine => "longer than 2097152 bytes",
            Reason::LongScript => "the script is longer than 67108864 bytes",
            Reason::NoCluster => "no cluster line stands before it",
            Reason::SecondCluster => "a second cluster line",
            Reason::NoStatements => {
                "the body is no JSON list of strings, each a statement without NUL"
            }
            _ => "no line of a script begins so",
        }
    }
}
