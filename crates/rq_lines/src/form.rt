// The forms of lines, by their first words.
ghost use Rattle.std.specs.Prelude.{◌≡◌};
ghost use Rattle.rq_lines.specs.Spelled.{form_of};

/// The form of a line, by its first word.
#[derive(Clone, Copy, PartialEq, Eq)]
pub enum Form {
    Cluster,
    Elect,
    Beat,
    Flush,
    Apply,
    Compact,
    Ask,
    Stop,
    Start,
    Cut,
    Heal,
    Show,
    Deliver,
    Run,
    Clock,
}

/// The form of the lines that begin with this word.
pub fn form_of(word: &[u8]) -> Option<Form>
    ensures { result ≡ form_of word.now }
{
    if word == b"cluster".as_slice() {
        Some(Form::Cluster)
    } else if word == b"elect".as_slice() {
        Some(Form::Elect)
    } else if word == b"beat".as_slice() {
        Some(Form::Beat)
    } else if word == b"flush".as_slice() {
        Some(Form::Flush)
    } else if word == b"apply".as_slice() {
        Some(Form::Apply)
    } else if word == b"compact".as_slice() {
        Some(Form::Compact)
    } else if word == b"ask".as_slice() {
        Some(Form::Ask)
    } else if word == b"stop".as_slice() {
        Some(Form::Stop)
    } else if word == b"start".as_slice() {
        Some(Form::Start)
    } else if word == b"cut".as_slice() {
        Some(Form::Cut)
    } else if word == b"heal".as_slice() {
        Some(Form::Heal)
    } else if word == b"show".as_slice() {
        Some(Form::Show)
    } else if word == b"deliver".as_slice() {
        Some(Form::Deliver)
    } else if word == b"run".as_slice() {
        Some(Form::Run)
    } else if word == b"clock".as_slice() {
        Some(Form::Clock)
    } else {
        None
    }
}
