//! The lines of a script, read, and the lines that it writes: docs/SCRIPT.md, "Lines" and "Output".
#![tactic(auto)]

mod form;
mod line;
mod names;
mod numbers;
mod reading;
mod words;
mod writing;

pub use form::Form;
pub use line::{LineError, ScriptAction, ScriptLine};
pub use reading::script_line;
pub use writing::{
    Standing, Stopped, write_answer, write_down, write_pending, write_rejected, write_show,
    write_show_down, write_stopped, write_up,
};
