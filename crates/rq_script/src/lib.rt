//! What a script means: its lines, what they do to the cluster, what they write, and what every run of them promises.
//!
//! The rules are in `docs/SCRIPT.md` and `docs/RAFT.md`. The code reads a line and writes texts; what carries lines out is
//! `rq_cluster`.
#![tactic(auto)]

pub mod laws;
mod saying;
mod script;

pub use saying::{
    write_all_pending, write_answer, write_answers, write_down, write_show, write_show_down,
    write_up,
};
pub use script::{Action, ScriptLine, script_line};
