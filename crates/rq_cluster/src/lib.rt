//! The cluster in one process: the words of the command line, the lines of a script from a source, their text to a
//! sink, and a status. The rules are in `docs/SCRIPT.md`.
#![tactic(auto)]

mod arming;
mod ending;
mod feeding;
mod giving;
mod host;
mod line_error;
mod memory_pairs;
mod new_pairs;
mod preparing;
mod progress;
mod reading_lines;
mod reason;
mod recovery;
mod running;
mod words;
mod world;

pub use memory_pairs::empty_pairs;
pub use new_pairs::{MakesDisks, nine_pairs};
pub use reason::{Form, Reason, Stopped};
pub use rq_script::laws;
pub use running::{Ended, cluster_main, run_cluster};
