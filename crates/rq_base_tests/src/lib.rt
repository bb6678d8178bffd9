//! The vectors of values, entries, log files, queues and the outside in memory, and a call of each function of theirs that takes memory.
#![tactic(auto)]

#[cfg(test)]
mod log_files;
#[cfg(test)]
mod outside;
#[cfg(test)]
mod queues;
#[cfg(test)]
mod texts;
#[cfg(test)]
mod values;
#[cfg(test)]
mod wire;
