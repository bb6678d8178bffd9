//! Lines of a script that are read, and texts that are written.
#![tactic(auto)]

#[cfg(test)]
mod reading;
#[cfg(test)]
mod writing;
