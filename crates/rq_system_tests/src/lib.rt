//! Each adapter of the system, once.
#![tactic(auto)]

#[cfg(test)]
mod tests;
