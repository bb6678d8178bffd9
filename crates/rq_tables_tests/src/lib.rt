//! Scripts of statements over tables in memory, and their replies.
#![tactic(auto)]

#[cfg(test)]
mod running;
#[cfg(test)]
mod scripts;
