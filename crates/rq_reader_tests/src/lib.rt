//! The vectors of statements: their tokens, refusals, canonical texts and commands.
#![tactic(auto)]

#[cfg(test)]
mod canonical;
#[cfg(test)]
mod commands;
#[cfg(test)]
mod preparing;
#[cfg(test)]
mod reading_again;
#[cfg(test)]
mod refusals;
#[cfg(test)]
mod tokens;
