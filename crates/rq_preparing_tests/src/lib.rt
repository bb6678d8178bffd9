//! Texts with their parameters, and what is prepared of them.
#![tactic(auto)]

#[cfg(test)]
mod bound;
#[cfg(test)]
mod preparing;
#[cfg(test)]
mod settled;
#[cfg(test)]
mod times;
