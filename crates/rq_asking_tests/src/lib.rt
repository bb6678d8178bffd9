//! Requests, and the asks that they become.
#![tactic(auto)]

#[cfg(test)]
mod asks;
#[cfg(test)]
mod logged;
#[cfg(test)]
mod showing;
