//! Nodes that serve: over loopback, and with fakes that fail.
#![tactic(auto)]

#[cfg(test)]
mod ends;
#[cfg(test)]
mod fakes;
#[cfg(test)]
mod loopback;
#[cfg(test)]
mod words;
