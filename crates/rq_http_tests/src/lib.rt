//! Whole connections over fakes, and a table of targets.
#![tactic(auto)]

#[cfg(test)]
mod connections;
#[cfg(test)]
mod faults;
#[cfg(test)]
mod heads;
#[cfg(test)]
mod limits;
#[cfg(test)]
mod ports;
#[cfg(test)]
mod sources;
#[cfg(test)]
mod targets;
