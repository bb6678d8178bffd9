//! The consensus core and packets with ample memory: elections, whole runs as tables of lines, random walks with stops, bytes, and reads
//! by a pass.
#![tactic(auto)]

#[cfg(test)]
mod following;
#[cfg(test)]
mod kept;
#[cfg(test)]
mod line;
#[cfg(test)]
mod lookups;
#[cfg(test)]
mod net;
#[cfg(test)]
mod reading;
#[cfg(test)]
mod scenario;
#[cfg(test)]
mod scenarios;
#[cfg(test)]
mod spelling;
#[cfg(test)]
mod walk;
