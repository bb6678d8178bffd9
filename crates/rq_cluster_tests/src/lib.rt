//! The vectors of replies and lines, and whole scripts: their statuses, stops, and the order of calls.
#![tactic(auto)]

#[cfg(test)]
mod calling;
#[cfg(test)]
mod examples;
#[cfg(test)]
mod lines;
#[cfg(test)]
mod order;
#[cfg(test)]
mod reasons;
#[cfg(test)]
mod replies;
#[cfg(test)]
mod statuses;
#[cfg(test)]
mod stops;
