//! Expressions and their values, errors and their texts, moments and their texts.
#![tactic(auto)]

#[cfg(test)]
mod aggregates;
#[cfg(test)]
mod deep;
#[cfg(test)]
mod error_texts;
#[cfg(test)]
mod errors;
#[cfg(test)]
mod expressions;
#[cfg(test)]
mod moments;
#[cfg(test)]
mod reading;
#[cfg(test)]
mod table;
#[cfg(test)]
mod values;
