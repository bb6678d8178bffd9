//! Where a row stands in the order.

use rq_values::Value;
use std::cmp::Reverse;

/// A term's value, in rising or in falling order.
#[derive(PartialEq, Eq, PartialOrd, Ord)]
pub enum SortTerm {
    Rising(Value),
    Falling(Reverse<Value>),
}

impl Drop for SortTerm {
    fn drop(self) {
        match self {
            SortTerm::Rising(value) => drop(value),
            SortTerm::Falling(value) => drop(value),
        }
    }
}

/// The values of a row's terms, and its rowid.
#[derive(PartialEq, Eq, PartialOrd, Ord)]
pub struct SortKey {
    pub terms: Vec<SortTerm>,
    pub rowid: i64,
}

impl Drop for SortKey {
    fn drop(self) {
        let SortKey { terms, rowid: _ } = self;
        drop(terms);
    }
}
