//! Selects over tables in memory, with the answers that SQLite gives; their headings, and their errors in order.
#![tactic(auto)]

#[cfg(test)]
mod answers;
#[cfg(test)]
mod errors;
mod mem_table;
#[cfg(test)]
mod tables;
mod unique_table;
#[cfg(test)]
mod walked;

pub use mem_table::MemTable;
pub use unique_table::UniqueTable;
