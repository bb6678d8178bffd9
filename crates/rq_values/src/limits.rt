//! The product's limits that several crates share.

/// Bytes of a statement's text, as it is read and as it is printed.
pub const MAX_STATEMENT: usize = 4_194_304;

/// Bytes of the command of a log's entry, and so of a text or bytes in one.
pub const MAX_COMMAND: u32 = 8_388_608;

/// The last rowid.
pub const MAX_ROWID: i64 = 9_223_372_036_854_775_806;

/// Bytes of the tables' part of a state's image.
pub const MAX_TABLES: u64 = 268_435_456;

/// Ids that a cluster ever used.
pub const MAX_IDS: usize = 1_000;

/// Nodes of a cluster in a script.
pub const MAX_NODES: usize = 9;

/// Bytes of a line of a script.
pub const MAX_LINE: usize = 2_097_152;

/// Bytes of a script.
pub const MAX_SCRIPT: u64 = 67_108_864;
