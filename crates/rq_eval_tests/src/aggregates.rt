//! Aggregates over the rows `(1, 'fiona', 20, X'00FF', NULL)`, `(2, 'sinead', NULL, X'', NULL)` and `(3, 'declan', 30, X'00', NULL)` of
//! the table of `values`, and over none.

/// Each value is what SQLite 3.40.1 gives over the three rows.
pub const THREE_ROWS: [(&str, &str); 31] = [
    ("COUNT(*)", "3"),
    ("COUNT(age)", "2"),
    ("COUNT(gone)", "0"),
    ("COUNT(NULL)", "0"),
    ("COUNT(1)", "3"),
    ("SUM(age)", "50"),
    ("SUM(id)", "6"),
    ("SUM(gone)", "NULL"),
    ("MIN(age)", "20"),
    ("MAX(age)", "30"),
    ("MIN(name)", "'declan'"),
    ("MAX(name)", "'sinead'"),
    ("MIN(tag)", "X''"),
    ("MAX(tag)", "X'00FF'"),
    ("MAX(gone)", "NULL"),
    ("COUNT(*) + 1", "4"),
    ("SUM(age) / COUNT(age)", "25"),
    ("MAX(age) - MIN(age)", "10"),
    ("SUM(age + id)", "54"),
    ("SUM(age * 2) || '!'", "'100!'"),
    ("COALESCE(SUM(gone), 0)", "0"),
    ("TYPEOF(SUM(age))", "'integer'"),
    ("COUNT(age > 20)", "2"),
    ("SUM(age > 20)", "1"),
    ("SUM(rowid)", "6"),
    ("1 + 1", "2"),
    ("COUNT(*) IN (1, 3)", "1"),
    ("MAX(id) BETWEEN COUNT(age) AND COUNT(*)", "1"),
    ("MIN(name) LIKE 'D%'", "1"),
    ("-SUM(id)", "-6"),
    ("NOT COUNT(*)", "0"),
];

/// Each value is what SQLite 3.40.1 gives over no rows.
pub const NO_ROWS: [(&str, &str); 8] = [
    ("COUNT(*)", "0"),
    ("COUNT(age)", "0"),
    ("SUM(age)", "NULL"),
    ("MIN(name)", "NULL"),
    ("MAX(id)", "NULL"),
    ("COUNT(*) = 0", "1"),
    ("COALESCE(SUM(age), -1)", "-1"),
    ("SUM(age) IS NULL", "1"),
];

/// What is never evaluated has no error.
pub const NO_ROWS_OWN: [(&str, &str); 2] = [("SUM(nosuch)", "NULL"), ("COUNT(1 + 'a')", "0")];

/// Worked out by docs/SQL.md. `!` stands before an error.
pub const ERRORS: [(&str, &str); 14] = [
    ("SUM(name)", "!not an integer"),
    ("SUM(id + 9223372036854775804)", "!integer overflow"),
    (
        "SUM((id = 1) * 9223372036854775807 + (id = 2) - (id = 3) * 5)",
        "!integer overflow",
    ),
    ("SUM(name = 'fiona' OR name)", "!not a condition"),
    ("age", "!misuse of aggregate"),
    ("COUNT(*) + id", "!misuse of aggregate"),
    ("MAX(SUM(age))", "!misuse of aggregate"),
    ("MIN(COUNT(*))", "!misuse of aggregate"),
    ("nosuch", "!no such column: nosuch"),
    ("SUM(nosuch)", "!no such column: nosuch"),
    (
        "SUM(age, 1)",
        "!wrong number of arguments to function SUM()",
    ),
    ("COUNT(*) + 'a'", "!not an integer"),
    ("MAX(DATE(name))", "!not a time text"),
    ("rowid", "!misuse of aggregate"),
];
