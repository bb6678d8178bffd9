//! Selects with their errors, in the order in which they are met.

/// Selects and their errors. Each line of docs/SQL.md, "Errors of SELECT", comes before the next, and within one the first place counts.
pub const ERRORS: [(&str, &str); 60] = [
    // the table, before names
    ("SELECT nosuch FROM NoTable", "no such table: NoTable"),
    ("SELECT * FROM t ORDER BY 9 LIMIT NULL", "no such table: t"),
    // names, wherever they stand, before calls
    ("SELECT nosuch FROM people", "no such column: nosuch"),
    ("SELECT Other.id FROM people", "no such column: Other.id"),
    (
        "SELECT people.nosuch FROM people",
        "no such column: people.nosuch",
    ),
    ("SELECT id", "no such column: id"),
    ("SELECT rowid", "no such column: rowid"),
    (
        "SELECT NOSUCH(nosuch) FROM people",
        "no such column: nosuch",
    ),
    (
        "SELECT ABS(1, 2), nosuch FROM people",
        "no such column: nosuch",
    ),
    (
        "SELECT ABS(1, 2) FROM people WHERE nosuch",
        "no such column: nosuch",
    ),
    (
        "SELECT ABS(1, 2) FROM people ORDER BY nosuch",
        "no such column: nosuch",
    ),
    (
        "SELECT ABS(1, 2) FROM people LIMIT nosuch",
        "no such column: nosuch",
    ),
    (
        "SELECT ABS(1, 2) FROM people LIMIT 1 OFFSET nosuch",
        "no such column: nosuch",
    ),
    ("SELECT id FROM people LIMIT id", "no such column: id"),
    (
        "SELECT one, two FROM people WHERE three",
        "no such column: one",
    ),
    (
        "SELECT id FROM people WHERE three ORDER BY two",
        "no such column: three",
    ),
    (
        "SELECT id FROM people ORDER BY two LIMIT three",
        "no such column: two",
    ),
    (
        "SELECT id FROM people LIMIT three OFFSET two",
        "no such column: three",
    ),
    (
        "SELECT id AS x FROM people WHERE x = 1",
        "no such column: x",
    ),
    (
        "SELECT id AS x FROM people ORDER BY x + 1",
        "no such column: x",
    ),
    ("SELECT nosuch FROM none", "no such column: nosuch"),
    // calls, before terms and limits
    ("SELECT NOSUCH(1) FROM people", "no such function: NOSUCH"),
    (
        "SELECT nosuch(ABS()) FROM people",
        "no such function: NOSUCH",
    ),
    (
        "SELECT ABS() FROM people",
        "wrong number of arguments to function ABS()",
    ),
    (
        "SELECT ABS(NOSUCH(1), 2) FROM people",
        "wrong number of arguments to function ABS()",
    ),
    (
        "SELECT SUM() FROM people",
        "wrong number of arguments to function SUM()",
    ),
    (
        "SELECT COUNT() FROM people",
        "wrong number of arguments to function COUNT()",
    ),
    ("SELECT id, SUM() FROM people", "misuse of aggregate"),
    (
        "SELECT SUM(), id FROM people",
        "wrong number of arguments to function SUM()",
    ),
    (
        "SELECT id FROM people WHERE COUNT(*) > 1",
        "misuse of aggregate",
    ),
    (
        "SELECT id FROM people ORDER BY COUNT(*)",
        "misuse of aggregate",
    ),
    (
        "SELECT COUNT(*) FROM people ORDER BY COUNT(*)",
        "misuse of aggregate",
    ),
    (
        "SELECT COUNT(*) FROM people ORDER BY id",
        "misuse of aggregate",
    ),
    (
        "SELECT id FROM people LIMIT COUNT(*)",
        "misuse of aggregate",
    ),
    ("SELECT SUM(MAX(id)) FROM people", "misuse of aggregate"),
    ("SELECT SUM(COUNT(*)) FROM people", "misuse of aggregate"),
    ("SELECT id, COUNT(*) FROM people", "misuse of aggregate"),
    ("SELECT COUNT(*) + id FROM people", "misuse of aggregate"),
    ("SELECT *, COUNT(*) FROM people", "misuse of aggregate"),
    ("SELECT COUNT(*), rowid FROM codes", "misuse of aggregate"),
    (
        "SELECT NOSUCH(1), id, COUNT(*) FROM people",
        "no such function: NOSUCH",
    ),
    (
        "SELECT id, NOSUCH(1), COUNT(*) FROM people",
        "misuse of aggregate",
    ),
    (
        "SELECT id FROM people WHERE NOSUCH() ORDER BY 9",
        "no such function: NOSUCH",
    ),
    (
        "SELECT id FROM people ORDER BY 9, NOSUCH()",
        "no such function: NOSUCH",
    ),
    (
        "SELECT id FROM people LIMIT NOSUCH()",
        "no such function: NOSUCH",
    ),
    // terms and limits, before rows
    (
        "SELECT id FROM people WHERE 'x' ORDER BY 2",
        "ORDER BY term out of range",
    ),
    (
        "SELECT id FROM people ORDER BY 0",
        "ORDER BY term out of range",
    ),
    (
        "SELECT id FROM people ORDER BY -1",
        "ORDER BY term out of range",
    ),
    (
        "SELECT * FROM people ORDER BY 5 LIMIT 'x'",
        "ORDER BY term out of range",
    ),
    (
        "SELECT * FROM none ORDER BY 3",
        "ORDER BY term out of range",
    ),
    (
        "SELECT id FROM people WHERE 'x' LIMIT NULL",
        "datatype mismatch",
    ),
    ("SELECT id FROM people LIMIT '1'", "datatype mismatch"),
    ("SELECT id FROM people LIMIT 1 + 1", "datatype mismatch"),
    (
        "SELECT id FROM people LIMIT 1 OFFSET X'01'",
        "datatype mismatch",
    ),
    (
        "SELECT COUNT(*) FROM people LIMIT NULL OFFSET NULL",
        "datatype mismatch",
    ),
    // rows: WHERE of all of them, then the results of each, and then its terms
    ("SELECT name + 1 FROM people WHERE name", "not a condition"),
    (
        "SELECT id / (id - 1) + name FROM people WHERE 9223372036854775800 + id",
        "integer overflow",
    ),
    (
        "SELECT age + name FROM people ORDER BY LENGTH(id) + 'x' LIMIT 0",
        "not an integer",
    ),
    (
        "SELECT tag || 'x' FROM people ORDER BY name + 1",
        "not a text",
    ),
    (
        "SELECT id FROM people ORDER BY name + 1 LIMIT 0",
        "not an integer",
    ),
];

/// The same of aggregates, and of a select without FROM.
pub const MORE_ERRORS: [(&str, &str); 8] = [
    ("SELECT SUM(name) FROM people", "not an integer"),
    (
        "SELECT SUM(9223372036854775800 + id) FROM people",
        "integer overflow",
    ),
    (
        "SELECT SUM(9223372036854775800 / 1) FROM people",
        "integer overflow",
    ),
    (
        "SELECT MIN(name + 1), SUM(9223372036854775807) FROM people",
        "not an integer",
    ),
    (
        "SELECT SUM(9223372036854775807), MIN(name + 1) FROM people",
        "integer overflow",
    ),
    (
        "SELECT COUNT(*) FROM people ORDER BY 'x' + 1",
        "not an integer",
    ),
    ("SELECT DATE('x') WHERE 'x'", "not a condition"),
    ("SELECT DATE('x')", "not a time text"),
];
