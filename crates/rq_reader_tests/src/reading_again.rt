//! Statements that are read, printed and read again.
use rq_canonical::read_printed;
use rq_grammar::Stmt;
use rq_print::print;
use rq_sql::read;
use std::alloc::Global;
use std::test::Fail;

/// What is read, what is printed of it, and so of the statement that is read from that.
const CASES: [(&str, &str); 3] = [
    (
        "select a+1, b from T where not a==2 limit 3;",
        "SELECT (\"a\" + 1), \"b\" FROM \"T\" WHERE (NOT (\"a\" = 2)) LIMIT 3",
    ),
    (
        "insert into t values (- -5, x'0a', count(*)), (:p in (1,2))",
        "INSERT INTO \"t\" VALUES (-(-5), X'0A', COUNT(*)), ((:p IN (1, 2)))",
    ),
    (
        "create table t (a integer unique primary key)",
        "CREATE TABLE \"t\" (\"a\" INTEGER PRIMARY KEY UNIQUE)",
    ),
];

fn is_printed(alloc: Global, stmt: &Stmt, canonical: &str) -> bool {
    let mut bytes = Vec::new(alloc);
    let is_same = print(stmt, &mut bytes).is_ok() && bytes.as_slice() == canonical.as_bytes();
    drop(bytes);
    is_same
}

fn is_read_again(alloc: Global, stmt: &Stmt, canonical: &str) -> Result<bool, Fail> {
    let again = read_printed(alloc, stmt)?;
    let is_same = is_printed(alloc, &again, canonical);
    drop(again);
    Ok(is_same)
}

#[test]
fn statements_that_are_read_again(rt: HostRuntime) -> Result<(), Fail> {
    let alloc = rt.alloc();
    for (text, canonical) in &CASES {
        let stmt = read(alloc, text.as_bytes())?;
        let is_printed = is_printed(alloc, &stmt, canonical);
        let is_again = is_read_again(alloc, &stmt, canonical);
        drop(stmt);
        assert_eq!(rt; (is_printed, is_again?), (true, true));
    }
    Ok(())
}
