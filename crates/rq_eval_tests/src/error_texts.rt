//! The text of each error.
use crate::table::text;
use rq_eval::StmtError;
use rq_grammar::ColumnKind;
use rq_operators::ValueError;
use rq_values::Text;
use std::alloc::Global;
use std::test::Fail;

/// Whether the error is shown so, by both calls.
fn is_shown(alloc: Global, error: StmtError, wanted: &str) -> Result<bool, Fail> {
    let shown = error.to_text(alloc)?;
    let mut bytes = Vec::from_slice(alloc, b"error: ")?;
    let added = error.text(&mut bytes);
    drop(error);
    let is = added.is_ok()
        && shown.bytes() == wanted.as_bytes()
        && bytes.len() > 7
        && &bytes[7..] == wanted.as_bytes();
    drop((shown, bytes));
    Ok(is)
}

const FIXED: [&str; 12] = [
    "query in execute",
    "attempt to change database via query operation",
    "misuse of aggregate",
    "ORDER BY term out of range",
    "datatype mismatch",
    "not an integer",
    "not a text",
    "not a condition",
    "not a time text",
    "integer overflow",
    "rowid out of range",
    "database or disk is full",
];

/// The error of fixed words in that place of the table.
fn fixed(at: usize) -> StmtError {
    match at {
        0 => StmtError::QueryInExecute,
        1 => StmtError::ChangeInQuery,
        2 => StmtError::MisuseOfAggregate,
        3 => StmtError::OrderTermOutOfRange,
        4 => StmtError::DatatypeMismatch,
        5 => StmtError::Value(ValueError::NotInteger),
        6 => StmtError::Value(ValueError::NotText),
        7 => StmtError::Value(ValueError::NotCondition),
        8 => StmtError::Value(ValueError::NotTimeText),
        9 => StmtError::Value(ValueError::IntegerOverflow),
        10 => StmtError::RowidOutOfRange,
        _ => StmtError::Full,
    }
}

const NAMED: [(&str, &str); 8] = [
    ("t", "no such table: t"),
    ("T t", "table T t already exists"),
    (
        "sqlite_x",
        "object name reserved for internal use: sqlite_x",
    ),
    ("a", "duplicate column name: a"),
    ("t", "table t has more than one primary key"),
    ("", "no such column: "),
    ("F", "no such function: F"),
    ("ABS", "wrong number of arguments to function ABS()"),
];

/// The error of a name in that place of the table.
fn named(at: usize, name: Text) -> StmtError {
    match at {
        0 => StmtError::NoTable(name),
        1 => StmtError::TableExists(name),
        2 => StmtError::ReservedName(name),
        3 => StmtError::DuplicateColumn(name),
        4 => StmtError::SecondPrimaryKey(name),
        5 => StmtError::NoColumn(name),
        6 => StmtError::NoFunction(name),
        _ => StmtError::WrongArguments(name),
    }
}

const OF_COLUMNS: [(&str, &str); 6] = [
    ("ä", "table t has no column named ä"),
    ("a", "no such column: t.a"),
    ("a", "NOT NULL constraint failed: t.a"),
    ("rowid", "UNIQUE constraint failed: t.rowid"),
    ("a", "cannot store TEXT value in INTEGER column t.a"),
    ("a", "cannot store BLOB value in TEXT column t.a"),
];

/// The error of a column in that place of the table.
fn of_column(at: usize, table: Text, column: Text) -> StmtError {
    match at {
        0 => StmtError::NoColumnInTable { table, column },
        1 => StmtError::NoQualifiedColumn { table, column },
        2 => StmtError::NotNullFailed { table, column },
        3 => StmtError::UniqueFailed { table, column },
        4 => StmtError::CannotStore {
            value: ColumnKind::Text,
            kind: ColumnKind::Integer,
            table,
            column,
        },
        _ => StmtError::CannotStore {
            value: ColumnKind::Blob,
            kind: ColumnKind::Text,
            table,
            column,
        },
    }
}

#[test]
fn errors_of_fixed_words(rt: HostRuntime) -> Result<(), Fail> {
    for at in 0..FIXED.len() {
        assert!(rt; is_shown(rt.alloc(), fixed(at), FIXED[at])?, "{at}");
    }
    Ok(())
}

#[test]
fn errors_of_names(rt: HostRuntime) -> Result<(), Fail> {
    let alloc = rt.alloc();
    for at in 0..NAMED.len() {
        let (name, wanted) = NAMED[at];
        let name = text(alloc, name)?;
        assert!(rt; is_shown(alloc, named(at, name), wanted)?, "{at}");
    }
    for at in 0..OF_COLUMNS.len() {
        let (name, wanted) = OF_COLUMNS[at];
        let table = text(alloc, "t")?;
        let column = text(alloc, name)?;
        assert!(rt;
            is_shown(alloc, of_column(at, table, column), wanted)?,
            "{at}"
        );
    }
    Ok(())
}

#[test]
fn errors_of_counts(rt: HostRuntime) -> Result<(), Fail> {
    let alloc = rt.alloc();
    let values = StmtError::WrongValueCount {
        table: text(alloc, "t")?,
        columns: 3,
        values: u64::MAX,
    };
    let wanted = "table t has 3 columns but 18446744073709551615 values were supplied";
    assert!(rt; is_shown(alloc, values, wanted)?);
    let list = StmtError::WrongListCount {
        values: 1,
        columns: 20,
    };
    assert!(rt; is_shown(alloc, list, "1 values for 20 columns")?);
    Ok(())
}
