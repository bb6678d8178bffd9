//! The text of an error.

ghost use Rattle.std.specs.Prelude.{◌≡◌, ◌++◌, true, codes, decimal, IfOk, OnOk, OnErr};
ghost use Rattle.rq_values.specs.Text.{is_plain};
ghost use Rattle.rq_eval.specs.ErrorText as spec;

use crate::error::StmtError;
use rq_grammar::ColumnKind;
use rq_operators::ValueError;
use rq_values::{NoMemory, Text};
use std::alloc::Global;

/// Which value can't be stored in which column.
fn kinds(value: ColumnKind, kind: ColumnKind) -> &'static [u8]
    ensures words { result.now ≡ spec.value_in value kind }
    ensures plain { is_plain result.now ≡ true }
{
    match (value, kind) {
        (ColumnKind::Integer, ColumnKind::Integer) => b"cannot store INTEGER value in INTEGER",
        (ColumnKind::Integer, ColumnKind::Text) => b"cannot store INTEGER value in TEXT",
        (ColumnKind::Integer, ColumnKind::Blob) => b"cannot store INTEGER value in BLOB",
        (ColumnKind::Text, ColumnKind::Integer) => b"cannot store TEXT value in INTEGER",
        (ColumnKind::Text, ColumnKind::Text) => b"cannot store TEXT value in TEXT",
        (ColumnKind::Text, ColumnKind::Blob) => b"cannot store TEXT value in BLOB",
        (ColumnKind::Blob, ColumnKind::Integer) => b"cannot store BLOB value in INTEGER",
        (ColumnKind::Blob, ColumnKind::Text) => b"cannot store BLOB value in TEXT",
        (ColumnKind::Blob, ColumnKind::Blob) => b"cannot store BLOB value in BLOB",
    }
}

/// What is wrong with values.
fn value_words(error: ValueError) -> &'static [u8]
    ensures words { result.now ≡ spec.value_words error }
    ensures plain { is_plain result.now ≡ true }
{
    match error {
        ValueError::NotInteger => b"not an integer",
        ValueError::NotText => b"not a text",
        ValueError::NotCondition => b"not a condition",
        ValueError::NotTimeText => b"not a time text",
        ValueError::IntegerOverflow => b"integer overflow",
    }
}

/// Words, a name, and words.
fn put_named(text: &mut Text, before: &[u8], name: &Text, behind: &[u8]) -> Result<(), NoMemory>
    requires before { is_plain before.now ≡ true }
    requires behind { is_plain behind.now ≡ true }
    ensures { OnOk result (text.new ≡ text.old ++ (before.now ++ name.now ++ behind.now)) }
{
    text.push_plain(before)?;
    text.push_text(name)?;
    text.push_plain(behind)
}

/// Words and a name.
fn put_name(text: &mut Text, before: &[u8], name: &Text) -> Result<(), NoMemory>
    requires { is_plain before.now ≡ true }
    ensures { OnOk result (text.new ≡ text.old ++ (before.now ++ name.now)) }
{
    text.push_plain(before)?;
    text.push_text(name)
}

/// Words, a table, words and a column.
fn put_column(
    text: &mut Text,
    before: &[u8],
    table: &Text,
    between: &[u8],
    column: &Text,
) -> Result<(), NoMemory>
    requires before { is_plain before.now ≡ true }
    requires between { is_plain between.now ≡ true }
    ensures { OnOk result (text.new ≡ text.old ++ (before.now ++ table.now ++ between.now ++ column.now)) }
{
    text.push_plain(before)?;
    text.push_text(table)?;
    text.push_plain(between)?;
    text.push_text(column)
}

fn put_value_count(
    text: &mut Text,
    alloc: Global,
    table: &Text,
    columns: u64,
    values: u64,
) -> Result<(), NoMemory>
    ensures { OnOk result (text.new ≡ text.old ++ ((codes "table " ++ table.now ++ codes " has ") ++ (spec.counted columns (codes " columns but ") ++ spec.counted values (codes " values were supplied")))) }
{
    put_named(text, b"table ", table, b" has ")?;
    put_counts(
        text,
        alloc,
        columns,
        b" columns but ",
        values,
        b" values were supplied",
    )
}

/// A number and words.
fn put_count(text: &mut Text, alloc: Global, number: u64, words: &[u8]) -> Result<(), NoMemory>
    requires { is_plain words.now ≡ true }
    ensures { OnOk result (text.new ≡ text.old ++ spec.counted number words.now) }
{
    text.push_number(alloc, number)?;
    text.push_plain(words)
}

/// A number and words, twice.
fn put_counts(
    text: &mut Text,
    alloc: Global,
    first: u64,
    between: &[u8],
    second: u64,
    behind: &[u8],
) -> Result<(), NoMemory>
    requires between { is_plain between.now ≡ true }
    requires behind { is_plain behind.now ≡ true }
    ensures { OnOk result (text.new ≡ text.old ++ (spec.counted first between.now ++ spec.counted second behind.now)) }
{
    put_count(text, alloc, first, between)?;
    put_count(text, alloc, second, behind)
}

fn put_cannot_store(
    text: &mut Text,
    value: ColumnKind,
    kind: ColumnKind,
    table: &Text,
    column: &Text,
) -> Result<(), NoMemory>
    ensures { OnOk result (text.new ≡ text.old ++ (spec.value_in value kind ++ (codes " column " ++ table.now ++ codes "." ++ column.now))) }
{
    text.push_plain(kinds(value, kind))?;
    put_column(text, b" column ", table, b".", column)
}

impl StmtError {
    fn put(&self, text: &mut Text, alloc: Global) -> Result<(), NoMemory>
        ensures { OnOk result (text.new ≡ text.old ++ spec.error_text self.now) }
    {
        match self {
            Self::QueryInExecute => text.push_plain(b"query in execute"),
            Self::ChangeInQuery => {
                text.push_plain(b"attempt to change database via query operation")
            }
            Self::NoTable(t) => put_name(text, b"no such table: ", t),
            Self::TableExists(t) => put_named(text, b"table ", t, b" already exists"),
            Self::ReservedName(t) => {
                put_name(text, b"object name reserved for internal use: ", t)
            }
            Self::DuplicateColumn(c) => put_name(text, b"duplicate column name: ", c),
            Self::SecondPrimaryKey(t) => {
                put_named(text, b"table ", t, b" has more than one primary key")
            }
            Self::NoColumnInTable { table, column } => {
                put_column(text, b"table ", table, b" has no column named ", column)
            }
            Self::NoColumn(c) => put_name(text, b"no such column: ", c),
            Self::NoQualifiedColumn { table, column } => {
                put_column(text, b"no such column: ", table, b".", column)
            }
            Self::WrongValueCount {
                table,
                columns,
                values,
            } => put_value_count(text, alloc, table, *columns, *values),
            Self::WrongListCount { values, columns } => {
                put_counts(text, alloc, *values, b" values for ", *columns, b" columns")
            }
            Self::NoFunction(f) => put_name(text, b"no such function: ", f),
            Self::WrongArguments(f) => {
                put_named(text, b"wrong number of arguments to function ", f, b"()")
            }
            Self::MisuseOfAggregate => text.push_plain(b"misuse of aggregate"),
            Self::OrderTermOutOfRange => text.push_plain(b"ORDER BY term out of range"),
            Self::DatatypeMismatch => text.push_plain(b"datatype mismatch"),
            Self::Value(error) => text.push_plain(value_words(*error)),
            Self::CannotStore {
                value,
                kind,
                table,
                column,
            } => put_cannot_store(text, *value, *kind, table, column),
            Self::RowidOutOfRange => text.push_plain(b"rowid out of range"),
            Self::Full => text.push_plain(b"database or disk is full"),
            Self::NotNullFailed { table, column } => {
                put_column(text, b"NOT NULL constraint failed: ", table, b".", column)
            }
            Self::UniqueFailed { table, column } => {
                put_column(text, b"UNIQUE constraint failed: ", table, b".", column)
            }
        }
    }

    /// The error as it is shown.
    pub fn to_text(&self, alloc: Global) -> Result<Text, NoMemory>
        ensures { IfOk result (λ text. text ≡ spec.error_text self.now) }
    {
        let mut text = Text::empty(alloc);
        match self.put(&mut text, alloc) {
            Ok(()) => Ok(text),
            Err(error) => {
                drop(text);
                Err(error)
            }
        }
    }

    /// Adds the error as it is shown. With no memory the bytes stay as they were.
    pub fn text(&self, into: &mut Vec<u8>) -> Result<(), NoMemory>
        ensures ok { OnOk result (into.new.items ≡ into.old.items ++ spec.error_text self.now) }
        ensures err { OnErr result (into.new.items ≡ into.old.items) }
    {
        match self.to_text(*into.allocator()) {
            Ok(text) => {
                let added = into.extend_from_slice(text.bytes());
                drop(text);
                match added {
                    Ok(()) => Ok(()),
                    Err(e) => Err(NoMemory::from(e)),
                }
            }
            Err(e) => Err(e),
        }
    }
}
