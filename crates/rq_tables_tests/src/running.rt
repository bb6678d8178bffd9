//! How a script runs.
use rq_engine::{Engine, Outcome, Replica, SharedEngine};
use rq_settle::prepare;
use rq_statement::{Command, Item, Res, StatementList};
use rq_tables::Tables;
use rq_values::{Id, NoMemory, Seq, Text, Value};
use std::alloc::Global;
use std::test::Fail;

fn add_value(alloc: Global, value: &Value, into: &mut String) -> Result<(), Fail> {
    let text = match value {
        Value::Null => "NULL".to_string(alloc)?,
        Value::Int(number) => number.to_string(alloc)?,
        Value::Text(text) => {
            format!(in alloc; "'{}'", String::from_utf8_lossy(alloc, text.bytes())?)?
        }
        Value::Blob(blob) => format!(in alloc; "blob {}", blob.bytes().len())?,
    };
    into.push_str(&text)?;
    Ok(())
}

fn add_row(alloc: Global, row: &Seq<Value>, into: &mut String) -> Result<(), Fail> {
    into.push_str(" (")?;
    for (i, value) in row.as_slice().iter().enumerate() {
        if i > 0 {
            into.push_str(", ")?;
        }
        add_value(alloc, value, into)?;
    }
    into.push(')')?;
    Ok(())
}

fn rows_text(alloc: Global, columns: &Seq<Text>, values: &Seq<Seq<Value>>) -> Result<String, Fail> {
    let mut line = String::new(alloc);
    for (i, text) in columns.as_slice().iter().enumerate() {
        if i > 0 {
            line.push(' ')?;
        }
        line.push_str(&String::from_utf8_lossy(alloc, text.bytes())?)?;
    }
    line.push(':')?;
    for row in values.as_slice() {
        add_row(alloc, row, &mut line)?;
    }
    Ok(line)
}

/// An answer: how many rows were changed and the rowid of the last one; headings and rows; or an error.
fn shown(alloc: Global, res: &Res) -> Result<String, Fail> {
    match res {
        Res::Done {
            last_insert_id,
            rows_affected,
        } => Ok(format!(in alloc; "{rows_affected} @{last_insert_id}")?),
        Res::Rows {
            columns,
            types: _,
            values,
        } => rows_text(alloc, columns, values),
        Res::Error(text) => Ok(String::from_utf8_lossy(alloc, text.bytes())?),
    }
}

fn all_shown(alloc: Global, results: &Seq<Res>) -> Result<String, Fail> {
    let mut line = String::new(alloc);
    for (i, res) in results.as_slice().iter().enumerate() {
        if i > 0 {
            line.push_str(" | ")?;
        }
        line.push_str(&shown(alloc, res)?)?;
    }
    Ok(line)
}

/// The statements of a line, between bars.
fn list_of(alloc: Global, transaction: bool, line: &str) -> Result<StatementList, Fail> {
    let mut list = StatementList::new(alloc, transaction);
    let mut rest = line;
    for _ in 0..line.len() {
        let Some((first, more)) = rest.split_once(" | ") else {
            break;
        };
        list.push(prepare(alloc, first.as_bytes())?)?;
        rest = more;
    }
    list.push(prepare(alloc, rest.as_bytes())?)?;
    Ok(list)
}

fn outcome_text(alloc: Global, outcome: &Outcome) -> Result<String, Fail> {
    match outcome {
        Outcome::Results(results) => all_shown(alloc, results),
        Outcome::Loaded => Ok("loaded".to_string(alloc)?),
        Outcome::Nothing => Ok("nothing".to_string(alloc)?),
        Outcome::Stale => Ok("stale".to_string(alloc)?),
    }
}

/// The items of a line.
fn items_of(alloc: Global, line: &str) -> Result<Seq<Item>, Fail> {
    let mut items = Seq::new(alloc);
    let mut rest = line;
    for _ in 0..line.len() {
        let Some((first, more)) = rest.split_once(" | ") else {
            break;
        };
        items.push(prepare(alloc, first.as_bytes())?)?;
        rest = more;
    }
    items.push(prepare(alloc, rest.as_bytes())?)?;
    Ok(items)
}

/// The lists of a line, between double bars.
fn lists_of(alloc: Global, line: &str) -> Result<Seq<StatementList>, Fail> {
    let mut lists = Seq::new(alloc);
    let mut rest = line;
    for _ in 0..line.len() {
        let Some((first, more)) = rest.split_once(" || ") else {
            break;
        };
        lists.push(list_of(alloc, true, first)?)?;
        rest = more;
    }
    lists.push(list_of(alloc, false, rest)?)?;
    Ok(lists)
}

/// A list that another server sent on: the count of boots and the number, one letter each, and the statements.
fn once_of(alloc: Global, line: &str) -> Result<Command, Fail> {
    let Some((numbers, statements)) = line.split_once(' ') else {
        return Err("no statements".into());
    };
    let Some(id) = Id::new(b"n1") else {
        return Err("no id".into());
    };
    match numbers.as_bytes() {
        [boot, number] => Ok(Command::Once {
            id,
            boot: u64::from(*boot),
            number: u64::from(*number),
            list: list_of(alloc, false, statements)?,
        }),
        _ => Err("no numbers".into()),
    }
}

/// The command of a line: `?` queries, `!` executes, `>` is a transaction, `<` loads, `=` is a batch, `@` was sent on, else the list may
/// write and read.
fn command_of(alloc: Global, line: &str) -> Result<Command, Fail> {
    if let Some(query) = line.strip_prefix("? ") {
        return Ok(Command::StrongQuery(items_of(alloc, query)?));
    }
    if let Some(statements) = line.strip_prefix("! ") {
        return Ok(Command::Execute(list_of(alloc, false, statements)?));
    }
    if let Some(statements) = line.strip_prefix("> ") {
        return Ok(Command::Request(list_of(alloc, true, statements)?));
    }
    if let Some(statements) = line.strip_prefix("< ") {
        return Ok(Command::Load(items_of(alloc, statements)?));
    }
    if let Some(lists) = line.strip_prefix("= ") {
        return Ok(Command::Batch(lists_of(alloc, lists)?));
    }
    if let Some(sent) = line.strip_prefix("@ ") {
        return once_of(alloc, sent);
    }
    Ok(Command::Request(list_of(alloc, false, line)?))
}

/// What a command answers. With no memory nothing has happened, so that a second try answers the same.
fn answer(alloc: Global, tables: &mut Tables, command: &Command) -> Result<Outcome, NoMemory> {
    match tables.apply(alloc, command) {
        Ok(outcome) => Ok(outcome),
        Err(_) => tables.apply(alloc, command),
    }
}

/// What a line of a script answers.
fn reply(alloc: Global, tables: &mut Tables, line: &str) -> Result<String, Fail> {
    let command = command_of(alloc, line)?;
    let outcome = answer(alloc, tables, &command);
    drop(command);
    let outcome = outcome?;
    let text = outcome_text(alloc, &outcome);
    drop(outcome);
    text
}

/// The lines of a script whose replies aren't those that are wanted; an empty line begins with no tables again.
pub fn differences(alloc: Global, script: &[(&str, &str)]) -> Result<String, Fail> {
    let mut tables = Tables::first(alloc, &[])?;
    let mut all = String::new(alloc);
    for (line, wanted) in script {
        if line.is_empty() {
            tables = Tables::first(alloc, &[])?;
        } else {
            let given = reply(alloc, &mut tables, line)?;
            if given.as_str() != *wanted {
                all.push_str(&format!(in alloc; "{line} => {given}\n")?)?;
            }
        }
    }
    Ok(all)
}

/// An engine answers queries behind a command and beside it, and knows the ids of all configurations.
pub fn reads_and_ids<E: SharedEngine + Drop>(alloc: Global) -> Result<String, Fail> {
    let Some(one) = Id::new(b"n1") else {
        return Err("no id".into());
    };
    let Some(two) = Id::new(b"n2") else {
        return Err("no id".into());
    };
    let mut engine = E::first(alloc, &[one])?;
    let mut ids = Seq::new(alloc);
    ids.push(two)?;
    drop(engine.apply(alloc, &Command::Config(ids))?);
    let write = command_of(
        alloc,
        "CREATE TABLE t (a INTEGER) | INSERT INTO t VALUES (1), (2)",
    )?;
    let mut reads = Seq::new(alloc);
    reads.push(items_of(alloc, "SELECT SUM(a) FROM t")?)?;
    reads.push(items_of(alloc, "SELECT a FROM t | DROP TABLE t")?)?;
    let done = engine.apply_then(alloc, &write, reads.as_slice());
    drop(write);
    drop(reads);
    let (outcome, answers) = done?;
    let mut line = outcome_text(alloc, &outcome)?;
    drop(outcome);
    for results in answers.as_slice() {
        line.push_str("; ")?;
        line.push_str(&all_shown(alloc, results)?)?;
    }
    drop(answers);
    let items = items_of(alloc, "SELECT COUNT(*) FROM t")?;
    let seen = engine.look(alloc, items.as_slice())?;
    let queried = engine.query(alloc, items.as_slice())?;
    drop(items);
    line.push_str(&format!(in alloc;
        "; {}; {}; {} {} {}",
        all_shown(alloc, &seen)?,
        all_shown(alloc, &queried)?,
        engine.id_count(),
        engine.has_id(&one),
        engine.has_id(&two)
    )?)?;
    drop(seen);
    drop(queried);
    drop(engine);
    Ok(line)
}
