//! How many rows of a table a select asks for.
use crate::answers::{are_rows, selected_from};
use crate::tables::{codes, people, tags};
use rq_eval::{RowView, Scope};
use rq_grammar::ColumnDef;
use rq_select::{Lookup, TableView};
use rq_statement::Res;
use rq_values::{NoMemory, Value};
use std::alloc::Global;
use std::cell::Cell;
use std::test::Fail;

/// A table that counts the rows that it lends.
#[derive(Drop)]
struct Counted<'t, T> {
    table: &'t T,
    lent: Cell<usize>,
}

impl<T> Counted<'_, T> {
    fn count(&self, rows: usize) {
        self.lent.set(self.lent.get().saturating_add(rows));
    }
}

impl<T: TableView> TableView for Counted<'_, T> {
    ghost means = { λ t. T.means t.table.now };

    fn scope(&self) -> &Scope {
        self.table.scope()
    }

    fn columns(&self) -> &[ColumnDef] {
        self.table.columns()
    }

    fn rows(&self, alloc: Global, most: Option<usize>) -> Result<Vec<RowView<'_>>, NoMemory> {
        match self.table.rows(alloc, most) {
            Ok(rows) => {
                self.count(rows.len());
                Ok(rows)
            }
            Err(e) => Err(e),
        }
    }

    fn find(&self, place: usize, value: &Value) -> Lookup<'_> {
        match self.table.find(place, value) {
            Lookup::Unknown => Lookup::Unknown,
            Lookup::NoRow => Lookup::NoRow,
            Lookup::Row(row) => {
                self.count(1);
                Lookup::Row(row)
            }
        }
    }
}

/// A select, its rows, and how many rows of the table it asks for.
type Walk = (&'static str, &'static str, usize);

const PEOPLE: [Walk; 23] = [
    ("SELECT name FROM people WHERE id = 4", "('Ann')", 1),
    ("SELECT name FROM people WHERE 4 = id", "('Ann')", 1),
    ("SELECT name FROM people WHERE people.id = 4", "('Ann')", 1),
    ("SELECT name FROM people WHERE id = 3", "", 0),
    ("SELECT name FROM people WHERE id = '4'", "", 0),
    ("SELECT name FROM people WHERE id = NULL", "", 0),
    (
        "SELECT name FROM people WHERE id = 4 AND age > 30",
        "('Ann')",
        1,
    ),
    ("SELECT name FROM people WHERE age < 30 AND id = 4", "", 1),
    (
        "SELECT COUNT(*), MAX(name) FROM people WHERE id = 4",
        "(1, 'Ann')",
        1,
    ),
    ("SELECT id FROM people LIMIT 1", "(1)", 1),
    (
        "SELECT id, 'x' FROM people LIMIT 2 OFFSET 3",
        "(5, 'x'), (7, 'x')",
        5,
    ),
    ("SELECT id FROM people LIMIT 0", "", 0),
    ("SELECT id FROM people WHERE age = 20 LIMIT 1", "(1)", 1),
    ("SELECT id FROM people WHERE age = 35 LIMIT 1", "(4)", 5),
    (
        "SELECT id FROM people WHERE age = 35 LIMIT 2",
        "(4), (9)",
        8,
    ),
    ("SELECT name FROM people WHERE id = 4 LIMIT 1", "('Ann')", 1),
    (
        "SELECT name FROM people WHERE age = 20",
        "('fiona'), ('bob')",
        6,
    ),
    (
        "SELECT name FROM people WHERE id = 4 OR id = 5",
        "('Ann'), ('bob')",
        6,
    ),
    ("SELECT id FROM people WHERE id > 4", "(5), (7), (9)", 6),
    (
        "SELECT name FROM people WHERE id = 4 AND age + 1",
        "('Ann')",
        6,
    ),
    ("SELECT id FROM people ORDER BY id LIMIT 1", "(1)", 6),
    ("SELECT id + 1 FROM people LIMIT 1", "(2)", 6),
    ("SELECT COUNT(*) FROM people LIMIT 1", "(6)", 6),
];

const CODES: [Walk; 2] = [
    ("SELECT k FROM codes WHERE rowid = 4", "('c')", 1),
    ("SELECT * FROM codes LIMIT 2", "('b', 2), ('a', 1)", 2),
];

const TAGS: [Walk; 10] = [
    ("SELECT name FROM tags WHERE code = 10", "('c')", 1),
    (
        "SELECT name FROM tags WHERE id < 9 AND 10 = code",
        "('c')",
        1,
    ),
    ("SELECT name FROM tags WHERE code = 11", "", 0),
    (
        "SELECT name FROM tags WHERE code = 10 AND name = 'x'",
        "",
        1,
    ),
    ("SELECT COUNT(*) FROM tags WHERE code = 20", "(1)", 1),
    ("SELECT name FROM tags WHERE code = 10 LIMIT 1", "('c')", 1),
    ("SELECT name FROM tags WHERE id = 5", "('e')", 1),
    ("SELECT name FROM tags WHERE code = NULL", "", 5),
    ("SELECT id FROM tags WHERE code IS NULL", "(2), (4)", 5),
    (
        "SELECT name FROM tags WHERE code = 10 OR code = 20",
        "('c'), ('e')",
        5,
    ),
];

fn walks<T: TableView>(alloc: Global, table: &T, walk: &Walk) -> Result<bool, Fail> {
    let (text, rows, lent) = walk;
    let table = Counted {
        table,
        lent: Cell::new(0),
    };
    let answer = selected_from(alloc, &table, text)?;
    match &answer {
        Ok(Res::Rows { values, .. }) => {
            Ok(are_rows(alloc, values.as_slice(), rows)? && table.lent.get() == *lent)
        }
        _ => Ok(false),
    }
}

#[test]
fn keys_and_limits(rt: HostRuntime) -> Result<(), Fail> {
    let alloc = rt.alloc();
    let people = people(alloc)?;
    for walk in &PEOPLE {
        assert!(rt; walks(alloc, &people, walk)?, "{}", walk.0);
    }
    let codes = codes(alloc)?;
    for walk in &CODES {
        assert!(rt; walks(alloc, &codes, walk)?, "{}", walk.0);
    }
    let tags = tags(alloc)?;
    for walk in &TAGS {
        assert!(rt; walks(alloc, &tags, walk)?, "{}", walk.0);
    }
    Ok(())
}
