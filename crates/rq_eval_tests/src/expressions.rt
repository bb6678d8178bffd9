//! What the expressions of the tables give.
use crate::aggregates;
use crate::errors::{ERRORS, ROWIDS, WITHOUT_FROM};
use crate::reading::first_wrong;
use crate::table::{all_people, one_column};
use crate::values::{AS_SQLITE, OWN};
use rq_eval::{RowView, Scope};
use std::test::Fail;

#[test]
fn over_one_row(rt: HostRuntime) -> Result<(), Fail> {
    let alloc = rt.alloc();
    let people = all_people(alloc)?;
    let row = people.row(0);
    for table in [AS_SQLITE.as_slice(), OWN.as_slice(), ERRORS.as_slice()] {
        let wrong = first_wrong(alloc, table, &row, None)?;
        assert!(rt; wrong == None, "{wrong:?}");
    }
    Ok(())
}

#[test]
fn over_all_rows(rt: HostRuntime) -> Result<(), Fail> {
    let alloc = rt.alloc();
    let people = all_people(alloc)?;
    let rows = [people.row(1), people.row(2), people.row(3)];
    for table in [
        aggregates::THREE_ROWS.as_slice(),
        aggregates::ERRORS.as_slice(),
    ] {
        let wrong = first_wrong(alloc, table, &people.row(0), Some(rows.as_slice()))?;
        assert!(rt; wrong == None, "{wrong:?}");
    }
    for table in [
        aggregates::NO_ROWS.as_slice(),
        aggregates::NO_ROWS_OWN.as_slice(),
    ] {
        let wrong = first_wrong(alloc, table, &people.row(0), Some(&[]))?;
        assert!(rt; wrong == None, "{wrong:?}");
    }
    Ok(())
}

#[test]
fn over_the_empty_row(rt: HostRuntime) -> Result<(), Fail> {
    let scope = Scope::Empty;
    let row = RowView {
        scope: &scope,
        rowid: 0,
        values: &[],
    };
    let wrong = first_wrong(rt.alloc(), &WITHOUT_FROM, &row, None)?;
    assert!(rt; wrong == None, "{wrong:?}");
    Ok(())
}

#[test]
fn a_column_named_rowid_hides_the_rowid(rt: HostRuntime) -> Result<(), Fail> {
    for (column, text, wanted) in &ROWIDS {
        assert!(rt; one_column(rt.alloc(), column, text, wanted)?, "{text}");
    }
    Ok(())
}
