//! The deepest expression that is read.
use crate::reading::gives;
use rq_eval::{RowView, Scope};
use std::alloc::Global;
use std::test::Fail;

fn repeated(alloc: Global, count: usize, piece: &str, last: &str) -> Result<String, Fail> {
    let mut text = String::new(alloc);
    for _ in 0..count {
        text.push_str(piece)?;
    }
    text.push_str(last)?;
    Ok(text)
}

/// A piece that stands 99 times, what stands behind, and the value.
const DEEP: [(&str, &str, &str); 4] = [
    ("1 + ", "1", "100"),
    ("NOT ", "0", "1"),
    ("- ", "- 5", "5"),
    (
        "'a' || ",
        "''",
        "'aaaaaaaaaaaaaaaaaaaaaaaaaaaaaaaaaaaaaaaaaaaaaaaaaaaaaaaaaaaaaaaaaaaaaaaaaaaaaaaaaaaaaaaaaaaaaaaaaaa'",
    ),
];

#[test]
fn the_deepest_expressions(rt: HostRuntime) -> Result<(), Fail> {
    let alloc = rt.alloc();
    let scope = Scope::Empty;
    let row = RowView {
        scope: &scope,
        rowid: 0,
        values: &[],
    };
    for (piece, last, wanted) in &DEEP {
        let text = repeated(alloc, 99, piece, last)?;
        assert!(rt; gives(alloc, &text, &row, None, wanted)?, "{piece}");
    }
    Ok(())
}
