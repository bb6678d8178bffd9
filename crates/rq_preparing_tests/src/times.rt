//! What time functions give.
use crate::preparing::draws_of;
use rq_eval::{EvalError, RowView, Scope, value};
use rq_grammar::{Expr, ResultItem, Stmt};
use rq_preparing::prepare;
use rq_request::Params;
use rq_statement::Item;
use rq_values::Value;
use std::alloc::Global;
use std::test::Fail;

/// A moment, an expression, and its value then, as SQLite 3.40.1 gives it for `datetime(M / 1000, 'unixepoch')`, `date(..)` and
/// `time(..)` in place of the present moment.
const TIMES: [(u64, &str, &str); 80] = [
    (0, "CURRENT_TIMESTAMP", "1970-01-01 00:00:00"),
    (0, "current_date", "1970-01-01"),
    (0, "CURRENT_TIME", "00:00:00"),
    (0, "date()", "1970-01-01"),
    (999, "TIME()", "00:00:00"),
    (999, "datetime()", "1970-01-01 00:00:00"),
    (999, "date('now')", "1970-01-01"),
    (999, "time('NOW')", "00:00:00"),
    (1_000, "DateTime('Now')", "1970-01-01 00:00:01"),
    (1_000, "datetime(CURRENT_DATE)", "1970-01-01 00:00:00"),
    (1_000, "date(datetime())", "1970-01-01"),
    (1_000, "time(CURRENT_TIMESTAMP)", "00:00:01"),
    (86_399_999, "CURRENT_TIMESTAMP", "1970-01-01 23:59:59"),
    (86_399_999, "current_date", "1970-01-01"),
    (86_399_999, "CURRENT_TIME", "23:59:59"),
    (86_399_999, "date()", "1970-01-01"),
    (86_400_000, "TIME()", "00:00:00"),
    (86_400_000, "datetime()", "1970-01-02 00:00:00"),
    (86_400_000, "date('now')", "1970-01-02"),
    (86_400_000, "time('NOW')", "00:00:00"),
    (951_782_399_999, "DateTime('Now')", "2000-02-28 23:59:59"),
    (
        951_782_399_999,
        "datetime(CURRENT_DATE)",
        "2000-02-28 00:00:00",
    ),
    (951_782_399_999, "date(datetime())", "2000-02-28"),
    (951_782_399_999, "time(CURRENT_TIMESTAMP)", "23:59:59"),
    (951_782_400_000, "CURRENT_TIMESTAMP", "2000-02-29 00:00:00"),
    (951_782_400_000, "current_date", "2000-02-29"),
    (951_782_400_000, "CURRENT_TIME", "00:00:00"),
    (951_782_400_000, "date()", "2000-02-29"),
    (951_868_799_999, "TIME()", "23:59:59"),
    (951_868_799_999, "datetime()", "2000-02-29 23:59:59"),
    (951_868_799_999, "date('now')", "2000-02-29"),
    (951_868_799_999, "time('NOW')", "23:59:59"),
    (951_868_800_000, "DateTime('Now')", "2000-03-01 00:00:00"),
    (
        951_868_800_000,
        "datetime(CURRENT_DATE)",
        "2000-03-01 00:00:00",
    ),
    (951_868_800_000, "date(datetime())", "2000-03-01"),
    (951_868_800_000, "time(CURRENT_TIMESTAMP)", "00:00:00"),
    (
        1_078_012_800_000,
        "CURRENT_TIMESTAMP",
        "2004-02-29 00:00:00",
    ),
    (1_078_012_800_000, "current_date", "2004-02-29"),
    (1_078_012_800_000, "CURRENT_TIME", "00:00:00"),
    (1_078_012_800_000, "date()", "2004-02-29"),
    (1_709_164_800_000, "TIME()", "00:00:00"),
    (1_709_164_800_000, "datetime()", "2024-02-29 00:00:00"),
    (1_709_164_800_000, "date('now')", "2024-02-29"),
    (1_709_164_800_000, "time('NOW')", "00:00:00"),
    (1_709_251_199_999, "DateTime('Now')", "2024-02-29 23:59:59"),
    (
        1_709_251_199_999,
        "datetime(CURRENT_DATE)",
        "2024-02-29 00:00:00",
    ),
    (1_709_251_199_999, "date(datetime())", "2024-02-29"),
    (1_709_251_199_999, "time(CURRENT_TIMESTAMP)", "23:59:59"),
    (
        1_733_000_000_123,
        "CURRENT_TIMESTAMP",
        "2024-11-30 20:53:20",
    ),
    (1_733_000_000_123, "current_date", "2024-11-30"),
    (1_733_000_000_123, "CURRENT_TIME", "20:53:20"),
    (1_733_000_000_123, "date()", "2024-11-30"),
    (4_107_542_399_000, "TIME()", "23:59:59"),
    (4_107_542_399_000, "datetime()", "2100-02-28 23:59:59"),
    (4_107_542_399_000, "date('now')", "2100-02-28"),
    (4_107_542_399_000, "time('NOW')", "23:59:59"),
    (4_107_542_400_000, "DateTime('Now')", "2100-03-01 00:00:00"),
    (
        4_107_542_400_000,
        "datetime(CURRENT_DATE)",
        "2100-03-01 00:00:00",
    ),
    (4_107_542_400_000, "date(datetime())", "2100-03-01"),
    (4_107_542_400_000, "time(CURRENT_TIMESTAMP)", "00:00:00"),
    (
        13_574_563_200_000,
        "CURRENT_TIMESTAMP",
        "2400-02-29 00:00:00",
    ),
    (13_574_563_200_000, "current_date", "2400-02-29"),
    (13_574_563_200_000, "CURRENT_TIME", "00:00:00"),
    (13_574_563_200_000, "date()", "2400-02-29"),
    (32_503_680_000_000, "TIME()", "00:00:00"),
    (32_503_680_000_000, "datetime()", "3000-01-01 00:00:00"),
    (32_503_680_000_000, "date('now')", "3000-01-01"),
    (32_503_680_000_000, "time('NOW')", "00:00:00"),
    (
        253_402_214_400_000,
        "DateTime('Now')",
        "9999-12-31 00:00:00",
    ),
    (
        253_402_214_400_000,
        "datetime(CURRENT_DATE)",
        "9999-12-31 00:00:00",
    ),
    (253_402_214_400_000, "date(datetime())", "9999-12-31"),
    (253_402_214_400_000, "time(CURRENT_TIMESTAMP)", "00:00:00"),
    (
        253_402_300_799_000,
        "CURRENT_TIMESTAMP",
        "9999-12-31 23:59:59",
    ),
    (253_402_300_799_000, "current_date", "9999-12-31"),
    (253_402_300_799_000, "CURRENT_TIME", "23:59:59"),
    (253_402_300_799_000, "date()", "9999-12-31"),
    (253_402_300_799_999, "TIME()", "23:59:59"),
    (253_402_300_799_999, "datetime()", "9999-12-31 23:59:59"),
    (253_402_300_799_999, "date('now')", "9999-12-31"),
    (253_402_300_799_999, "time('NOW')", "23:59:59"),
];

/// The first expression that a statement selects.
fn first_expr(stmt: &Stmt) -> Option<&Expr> {
    match stmt {
        Stmt::Select(select) => match select.results.as_slice().first() {
            Some(ResultItem::Value { expr, alias: _ }) => Some(expr),
            _ => None,
        },
        _ => None,
    }
}

fn is_text(answer: &Result<Value, EvalError>, wanted: &str) -> bool {
    match answer {
        Ok(Value::Text(text)) => text.bytes() == wanted.as_bytes(),
        _ => false,
    }
}

/// Whether the first result of the statement has that text, without a row.
fn gives(alloc: Global, stmt: &Stmt, wanted: &str) -> bool {
    match first_expr(stmt) {
        Some(expr) => {
            let row = RowView {
                scope: &Scope::Empty,
                rowid: 0,
                values: &[],
            };
            let answer = value(alloc, expr, &row);
            let is = is_text(&answer, wanted);
            drop(answer);
            is
        }
        None => false,
    }
}

/// Whether the expression has that value at the moment.
fn has_value(alloc: Global, moment: u64, expr: &str, wanted: &str) -> Result<bool, Fail> {
    let mut text = String::from_str(alloc, "SELECT ")?;
    text.push_str(expr)?;
    let mut draws = draws_of(alloc, &[])?;
    let prepared = prepare(alloc, text.as_bytes(), &Params::None, &mut draws, moment);
    drop(text);
    drop(draws);
    let is = match &prepared {
        Ok(Item::Run(settled)) => gives(alloc, settled.stmt(), wanted),
        _ => false,
    };
    drop(prepared);
    Ok(is)
}

#[test]
fn times_at_moments(rt: HostRuntime) -> Result<(), Fail> {
    for (moment, expr, wanted) in &TIMES {
        assert!(rt;
            has_value(rt.alloc(), *moment, expr, wanted)?,
            "{moment} {expr}"
        );
    }
    Ok(())
}
