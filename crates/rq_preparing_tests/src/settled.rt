//! Random words and moments in statements.
use crate::preparing::{Asked, is_prepared, is_prepared_with};
use rq_outside::{ScriptDraws, SureDraws};
use rq_request::Params;
use std::alloc::Global;
use std::test::Fail;

/// A text, the words to come, the moment, and the canonical text of what runs, for which all words are taken.
const SETTLED: [(&str, &[u64], u64, &str); 16] = [
    (
        "INSERT INTO r VALUES (RANDOM(), random())",
        &[2, 5],
        0,
        "INSERT INTO \"r\" VALUES (1, 2)",
    ),
    (
        "SELECT datetime('now')",
        &[],
        0,
        "SELECT DATETIME('1970-01-01 00:00:00')",
    ),
    (
        "SELECT datetime('NoW')",
        &[],
        253_402_300_799_999,
        "SELECT DATETIME('9999-12-31 23:59:59')",
    ),
    (
        "SELECT CURRENT_TIMESTAMP, CURRENT_DATE, CURRENT_TIME",
        &[],
        951_782_400_000,
        "SELECT '2000-02-29 00:00:00', '2000-02-29', '00:00:00'",
    ),
    (
        "SELECT date(), time(), datetime()",
        &[],
        1_709_251_199_999,
        "SELECT DATE('2024-02-29 23:59:59'), TIME('2024-02-29 23:59:59'), DATETIME('2024-02-29 23:59:59')",
    ),
    (
        "SELECT randomblob(3), RANDOMBLOB(9)",
        &[0x0807_0605_0403_0201, 0x1817_1615_1413_1211, 0x28],
        0,
        "SELECT X'010203', X'111213141516171828'",
    ),
    (
        "SELECT randomblob(8), randomblob(1), random()",
        &[0x0807_0605_0403_0201, 0xFF, 3],
        0,
        "SELECT X'0102030405060708', X'FF', 1",
    ),
    (
        "SELECT random() WHERE random() + 1 ORDER BY current_date LIMIT 5",
        &[7, 9],
        86_400_000,
        "SELECT 3 WHERE (4 + 1) ORDER BY '1970-01-02' LIMIT 5",
    ),
    (
        "SELECT random(1), randomblob(), date(a), date('2000-01-01'), time('now', 1)",
        &[],
        0,
        "SELECT RANDOM(1), RANDOMBLOB(), DATE(\"a\"), DATE('2000-01-01'), TIME('now', 1)",
    ),
    (
        "UPDATE t SET a = random() IN (random(), 2) WHERE b BETWEEN random() AND -random()",
        &[2, 4, 6, 8],
        0,
        "UPDATE \"t\" SET \"a\" = (1 IN (2, 2)) WHERE (\"b\" BETWEEN 3 AND -(4))",
    ),
    (
        "DELETE FROM t WHERE a = -random()",
        &[18_446_744_073_709_551_615],
        0,
        "DELETE FROM \"t\" WHERE (\"a\" = -(9223372036854775807))",
    ),
    (
        "INSERT INTO t(a) SELECT date(current_timestamp) FROM t",
        &[],
        4_107_542_400_000,
        "INSERT INTO \"t\" (\"a\") SELECT DATE('2100-03-01 00:00:00') FROM \"t\"",
    ),
    (
        "INSERT INTO t(a) SELECT random() FROM t LIMIT random() OFFSET random()",
        &[2, 4, 6],
        0,
        "INSERT INTO \"t\" (\"a\") SELECT 1 FROM \"t\" LIMIT 2 OFFSET 3",
    ),
    (
        "SELECT abs(random()), length(randomblob(2))",
        &[10, 0x4241],
        0,
        "SELECT ABS(5), LENGTH(X'4142')",
    ),
    (
        "CREATE TABLE t (a INTEGER)",
        &[],
        253_402_300_800_000,
        "CREATE TABLE \"t\" (\"a\" INTEGER)",
    ),
    (
        "SELECT 'now', DATE('now ')",
        &[],
        253_402_300_800_000,
        "SELECT 'now', DATE('now ')",
    ),
];

#[test]
fn settled_statements(rt: HostRuntime) -> Result<(), Fail> {
    for (text, words, moment, wanted) in &SETTLED {
        let asked = Asked {
            text,
            words,
            moment: *moment,
        };
        assert!(rt;
            is_prepared(rt.alloc(), &asked, &Params::None, wanted, 0)?,
            "{text}"
        );
    }
    Ok(())
}

/// A text, the words to come, the moment, the error, and how many words are left then: those of the nodes before the refused
/// place are taken.
const REFUSED: [(&str, &[u64], u64, &str, usize); 16] = [
    (
        "INSERT INTO r VALUES (RANDOM(), RANDOM())",
        &[2],
        0,
        "random words",
        0,
    ),
    ("SELECT randomblob(9)", &[1], 0, "random words", 0),
    (
        "SELECT now(), random(), current_date FROM t ORDER BY a, random()",
        &[1, 2, 3],
        0,
        "random in ORDER BY",
        2,
    ),
    (
        "SELECT 1 ORDER BY randomblob('x')",
        &[],
        0,
        "random in ORDER BY",
        0,
    ),
    (
        "SELECT randomblob(random())",
        &[1, 2],
        0,
        "blob size is no number",
        2,
    ),
    (
        "SELECT random(), randomblob('x')",
        &[1, 2],
        0,
        "blob size is no number",
        1,
    ),
    (
        "SELECT random(), randomblob(0)",
        &[1, 2],
        0,
        "blob size out of range: 0",
        1,
    ),
    (
        "SELECT randomblob(1025), random()",
        &[1, 2],
        0,
        "blob size out of range: 1025",
        2,
    ),
    (
        "SELECT randomblob(-1)",
        &[],
        0,
        "blob size out of range: -1",
        0,
    ),
    (
        "SELECT random(), date('now'), random()",
        &[1, 2, 3],
        253_402_300_800_000,
        "moment out of range: 253402300800000",
        2,
    ),
    (
        "SELECT CURRENT_TIME",
        &[],
        18_446_744_073_709_551_615,
        "moment out of range: 18446744073709551615",
        0,
    ),
    ("SELECT random() FROM", &[1], 0, "incomplete input", 1),
    (
        "SELECT random() FROM FROM",
        &[1],
        0,
        "near \"FROM\": syntax error",
        1,
    ),
    ("SELECT random() + 1.5", &[1], 0, "not in profile: 1.5", 1),
    (
        "SELECT ?, :a",
        &[],
        0,
        "wrong number of parameters: needed 1, given 0",
        0,
    ),
    (
        "SELECT random(), ?",
        &[1],
        0,
        "wrong number of parameters: needed 1, given 0",
        1,
    ),
];

#[test]
fn refused_statements(rt: HostRuntime) -> Result<(), Fail> {
    for (text, words, moment, wanted, left) in &REFUSED {
        let asked = Asked {
            text,
            words,
            moment: *moment,
        };
        assert!(rt;
            is_prepared(rt.alloc(), &asked, &Params::None, wanted, *left)?,
            "{text}"
        );
    }
    Ok(())
}

/// So many blobs of 1,024 bytes.
fn blobs(alloc: Global, count: usize) -> Result<String, Fail> {
    let mut text = String::from_str(alloc, "SELECT randomblob(1024)")?;
    for _ in 1..count {
        text.push_str(", randomblob(1024)")?;
    }
    Ok(text)
}

/// Whether the text is prepared as what is shown so, with words that never end.
fn is_large(alloc: Global, text: &str, wanted: &str) -> Result<bool, Fail> {
    let mut draws = SureDraws::new(Vec::new(alloc));
    let asked = Asked {
        text,
        words: &[],
        moment: 0,
    };
    let is = is_prepared_with(alloc, &asked, &Params::None, &mut draws, wanted);
    drop(draws);
    Ok(is)
}

#[test]
fn canonical_text_has_a_limit(rt: HostRuntime) -> Result<(), Fail> {
    let alloc = rt.alloc();
    let text = blobs(alloc, 2_051)?;
    let is = is_large(alloc, text.as_str(), "statement too large: 4210708");
    drop(text);
    assert!(rt; is?);
    Ok(())
}

/// Whether the text is prepared as what is shown so, where the second draw fails.
fn is_failed(alloc: Global, text: &str, wanted: &str) -> Result<bool, Fail> {
    let words = Vec::from_slice(alloc, &[2, 5, 8])?;
    let fails = Vec::from_slice(alloc, &[2])?;
    let mut draws = ScriptDraws::new(words, fails);
    let asked = Asked {
        text,
        words: &[],
        moment: 0,
    };
    let is = is_prepared_with(alloc, &asked, &Params::None, &mut draws, wanted);
    drop(draws);
    Ok(is)
}

#[test]
fn a_fault_of_the_draws_is_told(rt: HostRuntime) -> Result<(), Fail> {
    let alloc = rt.alloc();
    assert!(rt; is_failed(alloc, "SELECT random()", "SELECT 1")?);
    assert!(rt; is_failed(alloc, "SELECT random(), random()", "random words")?);
    Ok(())
}
