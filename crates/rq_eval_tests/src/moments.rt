//! Moments and what they show.
use rq_moments::{is_in_range, texts_of};
use std::alloc::Global;
use std::test::Fail;

/// Milliseconds since 1970-01-01 00:00:00 UTC, the date and the time of day, as Python's `datetime` gives them.
const MOMENTS: [(u64, &str, &str); 12] = [
    (0, "1970-01-01", "00:00:00"),
    (999, "1970-01-01", "00:00:00"),
    (1_000, "1970-01-01", "00:00:01"),
    (86_399_999, "1970-01-01", "23:59:59"),
    (86_400_000, "1970-01-02", "00:00:00"),
    (951_782_400_000, "2000-02-29", "00:00:00"),
    (951_868_800_000, "2000-03-01", "00:00:00"),
    (1_709_164_800_000, "2024-02-29", "00:00:00"),
    (1_709_251_199_999, "2024-02-29", "23:59:59"),
    (4_107_542_399_000, "2100-02-28", "23:59:59"),
    (1_733_000_000_123, "2024-11-30", "20:53:20"),
    (253_402_300_799_999, "9999-12-31", "23:59:59"),
];

/// Whether the moment shows the date, the time of day, and both.
fn is_shown(alloc: Global, moment: u64, date: &str, time: &str) -> Result<bool, Fail> {
    match texts_of(alloc, moment)? {
        Some(shown) => {
            let both = shown.timestamp.bytes();
            let is = shown.date.bytes() == date.as_bytes()
                && shown.time.bytes() == time.as_bytes()
                && both.len() == 19
                && &both[..10] == date.as_bytes()
                && both[10] == b' '
                && &both[11..] == time.as_bytes();
            drop(shown);
            Ok(is)
        }
        None => Ok(false),
    }
}

#[test]
fn what_moments_show(rt: HostRuntime) -> Result<(), Fail> {
    for (moment, date, time) in &MOMENTS {
        assert!(rt; is_shown(rt.alloc(), *moment, date, time)?, "{date} {time}");
        assert!(rt; is_in_range(*moment));
    }
    Ok(())
}

#[test]
fn no_moment_behind_the_year_9999(rt: HostRuntime) -> Result<(), Fail> {
    for moment in [253_402_300_800_000, u64::MAX] {
        assert!(rt; texts_of(rt.alloc(), moment)?.is_none());
        assert!(rt; !is_in_range(moment));
    }
    Ok(())
}
