//! Moments as civil date-times in text. A moment is a count of milliseconds since 1970-01-01 00:00:00 UTC; milliseconds are dropped.
//! The calendar is that of the toolchain's `jiff_core`, which no other library needs to load.
#![tactic(auto)]

mod laws;
mod shown;

pub use laws::each_moment_shows_one;
pub use shown::{LAST_MOMENT, Shown, is_in_range, texts_of};
