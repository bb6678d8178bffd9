//! Functions of texts: LIKE, valid time texts and their parts, characters, hexadecimal digits.
#![tactic(auto)]

mod characters;
mod dates;
mod hex;
mod like;
mod plain;
mod valid_time;

pub use characters::{character_count, is_like_text};
pub use dates::{date_text, date_time_text, time_text};
pub use hex::{digit_count, hex_integer, hex_text};
pub use like::is_like;
pub use plain::plain_text;
pub use valid_time::is_time_text;
