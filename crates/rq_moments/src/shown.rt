//! What a moment shows: its date, its time of day, and both.
ghost use Rattle.std.specs.Prelude.{◌≡◌, ◌++◌, ◌%◌, ◌/◌, true, pos, IfOk, IfSome, IfNone, OnOk, false, codes, unsigned_abs};
ghost use Rattle.jiff_core.specs.Date.{epoch_day};
ghost use Rattle.rq_values.specs.Text.{is_plain};
ghost use Rattle.rq_moments.specs.Moment as spec;

use jiff_core::civil::Date;
use rq_values::{NoMemory, Text, TryCopy};
use std::alloc::Global;

/// The last millisecond of the year 9999, in milliseconds since 1970-01-01.
pub const LAST_MOMENT: u64 = 253_402_300_799_999;

/// The texts of a moment.
pub struct Shown {
    /// `YYYY-MM-DD HH:MM:SS`
    pub timestamp: Text,
    /// `YYYY-MM-DD`
    pub date: Text,
    /// `HH:MM:SS`
    pub time: Text,
}

impl Drop for Shown {
    fn drop(self) {
        let Shown {
            timestamp,
            date,
            time,
        } = self;
        drop(timestamp);
        drop(date);
        drop(time);
    }
}

/// Whether the moment lies in the years up to 9999.
pub fn is_in_range(moment: u64) -> bool
    ensures { result ≡ spec.is_in_range moment }
{
    moment <= LAST_MOMENT
}

/// A text of these bytes.
fn plain_text(alloc: Global, plain: &[u8]) -> Result<Text, NoMemory>
    requires { is_plain plain.now ≡ true }
    ensures { IfOk result (λ text. text ≡ plain.now) }
{
    let mut text = Text::empty(alloc);
    match text.push_plain(plain) {
        Ok(()) => Ok(text),
        Err(error) => {
            drop(text);
            Err(error)
        }
    }
}

/// The digit of a number below ten.
fn digit(n: u32) -> u8
    ensures { result ≡ spec.digit n }
{
    b'0' + (n % 10) as u8
}

/// `YYYY-MM-DD`
fn date_digits(year: u32, month: u8, day: u8) -> [u8; 10]
    ensures { result ≡ spec.date_digits year month day }
{
    let (month, day) = (month as u32, day as u32);
    [
        digit(year / 1000),
        digit(year / 100),
        digit(year / 10),
        digit(year),
        b'-',
        digit(month / 10),
        digit(month),
        b'-',
        digit(day / 10),
        digit(day),
    ]
}

/// `HH:MM:SS` of so many seconds of a day.
fn time_digits(seconds: u32) -> [u8; 8]
    ensures { result ≡ spec.time_digits seconds }
{
    let minutes = seconds / 60;
    let hours = minutes / 60;
    [
        digit(hours / 10),
        digit(hours),
        b':',
        digit(minutes % 60 / 10),
        digit(minutes % 60),
        b':',
        digit(seconds % 60 / 10),
        digit(seconds % 60),
    ]
}

/// The civil date of the moment, none where it is out of range.
fn date_of(moment: u64) -> Option<Date>
    ensures some { IfSome result (λ d. (spec.is_in_range moment ≡ true) × (epoch_day d ≡ pos (moment / 86_400_000))) }
    ensures none { IfNone result (spec.is_in_range moment ≡ false) }
{
    if moment > LAST_MOMENT {
        return None;
    }
    match Date::from_unix_epoch_day((moment / 86_400_000) as i64) {
        Ok(date) => Some(date),
        Err(_) => None,
    }
}

#[tactic(auto, using(crate::proofs::Digits::date_plain))]
fn date_text(alloc: Global, date: Date) -> Result<Text, NoMemory>
    ensures { IfOk result (λ text. text ≡ spec.date_digits (unsigned_abs date.year) date.month date.day) }
{
    let year = date.year.unsigned_abs() as u32;
    plain_text(alloc, date_digits(year, date.month, date.day).as_slice())
}

#[tactic(auto, using(crate::proofs::Digits::time_plain))]
fn time_text(alloc: Global, seconds: u32) -> Result<Text, NoMemory>
    ensures { IfOk result (λ text. text ≡ spec.time_digits seconds) }
{
    plain_text(alloc, time_digits(seconds).as_slice())
}

fn put_time(text: &mut Text, time: &Text) -> Result<(), NoMemory>
    ensures { OnOk result (text.new ≡ text.old ++ codes " " ++ time.now) }
{
    text.push_plain(b" ")?;
    text.push_text(time)
}

/// Both, with a blank between.
fn timestamp_text(alloc: Global, date: &Text, time: &Text) -> Result<Text, NoMemory>
    ensures { IfOk result (λ text. text ≡ date.now ++ codes " " ++ time.now) }
{
    let mut text = date.copy(alloc)?;
    match put_time(&mut text, time) {
        Ok(()) => Ok(text),
        Err(error) => {
            drop(text);
            Err(error)
        }
    }
}

fn shown_parts(alloc: Global, date: Text, time: Text) -> Result<Shown, NoMemory>
    ensures { IfOk result (λ shown. spec.HasParts shown date time) }
{
    match timestamp_text(alloc, &date, &time) {
        Ok(timestamp) => Ok(Shown {
            timestamp,
            date,
            time,
        }),
        Err(error) => {
            drop(date);
            drop(time);
            Err(error)
        }
    }
}

fn shown_of(alloc: Global, date: Date, moment: u64) -> Result<Shown, NoMemory>
    requires { epoch_day date ≡ pos (moment / 86_400_000) }
    ensures { IfOk result (spec.IsShown moment) }
{
    let date = date_text(alloc, date)?;
    match time_text(alloc, (moment / 1000 % 86_400) as u32) {
        Ok(time) => shown_parts(alloc, date, time),
        Err(error) => {
            drop(date);
            Err(error)
        }
    }
}

/// What the moment shows, none exactly where it is out of range.
pub fn texts_of(alloc: Global, moment: u64) -> Result<Option<Shown>, NoMemory>
    ensures { IfOk result (spec.MayShow moment) }
{
    match date_of(moment) {
        Some(date) => Ok(Some(shown_of(alloc, date, moment)?)),
        None => Ok(None),
    }
}
