//! Dates and times, read back.
ghost use Rattle.std.specs.Prelude.{◌+◌, ◌<◌, IfSome};
ghost use Rattle.{taxi_units.specs.Reading.{GivesSame}, receipt_reading.specs.Common.{Gives}};
ghost use Rattle.receipt_text.specs.Dates as spec;

use crate::figures::{number_behind, number_below};
use interval_clock::{CalendarDate, day_number};
use seal_record::{FIRST_DAY, LAST_DAY};
use taxi_units::{Stamp, word};

/// A date at the front of a text, and the text behind it.
#[tactic(auto, unfolding(receipt_text::specs::Dates::date_at))]
fn date_at(text: &[u8]) -> Option<(CalendarDate, &[u8])>
    ensures value { Gives (λ x. (x.0, x.1.now)) result (spec.date_at text.now) }
    ensures year { IfSome result (λ x. x.0.year < 10000) }
{
    let (year, text) = number_below(text, 10_000)?;
    let (month, text) = number_behind(text, b"-", 100)?;
    let (date, text) = number_behind(text, b"-", 100)?;
    let date = CalendarDate {
        year: year as u16,
        month: month as u8,
        date: date as u8,
    };
    Some((date, text))
}

/// The day number of a date at the front of a text, of the years 2000 to 2199, and the text behind it.
#[tactic(auto, unfolding(receipt_text::specs::Dates::day_at))]
pub fn day_at(text: &[u8]) -> Option<(i32, &[u8])>
    ensures { Gives (λ x. (x.0, x.1.now)) result (spec.day_at text.now) }
{
    let (date, rest) = date_at(text)?;
    let day = day_of(date)?;
    Some((day, rest))
}

/// The day number of a date of the years 2000 to 2199.
fn day_of(date: CalendarDate) -> Option<i32>
    requires { date.year < 10000 }
    ensures { GivesSame result (spec.day_of date) }
{
    if date.year < 1970 {
        return None;
    }
    let day = day_number(date.year, date.month, date.date)?;
    if FIRST_DAY as u32 <= day && day <= LAST_DAY as u32 {
        Some(day as i32)
    } else {
        None
    }
}

/// A time of the day at the front of a text, as its second, and the text behind it.
#[tactic(auto, unfolding(receipt_text::specs::Dates::time_at))]
fn time_at(text: &[u8]) -> Option<(u32, &[u8])>
    ensures { Gives (λ x. (x.0, x.1.now)) result (spec.time_at text.now) }
{
    let (hours, text) = number_below(text, 100)?;
    let (minutes, text) = number_behind(text, b":", 100)?;
    let (seconds, text) = number_behind(text, b":", 100)?;
    Some(((hours * 3600 + minutes * 60 + seconds) as u32, text))
}

/// A local date and time at the front of a text, and the text behind it.
#[tactic(auto, unfolding(receipt_text::specs::Dates::stamp_at))]
fn stamp_at(text: &[u8]) -> Option<(Stamp, &[u8])>
    ensures { Gives (λ x. (x.0, x.1.now)) result (spec.stamp_at text.now) }
{
    let (date, text) = date_at(text)?;
    let text = word(text, b" ")?;
    let (second, text) = time_at(text)?;
    let stamp = Stamp {
        year: date.year,
        month: date.month,
        date: date.date,
        second,
    };
    Some((stamp, text))
}

/// The local date and time behind a word at the front of a text, and the text behind them.
pub fn stamp_behind<'a>(text: &'a [u8], before: &[u8]) -> Option<(Stamp, &'a [u8])>
    ensures { Gives (λ x. (x.0, x.1.now)) result (spec.stamp_behind before.now text.now) }
{
    stamp_at(word(text, before)?)
}
