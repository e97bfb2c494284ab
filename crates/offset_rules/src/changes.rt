//! The dates and seconds of changes.
ghost use Rattle.std.specs.Prelude.{◌≡◌, ◌≤◌, pos};
ghost use Rattle.{interval_clock.specs.Calendar.{IsDateOf, weekday_of}, offset_rules.specs.Changes.{IsDateOfChange}};
ghost use Rattle.offset_rules.specs.{Common.{IsDate, day_number_of}, Rule.{IsChange}};
ghost use Rattle.offset_rules.specs.Changes as spec;
ghost use Rattle.offset_rules.specs.Summer as spec_summer;

use crate::rules::Change;
use interval_clock::day_number;
use taxi_units::days_of_month;

/// How many seconds a day has.
pub(crate) const SECONDS_OF_DAY: u64 = 86_400;

/// The day number of a date that the calendar has.
fn number_of_date(year: u16, month: u8, date: u8) -> u32
    requires from { 1970 ≤ year }
    requires to { year ≤ 9999 }
    requires there { IsDate year month date }
    ensures value { result ≡ day_number_of year month date }
    ensures date { IsDateOf (pos result) year month date }
{
    day_number(year, month, date).unwrap()
}

/// The first second of a year in UTC.
pub(crate) fn first_second_of(year: u16) -> u64
    requires from { 1970 ≤ year }
    requires to { year ≤ 9999 }
    ensures { result ≡ spec_summer.first_second_of year }
{
    number_of_date(year, 1, 1) as u64 * SECONDS_OF_DAY
}

/// The weekday of a day number.
fn weekday(day: u32) -> u8
    ensures value { result ≡ weekday_of (pos day) }
    ensures range { (1 ≤ result) × (result ≤ 7) }
{
    ((day as u64 + 3) % 7) as u8 + 1
}

/// The date of a change in its month.
pub(crate) fn date_of_change(year: u16, change: Change) -> u8
    requires from { 1970 ≤ year }
    requires to { year ≤ 9999 }
    requires change { IsChange change }
    ensures value { result ≡ spec.date_of_change year change }
    ensures date { IsDateOfChange year change result }
{
    let begins = weekday(number_of_date(year, change.month, 1));
    let first = 1 + (7 + change.weekday - begins) % 7;
    if change.number < 5 {
        first + 7 * (change.number - 1)
    } else {
        let days = days_of_month(year, change.month);
        days - (days - first) % 7
    }
}

/// The second of a change in a year.
pub(crate) fn second_of_change(year: u16, change: Change) -> u64
    requires from { 1970 ≤ year }
    requires to { year ≤ 9999 }
    requires change { IsChange change }
    ensures { result ≡ spec.second_of_change year change }
{
    let day = number_of_date(year, change.month, date_of_change(year, change));
    day as u64 * SECONDS_OF_DAY + change.minute as u64 * 60
}
