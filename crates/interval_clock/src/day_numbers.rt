//! Dates and their day numbers, which count the days from 1970-01-01 on.
ghost use Rattle.std.specs.Prelude.{ℕ, ℤ, ◌≡◌, ◌≤ℤ◌, ◌≤◌, IfSome, None, Some, if◌then◌else◌, pos};
ghost use Rattle.jiff.specs.Words.{IsBetween, epoch_day};
ghost use Rattle.interval_clock.specs.Calendar.{IsDate, IsDateOf, date_after, day_number_of, is_date};

use jiff::ToSpan;
use jiff::civil::{Date, date};

/// A date of the proleptic Gregorian calendar: a year, the month from 1 and the date of the month from 1.
#[derive(Clone, Copy)]
pub struct CalendarDate {
    pub year: u16,
    pub month: u8,
    pub date: u8,
}

/// The day number of a date, which is the number of days since 1970-01-01, for a year of 1970 to 9999.
/// `None` exactly if the calendar has no such date.
pub fn day_number(year: u16, month: u8, date: u8) -> Option<u32>
    requires from { 1970 ≤ year }
    requires to { year ≤ 9999 }
    ensures value { result ≡ (if is_date year month date then Some (day_number_of year month date) else None) }
    ensures date { IfSome result (λ day. IsDateOf (pos day) year month date) }
{
    if month > 12 || date > 31 {
        return None;
    }
    match Date::new(year as i16, month as i8, date as i8) {
        Ok(day) => Some(days_since_1970(day)),
        Err(_) => None,
    }
}

/// The date of a day number: of 10,592, which is 1999-01-01, to 84,006, which is 2200-01-01.
pub fn date_of_day(day: u32) -> CalendarDate
    requires from { 10592 ≤ day }
    requires to { day ≤ 84006 }
    ensures value { result ≡ date_after day }
    ensures date { IsDateOf (pos day) result.year result.month result.date }
    ensures year { (1999 ≤ result.year) × (result.year ≤ 2200) }
{
    calendar_date(date_of(day as i32))
}

/// A law: a date from 1970 on has one day number, and a day number one date.
pub fn dates_have_day_numbers()
    ensures there { (year month date : ℕ) → 1970 ≤ year → IsDate year month date
        → IsDateOf (pos (day_number_of year month date)) year month date }
    ensures one_day { (day : ℤ) (year month date : ℕ) → 1970 ≤ year → IsDateOf day year month date
        → day ≡ pos (day_number_of year month date) }
    ensures one_date { (day : ℤ) (a b : CalendarDate) → IsDateOf day a.year a.month a.date
        → IsDateOf day b.year b.month b.date → a ≡ b }
{}

/// The number of days from 1970-01-01 to a date that isn't earlier.
fn days_since_1970(day: Date) -> u32
    requires { pos 0 ≤ℤ epoch_day day }
    ensures { pos result ≡ epoch_day day }
{
    (day.duration_since(date(1970, 1, 1)).as_hours() / 24) as u32
}

/// The date of a day number, as jiff's. jiff's dates go to the year 9999, far beyond these.
pub(crate) fn date_of(day: i32) -> Date
    requires { IsBetween (pos 0) (pos 100000) day }
    ensures { epoch_day result ≡ day }
{
    date(1970, 1, 1) + (day as i64).days()
}

/// A date of jiff's as this crate's, of 1999-01-01 to 2200-01-01. Its year isn't negative.
pub(crate) fn calendar_date(day: Date) -> CalendarDate
    requires { IsBetween (pos 10592) (pos 84006) (epoch_day day) }
    ensures date { IsDateOf (epoch_day day) result.year result.month result.date }
    ensures year { (1999 ≤ result.year) × (result.year ≤ 2200) }
    ensures month { (1 ≤ result.month) × (result.month ≤ 12) }
    ensures day { (1 ≤ result.date) × (result.date ≤ 31) }
{
    CalendarDate {
        year: day.year() as u16,
        month: day.month() as u8,
        date: day.day() as u8,
    }
}
