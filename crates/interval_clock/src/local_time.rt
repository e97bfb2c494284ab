//! The local date and time of a second.
ghost use Rattle.std.specs.Prelude.{ℤ, ◌%◌, ◌*ℤ◌, ◌*◌, ◌+ℤ◌, ◌+◌, ◌/◌, ◌<◌, ◌≡◌, ◌≤ℤ◌, ◌≤◌, pos};
ghost use Rattle.interval_clock.specs.Calendar.{IsDateOf, date_place, weekday_of};
ghost use Rattle.interval_clock.specs.LocalTime.{HasPartsInRange, IsLocalDay, IsLocalSecond, day_of, local_second};
ghost use Rattle.interval_clock.specs.{LocalTime.{local_time_of, minute_of_day, second_of_day}, Offsets.{IsSecond}};

use crate::day_numbers::{calendar_date, date_of};
use crate::offsets::Offsets;
use std::sync::ledger::Ledger;
use taxi_units::{Steps, date_place};

/// How many seconds a day has.
const SECONDS_OF_DAY: u64 = 86_400;

/// A local date and time, in the proleptic Gregorian calendar.
#[derive(Clone, Copy)]
pub struct LocalTime {
    /// The day number, 0 for 1970-01-01.
    pub day: i32,
    /// The year, 1999 to 2200.
    pub year: u16,
    /// The month, 1 to 12.
    pub month: u8,
    /// The date in the month, 1 to 31.
    pub date: u8,
    /// The day of the week, 1 for Monday to 7 for Sunday.
    pub weekday: u8,
    /// The place of month and date in a leap year, 0 to 365: it is 60 for 1 March of every year.
    pub month_day: u16,
    /// The minute of the day, 0 to 1439.
    pub minute: u16,
    /// The second of the day, 0 to 86,399.
    pub second: u32,
}

/// The local date and time of a second of 946,684,800 to 7,258,118,399, by the offset in force at it.
/// At most 6 steps. That local time is a second plus an offset is this project's own rule.
pub fn civil<L: Ledger>(offsets: &Offsets, second: u64, steps: &mut Steps<L>) -> LocalTime
    requires { IsSecond second }
    ensures value { result ≡ local_time_of (local_second offsets.now second) }
    ensures day { result.day ≡ day_of (local_second offsets.now second) }
    ensures date { IsDateOf result.day result.year result.month result.date }
    ensures weekday { result.weekday ≡ weekday_of result.day }
    ensures month_day { result.month_day ≡ date_place result.month result.date }
    ensures minute { result.minute ≡ minute_of_day (local_second offsets.now second) }
    ensures second { result.second ≡ second_of_day (local_second offsets.now second) }
    ensures ranges { HasPartsInRange result }
    ensures steps { steps.new ≤ steps.old + 6 }
    ensures read { steps.old + 1 ≤ steps.new }
{
    local_time((second as i64 + offsets.at(second, steps) as i64) as u64)
}

/// The local date and time at a local second.
fn local_time(local: u64) -> LocalTime
    requires { IsLocalSecond local }
    ensures value { result ≡ local_time_of (pos local) }
    ensures day { result.day ≡ day_of (pos local) }
    ensures date { IsDateOf result.day result.year result.month result.date }
    ensures ranges { HasPartsInRange result }
{
    on_day(
        (local / SECONDS_OF_DAY) as i32,
        (local % SECONDS_OF_DAY) as u32,
    )
}

/// The local date and time at a second of a day.
fn on_day(day: i32, second: u32) -> LocalTime
    requires day { IsLocalDay day }
    requires second { second < 86400 }
    ensures from { pos 0 ≤ℤ result.day }
    ensures day { result.day ≡ day }
    ensures date { IsDateOf result.day result.year result.month result.date }
    ensures weekday { result.weekday ≡ weekday_of result.day }
    ensures month_day { result.month_day ≡ date_place result.month result.date }
    ensures minute { result.minute ≡ second / 60 }
    ensures second { result.second ≡ second }
    ensures ranges { HasPartsInRange result }
{
    let there = date_of(day);
    let date = calendar_date(there);
    LocalTime {
        day,
        year: date.year,
        month: date.month,
        date: date.date,
        weekday: there.weekday().to_monday_one_offset() as u8,
        month_day: date_place(date.month, date.date),
        minute: (second / 60) as u16,
        second,
    }
}

/// A law: the day and the second of the day of a local second add up to it, and the minute of the day
/// is the number of whole minutes in the second of the day.
pub fn local_times_add_up()
    ensures sum { (local : ℤ) → day_of local *ℤ pos 86400 +ℤ pos (second_of_day local) ≡ local }
    ensures within { (local : ℤ) → second_of_day local < 86400 }
    ensures minute { (local : ℤ) → minute_of_day local * 60 + second_of_day local % 60 ≡ second_of_day local }
{}
