//! The days of a meter, and what two tariffs ask of each.
ghost use Rattle.std.specs.{List.{list_any}, Prelude.{◌<◌, ◌≡◌, ◌≤◌, IfOk, OnOk, pos}};
ghost use Rattle.tariff_compare.specs.{Common.{IsFromTo, count_at_most, weekday_of}, Grids.{with_day}};
ghost use Rattle.tariff_compare.specs.Grids.{day_at, day_count, day_in, days_until, is_alike, is_edge, is_same};
ghost use Rattle.tariff_compare.specs.Sides.{is_holiday_among};

use interval_clock::date_of_day;
use std::alloc::Global;
use tariff_calendar::{Cuts, count_at_most};
use tariff_check::Dimension;
use tariff_compile::Tables;
use taxi_units::{NoMemory, date_place};

/// A day by its number since 1970-01-01, and what two tariffs ask of it: its weekday and its place in a leap year. For
/// each tariff it says whether the day is a holiday, and how many cuts it has reached.
#[derive(Clone, Copy)]
pub(crate) struct Day {
    pub(crate) number: u32,
    pub(crate) weekday: u8,
    pub(crate) month_day: u16,
    pub(crate) holiday: bool,
    pub(crate) other_holiday: bool,
    pub(crate) band: usize,
    pub(crate) other_band: usize,
}

/// How many days a meter has, from 1999-12-31 to 2200-01-01.
const DAYS: u32 = 73_051;

/// The days of a meter of which two tariffs ask different things, in the order of days. Each is like none before it.
#[tactic(auto, using(crate::proofs::Days::days_none))]
pub(crate) fn different_days(
    alloc: Global,
    one: &Tables,
    other: &Tables,
) -> Result<Vec<Day>, NoMemory>
    ensures { IfOk result (λ days. days.items ≡ days_until one.now other.now day_count) }
{
    let mut days: Vec<Day> = Vec::new(alloc);
    for place in 0..DAYS {
        put_day(&mut days, day_in(one, other, day_at(place)))?;
    }
    Ok(days)
}

/// Puts a day behind others, if it is like none of them.
fn put_day(days: &mut Vec<Day>, day: Day) -> Result<(), NoMemory>
    ensures { OnOk result (days.new.items ≡ with_day days.old.items day) }
{
    if has_alike(days.as_slice(), day) {
        return Ok(());
    }
    days.push(day).map_err(|_| NoMemory)
}

/// The day at a place in the order of days: from 2026-01-01 to 2200-01-01, and then from 1999-12-31 on.
fn day_at(place: u32) -> u32
    requires { place < day_count }
    ensures value { result ≡ day_at place }
    ensures from { 10956 ≤ result }
    ensures to { result ≤ 84006 }
{
    if place < 63_553 {
        20_454 + place
    } else {
        place - 52_597
    }
}

/// What two tariffs ask of a day.
pub(crate) fn day_in(one: &Tables, other: &Tables, number: u32) -> Day
    requires from { 10956 ≤ number }
    requires to { number ≤ 84006 }
    ensures { result ≡ day_in one.now other.now number }
{
    let date = date_of_day(number);
    let month_day = date_place(date.month, date.date);
    Day {
        number,
        weekday: weekday_of(number),
        month_day,
        holiday: is_among(one.cuts().holidays(), number),
        other_holiday: is_among(other.cuts().holidays(), number),
        band: band(one.cuts(), month_day),
        other_band: band(other.cuts(), month_day),
    }
}

/// The weekday of a day number.
#[tactic(auto, using(crate::proofs::Times::weekday_is))]
pub(crate) fn weekday_of(number: u32) -> u8
    requires { number ≤ 84006 }
    ensures value { result ≡ weekday_of (pos number) }
    ensures range { IsFromTo 1 7 result }
{
    ((number + 3) % 7 + 1) as u8
}

/// How many cuts of days a place in a leap year has reached.
fn band(cuts: &Cuts, month_day: u16) -> usize
    ensures { result ≡ count_at_most month_day cuts.now.month_days }
{
    count_at_most(month_day as u64, cuts.list(Dimension::MonthDay))
}

/// Whether a day is among holidays.
fn is_among(holidays: &[u64], number: u32) -> bool
    ensures { result ≡ is_holiday_among holidays.now number }
{
    for holiday in holidays {
        if *holiday == number as u64 {
            return true;
        }
    }
    false
}

/// Whether a day is like one of others.
fn has_alike(days: &[Day], day: Day) -> bool
    ensures { result ≡ list_any (λ d. is_alike d day) days.now }
{
    for other in days {
        if is_alike(*other, day) {
            return true;
        }
    }
    false
}

/// Whether two days are alike: neither is at an edge of the meter's days, and both tariffs ask the same of them.
fn is_alike(one: Day, other: Day) -> bool
    ensures { result ≡ is_alike one other }
{
    !is_edge(one.number)
        && !is_edge(other.number)
        && one.weekday == other.weekday
        && one.band == other.band
        && one.other_band == other.other_band
        && is_same(one.holiday, other.holiday)
        && is_same(one.other_holiday, other.other_holiday)
}

/// Whether a day is at an edge of the meter's days: 1999-12-31 or 2200-01-01.
fn is_edge(number: u32) -> bool
    ensures { result ≡ is_edge number }
{
    number == 10_956 || number == 84_006
}

/// Whether two truth values are the same.
fn is_same(one: bool, other: bool) -> bool
    ensures { result ≡ is_same one other }
{
    if one { other } else { !other }
}
