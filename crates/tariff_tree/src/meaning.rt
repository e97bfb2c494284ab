//! Whether a condition holds, and which rate, which initial hire fee and which minimum fare hold first.
ghost use Rattle.std.specs.Prelude.{◌≡◌};
ghost use Rattle.tariff_tree.specs.Condition.{condition_if, condition_of};
ghost use Rattle.tariff_tree.specs.Meaning.{at_hiring, holds, holds_if, initial_place, is_by, is_in_dates, is_in_time};
ghost use Rattle.tariff_tree.specs.{Meaning.{is_on, is_within, minimum_place, rate_place}, Tree.{tree_of}};

use crate::condition::Cond;
use crate::context::Context;
use crate::tariff::{Item, Tariff};
use drive_modes::reached;
use taxi_units::date_of_place;

/// Whether a condition holds in a context. Dates are compared by month and date, even if no year has them. A context
/// whose place is above 365 has no date, and no range of dates holds in it. The right part is asked first: conditions
/// join from the left, so a long one is no deep recursion.
pub fn sat(cond: &Cond, x: &Context) -> bool
    ensures { result ≡ holds (condition_of cond.now) x.now }
{
    match cond {
        Cond::And(left, right) => sat(right, x) && sat(left, x),
        Cond::Or(left, right) => sat(right, x) || sat(left, x),
        Cond::Not(inner) => !sat(inner, x),
        Cond::Position(number) => x.position == *number,
        Cond::Zone(number) => x.zone == *number,
        Cond::Time { from, to } => is_in_time(*from, *to, x.minute),
        Cond::Day { from, to } => is_within(*from as u16, *to as u16, x.weekday as u16),
        Cond::Date { from, to } => is_on(*from, *to, date_of_place(x.month_day)),
        Cond::Holiday => x.holiday,
        Cond::AfterDistance(decimetres) => reached(x.constant, x.pulses, *decimetres),
        Cond::AfterTime(tenths) => *tenths <= x.ticks as u64,
    }
}

/// The rate of a context: the first rate line that has no condition or whose condition holds, by its place among the
/// rate lines, from 0. `None` exactly if there is none.
pub fn rate_of(tariff: &Tariff, x: &Context) -> Option<usize>
    ensures { result ≡ rate_place (tree_of tariff.now) x.now }
{
    let mut place = 0;
    for line in tariff.lines.as_slice() {
        if let Item::Rate(rate) = &line.item {
            if sat_if(&rate.cond, x) {
                return Some(place);
            }
            place += 1;
        }
    }
    None
}

/// The initial hire fee of a context: the first initial line that has no condition or whose condition holds with no
/// pulse and no tick of the trip, by its place among the initial lines, from 0. `None` exactly if there is none.
pub fn initial_of(tariff: &Tariff, x: &Context) -> Option<usize>
    ensures { result ≡ initial_place (tree_of tariff.now) x.now }
{
    let hiring = hiring(x);
    let mut place = 0;
    for line in tariff.lines.as_slice() {
        if let Item::Initial(initial) = &line.item {
            if sat_if(&initial.cond, &hiring) {
                return Some(place);
            }
            place += 1;
        }
    }
    None
}

/// The minimum fare of a context: the first minimum line that has no condition or whose condition holds with no pulse
/// and no tick of the trip, by its place among the minimum lines, from 0. `None` exactly if there is none.
pub fn minimum_of(tariff: &Tariff, x: &Context) -> Option<usize>
    ensures { result ≡ minimum_place (tree_of tariff.now) x.now }
{
    let hiring = hiring(x);
    let mut place = 0;
    for line in tariff.lines.as_slice() {
        if let Item::Minimum(minimum) = &line.item {
            if sat_if(&minimum.cond, &hiring) {
                return Some(place);
            }
            place += 1;
        }
    }
    None
}

/// A context at the hiring, with no pulse and no tick of the trip.
fn hiring(x: &Context) -> Context
    ensures { result ≡ at_hiring x.now }
{
    Context {
        pulses: 0,
        ticks: 0,
        ..*x
    }
}

/// Whether a line that may have a condition holds.
fn sat_if(cond: &Option<Cond>, x: &Context) -> bool
    ensures { result ≡ holds_if x.now (condition_if cond.now) }
{
    match cond {
        Some(cond) => sat(cond, x),
        None => true,
    }
}

/// Whether a minute is from one to before the other, over midnight if the first is the later one.
fn is_in_time(from: u16, to: u16, minute: u16) -> bool
    ensures { result ≡ is_in_time from to minute }
{
    if from <= to {
        from <= minute && minute < to
    } else {
        from <= minute || minute < to
    }
}

/// Whether a number is from one to the other, over the highest if the first is the greater one.
fn is_within(from: u16, to: u16, n: u16) -> bool
    ensures { result ≡ is_within from to n }
{
    if from <= to {
        from <= n && n <= to
    } else {
        from <= n || n <= to
    }
}

/// Whether a date is from one to the other, both included, over the year's end if the first is the later one. Without a
/// date it isn't.
fn is_on(from: (u8, u8), to: (u8, u8), date: Option<(u8, u8)>) -> bool
    ensures { result ≡ is_on from to date }
{
    match date {
        Some(date) => is_in_dates(from, to, date),
        None => false,
    }
}

/// Whether a month and date is from one to the other, over the year's end if the first is the later one.
fn is_in_dates(from: (u8, u8), to: (u8, u8), date: (u8, u8)) -> bool
    ensures { result ≡ is_in_dates from to date }
{
    if is_by(from, to) {
        is_by(from, date) && is_by(date, to)
    } else {
        is_by(from, date) || is_by(date, to)
    }
}

/// Whether a month and date comes before another in the year, or is that one.
fn is_by(first: (u8, u8), second: (u8, u8)) -> bool
    ensures { result ≡ is_by first second }
{
    first.0 < second.0 || (first.0 == second.0 && first.1 <= second.1)
}
