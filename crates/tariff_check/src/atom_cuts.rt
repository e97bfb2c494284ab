//! The cuts of an atom.
ghost use Rattle.std.specs.Prelude.{◌≡◌, None};
ghost use Rattle.tariff_check.specs.{Common.{Distance, Minute, MonthDay, Time, condition_of}, Rules.{cut_list}};
ghost use Rattle.tariff_check.specs.Cuts.{atom_cuts, day_cut, minute_cut};

use crate::fault::Dimension;
use tariff_tree::Cond;
use taxi_units::date_place;

/// The cuts of an atom in a dimension, at most two. What is no atom has none.
pub(crate) fn atom_cuts(dimension: Dimension, cond: &Cond) -> (Option<u64>, Option<u64>)
    ensures { cut_list result ≡ atom_cuts dimension (condition_of cond.now) }
{
    match dimension {
        Dimension::MonthDay => days(cond),
        Dimension::Minute => minutes(cond),
        Dimension::Distance => distance(cond),
        Dimension::Time => time(cond),
    }
}

/// Before the first day of a range of days, and after its last.
fn days(cond: &Cond) -> (Option<u64>, Option<u64>)
    ensures { cut_list result ≡ atom_cuts MonthDay (condition_of cond.now) }
{
    match cond {
        Cond::Date { from, to } => {
            (
                day_cut(date_place(from.0, from.1) as u64),
                day_cut(date_place(to.0, to.1) as u64 + 1),
            )
        }
        _ => (None, None),
    }
}

/// At the ends of a range of minutes.
fn minutes(cond: &Cond) -> (Option<u64>, Option<u64>)
    ensures { cut_list result ≡ atom_cuts Minute (condition_of cond.now) }
{
    match cond {
        Cond::Time { from, to } => (minute_cut(*from), minute_cut(*to)),
        _ => (None, None),
    }
}

/// At a distance.
fn distance(cond: &Cond) -> (Option<u64>, Option<u64>)
    ensures { cut_list result ≡ atom_cuts Distance (condition_of cond.now) }
{
    match cond {
        Cond::AfterDistance(decimetres) => (Some(*decimetres), None),
        _ => (None, None),
    }
}

/// At a time.
fn time(cond: &Cond) -> (Option<u64>, Option<u64>)
    ensures { cut_list result ≡ atom_cuts Time (condition_of cond.now) }
{
    match cond {
        Cond::AfterTime(tenths) => (Some(*tenths), None),
        _ => (None, None),
    }
}

/// A place in a leap year, but not the year's begin or end.
fn day_cut(place: u64) -> Option<u64>
    ensures { cut_list (result, None) ≡ day_cut place }
{
    if place == 0 || place == 366 {
        None
    } else {
        Some(place)
    }
}

/// A minute, but not midnight.
fn minute_cut(minute: u16) -> Option<u64>
    ensures { cut_list (result, None) ≡ minute_cut minute }
{
    if minute == 0 {
        None
    } else {
        Some(minute as u64)
    }
}
