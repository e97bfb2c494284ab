//! How the lists are collected.
ghost use Rattle.std.specs.{BTreeSet.{insert_key}, Ordering.{nat_cmp}, Prelude.{[], ◌≡◌, ◌≤◌, All, IfOk, OnOk, map}};
ghost use Rattle.{tariff_check.specs.Sound.{IsSoundHoliday}, tariff_calendar.specs.Common.{greatest, with_each}};
ghost use Rattle.tariff_calendar.specs.Lists.{day_of, pulses_for};

use drive_modes::Constant;
use interval_clock::day_number;
use std::alloc::Global;
use std::collections::BTreeSet;
use tariff_check::DateNumbers;
use taxi_units::NoMemory;

/// The fewest pulses that are as far as each of some distances.
pub fn in_pulses(alloc: Global, distances: &[u64], k: Constant) -> Result<Vec<u64>, NoMemory>
    requires { All (λ decimetres. decimetres ≤ greatest) distances.now }
    ensures { IfOk result (λ v. v.items ≡ map (pulses_for k) distances.now) }
{
    let mut pulses = Vec::new(alloc);
    for decimetres in distances {
        if pulses.push(pulses_for(k, *decimetres)).is_err() {
            return Err(NoMemory);
        }
    }
    Ok(pulses)
}

/// The fewest pulses that are as far as a distance.
fn pulses_for(k: Constant, decimetres: u64) -> u64
    requires { decimetres ≤ greatest }
    ensures { result ≡ pulses_for k decimetres }
{
    (k.get() as u64 * decimetres + 9_999) / 10_000
}

/// The day numbers of some holidays, in order.
pub fn holiday_days(alloc: Global, holidays: &[DateNumbers]) -> Result<Vec<u64>, NoMemory>
    requires { All IsSoundHoliday holidays.now }
    ensures { IfOk result (λ v. v.items ≡ with_each [] (map day_of holidays.now)) }
{
    let days = different_days(alloc, holidays)?;
    days.iter().copied().collect(alloc).map_err(|_| NoMemory)
}

/// The day numbers of some holidays, as a set.
fn different_days(alloc: Global, holidays: &[DateNumbers]) -> Result<BTreeSet<u64>, NoMemory>
    requires { All IsSoundHoliday holidays.now }
    ensures { IfOk result (λ s. s.keys ≡ with_each [] (map day_of holidays.now)) }
{
    let mut days = BTreeSet::new(alloc);
    for holiday in holidays {
        add(&mut days, *holiday)?;
    }
    Ok(days)
}

/// Adds the day of a holiday to a set of days.
fn add(days: &mut BTreeSet<u64>, holiday: DateNumbers) -> Result<(), NoMemory>
    requires { IsSoundHoliday holiday }
    ensures { OnOk result (days.new.keys ≡ insert_key nat_cmp days.old.keys (day_of holiday)) }
{
    let day = day_number(holiday.year, holiday.month, holiday.date).unwrap();
    if days.insert(day as u64).is_err() {
        return Err(NoMemory);
    }
    Ok(())
}
