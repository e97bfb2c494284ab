//! The contexts that are looked at: at least one of each common cell of two tariffs.
ghost use Rattle.std.specs.{List.{range_with_len}, Prelude.{◌%◌, ◌*◌, ◌≡◌, ◌≤◌, All, IfOk, OnOk, length}};
ghost use Rattle.{taxi_units.specs.Counted.{IsElement}, tariff_compare.specs.Common.{last_tick, with_each}};
ghost use Rattle.tariff_compare.specs.Grids.{AreShort, IsGridOf, day_count, grid_of, listed, up_to};
ghost use Rattle.tariff_compare.specs.Searches.{IsNumbered, context_count, context_of, day_part};

use crate::day::{Day, different_days};
use crate::meter_context::MeterContext;
use std::alloc::Global;
use std::collections::BTreeSet;
use std::marker::Model;
use tariff_check::Dimension;
use tariff_compile::Tables;
use taxi_units::{LONGEST_TRIP, NoMemory};

/// Positions, zones, days, minutes, ticks and pulses, each in the order of contexts.
#[derive(Drop)]
pub(crate) struct Grid {
    positions: Vec<u8>,
    zones: Vec<u8>,
    days: Vec<Day>,
    minutes: Vec<u64>,
    ticks: Vec<u64>,
    pulses: Vec<u64>,
}

impl Model for Grid {
    ghost use Rattle.tariff_compare.specs.Grids.{GridLists};

    ghost Value = { GridLists };

    ghost view = { λ g. record {
      positions = g.positions.items;
      zones = g.zones.items;
      days = g.days.items;
      minutes = g.minutes.items;
      ticks = g.ticks.items;
      pulses = g.pulses.items;
    } };
}

/// The most pulses that are looked at: no distance that a tariff can name is more pulses.
const MOST_PULSES: u64 = 20_000_000_000_000;

impl Grid {
    /// The grid of two tariffs that have the same numbers of positions and zones.
    pub(crate) fn of(alloc: Global, one: &Tables, other: &Tables) -> Result<Grid, NoMemory>
        requires positions { one.now.positions ≡ other.now.positions }
        requires zones { one.now.zones ≡ other.now.zones }
        ensures value { IfOk result (λ grid. grid ≡ grid_of one.now other.now) }
        ensures both { IfOk result (IsGridOf one.now other.now) }
    {
        one.recall();
        other.recall();
        match Grid::make(alloc, one, other) {
            Ok(grid) => Ok(grid),
            Err(fault) => Err(fault),
        }
    }

    /// Makes the grid. On 1999-12-31 a meter begins at 10:00, so a band begins there too.
    fn make(alloc: Global, one: &Tables, other: &Tables) -> Result<Grid, NoMemory>
        ensures { IfOk result (λ grid. grid ≡ grid_of one.now other.now) }
    {
        let (cuts, others) = (one.cuts(), other.cuts());
        let minutes = Dimension::Minute;
        let times = Dimension::Time;
        let distances = Dimension::Distance;
        let last_tick = LONGEST_TRIP as u64 - 1;
        Ok(Grid {
            positions: numbers_to(alloc, one.positions())?,
            zones: numbers_to(alloc, one.zones())?,
            days: different_days(alloc, one, other)?,
            minutes: listed(
                alloc,
                1_439,
                &[0, 600],
                cuts.list(minutes),
                others.list(minutes),
            )?,
            ticks: listed(alloc, last_tick, &[0], cuts.list(times), others.list(times))?,
            pulses: listed(
                alloc,
                MOST_PULSES,
                &[0],
                cuts.list(distances),
                others.list(distances),
            )?,
        })
    }

    /// How many contexts the grid has, also those that are no time of the meter.
    pub(crate) fn count(&self) -> usize
        requires { AreShort self.now }
        ensures { result ≡ context_count self.now }
    {
        product(
            self.positions.as_slice().len(),
            self.zones.as_slice().len(),
            self.days.as_slice().len(),
            self.minutes.as_slice().len(),
            self.ticks.as_slice().len(),
            self.pulses.as_slice().len(),
        )
    }

    /// The context with a number, from 0, and its day. The pulses run fastest, and the positions slowest.
    pub(crate) fn context(&self, number: usize) -> (Day, MeterContext)
        requires number { IsNumbered self.now number }
        requires minutes { All (λ n. n ≤ 1439) self.now.minutes }
        requires ticks { All (λ n. n ≤ last_tick) self.now.ticks }
        ensures value { result.1 ≡ context_of self.now number }
        ensures day { IsElement self.now.days (day_part self.now number % length self.now.days) result.0 }
    {
        let ticks = number / self.pulses.as_slice().len();
        let minutes = ticks / self.ticks.as_slice().len();
        let days = minutes / self.minutes.as_slice().len();
        let zones = days / self.days.as_slice().len();
        let positions = zones / self.zones.as_slice().len();
        let day = self.days.as_slice()[days % self.days.as_slice().len()];
        let m = MeterContext {
            position: self.positions.as_slice()[positions],
            zone: self.zones.as_slice()[zones % self.zones.as_slice().len()],
            day: day.number,
            minute: self.minutes.as_slice()[minutes % self.minutes.as_slice().len()] as u16,
            ticks: self.ticks.as_slice()[ticks % self.ticks.as_slice().len()] as u32,
            pulses: self.pulses.as_slice()[number % self.pulses.as_slice().len()],
        };
        (day, m)
    }
}

/// The product of the lengths of a grid's lists.
fn product(
    positions: usize,
    zones: usize,
    days: usize,
    minutes: usize,
    ticks: usize,
    pulses: usize,
) -> usize
    requires positions { positions ≤ 9 }
    requires zones { zones ≤ 9 }
    requires days { days ≤ day_count }
    requires minutes { minutes ≤ 128 }
    requires ticks { ticks ≤ 31 }
    requires pulses { pulses ≤ 31 }
    ensures { result ≡ positions * zones * days * minutes * ticks * pulses }
{
    positions * zones * days * minutes * ticks * pulses
}

/// The numbers from 1 to another.
fn numbers_to(alloc: Global, most: u8) -> Result<Vec<u8>, NoMemory>
    requires { most ≤ 9 }
    ensures { IfOk result (λ numbers. numbers.items ≡ range_with_len 1 most) }
{
    let mut numbers = Vec::new(alloc);
    for before in 0..most {
        if numbers.push(before + 1).is_err() {
            return Err(NoMemory);
        }
    }
    Ok(numbers)
}

/// Some beginnings and the cuts of two tariffs that are at most a number, each once and in order.
fn listed(
    alloc: Global,
    most: u64,
    beginnings: &[u64],
    one: &[u64],
    other: &[u64],
) -> Result<Vec<u64>, NoMemory>
    ensures { IfOk result (λ v. v.items ≡ listed most beginnings.now one.now other.now) }
{
    let numbers = together(alloc, most, beginnings, one, other)?;
    numbers.into_iter().collect(alloc).map_err(|_| NoMemory)
}

/// The same as a set.
fn together(
    alloc: Global,
    most: u64,
    beginnings: &[u64],
    one: &[u64],
    other: &[u64],
) -> Result<BTreeSet<u64>, NoMemory>
    ensures { IfOk result (λ s. s.keys ≡ listed most beginnings.now one.now other.now) }
{
    let mut numbers = BTreeSet::new(alloc);
    put_each(&mut numbers, most, beginnings)?;
    put_each(&mut numbers, most, one)?;
    put_each(&mut numbers, most, other)?;
    Ok(numbers)
}

/// Adds those of some numbers that are at most another.
fn put_each(numbers: &mut BTreeSet<u64>, most: u64, more: &[u64]) -> Result<(), NoMemory>
    ensures { OnOk result (numbers.new.keys ≡ with_each numbers.old.keys (up_to most more.now)) }
{
    for number in more {
        if *number <= most {
            if numbers.insert(*number).is_err() {
                return Err(NoMemory);
            }
        }
    }
    Ok(())
}
