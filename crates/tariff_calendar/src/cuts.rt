//! The lists of cuts and of holidays.
ghost use Rattle.std.specs.Prelude.{ℕ, ◌+◌, ◌≡◌, ◌≤ℤ◌, ◌≤◌, IfOk, length, min, pos};
ghost use Rattle.{tariff_tree.specs.Tree.{tree_of}, tariff_check.specs.Cuts.{most_cuts}};
ghost use Rattle.tariff_calendar.specs.Lists.{IsOrdered, count_at_most, has_day, has_days, list_in, lists_of};
ghost use Rattle.tariff_calendar.specs.Lists.{most_reads};

use crate::collecting::{holiday_days, in_pulses};
use crate::lookups::{count, count_until, has};
use drive_modes::Constant;
use std::alloc::Global;
use std::marker::Model;
use std::sync::ledger::Ledger;
use tariff_check::{Checked, Dimension, cut_values};
use taxi_units::{NoMemory, Steps};

/// The cuts of a tariff: the numbers with which its conditions compare, in each dimension in order. It also has the day
/// numbers of the tariff's holidays, in order, and keeps no condition, line or text. That contexts are told apart by
/// cuts is this project's own.
#[derive(Drop)]
pub struct Cuts {
    month_days: Vec<u64>,
    minutes: Vec<u64>,
    distances: Vec<u64>,
    times: Vec<u64>,
    holidays: Vec<u64>,
}

impl Model for Cuts {
    ghost use Rattle.tariff_calendar.specs.Lists.{AreOrdered, CutLists};

    ghost Value = { CutLists };

    ghost view = { λ c. record {
      month_days = c.month_days.items;
      minutes = c.minutes.items;
      distances = c.distances.items;
      times = c.times.items;
      holidays = c.holidays.items;
    } };

    ghost invariant = { λ c. AreOrdered (record {
      month_days = c.month_days.items;
      minutes = c.minutes.items;
      distances = c.distances.items;
      times = c.times.items;
      holidays = c.holidays.items;
    }) };
}

impl Cuts {
    /// Collects the lists of a tariff under a constant of the taximeter: places in a leap year, minutes of the day,
    /// pulses and ticks, and days since 1970-01-01. A distance is cut at the fewest pulses that are as far. `NoMemory`
    /// if memory runs out.
    pub fn collect(alloc: Global, checked: &Checked, k: Constant) -> Result<Cuts, NoMemory>
        ensures { IfOk result (λ c. c ≡ lists_of (tree_of checked.now) k) }
    {
        let holidays = checked.holidays();
        let month_days = cut_values(alloc, checked, Dimension::MonthDay)?;
        let minutes = cut_values(alloc, checked, Dimension::Minute)?;
        let distances = cut_values(alloc, checked, Dimension::Distance)?;
        let times = cut_values(alloc, checked, Dimension::Time)?;
        Ok(Cuts {
            month_days,
            minutes,
            distances: in_pulses(alloc, distances.as_slice(), k)?,
            times,
            holidays: holiday_days(alloc, holidays)?,
        })
    }

    /// How many cuts of a dimension are at most a value. Each cut that is read is one step: at most 6 for days and
    /// minutes, 4 for distances and times, and at least one if there is a cut.
    pub fn find<L: Ledger>(&self, dimension: Dimension, value: u64, steps: &mut Steps<L>) -> usize
        ensures value { result ≡ count_at_most value (list_in self.now dimension) }
        ensures most { steps.new ≤ steps.old + most_reads dimension }
        ensures least { steps.old + min 1 (length (list_in self.now dimension)) ≤ steps.new }
    {
        count(self.ordered(dimension), value, steps)
    }

    /// How many cuts of a dimension are at most a value, and how far the value may at least grow while they are as
    /// many. It takes at most as many steps as `find`.
    pub fn find_until<L: Ledger>(
        &self,
        dimension: Dimension,
        value: u64,
        steps: &mut Steps<L>,
    ) -> (usize, u64)
        ensures value { result.0 ≡ count_at_most value (list_in self.now dimension) }
        ensures same { (other : ℕ) → value ≤ other → other ≤ value + result.1
            → count_at_most other (list_in self.now dimension) ≡ count_at_most value (list_in self.now dimension) }
        ensures kept { steps.old ≤ steps.new }
        ensures most { steps.new ≤ steps.old + most_reads dimension }
    {
        count_until(self.ordered(dimension), value, steps)
    }

    /// Whether a day, by its number since 1970-01-01, is a holiday. Each day that is read is one step: at most 8, and
    /// at least one if there is a holiday and the day is from 1970 on.
    pub fn holiday<L: Ledger>(&self, day: i32, steps: &mut Steps<L>) -> bool
        ensures value { result ≡ has_day self.now.holidays day }
        ensures most { steps.new ≤ steps.old + 8 }
        ensures least { pos 0 ≤ℤ day → steps.old + min 1 (length self.now.holidays) ≤ steps.new }
    {
        if day < 0 {
            return false;
        }
        has(self.holidays.as_slice(), day as u64, steps)
    }

    /// Whether there is a holiday. No steps.
    pub fn has_holidays(&self) -> bool
        ensures { result ≡ has_days self.now }
    {
        self.holidays.len() > 0
    }

    /// The cuts of a dimension, in order. No steps: the tables are filled from it, and no look-up uses it.
    pub fn list(&self, dimension: Dimension) -> &[u64]
        ensures { result.now ≡ list_in self.now dimension }
    {
        self.ordered(dimension)
    }

    /// The day numbers of the holidays, in order. No steps: no look-up uses it.
    pub fn holidays(&self) -> &[u64]
        ensures { result.now ≡ self.now.holidays }
    {
        self.holidays.as_slice()
    }

    /// The cuts of a dimension, with what a look-up needs.
    fn ordered(&self, dimension: Dimension) -> &[u64]
        ensures value { result.now ≡ list_in self.now dimension }
        ensures ordered { IsOrdered (most_cuts dimension) result.now }
    {
        match dimension {
            Dimension::MonthDay => self.month_days.as_slice(),
            Dimension::Minute => self.minutes.as_slice(),
            Dimension::Distance => self.distances.as_slice(),
            Dimension::Time => self.times.as_slice(),
        }
    }

    /// Takes lists of cuts apart. It compiles only while they are five lists of numbers and nothing else.
    fn take_apart(self) -> [Vec<u64>; 5] {
        let Cuts {
            month_days,
            minutes,
            distances,
            times,
            holidays,
        } = self;
        [month_days, minutes, distances, times, holidays]
    }
}
