//! Look-ups in numbers that don't fall.
ghost use Rattle.std.specs.{List.{list_any}, Prelude.{ℕ, ◌+◌, ◌<◌, ◌==◌, ◌^◌, ◌≡◌, ◌≤◌, length}};
ghost use Rattle.{taxi_units.specs.Counted.{HalvesIn}, tariff_calendar.specs.Lists.{IsNotFalling, count_at_most}};

use std::sync::ledger::Ledger;
use taxi_units::{Counted, Steps};

/// How many numbers are at most a value. Each number that is read is one step.
pub fn count<L: Ledger>(list: &[u64], value: u64, steps: &mut Steps<L>) -> usize
    requires { IsNotFalling list.now }
    ensures value { result ≡ count_at_most value list.now }
    ensures steps { HalvesIn (length list.now) steps.old steps.new }
{
    Counted::of(list).at_most(value, steps).count
}

/// How many numbers are at most a value, by going over all of them. It takes no steps: no event asks it.
pub fn count_at_most(value: u64, list: &[u64]) -> usize
    ensures { result ≡ count_at_most value list.now }
{
    let mut count = 0;
    for number in list {
        if *number <= value {
            count += 1;
        }
    }
    count
}

/// Whether a number is among the numbers. Each number that is read is one step.
pub fn has<L: Ledger>(list: &[u64], number: u64, steps: &mut Steps<L>) -> bool
    requires { IsNotFalling list.now }
    ensures value { result ≡ list_any (λ other. other == number) list.now }
    ensures steps { HalvesIn (length list.now) steps.old steps.new }
{
    match Counted::of(list).at_most(number, steps).last {
        Some(last) => last == number,
        None => false,
    }
}

/// How many numbers are at most a value, and how far the value may at least grow while they are as many: to just below
/// the next number. Each number that is read is one step.
pub fn count_until<L: Ledger>(list: &[u64], value: u64, steps: &mut Steps<L>) -> (usize, u64)
    requires { IsNotFalling list.now }
    ensures value { result.0 ≡ count_at_most value list.now }
    ensures same { (other : ℕ) → value ≤ other → other ≤ value + result.1
        → count_at_most other list.now ≡ count_at_most value list.now }
    ensures kept { steps.old ≤ steps.new }
    ensures most { (digits : ℕ) → length list.now < 2 ^ digits → steps.new ≤ steps.old + digits }
{
    let numbers = Counted::of(list);
    let mut count = 0;
    let mut end = numbers.len();
    let mut further = u64::MAX;
    while count < end {
        let middle = count + (end - count) / 2;
        let number = numbers.read(middle, steps);
        if number <= value {
            count = middle + 1;
        } else {
            end = middle;
            further = number - value - 1;
        }
    }
    (count, further)
}
