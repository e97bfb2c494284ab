//! The rates of a tariff, and the measures for which they are told.
ghost use Rattle.std.specs.{List.{list_any}, Option.{option_map}, Prelude.{◌<◌, ◌≡◌, ◌≤◌, IfOk, map, true}};
ghost use Rattle.near_commands.specs.{Common.{line_of}, Nearest.{measures_at}};
ghost use Rattle.near_commands.specs.NearTariff.{exponent_of, fit, great_line, greatest_share, is_lost};
ghost use Rattle.near_commands.specs.NearTariff.{measures_of_rates, numbered_rates, numbers_of, rate_in};

use crate::nearest::{Measures, greater, is_lost, is_moderate, measures_at, share_for};
use std::alloc::Global;
use tariff_check::CheckFault;
use tariff_tree::{Item, RateNumbers, TariffLine};
use taxi_units::NoMemory;

/// A rate, with the number of its line in the text.
#[derive(Clone, Copy)]
pub struct NumberedRate {
    pub line: u32,
    pub rate: RateNumbers,
}

/// The rate that a line says, if it says one.
fn rate_of(line: &TariffLine) -> Option<NumberedRate>
    ensures { result ≡ rate_in (line_of line.now) }
{
    match &line.item {
        Item::Rate(rate) => Some(NumberedRate {
            line: line.line,
            rate: RateNumbers {
                a: rate.a,
                b: rate.b,
                c: rate.c,
                e: rate.e,
            },
        }),
        _ => None,
    }
}

/// The rates of some lines.
pub(crate) fn rates_of(alloc: Global, lines: &[TariffLine]) -> Result<Vec<NumberedRate>, NoMemory>
    ensures { IfOk result (λ rates. rates.items ≡ numbered_rates (map line_of lines.now)) }
{
    let mut rates = Vec::new(alloc);
    for line in lines {
        if let Some(rate) = rate_of(line) {
            rates.push(rate).map_err(|_| NoMemory)?;
        }
    }
    Ok(rates)
}

/// Whether the near amounts of rates for measures are all moderate.
fn fit(measures: Measures, rates: &[NumberedRate]) -> bool
    ensures { result ≡ fit measures (numbers_of rates.now) }
{
    for rate in rates {
        if !is_moderate(measures, rate.rate) {
            return false;
        }
    }
    true
}

/// The measures of the greatest exponent at which some rates fit.
fn fitting(rates: &[NumberedRate]) -> Option<Measures>
    ensures { result ≡ option_map measures_at (exponent_of (numbers_of rates.now)) }
{
    for less in 0..6 {
        let measures = measures_at(7 - less);
        if fit(measures, rates) {
            return Some(measures);
        }
    }
    None
}

/// The number of the first rate that has a near amount above 1,000,000 at the exponent 2.
fn great_line(rates: &[NumberedRate]) -> u32
    ensures { result ≡ great_line rates.now }
{
    let least = measures_at(2);
    for rate in rates {
        if !is_moderate(least, rate.rate) {
            return rate.line;
        }
    }
    0
}

/// Whether an amount of one of some rates is lost.
fn some_is_lost(measures: Measures, rates: &[NumberedRate]) -> bool
    ensures { result ≡ list_any (is_lost measures) (numbers_of rates.now) }
{
    for rate in rates {
        if is_lost(measures, rate.rate) {
            return true;
        }
    }
    false
}

/// The measures for which some rates are told, or why there are none.
pub(crate) fn measures_by(rates: &[NumberedRate]) -> Result<Measures, CheckFault>
    ensures { result ≡ measures_of_rates rates.now }
{
    let Some(measures) = fitting(rates) else {
        return Err(CheckFault::AmountTooBig(great_line(rates)));
    };
    if some_is_lost(measures, rates) {
        return Err(CheckFault::NoCommonMeasure);
    }
    Ok(measures)
}

/// The greatest share of some rates.
pub(crate) fn greatest_share(measures: Measures, rates: &[NumberedRate]) -> u128
    requires fits { fit measures (numbers_of rates.now) ≡ true }
    requires distance { 0 < measures.distance }
    requires time { 0 < measures.time }
    ensures { result ≡ greatest_share measures (numbers_of rates.now) }
{
    let mut greatest = 0;
    for rate in rates {
        greatest = greater(greatest, share_for(measures, rate.rate));
    }
    greatest
}
