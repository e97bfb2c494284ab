//! What the rates of a tariff cost.
ghost use Rattle.std.specs.Prelude.{◌*◌, ◌≡◌, IfOk, get_or};
ghost use Rattle.{tariff_check.specs.SoundTariff.{own_values}, tariff_compare.specs.Kinds.{cost_same}};

use std::alloc::Global;
use tariff_check::{Choice, RateNumbers};
use taxi_units::NoMemory;

/// What each rate of some choices says, in their order.
pub(crate) fn all_rates(
    alloc: Global,
    rates: &[Choice<RateNumbers>],
) -> Result<Vec<RateNumbers>, NoMemory>
    ensures { IfOk result (λ all. all.items ≡ own_values rates.now) }
{
    let mut all = Vec::new(alloc);
    for rate in rates {
        if all.push(rate.value).is_err() {
            return Err(NoMemory);
        }
    }
    Ok(all)
}

/// The rate at a place; all its numbers are 0 if there is none.
pub(crate) fn rate_at(rates: &[RateNumbers], place: usize) -> RateNumbers
    ensures { result ≡ get_or rates.now place (record { a = 0; b = 0; c = 0; e = 0 }) }
{
    if place < rates.len() {
        rates[place]
    } else {
        RateNumbers {
            a: 0,
            b: 0,
            c: 0,
            e: 0,
        }
    }
}

/// Whether distance and time cost the same by two rates, whatever their measures.
pub(crate) fn cost_same(one: RateNumbers, other: RateNumbers) -> bool
    ensures { result ≡ cost_same one other }
{
    times(one.a, other.b) == times(other.a, one.b) && times(one.c, other.e) == times(other.c, one.e)
}

/// The product of two numbers.
fn times(one: u64, other: u64) -> u128
    ensures { result ≡ one * other }
{
    one as u128 * other as u128
}
