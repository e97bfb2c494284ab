//! The nearest amounts for other measures, and how far they are off.
ghost use Rattle.std.specs.Prelude.{◌<◌, ◌^◌, ◌≡◌, ◌≤◌, max, true};
ghost use Rattle.near_commands.specs.NearTariff.{is_lost, is_moderate};
ghost use Rattle.near_commands.specs.Nearest.{apart, measures_at, near_rate, nearest, rounded_up, share_for, share_of};

use tariff_tree::RateNumbers;

/// Some decimetres, and some tenths of a second.
#[derive(Clone, Copy)]
pub struct Measures {
    pub distance: u32,
    pub time: u32,
}

/// The greatest amount of a rate, in units of money.
const MOST: u128 = 1_000_000;

/// The measures of an exponent: ten to the exponent decimetres, and 0.36 times as many tenths of a second.
pub(crate) fn measures_at(exponent: u32) -> Measures
    requires least { 2 ≤ exponent }
    requires most { exponent ≤ 7 }
    ensures { result ≡ measures_at exponent }
{
    match exponent {
        2 => Measures {
            distance: 100,
            time: 36,
        },
        3 => Measures {
            distance: 1_000,
            time: 360,
        },
        4 => Measures {
            distance: 10_000,
            time: 3_600,
        },
        5 => Measures {
            distance: 100_000,
            time: 36_000,
        },
        6 => Measures {
            distance: 1_000_000,
            time: 360_000,
        },
        _ => Measures {
            distance: 10_000_000,
            time: 3_600_000,
        },
    }
}

/// The nearest whole amount for a measure, of an amount for another one; a half is rounded up.
#[tactic(auto, unfolding(crate::specs::Nearest::nearest))]
fn nearest(amount: u64, measure: u64, other: u32) -> u128
    ensures { result ≡ nearest amount measure other }
{
    if measure == 0 {
        return 0;
    }
    (2 * amount as u128 * other as u128 + measure as u128) / (2 * measure as u128)
}

/// Whether the near amounts of a rate are amounts that a rate may have.
pub(crate) fn is_moderate(measures: Measures, rate: RateNumbers) -> bool
    ensures { result ≡ is_moderate (near_rate measures rate) }
{
    nearest(rate.a, rate.b, measures.distance) <= MOST
        && nearest(rate.c, rate.e, measures.time) <= MOST
}

/// A rate by its near amounts.
pub(crate) fn near_rate(measures: Measures, rate: RateNumbers) -> RateNumbers
    requires { is_moderate (near_rate measures rate) ≡ true }
    ensures { result ≡ near_rate measures rate }
{
    RateNumbers {
        a: nearest(rate.a, rate.b, measures.distance) as u64,
        b: measures.distance as u64,
        c: nearest(rate.c, rate.e, measures.time) as u64,
        e: measures.time as u64,
    }
}

/// By what the greater one of two numbers is more.
fn apart(x: u128, y: u128) -> u128
    ensures { result ≡ apart x y }
{
    if x < y { y - x } else { x - y }
}

/// A quotient, rounded up.
fn rounded_up(number: u128, divisor: u128) -> u128
    requires { 0 < divisor }
    ensures { result ≡ rounded_up number divisor }
{
    let whole = number / divisor;
    if number % divisor == 0 {
        whole
    } else {
        whole + 1
    }
}

/// The share by which the price of a near amount is off, in parts of 10^9, rounded up.
#[tactic(auto, unfolding(crate::specs::Nearest::share_of))]
fn share_of(amount: u64, measure: u64, near: u64, other: u64) -> u128
    requires near { near ≤ 10 ^ 6 }
    requires most { other < 2 ^ 32 }
    requires some { 0 < other }
    ensures { result ≡ share_of amount measure near other }
{
    if amount == 0 {
        return 0;
    }
    let exact = amount as u128 * other as u128;
    let near = near as u128 * measure as u128;
    rounded_up(1_000_000_000 * apart(near, exact), exact)
}

/// The greater one of two numbers.
pub(crate) fn greater(x: u128, y: u128) -> u128
    ensures { result ≡ max x y }
{
    if x < y { y } else { x }
}

/// The share of a rate's near amounts.
pub(crate) fn share_for(measures: Measures, rate: RateNumbers) -> u128
    requires fits { is_moderate (near_rate measures rate) ≡ true }
    requires distance { 0 < measures.distance }
    requires time { 0 < measures.time }
    ensures { result ≡ share_for rate (near_rate measures rate) }
{
    let near = near_rate(measures, rate);
    greater(
        share_of(rate.a, rate.b, near.a, near.b),
        share_of(rate.c, rate.e, near.c, near.e),
    )
}

/// Whether an amount of a rate is lost: it isn't 0, and the near one is.
pub(crate) fn is_lost(measures: Measures, rate: RateNumbers) -> bool
    ensures { result ≡ is_lost measures rate }
{
    (rate.a != 0 && nearest(rate.a, rate.b, measures.distance) == 0)
        || (rate.c != 0 && nearest(rate.c, rate.e, measures.time) == 0)
}
