//! How fine a constant is for a rate.
ghost use Rattle.std.specs.Prelude.{◌*◌, ◌^◌, ◌≡◌, ◌≤◌, nat_le};
ghost use Rattle.rate_commands.specs.Common.{IsSoundRate, greatest_constant};
ghost use Rattle.rate_commands.specs.Fineness.{excess_of, pulses_at_cross_over, weights_under};

use crate::wide::is_product_at_most;
use drive_modes::Weights;
use tariff_check::RateNumbers;

/// The own weights of a rate under a constant: at most 10^22 a pulse, and 2 * 10^23 an interval.
pub(crate) fn weights_under(rate: RateNumbers, k: u32) -> Weights
    requires sound { IsSoundRate rate }
    requires constant { k ≤ greatest_constant }
    ensures value { result ≡ weights_under k rate }
    ensures per_pulse { result.per_pulse ≤ 10 ^ 22 }
    ensures per_tick { result.per_tick ≤ 2 * 10 ^ 23 }
{
    Weights {
        per_pulse: 10_000 * rate.a as u128 * rate.e as u128,
        per_tick: rate.c as u128 * rate.b as u128 * k as u128,
    }
}

/// How many thousandths of a pulse an interval has at the cross-over speed. `None` exactly if pulses cost nothing.
pub(crate) fn pulses_at_cross_over(weights: Weights) -> Option<u128>
    requires { weights.per_tick ≤ 2 * 10 ^ 23 }
    ensures { result ≡ pulses_at_cross_over weights }
{
    if weights.per_pulse == 0 {
        return None;
    }
    Some(1000 * weights.per_tick / weights.per_pulse)
}

/// Whether an even speed is charged at most so many tenths of a percent too much, up to 1,000.
pub(crate) fn is_within(tenths: u32, weights: Weights) -> bool
    requires tenths { tenths ≤ 1000 }
    requires per_pulse { weights.per_pulse ≤ 10 ^ 22 }
    requires per_tick { weights.per_tick ≤ 2 * 10 ^ 23 }
    ensures { result ≡ nat_le (excess_of weights) tenths }
{
    let pulse = weights.per_pulse;
    let tick = weights.per_tick;
    if pulse == 0 {
        return true;
    }
    let rest = tick % pulse;
    is_product_at_most(1000 * rest, pulse - rest, tenths as u128 * pulse, tick)
}

/// The most that an even speed is charged too much, in tenths of a percent, rounded up: at most 1,000.
pub(crate) fn excess(weights: Weights) -> u32
    requires per_pulse { weights.per_pulse ≤ 10 ^ 22 }
    requires per_tick { weights.per_tick ≤ 2 * 10 ^ 23 }
    ensures { result ≡ excess_of weights }
{
    for tenths in 0..1000 {
        if is_within(tenths, weights) {
            return tenths;
        }
    }
    1000
}
