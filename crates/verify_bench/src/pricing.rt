//! The price of an interval, over the parts of a tariff.
ghost use Rattle.std.specs.Prelude.{◌*◌, ◌<◌, ◌^◌, ◌≡◌, ◌≤◌, nat_lt};
ghost use Rattle.verify_bench.specs.{Common.{IsSoundRate}, Limits.{most_charge}};
ghost use Rattle.verify_bench.specs.{IntervalPrice.{IsPriceBy, IsPriceOf}, Settings.{setting_under}};

use crate::explained::Way;
use crate::lookups::rate_at;
use drive_modes::{Constant, Mode};
use seal_record::Params;
use tariff_check::{Checked, RateNumbers};
use tariff_tree::Context;

/// The place of the rate line by which an interval is charged, the way in which it is, and its charge.
#[derive(Clone, Copy)]
pub(crate) struct Price {
    pub(crate) place: usize,
    pub(crate) way: Way,
    pub(crate) charge: u128,
}

/// The price of an interval of at most 2,000 pulses, in a context.
pub(crate) fn price_of(checked: &Checked, params: &Params, x: &Context, pulses: u32) -> Price
    requires { pulses ≤ 2000 }
    ensures price { IsPriceOf (setting_under checked.now params.now) x.now pulses result }
    ensures bound { result.charge ≤ most_charge }
    ensures place { result.place < 64 }
{
    let place = checked.rate_of(x).unwrap_or(0);
    let rate = rate_at(checked, place);
    let common = checked.measure();
    let price = price_by(params.mode, params.constant, common, rate, pulses);
    Price { place, ..price }
}

/// The price by the numbers of a rate, which counts as the first.
fn price_by(mode: Mode, k: Constant, common: u64, rate: RateNumbers, pulses: u32) -> Price
    requires rate { IsSoundRate rate }
    requires common { common ≤ 10 ^ 18 }
    requires pulses { pulses ≤ 2000 }
    ensures price { IsPriceBy mode k common rate pulses result }
    ensures bound { result.charge ≤ most_charge }
{
    let pulse = 10_000 * rate.a as u128 * (common / rate.b) as u128;
    let distance = pulses as u128 * pulse;
    let time = rate.c as u128 * k.get() as u128 * (common / rate.e) as u128;
    match mode {
        Mode::Single => {
            if is_slow(k, rate, pulses) {
                charged(Way::Time, time)
            } else {
                charged(Way::Distance, distance)
            }
        }
        Mode::Double => charged(Way::Both, distance + time),
    }
}

/// A charge in a way.
fn charged(way: Way, charge: u128) -> Price
    ensures way { result.way ≡ way }
    ensures charge { result.charge ≡ charge }
{
    Price {
        place: 0,
        way,
        charge,
    }
}

/// Whether a number of pulses an interval is below the cross-over speed of a rate.
fn is_slow(k: Constant, rate: RateNumbers, pulses: u32) -> bool
    requires rate { IsSoundRate rate }
    requires pulses { pulses ≤ 2000 }
    ensures { result ≡ nat_lt (10000 * pulses * rate.a * rate.e) (rate.c * k * rate.b) }
{
    let distance = 10_000 * pulses as u128 * rate.a as u128 * rate.e as u128;
    let time = rate.c as u128 * k.get() as u128 * rate.b as u128;
    distance < time
}
