//! The fare of a hiring.
ghost use Rattle.std.specs.Prelude.{ℕ, ◌*◌, ◌+◌, ◌<◌, ◌^◌, ◌≡◌, ◌≤◌};
ghost use Rattle.{taxi_units.specs.Money.{largest_display_step}, drive_modes.specs.Fare.{quotient, steps_above}};
ghost use Rattle.{meter_model.specs.Setting.{modulus_of, rounding_of}, verify_bench.specs.Settings.{setting_under}};
ghost use Rattle.verify_bench.specs.Common.{IsFitInitial, longest_trip, shown_fare, unit_of};
ghost use Rattle.verify_bench.specs.Limits.{most_charge, most_money};

use drive_modes::Rounding;
use seal_record::Params;
use tariff_check::{Checked, Initial};
use taxi_units::LARGEST_AMOUNT;

/// The display steps that are shown of a hiring whose charges have this sum.
pub(crate) fn steps_shown(checked: &Checked, params: &Params, fee: Initial, charged: u128) -> u128
    requires fee { IsFitInitial fee }
    requires charged { charged ≤ most_charge * longest_trip }
    ensures steps { result ≡ steps_above (rounding_of (setting_under checked.now params.now))
        (record {
          cover = fee.covers * unit_of (setting_under checked.now params.now);
          above = 0;
          modulus = modulus_of (setting_under checked.now params.now);
        }) charged }
    ensures few { (ticks : ℕ) → ticks ≤ longest_trip
        → charged ≤ most_money * unit_of (setting_under checked.now params.now) * ticks → result < 2 ^ 64 }
{
    let (step, rounding) = checked.step();
    let unit = params.constant.get() as u128 * checked.measure() as u128;
    let above = charged.saturating_sub(fee.covers as u128 * unit);
    divided(rounding, above, step as u128 * unit)
}

/// A quotient, rounded.
fn divided(rounding: Rounding, x: u128, y: u128) -> u128
    requires some { 0 < y }
    requires small { x + y < 2 ^ 128 }
    ensures { result ≡ quotient rounding x y }
{
    match rounding {
        Rounding::Behind => x / y,
        Rounding::Ahead => (x + (y - 1)) / y,
    }
}

/// The fare after a number of display steps.
#[tactic(auto, using(crate::proofs::Capped::capped_fare))]
pub(crate) fn fare_shown(fee: Initial, step: u64, steps: u128) -> u64
    requires fee { IsFitInitial fee }
    requires step { (1 ≤ step) × (step ≤ largest_display_step) }
    ensures { result ≡ shown_fare fee.amount fee.minimum step steps }
{
    let few = steps.min(LARGEST_AMOUNT as u128) as u64;
    let fare = fee.amount + step * few;
    fare.max(fee.minimum).min(LARGEST_AMOUNT)
}
