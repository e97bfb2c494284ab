//! Whether a saved trip fits the tables.
ghost use Rattle.std.specs.Prelude.{◌*◌, ◌+◌, ◌<◌, ◌↔◌, ◌≡◌, ◌≤◌, IfSome, IsNone, IsTrue};
ghost use Rattle.meter_states.specs.{Common.{AreAllowed, amount_in, amounts_from, most_in}, Fits.{Fits}};
ghost use Rattle.meter_states.specs.Supplements.{supplement_in};

use crate::lookups::{find_supplement, modulus};
use std::sync::ledger::Ledger;
use tariff_compile::Tables;
use taxi_units::{LARGEST_AMOUNT, Steps};
use totals_record::Trip;

/// Whether a saved trip fits the tables. Its position and zone are among the tariff's, its rest is less than a display
/// step, and its cover is no more than a tariff's. Each supplement was added at most as often as the tariff allows,
/// with the amounts of the tariff. What fits is this project's own rule. At most 16 steps.
pub fn fits<L: Ledger>(trip: &Trip, tables: &Tables, steps: &mut Steps<L>) -> bool
    ensures value { IsTrue result ↔ Fits tables.now trip.now }
    ensures steps { steps.new ≤ steps.old + 16 }
{
    1 <= trip.position
        && trip.position <= tables.positions()
        && 1 <= trip.zone
        && trip.zone <= tables.zones()
        && trip.meterage.rest < modulus(tables)
        && trip.meterage.cover_left <= LARGEST_AMOUNT as u128 * tables.measure()
        && extras_fit(trip, tables, steps)
}

/// Whether the supplements of a trip are ones that the tariff allows, with their amounts.
fn extras_fit<L: Ledger>(trip: &Trip, tables: &Tables, steps: &mut Steps<L>) -> bool
    ensures value { IsTrue result ↔ (AreAllowed (supplement_in tables.now) 1 trip.now.extras
        × (trip.now.extras_sum ≡ amounts_from (supplement_in tables.now) 1 trip.now.extras)) }
    ensures steps { steps.new ≤ steps.old + 16 }
{
    let mut left = trip.extras_sum;
    for place in 0..16u8 {
        let count = trip.extras[place as usize];
        let Some(rest) = amount_left(tables, place + 1, count, left, steps) else {
            return false;
        };
        left = rest;
    }
    left == 0
}

/// What is left of an amount after a supplement that was added `count` times. `None` if that is more often than the
/// tariff allows, or costs more. One step.
fn amount_left<L: Ledger>(
    tables: &Tables,
    number: u8,
    count: u8,
    left: u64,
    steps: &mut Steps<L>,
) -> Option<u64>
    ensures some { IfSome result (λ rest. (count ≤ most_in (supplement_in tables.now number))
        × (left ≡ count * amount_in (supplement_in tables.now number) + rest)) }
    ensures none { IsNone result → ¬ ((count ≤ most_in (supplement_in tables.now number))
        × (count * amount_in (supplement_in tables.now number) ≤ left)) }
    ensures steps { steps.new ≡ steps.old + 1 }
{
    let Some(supplement) = find_supplement(tables, number, steps) else {
        return nothing_left(count, left);
    };
    let amount = count as u64 * supplement.amount;
    if count > supplement.max || amount > left {
        return None;
    }
    Some(left - amount)
}

/// What is left if there is no such supplement.
fn nothing_left(count: u8, left: u64) -> Option<u64>
    ensures some { IfSome result (λ rest. (count ≡ 0) × (left ≡ rest)) }
    ensures none { IsNone result → 0 < count }
{
    if count > 0 {
        return None;
    }
    Some(left)
}
