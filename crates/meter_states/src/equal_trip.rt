//! Trips after equal intervals, and how many there may be.
ghost use Rattle.std.specs.Prelude.{◌*◌, ◌+◌, ◌<◌, ◌^◌, ◌≡◌, ◌≤◌, ◌⊎◌};
ghost use Rattle.meter_states.specs.{Common.{TableParts, last_tick}, Lawful.{IsLawfulTrip}};
ghost use Rattle.meter_states.specs.EqualStages as stages;
ghost use Rattle.meter_states.specs.Equals as model;

use crate::lookups::modulus;
use drive_modes::Rounding;
use meter_model::CoreTrip;
use tariff_compile::Tables;
use taxi_units::HIRINGS_END;

/// What an interval of `pulses` pulses adds to the roaming pulses at a number of the store.
pub(crate) fn roams(number: u64, pulses: u32) -> u32
    ensures value { result ≡ model.roams number pulses }
    ensures most { result ≤ pulses }
{
    if number < HIRINGS_END { pulses } else { 0 }
}

/// How many of `count` fit in `room`, if each takes `each` of it.
pub(crate) fn most_times(count: u32, room: u128, each: u128) -> u32
    ensures most { result ≤ count }
    ensures room { result * each ≤ room }
    ensures full { (result ≡ count) ⊎ (room < (result + 1) * each) }
{
    if each == 0 {
        return count;
    }
    (room / each).min(count as u128) as u32
}

/// The charges that a trip takes without a further display step.
pub(crate) fn spare(trip: &CoreTrip, tables: &Tables) -> u128
    requires range { IsLawfulTrip tables.now last_tick trip.now }
    ensures value { result ≡ model.spare_of tables.now.rounding (tables.now.step * tables.now.measure)
        trip.now.meterage }
    ensures most { result ≤ 3 * 10 ^ 31 }
{
    let meterage = trip.meterage;
    let all = meterage.cover_left + (modulus(tables) - 1 - meterage.rest);
    match tables.rounding() {
        Rounding::Behind => all,
        Rounding::Ahead => {
            if meterage.rest == 0 {
                meterage.cover_left
            } else {
                all
            }
        }
    }
}

/// Adds `count` intervals that ended in Stopped to a trip.
pub(crate) fn add_passed(trip: &mut CoreTrip, pulses: u32, count: u32)
    requires pulses { pulses ≤ 2000 }
    requires few { trip.old.pulses ≤ 5000000000000000000 }
    requires short { trip.old.ticks + count ≤ last_tick }
    ensures value { trip.new ≡ stages.passed pulses count trip.old }
    ensures range { (tables : TableParts) → IsLawfulTrip tables last_tick trip.old
        → IsLawfulTrip tables last_tick trip.new }
{
    trip.pulses += count as u64 * pulses as u64;
    trip.ticks += count;
}

/// Adds `count` intervals that ended in Hired to a trip; their charges fill no display step.
pub(crate) fn add_charged(trip: &mut CoreTrip, pulses: u32, charge: u128, count: u32)
    requires pulses { pulses ≤ 2000 }
    requires few { trip.old.pulses ≤ 5000000000000000000 }
    requires short { trip.old.ticks + count ≤ last_tick }
    requires rest { trip.old.meterage.rest ≤ 2 * 10 ^ 29 }
    requires most { count * charge ≤ 3 * 10 ^ 31 }
    ensures value { trip.new ≡ stages.charged pulses charge count trip.old }
    ensures range { (tables : TableParts) → IsLawfulTrip tables last_tick trip.old
        → count * charge ≤ model.spare_of tables.rounding (tables.step * tables.measure) trip.old.meterage
        → IsLawfulTrip tables last_tick trip.new }
{
    let all = count as u128 * charge;
    trip.meterage.rest += all.saturating_sub(trip.meterage.cover_left);
    trip.meterage.cover_left = trip.meterage.cover_left.saturating_sub(all);
    trip.pulses += count as u64 * pulses as u64;
    trip.ticks += count;
}
