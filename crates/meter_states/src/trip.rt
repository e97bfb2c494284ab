//! What the core keeps of a trip: what begins it, what an interval and a supplement add, and how it is saved
//! and goes on.
ghost use Rattle.std.specs.Prelude.{◌+◌, ◌-◌, ◌<◌, ◌^◌, ◌≡◌, ◌≤◌, Some, slice_index};
ghost use Rattle.{taxi_units.specs.Limits.{largest_supplements}, tariff_check.specs.Amounts.{IsFitInitial}};
ghost use Rattle.meter_states.specs.Common.{AreFit, Context, IsSecond, Setting, TableParts, largest_amount, last_tick};
ghost use Rattle.meter_states.specs.Common.{longest_trip, roaming_amid, steps_of, times, weights_in_force};
ghost use Rattle.meter_states.specs.Lawful.{IsLawfulTrip};
ghost use Rattle.meter_states.specs.{Setting.{IsSettingOf, IsTariffOf}, Supplements.{supplement_in}};
ghost use Rattle.meter_model.specs.Trip as model;

use crate::lookups::modulus;
use crate::meterage::add_charge;
use drive_modes::{Meterage, Weights, charge};
use meter_model::{CoreTrip, Fees};
use seal_record::Seal;
use tariff_check::{Initial, Supplement};
use tariff_compile::Tables;
use totals_record::Trip;

/// What the core keeps of a held trip.
pub(crate) fn core_trip(held: &Trip) -> CoreTrip
    ensures { result ≡ model.core_trip_in held.now }
{
    CoreTrip {
        started: held.started,
        roam: held.roam,
        pulses: held.pulses,
        ticks: held.ticks,
        fees: Fees {
            initial: held.initial,
            minimum: held.minimum,
        },
        meterage: held.meterage,
        extras: held.extras,
        extras_sum: held.extras_sum,
    }
}

/// A trip as it is saved at a second, stopped or not, at a position and a zone.
pub(crate) fn saved_at(trip: &CoreTrip, second: u64, stopped: bool, position: u8, zone: u8) -> Trip
    ensures { result ≡ model.saved_at second stopped position zone trip.now }
{
    Trip {
        started: trip.started,
        saved: second,
        stopped,
        position,
        zone,
        roam: trip.roam,
        pulses: trip.pulses,
        ticks: trip.ticks,
        initial: trip.fees.initial,
        minimum: trip.fees.minimum,
        meterage: trip.meterage,
        extras: trip.extras,
        extras_sum: trip.extras_sum,
    }
}

/// A trip that begins at a second, after these roaming pulses.
pub(crate) fn begun(tables: &Tables, fee: Initial, second: u64, roam: u32) -> CoreTrip
    requires second { IsSecond second }
    requires fee { IsFitInitial fee }
    requires roam { roam ≤ roaming_amid }
    ensures saved { (s : Setting) → IsTariffOf s tables.now
        → result ≡ model.core_trip_of s (model.begun s fee second roam) }
    ensures range { IsLawfulTrip tables.now last_tick result }
    ensures none { (result.pulses ≡ 0) × (result.ticks ≡ 0) }
    ensures started { result.started ≡ second }
{
    CoreTrip {
        started: second,
        roam,
        pulses: 0,
        ticks: 0,
        fees: Fees {
            initial: fee.amount,
            minimum: fee.minimum,
        },
        meterage: Meterage::start(fee.covers, tables.measure()),
        extras: [0; 16],
        extras_sum: 0,
    }
}

/// Adds an interval that ended in Hired to a trip.
pub(crate) fn add_hired(
    trip: &mut CoreTrip,
    tables: &Tables,
    seal: &Seal,
    weights: Weights,
    pulses: u32,
)
    requires pulses { pulses ≤ 2000 }
    requires weights { AreFit tables.now.measure weights }
    requires few { trip.old.pulses ≤ 9000000000000000000 }
    requires range { IsLawfulTrip tables.now last_tick trip.old }
    ensures saved { (s : Setting) (t : model.MeterTrip) (x : Context) → IsSettingOf s tables.now seal.now
        → weights ≡ weights_in_force s.tariff tables.now.constant x → trip.old ≡ model.core_trip_of s t
        → trip.new ≡ model.core_trip_of s (model.with_part (model.InHired pulses x) t) }
    ensures range { IsLawfulTrip tables.now longest_trip trip.new }
    ensures counts { (trip.new.pulses ≡ trip.old.pulses + pulses) × (trip.new.ticks ≡ trip.old.ticks + 1) }
    ensures started { trip.new.started ≡ trip.old.started }
{
    add_charge(
        &mut trip.meterage,
        charge(seal.params.mode, weights, pulses),
        modulus(tables),
    );
    trip.pulses += pulses as u64;
    trip.ticks += 1;
}

/// Adds an interval that ended in Stopped to a trip.
pub(crate) fn add_stopped(trip: &mut CoreTrip, pulses: u32)
    requires pulses { pulses ≤ 2000 }
    requires few { trip.old.pulses ≤ 9000000000000000000 }
    requires short { trip.old.ticks ≤ last_tick }
    ensures saved { (s : Setting) (t : model.MeterTrip) → trip.old ≡ model.core_trip_of s t
        → trip.new ≡ model.core_trip_of s (model.with_part (model.InStopped pulses) t) }
    ensures range { (tables : TableParts) → IsLawfulTrip tables last_tick trip.old
        → IsLawfulTrip tables longest_trip trip.new }
    ensures counts { (trip.new.pulses ≡ trip.old.pulses + pulses) × (trip.new.ticks ≡ trip.old.ticks + 1) }
    ensures started { trip.new.started ≡ trip.old.started }
{
    trip.pulses += pulses as u64;
    trip.ticks += 1;
}

/// Adds the pulses of an unfinished interval to a trip.
pub(crate) fn add_rest(trip: &mut CoreTrip, pulses: u32)
    requires pulses { pulses ≤ 2000 }
    requires few { trip.old.pulses ≤ 9000000000000000000 }
    ensures saved { (s : Setting) (t : model.MeterTrip) → trip.old ≡ model.core_trip_of s t
        → trip.new ≡ model.core_trip_of s (model.with_part (model.Rest pulses) t) }
    ensures range { (tables : TableParts) → IsLawfulTrip tables last_tick trip.old
        → IsLawfulTrip tables last_tick trip.new }
    ensures counts { (trip.new.pulses ≡ trip.old.pulses + pulses) × (trip.new.ticks ≡ trip.old.ticks) }
    ensures started { trip.new.started ≡ trip.old.started }
{
    trip.pulses += pulses as u64;
}

/// The display steps that are shown.
pub(crate) fn display_steps(trip: &CoreTrip, tables: &Tables) -> u64
    requires range { IsLawfulTrip tables.now longest_trip trip.now }
    ensures value { (s : Setting) (t : model.MeterTrip) → IsTariffOf s tables.now → trip.now ≡ model.core_trip_of s t
        → result ≡ model.steps_shown s t }
    ensures exact { result ≡ steps_of tables.now.rounding trip.now.meterage }
    ensures most { result < 10 ^ 18 }
{
    trip.meterage.steps(tables.rounding())
}

/// The fare that is shown.
pub(crate) fn fare(trip: &CoreTrip, tables: &Tables) -> u64
    requires range { IsLawfulTrip tables.now longest_trip trip.now }
    ensures value { (s : Setting) (t : model.MeterTrip) → IsTariffOf s tables.now → trip.now ≡ model.core_trip_of s t
        → result ≡ model.fare_of s t }
    ensures exact { result ≡ model.fare_by_fees trip.now.fees tables.now.step
        (steps_of tables.now.rounding trip.now.meterage) }
    ensures most { result ≤ largest_amount }
{
    let fees = trip.fees;
    trip.meterage.shown(fees.initial, fees.minimum, tables.step(), tables.rounding())
}

/// How often the supplement of a number was added.
pub(crate) fn times(trip: &CoreTrip, number: u8) -> u8
    requires { (1 ≤ number) × (number ≤ 16) }
    ensures value { result ≡ slice_index trip.now.extras (number - 1) }
    ensures times { (s : Setting) (t : model.MeterTrip) → trip.now ≡ model.core_trip_of s t
        → result ≡ times number t.extras }
{
    trip.extras[number as usize - 1]
}

/// Adds a supplement of the tariff to a trip, which had it less often than it may.
pub(crate) fn add_extra(trip: &mut CoreTrip, number: u8, supplement: Supplement)
    requires number { (1 ≤ number) × (number ≤ 16) }
    requires few { slice_index trip.old.extras (number - 1) < supplement.max }
    requires most { supplement.max ≤ 99 }
    requires amount { supplement.amount ≤ 1000000 }
    requires sum { trip.old.extras_sum ≤ largest_supplements }
    ensures saved { (tables : TableParts) (s : Setting) (t : model.MeterTrip)
        → supplement_in tables number ≡ Some supplement → IsTariffOf s tables → trip.old ≡ model.core_trip_of s t
        → trip.new ≡ model.core_trip_of s (model.with_extra number t) }
    ensures range { (tables : TableParts) → supplement_in tables number ≡ Some supplement
        → IsLawfulTrip tables last_tick trip.old → IsLawfulTrip tables last_tick trip.new }
    ensures counts { (trip.new.pulses ≡ trip.old.pulses) × (trip.new.ticks ≡ trip.old.ticks) }
    ensures started { trip.new.started ≡ trip.old.started }
{
    trip.extras[number as usize - 1] += 1;
    trip.extras_sum += supplement.amount;
}
