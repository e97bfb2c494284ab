//! The fares of the receipts of a run.
ghost use Rattle.std.specs.{List.{sum_by}, Prelude.{◌≡◌, ◌≤◌, Contains, List, map, sum}};
ghost use Rattle.drive_modes.specs.Stretches.{AreEvenSpeeds, AreOfStretches, Stretch, interval_charge, least_charge};
ghost use Rattle.{drive_modes.specs.Stretches.{most_charge}, tariff_compile.specs.Tables.{TableParts}};
ghost use Rattle.{meter_model.specs.Run.{actions_of}, meter_states.specs.Setting.{IsTariffOf}};
ghost use Rattle.trip_fares.specs.Common.{Durable, Event, HoldFits, Receipt, Setting, Single};
ghost use Rattle.trip_fares.specs.RunTrips.{IsOfTrip, fare_after, intervals_of};
ghost use Rattle.meter_model.specs.declared.act.Act.TheVariants as acts;

use drive_modes::{even_fares_are_shown_nearly, fares_rise_with_their_charge};
use meter_states::tables_charge_by_the_rate_in_force;
use tariff_compile::tables_are_fit;

/// A law: each receipt of a run is of a trip that was hired in the run, or that the store held before.
pub fn receipts_are_of_their_trips()
    ensures { (s : Setting) (durable : Durable) (events : List Event) (receipt : Receipt) → HoldFits s durable.hold
        → Contains (actions_of s durable events) (acts.Receipt receipt) → IsOfTrip s durable events receipt }
{}

/// A law: the fare on a receipt of a run is what the intervals of its trip in Hired cost together, in the mode and by
/// the weights that the tables have at the beginning of each, above what came before them, with the fees of the trip.
pub fn trips_are_charged_by_their_intervals()
    ensures { (s : Setting) (tables : TableParts) (durable : Durable) (events : List Event) (receipt : Receipt)
        → IsTariffOf s tables → HoldFits s durable.hold → (of : IsOfTrip s durable events receipt)
        → receipt.fare
        ≡ fare_after s of.trip (sum (map (interval_charge s.mode) (intervals_of s durable events receipt of))) }
{
    tables_charge_by_the_rate_in_force();
}

/// A law: take a trip of a run in mode S, hired in the run or held before, whose intervals in Hired are stretches, each
/// under the weights of one rate, in whatever order. The fare on its receipt, with its minimum and at most 99,999,999,
/// is at least the fare of what each stretch costs as one: the greater of its distance and its time. At even speeds it
/// is at most the fare of that with the bound of each stretch.
pub fn even_trips_are_shown_nearly()
    ensures least { (s : Setting) (tables : TableParts) (durable : Durable) (events : List Event) (receipt : Receipt)
        (stretches : List Stretch) → IsTariffOf s tables → HoldFits s durable.hold → s.mode ≡ Single
        → (of : IsOfTrip s durable events receipt) → AreOfStretches stretches (intervals_of s durable events receipt of)
        → fare_after s of.trip (sum_by least_charge stretches) ≤ receipt.fare }
    ensures most { (s : Setting) (tables : TableParts) (durable : Durable) (events : List Event) (receipt : Receipt)
        (stretches : List Stretch) → IsTariffOf s tables → HoldFits s durable.hold → s.mode ≡ Single
        → (of : IsOfTrip s durable events receipt) → AreOfStretches stretches (intervals_of s durable events receipt of)
        → AreEvenSpeeds stretches → receipt.fare ≤ fare_after s of.trip (sum_by most_charge stretches) }
{
    even_fares_are_shown_nearly();
    fares_rise_with_their_charge();
    tables_are_fit();
    trips_are_charged_by_their_intervals();
}
