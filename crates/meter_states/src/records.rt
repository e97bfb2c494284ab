//! Entries and receipts.
ghost use Rattle.std.specs.Prelude.{◌+◌, ◌≡◌, ◌≢◌, ◌≤◌};
ghost use Rattle.{taxi_units.specs.Shown.{IsReceipt}, totals_record.specs.Ranges.{IsEntry}};
ghost use Rattle.meter_states.specs.Common.{Roam, Setting, longest_trip, number_most, roaming_amid};
ghost use Rattle.meter_states.specs.{Lawful.{IsTripBeside}, Setting.{IsSettingOf, IsTariffOf}, Stages.{IsTripClosing}};
ghost use Rattle.meter_model.specs.ClosedTrip as model;
ghost use Rattle.meter_model.specs.Trip as trips;

use crate::lookups::{distance, stamp};
use crate::trip::{display_steps, fare};
use meter_model::CoreTrip;
use seal_record::Seal;
use std::sync::ledger::Ledger;
use tariff_compile::Tables;
use taxi_units::{Kind, Receipt, Steps};
use totals_record::Entry;

/// How a trip is closed, and at which second.
#[derive(Clone, Copy)]
pub(crate) struct Closing {
    pub(crate) kind: Kind,
    pub(crate) finish: u64,
}

/// The entry of a trip that is closed at a tariff position.
pub(crate) fn entry(kind: Kind, position: u8, trip: &CoreTrip, tables: &Tables) -> Entry
    requires range { IsTripBeside tables.now number_most longest_trip trip.now }
    requires position { (1 ≤ position) × (position ≤ 9) }
    requires kind { kind ≢ Roam }
    ensures value { (s : Setting) (t : trips.MeterTrip) → IsTariffOf s tables.now → trip.now ≡ trips.core_trip_of s t
        → result ≡ model.entry_of_trip s kind position t }
    ensures range { IsEntry result }
    ensures kind { result.kind ≡ kind }
{
    Entry {
        kind,
        roam_mm: distance(tables, trip.roam as u64),
        hired_mm: distance(tables, trip.pulses),
        fare: fare(trip, tables),
        supplements: trip.extras_sum,
        position,
    }
}

/// The entry of roaming.
pub(crate) fn roaming_entry(pulses: u32, tables: &Tables) -> Entry
    requires { pulses ≤ roaming_amid }
    ensures value { (s : Setting) → IsTariffOf s tables.now → result ≡ model.roaming_entry s pulses }
    ensures range { IsEntry result }
{
    Entry {
        kind: Kind::Roam,
        roam_mm: distance(tables, pulses as u64),
        hired_mm: 0,
        fare: 0,
        supplements: 0,
        position: 0,
    }
}

/// The receipt of a trip, with the store's number after its entry. At most 12 steps.
pub(crate) fn receipt<L: Ledger>(
    closing: Closing,
    position: u8,
    trip: &CoreTrip,
    number: u64,
    tables: &Tables,
    seal: &Seal,
    steps: &mut Steps<L>,
) -> Receipt
    requires range { IsTripBeside tables.now number longest_trip trip.now }
    requires position { (1 ≤ position) × (position ≤ 9) }
    requires number { (1 ≤ number) × (number ≤ number_most) }
    requires closing { IsTripClosing closing }
    ensures value { (s : Setting) (t : trips.MeterTrip) → IsSettingOf s tables.now seal.now
        → trip.now ≡ trips.core_trip_of s t
        → result ≡ model.receipt_of s closing.kind closing.finish position t number }
    ensures range { IsReceipt result }
    ensures steps { steps.new ≤ steps.old + 12 }
{
    let start = stamp(seal, trip.started, steps);
    let finish = stamp(seal, closing.finish, steps);
    Receipt {
        number,
        kind: closing.kind,
        start,
        finish,
        position,
        hired_mm: distance(tables, trip.pulses),
        initial: trip.fees.initial,
        minimum: trip.fees.minimum,
        steps: display_steps(trip, tables),
        step: tables.step(),
        fare: fare(trip, tables),
        supplements: trip.extras_sum,
        decimals: tables.decimals(),
    }
}
