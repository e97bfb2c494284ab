//! Entries of roaming, and of closed trips with their receipts directly behind.
ghost use Rattle.std.specs.Prelude.{ℕ, ◌+◌, ◌<◌, ◌≡◌, ◌≢◌, ◌≤◌, ◌⊎◌, All, None, Some, length};
ghost use Rattle.{meter_model.specs.Meter.{entered, printed}, meter_states.specs.Common.{trip_closed}};
ghost use Rattle.meter_states.specs.{Acts.{IsLawfulAct, StayLawful}, Lawful.{IsAmidEvent, IsBetweenEvents, IsPowered}};
ghost use Rattle.meter_states.specs.Common.{ForHire, Meter, Roam, Seal, Setting, closed, entry_of_trip, last_tick};
ghost use Rattle.meter_states.specs.Common.{longest_trip, receipt_of, roaming_amid, roaming_checked, roaming_entered};
ghost use Rattle.meter_states.specs.{Core.{ComesToOutcome, core_of}, Setting.{IsSettingOf, IsTariffOf}};
ghost use Rattle.meter_states.specs.Stages.{CarriesStage, FollowsStage, HasEntered, IsTripClosing, MayEnter};
ghost use Rattle.meter_model.specs.Trip as model;

use crate::meter_state::State;
use crate::records::{Closing, entry, receipt, roaming_entry};
use meter_model::{Act, Acts, CoreTrip};
use seal_record::Seal;
use std::sync::ledger::Ledger;
use tariff_compile::Tables;
use taxi_units::{Kind, Operating, ROAMING_MOST, Steps};

impl State {
    /// Closes the trip; the meter is then for hire. At most 12 steps.
    pub(crate) fn close<L: Ledger>(
        &mut self,
        closing: Closing,
        tables: &Tables,
        seal: &Seal,
        acts: &mut Acts,
        steps: &mut Steps<L>,
    )
        requires lawful { IsPowered tables.now longest_trip roaming_amid 1 self.old }
        requires trip { self.old.trip ≢ None }
        requires closing { IsTripClosing closing }
        requires room { length acts.old.items ≤ 1 }
        ensures lawful { IsBetweenEvents tables.now self.new }
        ensures few { length acts.new.items ≤ length acts.old.items + 2 }
        ensures roam { self.new.roam ≡ 0 }
        ensures stage { CarriesStage tables.now seal.now self.old self.new acts.old.items acts.new.items
            (λ s. closed s closing.kind closing.finish) }
        ensures steps { steps.new ≤ steps.old + 12 }
    {
        self.operating = Operating::ForHire;
        if let Some(trip) = self.trip {
            self.trip = None;
            self.close_trip(closing, &trip, tables, seal, acts, steps);
        }
    }

    /// Enters a trip, and prints its receipt directly behind. At most 12 steps.
    pub(crate) fn close_trip<L: Ledger>(
        &mut self,
        closing: Closing,
        trip: &CoreTrip,
        tables: &Tables,
        seal: &Seal,
        acts: &mut Acts,
        steps: &mut Steps<L>,
    )
        requires trip { MayEnter tables.now self.old trip.now }
        requires closing { IsTripClosing closing }
        requires room { length acts.old.items ≤ 1 }
        ensures number { self.new ≡ record self.old { number = self.old.number + 1 } }
        ensures few { length acts.new.items ≤ length acts.old.items + 2 }
        ensures ranges { StayLawful tables.now self.old.number acts.old.items acts.new.items }
        ensures follows { (s : Setting) (m : Meter) (t : model.MeterTrip) → IsSettingOf s tables.now seal.now
            → trip.now ≡ model.core_trip_of s t → self.old ≡ core_of s m
            → ComesToOutcome s self.new acts.old.items acts.new.items
            (trip_closed s closing.kind closing.finish (Some t) m) }
        ensures steps { steps.new ≤ steps.old + 12 }
    {
        self.enter_trip(closing.kind, trip, tables, acts);
        self.print_receipt(closing, trip, tables, seal, acts, steps);
    }

    /// Enters a trip.
    fn enter_trip(&mut self, kind: Kind, trip: &CoreTrip, tables: &Tables, acts: &mut Acts)
        requires trip { MayEnter tables.now self.old trip.now }
        requires kind { kind ≢ Roam }
        requires room { length acts.old.items ≤ 3 }
        ensures number { self.new ≡ record self.old { number = self.old.number + 1 } }
        ensures few { length acts.new.items ≤ length acts.old.items + 1 }
        ensures ranges { StayLawful tables.now self.old.number acts.old.items acts.new.items }
        ensures follows { (s : Setting) (m : Meter) (t : model.MeterTrip) → IsTariffOf s tables.now
            → trip.now ≡ model.core_trip_of s t → self.old ≡ core_of s m
            → ComesToOutcome s self.new acts.old.items acts.new.items (entered (entry_of_trip s kind m.position t) m) }
    {
        acts.push(Act::Enter(entry(kind, self.position, trip, tables)));
        self.number += 1;
    }

    /// Prints the receipt of a trip. At most 12 steps.
    fn print_receipt<L: Ledger>(
        &self,
        closing: Closing,
        trip: &CoreTrip,
        tables: &Tables,
        seal: &Seal,
        acts: &mut Acts,
        steps: &mut Steps<L>,
    )
        requires trip { HasEntered tables.now self.now trip.now }
        requires closing { IsTripClosing closing }
        requires room { length acts.old.items ≤ 3 }
        ensures few { length acts.new.items ≤ length acts.old.items + 1 }
        ensures ranges { (number : ℕ) → All (IsLawfulAct tables.now number) acts.old.items
            → All (IsLawfulAct tables.now number) acts.new.items }
        ensures follows { (s : Setting) (m : Meter) (t : model.MeterTrip) → IsSettingOf s tables.now seal.now
            → trip.now ≡ model.core_trip_of s t → self.now ≡ core_of s m
            → ComesToOutcome s self.now acts.old.items acts.new.items
            (printed (receipt_of s closing.kind closing.finish m.position t m.durable.number) m) }
        ensures steps { steps.new ≤ steps.old + 12 }
    {
        acts.push(Act::Receipt(receipt(
            closing,
            self.position,
            trip,
            self.number,
            tables,
            seal,
            steps,
        )));
    }

    /// Enters the roaming pulses for hire if they are many.
    pub(crate) fn check_roaming(&mut self, tables: &Tables, acts: &mut Acts)
        requires lawful { IsAmidEvent tables.now self.old }
        requires room { (length acts.old.items ≤ 1) ⊎ ((length acts.old.items ≤ 3) × (self.old.roam ≡ 0)) }
        ensures lawful { IsBetweenEvents tables.now self.new }
        ensures few { length acts.new.items ≤ 3 }
        ensures ranges { (number : ℕ) → (self.old.number ≡ number) ⊎ (self.old.roam ≡ 0)
            → All (IsLawfulAct tables.now number) acts.old.items
            → All (IsLawfulAct tables.now number) acts.new.items }
        ensures follows { (seal : Seal)
            → FollowsStage tables.now seal self.old self.new acts.old.items acts.new.items roaming_checked }
    {
        if matches!(self.operating, Operating::ForHire) && self.roam >= ROAMING_MOST {
            self.enter_roaming(tables, acts);
        }
    }

    /// Enters the roaming pulses, of which there are none then.
    #[inline(never)]
    pub(crate) fn enter_roaming(&mut self, tables: &Tables, acts: &mut Acts)
        requires lawful { IsPowered tables.now last_tick roaming_amid 1 self.old }
        requires hire { self.old.operating ≡ ForHire }
        requires some { 0 < self.old.roam }
        requires room { length acts.old.items ≤ 3 }
        ensures lawful { IsBetweenEvents tables.now self.new }
        ensures few { length acts.new.items ≤ length acts.old.items + 1 }
        ensures ranges { StayLawful tables.now self.old.number acts.old.items acts.new.items }
        ensures follows { (seal : Seal)
            → FollowsStage tables.now seal self.old self.new acts.old.items acts.new.items roaming_entered }
    {
        acts.push(Act::Enter(roaming_entry(self.roam, tables)));
        self.number += 1;
        self.roam = 0;
    }
}
