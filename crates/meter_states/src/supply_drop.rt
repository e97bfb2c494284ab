//! What a supply drop leaves.
ghost use Rattle.std.specs.Prelude.{[], ◌+◌, ◌<◌, ◌≡◌, ◌≤◌, Some};
ghost use Rattle.{totals_record.specs.Ranges.{IsTripInItsRanges}, meter_model.specs.Meter.{held}};
ghost use Rattle.meter_states.specs.{Acts.{StayLawful}, Setting.{IsSettingOf}, Stages.{CarriesStage}};
ghost use Rattle.meter_states.specs.Common.{Meter, Off, Setting, TableParts, last_number, last_tick, roaming_amid};
ghost use Rattle.meter_states.specs.{Core.{ComesToOutcome, core_of}, Fits.{Fits}, Lawful.{IsBetweenEvents, IsPowered}};
ghost use Rattle.meter_model.specs.Supply as model;
ghost use Rattle.meter_model.specs.Trip as trips;

use crate::meter_state::State;
use crate::records::Closing;
use crate::trip::saved_at;
use meter_model::{Act, Acts, CoreTrip};
use seal_record::Seal;
use std::sync::ledger::Ledger;
use tariff_compile::Tables;
use taxi_units::{Kind, LAST_NUMBER, Steps};
use totals_record::Trip;

impl State {
    /// The supply drops. At most 12 steps.
    #[inline(never)]
    pub(crate) fn drop_supply<L: Ledger>(
        &mut self,
        tables: &Tables,
        seal: &Seal,
        acts: &mut Acts,
        steps: &mut Steps<L>,
    )
        requires lawful { IsBetweenEvents tables.now self.old }
        requires room { acts.old.items ≡ [] }
        ensures off { self.new.operating ≡ Off }
        ensures ranges { StayLawful tables.now self.old.number acts.old.items acts.new.items }
        ensures done { (s : Setting) (m : Meter) → IsSettingOf s tables.now seal.now → self.old ≡ core_of s m
            → acts.new.items ≡ (model.supply_dropped s m).acts }
        ensures steps { steps.new ≤ steps.old + 12 }
    {
        self.leave_interval();
        self.hold_or_close(tables, seal, acts, steps);
        *self = State::off();
    }

    /// The trip is held, or closed if the store takes no held trip; without a trip roaming pulses are entered. At most
    /// 12 steps.
    fn hold_or_close<L: Ledger>(
        &mut self,
        tables: &Tables,
        seal: &Seal,
        acts: &mut Acts,
        steps: &mut Steps<L>,
    )
        requires lawful { IsPowered tables.now last_tick roaming_amid 1 self.old }
        requires room { acts.old.items ≡ [] }
        ensures stage { CarriesStage tables.now seal.now self.old self.new acts.old.items acts.new.items
            (λ s m. model.held_or_closed s m.trip m) }
        ensures steps { steps.new ≤ steps.old + 12 }
    {
        match self.trip {
            None => {
                if self.roam > 0 {
                    self.enter_roaming(tables, acts);
                }
            }
            Some(trip) => {
                if self.number < LAST_NUMBER {
                    self.hold(trip, acts);
                } else {
                    let closing = Closing {
                        kind: Kind::Aborted,
                        finish: self.clock.second(),
                    };
                    self.close(closing, tables, seal, acts, steps);
                }
            }
        }
    }

    /// The trip is held.
    fn hold(&mut self, trip: CoreTrip, acts: &mut Acts)
        requires lawful { (tables : TableParts) × IsPowered tables last_tick roaming_amid 1 self.old }
        requires trip { self.old.trip ≡ Some trip }
        requires number { self.old.number < last_number }
        requires room { acts.old.items ≡ [] }
        ensures ranges { (tables : TableParts) → IsPowered tables last_tick roaming_amid 1 self.old
            → StayLawful tables self.old.number acts.old.items acts.new.items }
        ensures follows { (s : Setting) (m : Meter) (t : trips.MeterTrip)
            → trip ≡ trips.core_trip_of s t → self.old ≡ core_of s m
            → ComesToOutcome s self.new acts.old.items acts.new.items
            (held (trips.held_trip s m.clock (model.is_stopped m.operating) m.position m.zone t) m) }
    {
        acts.push(Act::Hold(self.saved_trip(&trip)));
        self.number += 1;
    }

    /// The trip as it is saved.
    fn saved_trip(&self, trip: &CoreTrip) -> Trip
        requires lawful { (tables : TableParts) × IsPowered tables last_tick roaming_amid 1 self.now }
        requires trip { self.now.trip ≡ Some trip.now }
        ensures value { result ≡ trips.saved_at self.now.clock (model.is_stopped self.now.operating)
            self.now.position self.now.zone trip.now }
        ensures range { IsTripInItsRanges (self.now.number + 1) result }
        ensures fits { (tables : TableParts) → IsPowered tables last_tick roaming_amid 1 self.now
            → Fits tables result }
    {
        saved_at(
            trip,
            self.clock.second(),
            self.is_stopped(),
            self.position,
            self.zone,
        )
    }
}
