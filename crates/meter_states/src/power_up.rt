//! What the coming of the supply finds.
ghost use Rattle.std.specs.{Option.{ForSome}, Prelude.{◌+◌, ◌≡◌, ◌≤◌, All, None, Some, length, option_map}};
ghost use Rattle.{meter_model.specs.KeptTrip.{IsSavedIn}, meter_states.specs.Lawful.{IsBetweenEvents, IsLawful}};
ghost use Rattle.meter_states.specs.{Acts.{IsLawfulAct, KeepsRanges}, Stages.{IsNewlyPowered, MayBeTaken, TakesHold}};
ghost use Rattle.meter_states.specs.Common.{ForHire, IsDurable, IsHeld, IsSecond, Meter, Setting, TableParts};
ghost use Rattle.meter_states.specs.{Core.{Meets, core_of}, Fits.{Fits}, Setting.{IsSettingOf}};
ghost use Rattle.meter_model.specs.Supply as model;
ghost use Rattle.meter_model.specs.Trip as trips;

use crate::cache::Cache;
use crate::core_state::Core;
use crate::held::{is_within_hold, running};
use crate::meter_state::State;
use crate::records::Closing;
use crate::trip::core_trip;
use meter_model::Acts;
use seal_record::Seal;
use std::sync::ledger::Ledger;
use tariff_compile::Tables;
use taxi_units::{Kind, Operating, Steps};
use totals_record::{Durable, Trip};

impl Core {
    /// Goes on from a durable state as the supply comes at a second, 946,684,800 to 7,258,118,399. The state is in its
    /// ranges, its held trip fits, and the tables were compiled with the seal's constant. Within the hold a held trip
    /// goes on in Hired or Stopped, and otherwise it is closed; without one the meter is for hire. The display is
    /// shown. At most 12 steps. The rules are this project's own.
    pub fn resume<L: Ledger>(
        tables: &Tables,
        seal: &Seal,
        durable: &Durable,
        second: u64,
        steps: &mut Steps<L>,
    ) -> (Core, Acts)
        requires range { IsDurable durable.now }
        requires fits { ForSome durable.now.hold (Fits tables.now) }
        requires constant { tables.now.constant ≡ seal.now.params.constant }
        requires second { IsSecond second }
        ensures lawful { IsLawful tables.now seal.now result.0 }
        ensures ranges { All (IsLawfulAct tables.now durable.now.number) result.1.items }
        ensures commits { All (KeepsRanges durable.now) result.1.items }
        ensures meets { (s : Setting) (m : Meter) → IsSettingOf s tables.now seal.now → m.durable ≡ durable.now
            → IsSavedIn s durable.now.hold m.trip
            → Meets s result.0.state result.1.items (model.supply_came s second m) }
        ensures steps { steps.new ≤ steps.old + 12 }
    {
        tables.recall();
        let mut state = State::idle(Operating::ForHire, durable.number, second);
        let mut acts = Acts::new();
        state.take_hold(durable.hold, second, tables, seal, &mut acts, steps);
        state.show(tables, &mut acts);
        let cache = Cache::empty();
        (Core { state, cache }, acts)
    }
}

impl State {
    /// A held trip goes on or is closed. At most 12 steps.
    fn take_hold<L: Ledger>(
        &mut self,
        hold: Option<Trip>,
        second: u64,
        tables: &Tables,
        seal: &Seal,
        acts: &mut Acts,
        steps: &mut Steps<L>,
    )
        requires ready { IsNewlyPowered tables.now self.old acts.old.items }
        requires second { self.old.clock ≡ second }
        requires hold { ForSome hold (MayBeTaken tables.now self.old.number) }
        ensures lawful { IsBetweenEvents tables.now self.new }
        ensures few { length acts.new.items ≤ 2 }
        ensures stage { TakesHold tables.now seal.now self.old self.new acts.old.items acts.new.items hold
            (λ s. model.hold_taken s second hold) }
        ensures steps { steps.new ≤ steps.old + 12 }
    {
        if let Some(held) = hold {
            self.take_held(held, second, tables, seal, acts, steps);
        }
    }

    /// A held trip goes on if the supply was away for at most the hold, and otherwise it is closed. At most 12 steps.
    fn take_held<L: Ledger>(
        &mut self,
        held: Trip,
        second: u64,
        tables: &Tables,
        seal: &Seal,
        acts: &mut Acts,
        steps: &mut Steps<L>,
    )
        requires ready { IsNewlyPowered tables.now self.old acts.old.items }
        requires second { self.old.clock ≡ second }
        requires held { MayBeTaken tables.now self.old.number held }
        ensures lawful { IsBetweenEvents tables.now self.new }
        ensures few { length acts.new.items ≤ 2 }
        ensures stage { TakesHold tables.now seal.now self.old self.new acts.old.items acts.new.items (Some held)
            (λ s. model.hold_taken s second (Some held)) }
        ensures steps { steps.new ≤ steps.old + 12 }
    {
        if is_within_hold(&held, second, seal) {
            self.go_on(held);
        } else {
            self.abort(&held, tables, seal, acts, steps);
        }
    }

    /// A held trip goes on, with its position and zone.
    fn go_on(&mut self, held: Trip)
        requires begun { held.started ≤ self.old.clock }
        requires new { (self.old.roam ≡ 0) × (self.old.trip ≡ None) }
        requires range { IsHeld self.old.number held }
        ensures lawful { (tables : TableParts) → IsBetweenEvents tables self.old → Fits tables held
            → IsBetweenEvents tables self.new }
        ensures state { (s : Setting) (m : Meter)
            → Some (trips.core_trip_in held) ≡ option_map (trips.core_trip_of s) m.trip
            → self.old ≡ core_of s (record m { trip = None })
            → self.new ≡ core_of s (model.resumed held m).next }
    {
        self.operating = running(held.stopped);
        self.position = held.position;
        self.zone = held.zone;
        self.trip = Some(core_trip(&held));
    }

    /// A held trip is closed at its position, and the position and the zone are the first. At most 12
    /// steps.
    fn abort<L: Ledger>(
        &mut self,
        held: &Trip,
        tables: &Tables,
        seal: &Seal,
        acts: &mut Acts,
        steps: &mut Steps<L>,
    )
        requires ready { IsNewlyPowered tables.now self.old acts.old.items }
        requires hire { self.old.operating ≡ ForHire }
        requires held { MayBeTaken tables.now self.old.number held.now }
        ensures lawful { IsBetweenEvents tables.now self.new }
        ensures few { length acts.new.items ≤ 2 }
        ensures stage { TakesHold tables.now seal.now self.old self.new acts.old.items acts.new.items (Some held.now)
            (λ s. model.aborted s held.now) }
        ensures steps { steps.new ≤ steps.old + 12 }
    {
        self.position = held.position;
        let closing = Closing {
            kind: Kind::Aborted,
            finish: held.saved,
        };
        self.close_trip(closing, &core_trip(held), tables, seal, acts, steps);
        self.position = 1;
        self.zone = 1;
    }
}
