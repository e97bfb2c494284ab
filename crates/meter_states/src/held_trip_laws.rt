//! What the store keeps of a trip, and what its fare depends on.
ghost use Rattle.std.specs.Prelude.{◌≡◌, List, length};
ghost use Rattle.{meter_model.specs.{KeptTrip.{HoldFits, IsTripKept}, Run.{opened}}, meter_states.specs.Fits.{Fits}};
ghost use Rattle.meter_states.specs.Common.{Durable, Event, FitsSetting, Meter, Setting, TableParts, Trip, run, step};
ghost use Rattle.meter_states.specs.{Common.{whole_run}, Setting.{IsTariffOf}};

/// While the meter is off the store holds the saved form of its trip, and none for hire. A run begins so if the held
/// trip fits, as one that fits the tables does. Each event, each list of events and each whole run keeps it so.
pub fn the_store_keeps_the_trip()
    ensures begins { (s : Setting) (durable : Durable) → HoldFits s durable.hold → IsTripKept s (opened s durable) }
    ensures step { (s : Setting) (event : Event) (m : Meter) → IsTripKept s m → IsTripKept s (step s event m).next }
    ensures run { (s : Setting) (events : List Event) (m : Meter) → IsTripKept s m
        → IsTripKept s (run s events m).next }
    ensures whole { (s : Setting) (durable : Durable) (events : List Event) → HoldFits s durable.hold
        → IsTripKept s (whole_run s durable events).next }
    ensures fits { (s : Setting) (tables : TableParts) (trip : Trip) → IsTariffOf s tables → Fits tables trip
        → length trip.extras ≡ 16 → FitsSetting s trip }
{}
