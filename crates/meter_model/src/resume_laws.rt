//! What a trip that was held and goes on is charged, and on what a fare depends.
ghost use Rattle.std.specs.Prelude.{ℕ, ◌≡◌, All, Bool, List};
ghost use Rattle.meter_model.specs.{Common.{Trip}, Trip.{MeterTrip, Part, core_trip_of, fare_of, held_trip, trip_of}};
ghost use Rattle.meter_model.specs.KeptTrip.{FitsSetting, IsSupplementNumber, hired_in, with_more, with_parts};
ghost use Rattle.meter_model.specs.Setting.{Setting};

/// A law: a trip that is saved and resumed is charged as if nothing had happened. A held trip that is opened is saved
/// again as it was held. After any further intervals and supplements, the trip that was opened from its saved form has
/// the fare and the saved form of the whole trip.
pub fn resumed_trips_go_on()
    ensures saved { (s : Setting) (trip : Trip) → FitsSetting s trip
        → held_trip s trip.saved trip.stopped trip.position trip.zone (trip_of s trip) ≡ trip }
    ensures fare { (s : Setting) (t : MeterTrip) (parts : List Part) (second : ℕ) (stopped : Bool) (position zone : ℕ)
        → fare_of s (with_parts parts (trip_of s (held_trip s second stopped position zone t)))
        ≡ fare_of s (with_parts parts t) }
    ensures forms { (s : Setting) (t : MeterTrip) (parts : List Part) (extras : List ℕ) (second : ℕ) (stopped : Bool)
        (position zone : ℕ) → All IsSupplementNumber t.extras
        → core_trip_of s (with_more parts extras (trip_of s (held_trip s second stopped position zone t)))
        ≡ core_trip_of s (with_more parts extras t) }
{}

/// A law: the fare of a trip depends on the initial hire fee, the cover and the minimum fare of its hiring and on its
/// intervals in Hired alone, whatever drops and power-ups lay between them.
pub fn fares_depend_on_the_intervals_in_hired()
    ensures { (s : Setting) (t u : MeterTrip) → t.fees ≡ u.fees
        → t.opening.cover ≡ u.opening.cover → t.opening.above ≡ u.opening.above
        → hired_in t.parts ≡ hired_in u.parts → fare_of s t ≡ fare_of s u }
{}
