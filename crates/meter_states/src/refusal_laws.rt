//! What a refusal leaves, and when a key acts.
ghost use Rattle.std.specs.Prelude.{[], ℕ, ◌++◌, ◌+◌, ◌-◌, ◌<◌, ◌∷◌, ◌≡◌, ◌≢◌, None, Option, Some, sum};
ghost use Rattle.{taxi_units.specs.declared.event.Why.TheVariants.{TooFast}, meter_model.specs.Trip.{ticks_of}};
ghost use Rattle.meter_states.specs.Common.{Event, Hired, InHired, Key, Meter, MeterTrip, Pulses, Refuse, Setting};
ghost use Rattle.meter_states.specs.Common.{Tick, Why, closed, context_of, expired, interval_counted, latch_pressed};
ghost use Rattle.meter_states.specs.{Common.{longest_trip, quiet, step, ticked, with_part}, Refusals.{IsTooFast}};
ghost use Rattle.taxi_units.specs.declared.event.Why.TheVariants as why;
ghost use Rattle.taxi_units.specs.declared.receipt.Kind.TheVariants as kinds;

/// A refused event changes nothing. Of pulses that are too fast, though, the interval takes those for which it has
/// room; and a key that is refused at a tick leaves the latch, and changes nothing else.
pub fn refused_events_change_nothing()
    ensures event { (s : Setting) (event : Event) (m : Meter) (why : Why) → event ≢ Tick → ¬ (IsTooFast why)
        → (step s event m).acts ≡ Refuse why ∷ [] → (step s event m).next ≡ m }
    ensures key { (s : Setting) (key : Key) (m : Meter) (why : Why)
        → (latch_pressed s (Some key) m).acts ≡ Refuse why ∷ []
        → (latch_pressed s (Some key) m).next ≡ record m { latch = None } }
{}

/// A law: pulses that are too fast fill the interval, and change nothing else. It takes those for which it has room,
/// and as many as the others are refused.
pub fn pulses_too_fast_fill_the_interval()
    ensures filled { (s : Setting) (event : Event) (m : Meter) (n : ℕ) → event ≢ Tick
        → (step s event m).acts ≡ Refuse (TooFast n) ∷ []
        → (step s event m).next ≡ record m { taken = m.taken ++ (2000 - sum m.taken) ∷ [] } }
    ensures others { (s : Setting) (m : Meter) (pulses n : ℕ)
        → (step s (Pulses pulses) m).acts ≡ Refuse (TooFast n) ∷ [] → pulses ≡ (2000 - sum m.taken) + n }
{}

/// A law: if the trip expires, a key that waits is refused behind the closing of the trip, and waits no more.
pub fn keys_are_refused_at_an_expiry()
    ensures { (s : Setting) (m : Meter) (key : Key) → m.latch ≡ Some key
        → expired s m ≡ record {
          next = record (closed s kinds.Expired m.clock m).next { latch = None };
          acts = (closed s kinds.Expired m.clock m).acts ++ Refuse why.Expired ∷ [];
        } }
{}

/// A key acts after the interval in which it was pressed: the interval is the same whatever key waits. An interval in
/// Hired is charged in the context of its beginning: at a tick at which no key waits, the trip has that interval more,
/// and nothing else.
pub fn keys_act_after_their_interval()
    ensures key { (s : Setting) (m : Meter) (latch : Option Key)
        → interval_counted s (record m { latch = latch })
        ≡ quiet (record (interval_counted s m).next { latch = latch }) }
    ensures interval { (s : Setting) (m : Meter) (t : MeterTrip) → m.operating ≡ Hired → m.trip ≡ Some t
        → m.latch ≡ None → ticks_of (with_part (InHired (sum m.taken) (context_of s m)) t) < longest_trip
        → (ticked s m).next.trip ≡ Some (with_part (InHired (sum m.taken) (context_of s m)) t) }
{}
