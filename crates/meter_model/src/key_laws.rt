//! What accepted keys do.
ghost use Rattle.std.specs.Prelude.{[], ℕ, ◌<◌, ◌≡◌, ◌≤◌, ◌⊎◌, None, Some, sum};
ghost use Rattle.meter_model.specs.{ClosedTrip.{closed}, KeyTable.{MayAct}, Setting.{Setting}, Supplements.{times}};
ghost use Rattle.meter_model.specs.Common.{Closed, ForHire, Hired, Key, NotNow, Stopped, Supplement, fees_in_force};
ghost use Rattle.meter_model.specs.{Common.{hirings_end, supplement_numbered}, Trip.{MeterTrip, begun, with_extra}};
ghost use Rattle.meter_model.specs.{Interval.{context_now}, Keys.{latch_pressed}, Meter.{Meter, quiet, refused}};
ghost use Rattle.taxi_units.specs.declared.event.Key.TheVariants as keys;

/// The law of accepted keys: what a key that waited does as it acts. In For Hire the key Hire begins a trip at the
/// clock's second, with the fees in force there, and the trip takes the roaming pulses. Stop takes the trip from Hired
/// to Stopped, and Hire takes it back. Clear closes it in Stopped. A position and a zone of the tariff are set in For
/// Hire and in Hired. A supplement that the trip may have once more is added in Hired and in Stopped. Nothing else
/// changes, but that no key waits any more. In each other operating position the key is refused.
pub fn accepted_keys_act()
    ensures hire { (s : Setting) (m : Meter) → m.operating ≡ ForHire → m.durable.number < hirings_end
        → latch_pressed s (Some keys.Hire) m ≡ quiet (record m {
          operating = Hired;
          trip = Some (begun s (fees_in_force s.tariff (context_now s m)) m.clock (sum m.roaming));
          roaming = [];
          latch = None;
        }) }
    ensures stop { (s : Setting) (m : Meter) → m.operating ≡ Hired
        → latch_pressed s (Some keys.Stop) m ≡ quiet (record m { operating = Stopped; latch = None }) }
    ensures go_on { (s : Setting) (m : Meter) → m.operating ≡ Stopped
        → latch_pressed s (Some keys.Hire) m ≡ quiet (record m { operating = Hired; latch = None }) }
    ensures clear { (s : Setting) (m : Meter) → m.operating ≡ Stopped
        → latch_pressed s (Some keys.Clear) m ≡ closed s Closed m.clock (record m { latch = None }) }
    ensures position { (s : Setting) (m : Meter) (n : ℕ) → (m.operating ≡ ForHire) ⊎ (m.operating ≡ Hired)
        → 1 ≤ n → n ≤ s.tariff.positions
        → latch_pressed s (Some (keys.Position n)) m ≡ quiet (record m { position = n; latch = None }) }
    ensures zone { (s : Setting) (m : Meter) (n : ℕ) → (m.operating ≡ ForHire) ⊎ (m.operating ≡ Hired)
        → 1 ≤ n → n ≤ s.tariff.zones
        → latch_pressed s (Some (keys.Zone n)) m ≡ quiet (record m { zone = n; latch = None }) }
    ensures extra { (s : Setting) (m : Meter) (n : ℕ) (t : MeterTrip) (supplement : Supplement)
        → (m.operating ≡ Hired) ⊎ (m.operating ≡ Stopped) → m.trip ≡ Some t
        → supplement_numbered s.tariff.supplements n ≡ Some supplement → times n t.extras < supplement.max
        → latch_pressed s (Some (keys.Extra n)) m ≡ quiet (record m { trip = Some (with_extra n t); latch = None }) }
    ensures refused { (s : Setting) (m : Meter) (key : Key) → ¬ MayAct key m.operating
        → latch_pressed s (Some key) m ≡ refused NotNow (record m { latch = None }) }
{}
