//! When a display is shown, and which one was shown last.
ghost use Rattle.std.specs.Prelude.{[], ◌↔◌, ◌≡◌, List, Some, true};
ghost use Rattle.meter_model.specs.{Common.{Display, Durable, Event, ForHire}, KeptTrip.{IsTripKept}, Meter.{Meter}};
ghost use Rattle.meter_model.specs.{Display.{display_of, same_display, shown}, LastShown.{IsOfMeter}, Step.{step}};
ghost use Rattle.meter_model.specs.{Run.{opened, run}, Setting.{Setting}};

/// A law: a display is shown if a field differs from the one that was shown last. Nothing is shown exactly if that one
/// is the display of the meter. For hire a meter that keeps its trip as the store does has no fare and no supplements,
/// so these don't differ there.
pub fn displays_are_compared_by_their_fields()
    ensures same { (a b : Display) → (same_display a b ≡ true) ↔ (a ≡ b) }
    ensures shows { (s : Setting) (m : Meter)
        → ((shown s m).acts ≡ []) ↔ (m.shown ≡ Some (display_of s m)) }
    ensures hire { (s : Setting) (m : Meter) → IsTripKept s m → m.operating ≡ ForHire
        → ((display_of s m).fare ≡ 0) × ((display_of s m).supplements ≡ 0) }
{}

/// A law: what the meter showed last is the display of a state of the meter that keeps its trip. Before the first event
/// of a run nothing was shown, and each event keeps this.
pub fn the_last_display_is_one_of_the_meter()
    ensures opens { (s : Setting) (durable : Durable) → IsOfMeter s (opened s durable).shown }
    ensures step { (s : Setting) (event : Event) (m : Meter) → IsTripKept s m → IsOfMeter s m.shown
        → IsOfMeter s (step s event m).next.shown }
    ensures run { (s : Setting) (events : List Event) (m : Meter) → IsTripKept s m → IsOfMeter s m.shown
        → IsOfMeter s (run s events m).next.shown }
{}
