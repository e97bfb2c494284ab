//! Whether a display is shown already.
ghost use Rattle.std.specs.Prelude.{◌≡◌};
ghost use Rattle.meter_model.specs.Display as spec;

use taxi_units::Display;

/// Whether the display is the one that was shown last.
pub(crate) fn is_shown(old: &Option<Display>, new: &Display) -> bool
    ensures { result ≡ spec.is_shown old.now new.now }
{
    match old {
        None => false,
        Some(old) => old == new,
    }
}
