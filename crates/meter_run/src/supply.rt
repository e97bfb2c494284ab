//! Whether the supply is there, and whether an event is its coming.
ghost use Rattle.std.specs.Prelude.{ℕ, ◌↔◌, ◌≡◌, ◌≢◌, IfSome, IsTrue, None};
ghost use Rattle.meter_run.specs.Common.{Off, Up};

use meter_states::Core;
use taxi_units::{Event, Operating};

/// Whether the meter is off.
pub(crate) fn is_off(core: &Core) -> bool
    ensures { IsTrue result ↔ (core.now.state.operating ≡ Off) }
{
    matches!(core.operating(), Operating::Off)
}

/// The second at which the supply comes, if an event is its coming and finds the meter off. Only this call asks it:
/// behind it an `Up` is one event of a powered meter among others.
#[inline(always)]
pub(crate) fn supply_at(core: &Core, event: Event) -> Option<u64>
    ensures comes { IfSome result (λ second. (event ≡ Up second) × (core.now.state.operating ≡ Off)) }
    ensures other { result ≡ None → (second : ℕ) → core.now.state.operating ≡ Off → event ≢ Up second }
{
    match event {
        Event::Up(second) => at_off(core, second),
        _ => None,
    }
}

/// A second, if the meter is off.
fn at_off(core: &Core, second: u64) -> Option<u64>
    ensures is { IfSome result (λ at. (at ≡ second) × (core.now.state.operating ≡ Off)) }
    ensures none { result ≡ None → core.now.state.operating ≢ Off }
{
    if is_off(core) {
        return Some(second);
    }
    None
}
