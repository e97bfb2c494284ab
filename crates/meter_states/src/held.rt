//! Held trips: how they go on, and how long they may be held.
ghost use Rattle.std.specs.Prelude.{◌≡◌, ◌≤◌, true};
ghost use Rattle.meter_states.specs.Common.{IsSealOf, IsSecond, Setting};
ghost use Rattle.meter_model.specs.Supply as model;

use seal_record::Seal;
use taxi_units::Operating;
use totals_record::Trip;

/// The operating position in which a held trip goes on.
pub(crate) fn running(stopped: bool) -> Operating
    ensures { result ≡ model.running stopped }
{
    if stopped {
        Operating::Stopped
    } else {
        Operating::Hired
    }
}

/// Whether the supply was away for at most the hold.
pub(crate) fn is_within_hold(held: &Trip, second: u64, seal: &Seal) -> bool
    requires { IsSecond held.now.saved }
    ensures value { (s : Setting) → IsSealOf s seal.now → result ≡ model.is_within_hold s second held.now }
    ensures later { result ≡ true → held.now.saved ≤ second }
{
    held.saved <= second && second <= held.saved + seal.params.hold_time as u64
}
