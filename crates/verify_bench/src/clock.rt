//! Local times for the bench, which counts no steps.
ghost use Rattle.std.specs.Prelude.{◌<◌, ◌≡◌};
ghost use Rattle.{interval_clock.specs.LocalTime.{local_second, local_time_of}, verify_bench.specs.Common.{IsSecond}};

use interval_clock::{LocalTime, Offsets, civil};
use std::marker::Brand;
use std::sync::ledger::{Blank, Ledger};
use taxi_units::Steps;

/// The local date and time of a second, by the offset in force at it.
pub(crate) fn local_time(offsets: &Offsets, second: u64) -> LocalTime
    requires { IsSecond second }
    ensures { result ≡ local_time_of (local_second offsets.now second) }
{
    counted::<Brand>(Blank::new(1), offsets, second)
}

/// The same, with a counter of its own for the steps of the look-up.
fn counted<L: Ledger>(blank: Blank, offsets: &Offsets, second: u64) -> LocalTime
    requires name { blank.name ≡ L.name }
    requires parts { blank.parts ≡ L.parts }
    requires some { 0 < blank.parts }
    requires second { IsSecond second }
    ensures { result ≡ local_time_of (local_second offsets.now second) }
{
    let mut steps: Steps<L> = Steps::open(blank);
    civil(offsets, second, &mut steps)
}
