//! Sums of intervals, and the sums of the intervals that a rate charged.
ghost use Rattle.std.specs.Prelude.{◌+◌, ◌<◌, ◌^◌, ◌≡◌};
ghost use Rattle.verify_bench.specs.Gathered.{no_rate_sums, no_sums, rate_sums_with, sums_with};

use crate::explained::{Sums, Way};

impl Sums {
    /// The sums of no intervals.
    pub(crate) fn new() -> Sums
        ensures { result ≡ no_sums }
    {
        Sums {
            pulses: 0,
            ticks: 0,
            charge: 0,
        }
    }

    /// The sums with others added.
    pub(crate) fn with(self, more: Sums) -> Sums
        requires pulses { self.pulses + more.pulses < 2 ^ 64 }
        requires ticks { self.ticks + more.ticks < 2 ^ 32 }
        requires charge { self.charge + more.charge < 2 ^ 128 }
        ensures { result ≡ sums_with self more }
    {
        Sums {
            pulses: self.pulses + more.pulses,
            ticks: self.ticks + more.ticks,
            charge: self.charge + more.charge,
        }
    }
}

/// The sums of the intervals that a rate charged in each way.
#[derive(Clone, Copy)]
pub(crate) struct RateSums {
    pub(crate) distance: Sums,
    pub(crate) time: Sums,
    pub(crate) both: Sums,
}

impl RateSums {
    ghost use Rattle.verify_bench.specs.Gathered.{HaveRoom};

    /// The sums of no intervals.
    pub(crate) fn new() -> RateSums
        ensures { result ≡ no_rate_sums }
    {
        RateSums {
            distance: Sums::new(),
            time: Sums::new(),
            both: Sums::new(),
        }
    }

    /// The sums with others of a way added.
    pub(crate) fn with(self, way: Way, more: Sums) -> RateSums
        requires { HaveRoom self more }
        ensures { result ≡ rate_sums_with self way more }
    {
        match way {
            Way::Distance => RateSums {
                distance: self.distance.with(more),
                ..self
            },
            Way::Time => RateSums {
                time: self.time.with(more),
                ..self
            },
            Way::Both => RateSums {
                both: self.both.with(more),
                ..self
            },
        }
    }
}
