//! The generated drive as a file.
ghost use Rattle.std.specs.Prelude.{[], ℕ, ◌++◌, ◌<◌, ◌≡◌, ◌≤◌, IfOk, IsErr, IsOk, OnErr, length, take};
ghost use Rattle.outside.specs.{Faults.{HasCause, MayRise}, Reading.{LeavesOthers}};
ghost use Rattle.verify_bench.specs.Generated.{generated, rest_of};

use crate::remaining::Remaining;
use outside::{Failed, Files};
use std::marker::Model;

/// Files whose word 0 is a generated drive; each other word is empty. They never fail. The drive is written trip by
/// trip as it is read, and takes no memory.
///
/// The drive begins with the supply coming at 2026-03-01T23:00:00Z, and goes on with its trips. A trip has a way of 100
/// to 999 intervals for hire, one of two tariff positions and one of two zones. Then it has one to five legs of 50 to
/// 1,049 intervals with 0 to 16 pulses each, with a reading of the clock behind each leg. One trip of four has one of
/// three supplements, and one of five a supply drop of 0 to 119 seconds. Each has the end of the hiring. The draws come
/// from a state of 64 bits, which the seed begins, from its bit 33 on. The drive is this project's own.
#[derive(Drop)]
pub struct Generator {
    left: Remaining,
}

impl Model for Generator {
    ghost use Rattle.{std.specs.Prelude.{ℕ, List}, verify_bench.specs.Left.{HasRoomForTrips, bytes_left}};

    ghost Value = { List ℕ };

    ghost view = { λ g. bytes_left g.left };

    ghost invariant = { λ g. HasRoomForTrips g.left };
}

impl Generator {
    /// The drive of a seed and of 1 to 1,000 trips.
    pub fn new(seed: u64, trips: u32) -> Generator
        requires { (1 ≤ trips) × (trips ≤ 1000) }
        ensures { result ≡ generated seed trips }
    {
        Generator {
            left: Remaining::new(seed, trips),
        }
    }
}

impl Files for Generator {
    ghost tells = { Unit {0} };

    ghost rest = { rest_of };

    ghost faults = { λ g word. 0 };

    fn read(&mut self, word: usize, buf: &mut [u8]) -> Result<usize, Failed>
        requires { 0 < length buf.old }
        ensures within { IfOk result (λ n. n ≤ length buf.old) }
        ensures taken { IfOk result (λ n. rest_of self.old word ≡ take n buf.new ++ rest_of self.new word) }
        ensures over { result ≡ Ok 0 → rest_of self.old word ≡ [] }
        ensures kept { OnErr result (rest_of self.new word ≡ rest_of self.old word) }
        ensures others { LeavesOthers rest_of word self.old self.new }
        ensures cause { HasCause 0 0 result }
        ensures counts { ℕ → MayRise (IsErr result) 0 0 }

        // No read fails.
        ensures never { IsOk result }
    {
        if word != 0 {
            return Ok(0);
        }
        Ok(self.left.take(buf))
    }
}
