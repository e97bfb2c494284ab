//! What a tick does to the meter of the bench.
ghost use Rattle.std.specs.Prelude.{◌≡◌, None, OnOk};
ghost use Rattle.verify_bench.specs.{Common.{Tick, expired, last_tick, longest_trip, ticked}, Settings.{setting_under}};

use crate::bench_meter::BenchMeter;
use crate::explained::Explained;
use seal_record::Params;
use std::alloc::Global;
use tariff_check::Checked;
use taxi_units::{Kind, LONGEST_TRIP, NoMemory};

impl BenchMeter {
    ghost use Rattle.verify_bench.specs.Bench.{GoesThrough, GoesThroughEvent, GoesThroughLatch, IsMeterInRange};

    /// Carries out a tick.
    pub(crate) fn tick(
        &mut self,
        alloc: Global,
        checked: &Checked,
        params: &Params,
        found: &mut Vec<Explained>,
    ) -> Result<(), NoMemory>
        requires sound { IsMeterInRange last_tick 0 self.old }
        ensures moves { OnOk result (GoesThroughEvent (setting_under checked.now params.now) Tick ticked
            self.old self.new found.old.items found.new.items) }
        ensures sound { OnOk result (IsMeterInRange last_tick 0 self.new) }
    {
        self.count_interval(checked, params)?;
        self.expire_or_press(alloc, checked, params, found)?;
        self.check_roaming();
        self.began = self.clock;
        Ok(())
    }

    /// Ends a trip that has reached its longest time; else the key that waits leaves the latch and acts.
    #[tactic(auto, using(crate::proofs::Benches::looser, crate::proofs::Benches::timely))]
    fn expire_or_press(
        &mut self,
        alloc: Global,
        checked: &Checked,
        params: &Params,
        found: &mut Vec<Explained>,
    ) -> Result<(), NoMemory>
        requires sound { IsMeterInRange longest_trip 0 self.old }
        ensures moves { OnOk result (GoesThroughLatch (setting_under checked.now params.now)
            self.old self.new found.old.items found.new.items) }
        ensures sound { OnOk result (IsMeterInRange last_tick 0 self.new) }
    {
        if self.ticks() >= LONGEST_TRIP {
            self.expire(alloc, checked, params, found)
        } else {
            match self.latch {
                None => Ok(()),
                Some(key) => {
                    self.latch = None;
                    self.act(key, alloc, checked, params, found)
                }
            }
        }
    }

    /// Ends the trip, since it has reached its longest time.
    #[tactic(auto, using(crate::proofs::Benches::looser))]
    fn expire(
        &mut self,
        alloc: Global,
        checked: &Checked,
        params: &Params,
        found: &mut Vec<Explained>,
    ) -> Result<(), NoMemory>
        requires sound { IsMeterInRange longest_trip 0 self.old }
        ensures moves { OnOk result (GoesThrough (setting_under checked.now params.now) expired
            self.old self.new found.old.items found.new.items) }
        ensures sound { OnOk result (IsMeterInRange last_tick 0 self.new) }
        ensures none { OnOk result (self.new.hiring ≡ None) }
    {
        self.close(Kind::Expired, self.clock, alloc, checked, params, found)?;
        self.latch = None;
        Ok(())
    }
}
