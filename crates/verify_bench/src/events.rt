//! What the events of a drive do to the meter of the bench.
ghost use Rattle.{std.specs.Prelude.{OnOk}, verify_bench.specs.Settings.{setting_under}};
ghost use Rattle.verify_bench.specs.Common.{IsSecond, Setting, clock_read, last_tick, powered_step, pulses_taken, step};

use crate::bench_meter::BenchMeter;
use crate::explained::Explained;
use seal_record::Params;
use std::alloc::Global;
use tariff_check::Checked;
use taxi_units::{Event, NoMemory, Operating};

/// The most pulses of an interval.
const INTERVAL_MOST: u32 = 2000;

impl BenchMeter {
    ghost use Rattle.verify_bench.specs.Bench.{GoesThroughEvent, GoesThroughQuietly, IsMeterInRange, MayTake};

    /// Carries out an event.
    pub(crate) fn event(
        &mut self,
        event: Event,
        alloc: Global,
        checked: &Checked,
        params: &Params,
        found: &mut Vec<Explained>,
    ) -> Result<(), NoMemory>
        requires takes { MayTake self.old event }
        ensures moves { OnOk result (GoesThroughEvent (setting_under checked.now params.now) event (λ s. step s event)
            self.old self.new found.old.items found.new.items) }
        ensures sound { OnOk result (IsMeterInRange last_tick 0 self.new) }
    {
        match self.operating {
            Operating::Off => match event {
                Event::Up(second) => self.come_up(second, alloc, checked, params, found),
                _ => Ok(()),
            },
            Operating::ForHire | Operating::Hired | Operating::Stopped => {
                self.powered_event(event, alloc, checked, params, found)
            }
        }
    }

    /// Carries out an event while the meter is powered.
    fn powered_event(
        &mut self,
        event: Event,
        alloc: Global,
        checked: &Checked,
        params: &Params,
        found: &mut Vec<Explained>,
    ) -> Result<(), NoMemory>
        requires takes { MayTake self.old event }
        ensures moves { OnOk result (GoesThroughEvent (setting_under checked.now params.now) event
            (λ s. powered_step s event) self.old self.new found.old.items found.new.items) }
        ensures sound { OnOk result (IsMeterInRange last_tick 0 self.new) }
    {
        match event {
            Event::Up(_) => Ok(()),
            Event::Down => self.go_down(alloc, checked, params, found),
            Event::Pulses(pulses) => {
                self.take_pulses(pulses);
                Ok(())
            }
            Event::Tick => self.tick(alloc, checked, params, found),
            Event::Clock(second) => {
                self.read_clock(second);
                Ok(())
            }
            Event::Key(key) => {
                self.latch_key(key);
                Ok(())
            }
        }
    }

    /// Takes the pulses for which the interval has room.
    fn take_pulses(&mut self, pulses: u32)
        requires sound { IsMeterInRange last_tick 0 self.old }
        ensures moves { (s : Setting) → GoesThroughQuietly s (λ s. pulses_taken pulses) self.old self.new }
        ensures sound { IsMeterInRange last_tick 0 self.new }
    {
        self.taken += pulses.min(INTERVAL_MOST - self.taken);
    }

    /// Reads the clock, which doesn't go back in a trip.
    fn read_clock(&mut self, second: u64)
        requires sound { IsMeterInRange last_tick 0 self.old }
        requires second { IsSecond second }
        ensures moves { (s : Setting) → GoesThroughQuietly s (λ s m. clock_read m.operating second m)
            self.old self.new }
        ensures sound { IsMeterInRange last_tick 0 self.new }
    {
        match self.operating {
            Operating::Off | Operating::ForHire => self.clock = second,
            Operating::Hired | Operating::Stopped => {
                if second >= self.clock {
                    self.clock = second;
                }
            }
        }
    }
}
