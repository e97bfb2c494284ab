//! The meter of the bench: it charges each interval of a trip as it ends, and adds up by rates and ways.
#![tactic(auto, using(crate::proofs::Benches::looser))]

ghost use Rattle.std.specs.Prelude.{◌≡◌, None, OnOk, true};
ghost use Rattle.{totals_record.specs.Entries.{is_of_hiring}, meter_model.specs.Interval.{with_roaming}};
ghost use Rattle.verify_bench.specs.Common.{InHired, InStopped, IsSecond, Meter, Rest, Setting, closed, context_on};
ghost use Rattle.verify_bench.specs.Common.{interval_counted, interval_left, last_tick, local_at, longest_trip};
ghost use Rattle.verify_bench.specs.Common.{pulses_so_far, roaming_checked, roaming_entered, ticks_so_far};
ghost use Rattle.verify_bench.specs.{Common.{with_interval}, Settings.{setting_under}};
ghost use Rattle.tariff_tree.specs.declared.context.Context as contexts;

use crate::clock::local_time;
use crate::explained::Explained;
use crate::hiring::Hiring;
use crate::lookups::is_holiday;
use crate::pricing::price_of;
use crate::telling::{Closing, explained};
use seal_record::Params;
use std::alloc::Global;
use tariff_check::Checked;
use tariff_tree::Context;
use taxi_units::{HIRINGS_END, Key, Kind, NoMemory, Operating, ROAMING_MOST};

/// How a trip that is held without supply goes on.
#[derive(Clone, Copy)]
pub(crate) struct SavedState {
    pub(crate) saved: u64,
    pub(crate) stopped: bool,
    pub(crate) position: u8,
    pub(crate) zone: u8,
}

/// What the bench keeps of the meter's state: all on which a receipt depends. `number` is the store's.
#[derive(Drop)]
pub(crate) struct BenchMeter {
    pub(crate) operating: Operating,
    pub(crate) clock: u64,
    pub(crate) began: u64,
    pub(crate) taken: u32,
    pub(crate) latch: Option<Key>,
    pub(crate) position: u8,
    pub(crate) zone: u8,
    pub(crate) roam: u64,
    pub(crate) number: u64,
    pub(crate) held: Option<SavedState>,
    pub(crate) hiring: Option<Hiring>,
}

impl BenchMeter {
    ghost use Rattle.verify_bench.specs.Bench.{BenchStands, GoesThrough, GoesThroughQuietly, HasTicks, IsMeterInRange};

    /// How many ticks the trip has, 0 without one.
    pub(crate) fn ticks(&self) -> u32
        requires { IsMeterInRange longest_trip 1 self.now }
        ensures stands { (s : Setting) (m : Meter) (hired : contexts.Context) → BenchStands s hired self.now m
            → result ≡ ticks_so_far m.trip }
        ensures own { HasTicks self.now.hiring result }
    {
        match &self.hiring {
            None => 0,
            Some(hiring) => hiring.whole.ticks,
        }
    }

    /// How many pulses the trip has, 0 without one.
    pub(crate) fn pulses(&self) -> u64
        requires { IsMeterInRange longest_trip 1 self.now }
        ensures { (s : Setting) (m : Meter) (hired : contexts.Context) → BenchStands s hired self.now m
            → result ≡ pulses_so_far m.trip }
    {
        match &self.hiring {
            None => 0,
            Some(hiring) => hiring.whole.pulses,
        }
    }

    /// The context at a second.
    pub(crate) fn context(&self, second: u64, checked: &Checked, params: &Params) -> Context
        requires second { IsSecond second }
        requires sound { IsMeterInRange longest_trip 1 self.now }
        ensures { (m : Meter) (hired : contexts.Context)
            → BenchStands (setting_under checked.now params.now) hired self.now m
            → result ≡ context_on (setting_under checked.now params.now)
            (local_at (setting_under checked.now params.now) second) m }
    {
        let local = local_time(&params.offsets, second);
        let day = (local.year, local.month, local.date);
        Context {
            constant: params.constant,
            position: self.position,
            zone: self.zone,
            weekday: local.weekday,
            month_day: local.month_day,
            holiday: is_holiday(checked, day),
            minute: local.minute,
            pulses: self.pulses(),
            ticks: self.ticks(),
        }
    }

    /// Closes the trip at a second, and takes it apart.
    pub(crate) fn close(
        &mut self,
        kind: Kind,
        finish: u64,
        alloc: Global,
        checked: &Checked,
        params: &Params,
        found: &mut Vec<Explained>,
    ) -> Result<(), NoMemory>
        requires sound { IsMeterInRange longest_trip 1 self.old }
        requires kind { is_of_hiring kind ≡ true }
        requires finish { IsSecond finish }
        ensures moves { OnOk result (GoesThrough (setting_under checked.now params.now)
            (λ s. closed s kind finish) self.old self.new found.old.items found.new.items) }
        ensures sound { OnOk result (IsMeterInRange last_tick 0 self.new) }
        ensures none { OnOk result (self.new.hiring ≡ None) }
    {
        self.operating = Operating::ForHire;
        let hiring = self.hiring.take();
        match hiring {
            None => Ok(()),
            Some(hiring) => {
                self.number = self.number.saturating_add(1);
                self.held = None;
                let closing = Closing {
                    kind,
                    finish,
                    position: self.position,
                    number: self.number,
                };
                let explained = explained(alloc, &hiring, closing, checked, params)?;
                found.push(explained).map_err(|_| NoMemory)
            }
        }
    }

    /// Enters roaming.
    pub(crate) fn enter_roaming(&mut self)
        requires sound { IsMeterInRange last_tick 0 self.old }
        requires none { self.old.hiring ≡ None }
        ensures moves { (s : Setting) → GoesThroughQuietly s roaming_entered self.old self.new }
        ensures sound { IsMeterInRange last_tick 0 self.new }
        ensures operating { self.new.operating ≡ self.old.operating }
    {
        self.roam = 0;
        self.number = self.number.saturating_add(1);
    }

    /// Enters roaming, if it is long and the meter is for hire.
    pub(crate) fn check_roaming(&mut self)
        requires sound { IsMeterInRange last_tick 0 self.old }
        ensures moves { (s : Setting) → GoesThroughQuietly s roaming_checked self.old self.new }
        ensures sound { IsMeterInRange last_tick 0 self.new }
    {
        if matches!(self.operating, Operating::ForHire) && self.roam >= ROAMING_MOST as u64 {
            self.enter_roaming();
        }
    }

    /// Roams the pulses of the interval, while the store takes hirings.
    fn roam_on(&mut self)
        requires sound { IsMeterInRange last_tick 0 self.old }
        ensures stands { (s : Setting) (m : Meter) (hired : contexts.Context) → BenchStands s hired self.old m
            → BenchStands s hired self.new (with_roaming self.old.taken m) }
        ensures sound { IsMeterInRange last_tick 0 self.new }
    {
        let pulses = self.taken;
        self.taken = 0;
        if self.number < HIRINGS_END {
            self.roam = self.roam.saturating_add(pulses as u64);
        }
    }

    /// Adds an interval in Hired, which began in a context.
    fn add_hired(&mut self, x: &Context, checked: &Checked, params: &Params) -> Result<(), NoMemory>
        requires sound { IsMeterInRange last_tick 0 self.old }
        ensures stands { OnOk result ((m : Meter) (hired : contexts.Context)
            → BenchStands (setting_under checked.now params.now) hired self.old m
            → BenchStands (setting_under checked.now params.now) hired self.new
            (with_interval (InHired self.old.taken x.now) m)) }
        ensures sound { OnOk result (IsMeterInRange longest_trip 0 self.new) }
    {
        let pulses = self.taken;
        self.taken = 0;
        match &mut self.hiring {
            None => Ok(()),
            Some(hiring) => hiring.add_hired(pulses, price_of(checked, params, x, pulses)),
        }
    }

    /// Adds an interval in Stopped.
    fn add_stopped(&mut self)
        requires sound { IsMeterInRange last_tick 0 self.old }
        ensures stands { (s : Setting) (m : Meter) (hired : contexts.Context) → BenchStands s hired self.old m
            → BenchStands s hired self.new (with_interval (InStopped self.old.taken) m) }
        ensures sound { IsMeterInRange longest_trip 0 self.new }
    {
        let pulses = self.taken;
        self.taken = 0;
        match &mut self.hiring {
            None => {}
            Some(hiring) => hiring.add_stopped(pulses),
        }
    }

    /// Adds the pulses of an unfinished interval.
    fn add_rest(&mut self)
        requires sound { IsMeterInRange last_tick 0 self.old }
        ensures stands { (s : Setting) (m : Meter) (hired : contexts.Context) → BenchStands s hired self.old m
            → BenchStands s hired self.new (with_interval (Rest self.old.taken) m) }
        ensures sound { IsMeterInRange last_tick 1 self.new }
    {
        let pulses = self.taken;
        self.taken = 0;
        match &mut self.hiring {
            None => {}
            Some(hiring) => hiring.add_rest(pulses),
        }
    }

    /// Ends the interval.
    pub(crate) fn count_interval(
        &mut self,
        checked: &Checked,
        params: &Params,
    ) -> Result<(), NoMemory>
        requires sound { IsMeterInRange last_tick 0 self.old }
        ensures stands { OnOk result ((m : Meter) (hired : contexts.Context)
            → BenchStands (setting_under checked.now params.now) hired self.old m
            → BenchStands (setting_under checked.now params.now) hired self.new
            (interval_counted (setting_under checked.now params.now) m).next) }
        ensures sound { OnOk result (IsMeterInRange longest_trip 0 self.new) }
    {
        match self.operating {
            Operating::Off => Ok(()),
            Operating::ForHire => {
                self.roam_on();
                Ok(())
            }
            Operating::Hired => {
                let x = self.context(self.began, checked, params);
                self.add_hired(&x, checked, params)?;
                Ok(())
            }
            Operating::Stopped => {
                self.add_stopped();
                Ok(())
            }
        }
    }

    /// Leaves the interval unfinished, as a supply drop does.
    pub(crate) fn leave_interval(&mut self)
        requires sound { IsMeterInRange last_tick 0 self.old }
        ensures stands { (s : Setting) (m : Meter) (hired : contexts.Context) → BenchStands s hired self.old m
            → BenchStands s hired self.new (interval_left m).next }
        ensures sound { IsMeterInRange last_tick 1 self.new }
    {
        match self.operating {
            Operating::Off => {}
            Operating::ForHire => self.roam_on(),
            Operating::Hired | Operating::Stopped => self.add_rest(),
        }
    }
}
