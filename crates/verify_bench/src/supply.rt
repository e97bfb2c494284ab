//! What the supply does to the meter of the bench.
ghost use Rattle.std.specs.Prelude.{◌&&◌, ◌+◌, ◌<◌, ◌≡◌, None, OnOk, nat_le};
ghost use Rattle.meter_model.specs.{Meter.{held}, Supply.{is_stopped}, Trip.{held_trip}};
ghost use Rattle.verify_bench.specs.Bench.{held_of};
ghost use Rattle.verify_bench.specs.Common.{Context, Down, IsSecond, Meter, MeterTrip, Setting, Trip, aborted, ended};
ghost use Rattle.verify_bench.specs.Common.{held_or_closed, hold_taken, last_number, last_tick, powered, resumed};
ghost use Rattle.verify_bench.specs.{Common.{supply_came, supply_dropped}, Settings.{setting_under}, Supplied.{waking}};

use crate::bench_meter::{BenchMeter, SavedState};
use crate::explained::Explained;
use seal_record::Params;
use std::alloc::Global;
use tariff_check::Checked;
use taxi_units::{Kind, LAST_NUMBER, NoMemory, Operating};

impl BenchMeter {
    ghost use Rattle.verify_bench.specs.Bench.{BenchStands, GoesThrough, GoesThroughEvent, GoesThroughQuietly};
    ghost use Rattle.verify_bench.specs.Bench.{IsMeterInRange, Moves};

    /// Lets the supply come.
    pub(crate) fn come_up(
        &mut self,
        second: u64,
        alloc: Global,
        checked: &Checked,
        params: &Params,
        found: &mut Vec<Explained>,
    ) -> Result<(), NoMemory>
        requires sound { IsMeterInRange last_tick 0 self.old }
        requires second { IsSecond second }
        ensures moves { OnOk result (GoesThrough (setting_under checked.now params.now) (λ s. supply_came s second)
            self.old self.new found.old.items found.new.items) }
        ensures sound { OnOk result (IsMeterInRange last_tick 0 self.new) }
    {
        self.wake(second);
        self.take_hold(second, alloc, checked, params, found)
    }

    /// Powers the meter, which is still off.
    fn wake(&mut self, second: u64)
        requires sound { IsMeterInRange last_tick 0 self.old }
        requires second { IsSecond second }
        ensures stands { (s : Setting) (m : Meter) (hired : Context) → BenchStands s hired self.old m
            → BenchStands s hired self.new (waking second m) }
        ensures sound { IsMeterInRange last_tick 0 self.new }
    {
        self.operating = Operating::Off;
        self.clock = second;
        self.began = second;
        self.taken = 0;
        self.latch = None;
        self.position = 1;
        self.zone = 1;
        self.roam = 0;
    }

    /// Resumes or aborts the held trip.
    fn take_hold(
        &mut self,
        second: u64,
        alloc: Global,
        checked: &Checked,
        params: &Params,
        found: &mut Vec<Explained>,
    ) -> Result<(), NoMemory>
        requires sound { IsMeterInRange last_tick 0 self.old }
        requires second { IsSecond second }
        ensures moves { OnOk result ((m : Meter) (hired : Context)
            → BenchStands (setting_under checked.now params.now) hired self.old (waking second m)
            → Moves (setting_under checked.now params.now) hired hired m.trip found.old.items found.new.items self.new
            (hold_taken (setting_under checked.now params.now) second m.durable.hold (powered second m))) }
        ensures sound { OnOk result (IsMeterInRange last_tick 0 self.new) }
    {
        match self.held {
            None => {
                self.hiring = None;
                self.operating = Operating::ForHire;
                Ok(())
            }
            Some(held) => {
                if is_within(held, second, params.hold_time) {
                    self.resume(held);
                    Ok(())
                } else {
                    self.abort(held, alloc, checked, params, found)?;
                    Ok(())
                }
            }
        }
    }

    /// Resumes a held trip.
    fn resume(&mut self, held: SavedState)
        requires sound { IsMeterInRange last_tick 0 self.old }
        ensures moves { (s : Setting) (trip : Trip) → held ≡ held_of trip
            → GoesThroughQuietly s (λ s. resumed trip) self.old self.new }
        ensures sound { IsMeterInRange last_tick 0 self.new }
    {
        self.operating = if held.stopped {
            Operating::Stopped
        } else {
            Operating::Hired
        };
        self.position = held.position;
        self.zone = held.zone;
    }

    /// Closes a held trip at its position.
    fn abort(
        &mut self,
        held: SavedState,
        alloc: Global,
        checked: &Checked,
        params: &Params,
        found: &mut Vec<Explained>,
    ) -> Result<(), NoMemory>
        requires sound { IsMeterInRange last_tick 0 self.old }
        requires saved { IsSecond held.saved }
        ensures moves { OnOk result ((trip : Trip) → held ≡ held_of trip
            → GoesThrough (setting_under checked.now params.now) (λ s. aborted s trip)
            self.old self.new found.old.items found.new.items) }
        ensures sound { OnOk result (IsMeterInRange last_tick 0 self.new) }
    {
        self.position = held.position;
        self.close(Kind::Aborted, held.saved, alloc, checked, params, found)?;
        self.position = 1;
        self.zone = 1;
        Ok(())
    }

    /// Lets the supply drop.
    pub(crate) fn go_down(
        &mut self,
        alloc: Global,
        checked: &Checked,
        params: &Params,
        found: &mut Vec<Explained>,
    ) -> Result<(), NoMemory>
        requires sound { IsMeterInRange last_tick 0 self.old }
        ensures moves { OnOk result (GoesThroughEvent (setting_under checked.now params.now) Down supply_dropped
            self.old self.new found.old.items found.new.items) }
        ensures sound { OnOk result (IsMeterInRange last_tick 0 self.new) }
    {
        self.leave_interval();
        self.hold_or_close(alloc, checked, params, found)?;
        self.operating = Operating::Off;
        self.latch = None;
        Ok(())
    }

    /// Holds or closes the trip; without one it enters roaming.
    fn hold_or_close(
        &mut self,
        alloc: Global,
        checked: &Checked,
        params: &Params,
        found: &mut Vec<Explained>,
    ) -> Result<(), NoMemory>
        requires sound { IsMeterInRange last_tick 1 self.old }
        ensures moves { OnOk result
            (GoesThrough (setting_under checked.now params.now) (λ s m. held_or_closed s m.trip m)
            self.old self.new found.old.items found.new.items) }
        ensures sound { OnOk result (IsMeterInRange last_tick 0 self.new) }
    {
        match &self.hiring {
            None => {
                self.enter_roaming_if_any();
                Ok(())
            }
            Some(_) => {
                if self.number < LAST_NUMBER {
                    self.hold();
                    return Ok(());
                }
                self.close(Kind::Aborted, self.clock, alloc, checked, params, found)
            }
        }
    }

    /// Without a trip it enters roaming, if there is any.
    #[tactic(auto, using(crate::proofs::Benches::sound_without))]
    fn enter_roaming_if_any(&mut self)
        requires sound { IsMeterInRange last_tick 1 self.old }
        requires none { self.old.hiring ≡ None }
        ensures moves { (s : Setting) → GoesThroughQuietly s (λ s m. held_or_closed s m.trip m) self.old self.new }
        ensures sound { IsMeterInRange last_tick 0 self.new }
    {
        if self.roam == 0 {
            return;
        }
        self.enter_roaming();
    }

    /// Holds the trip.
    fn hold(&mut self)
        requires sound { IsMeterInRange last_tick 1 self.old }
        requires room { self.old.number < last_number }
        ensures moves { (s : Setting) (trip : MeterTrip) → GoesThroughQuietly s (λ s m.
            held (held_trip s m.clock (is_stopped m.operating) m.position m.zone trip) m) self.old self.new }
        ensures sound { IsMeterInRange last_tick 0 self.new }
    {
        self.held = Some(SavedState {
            saved: self.clock,
            stopped: is_stopped(self.operating),
            position: self.position,
            zone: self.zone,
        });
        self.number = self.number.saturating_add(1);
    }

    /// Ends the drive: the supply drops, if the meter is powered.
    pub(crate) fn drop_at_end(
        &mut self,
        alloc: Global,
        checked: &Checked,
        params: &Params,
        found: &mut Vec<Explained>,
    ) -> Result<(), NoMemory>
        requires sound { IsMeterInRange last_tick 0 self.old }
        ensures { OnOk result (GoesThroughEvent (setting_under checked.now params.now) Down ended
            self.old self.new found.old.items found.new.items) }
    {
        match self.operating {
            Operating::Off => Ok(()),
            Operating::ForHire | Operating::Hired | Operating::Stopped => {
                self.go_down(alloc, checked, params, found)
            }
        }
    }
}

/// Whether the meter is in Stopped.
fn is_stopped(operating: Operating) -> bool
    ensures { result ≡ is_stopped operating }
{
    matches!(operating, Operating::Stopped)
}

/// Whether the supply was away no longer than the hold.
fn is_within(held: SavedState, second: u64, hold: u16) -> bool
    ensures { result ≡ nat_le held.saved second && nat_le second (held.saved + hold) }
{
    if held.saved > second {
        return false;
    }
    second - held.saved <= hold as u64
}
