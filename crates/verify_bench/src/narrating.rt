//! The stories of a drive, hiring by hiring.
ghost use Rattle.std.specs.Prelude.{◌*◌, ◌+◌, ◌<◌, ◌^◌, ◌∷◌, ◌≡◌, ◌≤◌, All, IfOk, OnOk, flat_map, map};
ghost use Rattle.verify_bench.specs.Common.{Event, IsRunInRange, first_state, interval_events, intervals_events};
ghost use Rattle.verify_bench.specs.{Common.{last_tick, opened, run_events}, Story.{stories_of, story_of, untold}};
ghost use Rattle.verify_bench.specs.Settings.{setting_under};

use crate::bench_meter::BenchMeter;
use crate::moment::Story;
use crate::stories::Stories;
use crate::teller::Teller;
use drive_text::Run;
use seal_record::Params;
use std::alloc::Global;
use tariff_check::Checked;
use taxi_units::{Event, NoMemory, Operating};

/// The story of each hiring that a drive closes, in order: what happened in it, from the hiring to its end. The drive
/// begins on an empty store of number 1, and ends with a supply drop. A trip that is held at the end isn't told.
///
/// `NoMemory`: only if memory ran out. The numbers in the runs are those that a line of a drive may have.
pub fn narrate(
    alloc: Global,
    checked: &Checked,
    params: &Params,
    runs: &[Run],
) -> Result<Vec<Story>, NoMemory>
    requires { All IsRunInRange runs.now }
    ensures { IfOk result (λ list. map story_of list.items
        ≡ stories_of (setting_under checked.now params.now) (flat_map run_events runs.now)) }
{
    let mut teller = Teller::new();
    let mut stories = Stories::new(alloc);
    for run in runs {
        teller.follow(*run, alloc, checked, params, &mut stories)?;
    }
    teller.tell_end(alloc, checked, params, &mut stories)?;
    Ok(stories.closed)
}

impl Teller {
    ghost use Rattle.{std.specs.Prelude.{[], List}, verify_bench.specs.Told.{IsAmidTold, TellerStands, TellsAll}};
    ghost use Rattle.verify_bench.specs.{Bench.{IsMeterInRange, MayTake}, Common.{Context, Setting}};
    ghost use Rattle.verify_bench.specs.Story.{HiringStory};

    /// The meter before the supply first comes, over an empty store.
    fn new() -> Teller
        ensures stands { (s : Setting) (hired : Context) → TellerStands s hired result (opened s first_state) untold }
        ensures sound { IsMeterInRange last_tick 0 result.meter }
        ensures since { result.since ≡ 0 }
    {
        Teller {
            meter: BenchMeter::new(),
            shown: None,
            since: 0,
            line: None,
        }
    }

    /// Tells a run of a drive.
    fn follow(
        &mut self,
        run: Run,
        alloc: Global,
        checked: &Checked,
        params: &Params,
        stories: &mut Stories,
    ) -> Result<(), NoMemory>
        requires sound { IsMeterInRange last_tick 0 self.old.meter }
        requires range { IsRunInRange run }
        requires few { self.old.since + 2 ^ 33 < 2 ^ 128 }
        ensures tells { OnOk result (TellsAll (setting_under checked.now params.now) (run_events run)
            self.old self.new stories.old stories.new) }
        ensures sound { OnOk result (IsMeterInRange last_tick 0 self.new.meter) }
        ensures few { OnOk result (self.new.since ≤ self.old.since + 2 ^ 33) }
    {
        match run {
            Run::One(event) => self.one(event, alloc, checked, params, stories),
            Run::Many { pulses, count } => {
                self.intervals(pulses, count, alloc, checked, params, stories)
            }
        }
    }

    /// Tells intervals, one after another.
    fn intervals(
        &mut self,
        pulses: u32,
        count: u32,
        alloc: Global,
        checked: &Checked,
        params: &Params,
        stories: &mut Stories,
    ) -> Result<(), NoMemory>
        requires sound { IsMeterInRange last_tick 0 self.old.meter }
        requires pulses { pulses ≤ 65535 }
        requires few { self.old.since + 2 ^ 33 < 2 ^ 128 }
        ensures tells { OnOk result (TellsAll (setting_under checked.now params.now) (intervals_events pulses count)
            self.old self.new stories.old stories.new) }
        ensures sound { OnOk result (IsMeterInRange last_tick 0 self.new.meter) }
        ensures few { OnOk result (self.new.since ≤ self.old.since + 2 * count) }
    {
        for place in 0..count {
            self.interval(pulses, alloc, checked, params, stories)?;
        }
        Ok(())
    }

    /// Tells an interval.
    fn interval(
        &mut self,
        pulses: u32,
        alloc: Global,
        checked: &Checked,
        params: &Params,
        stories: &mut Stories,
    ) -> Result<(), NoMemory>
        requires sound { IsMeterInRange last_tick 0 self.old.meter }
        requires pulses { pulses ≤ 65535 }
        requires few { self.old.since + 2 < 2 ^ 128 }
        ensures tells { OnOk result (TellsAll (setting_under checked.now params.now) (interval_events pulses)
            self.old self.new stories.old stories.new) }
        ensures sound { OnOk result (IsMeterInRange last_tick 0 self.new.meter) }
        ensures few { OnOk result (self.new.since ≤ self.old.since + 2) }
    {
        if pulses == 0 {
            return self.one(Event::Tick, alloc, checked, params, stories);
        }
        self.one(Event::Pulses(pulses), alloc, checked, params, stories)?;
        self.one(Event::Tick, alloc, checked, params, stories)
    }

    /// Tells an event.
    fn one(
        &mut self,
        event: Event,
        alloc: Global,
        checked: &Checked,
        params: &Params,
        stories: &mut Stories,
    ) -> Result<(), NoMemory>
        requires takes { MayTake self.old.meter event }
        requires few { self.old.since + 1 < 2 ^ 128 }
        ensures tells { OnOk result (TellsAll (setting_under checked.now params.now) (event ∷ [])
            self.old self.new stories.old stories.new) }
        ensures sound { OnOk result (IsMeterInRange last_tick 0 self.new.meter) }
        ensures few { OnOk result (self.new.since ≤ self.old.since + 1) }
    {
        self.tell(event, alloc, checked, params, stories)
    }

    /// Tells the end of the drive: the supply drops, if the meter is powered.
    fn tell_end(
        &mut self,
        alloc: Global,
        checked: &Checked,
        params: &Params,
        stories: &mut Stories,
    ) -> Result<(), NoMemory>
        requires sound { IsMeterInRange last_tick 0 self.old.meter }
        requires few { self.old.since + 1 < 2 ^ 128 }
        ensures { OnOk result ((all : List HiringStory)
            → IsAmidTold (setting_under checked.now params.now) all [] self.old stories.old
            → map story_of stories.new.closed.items ≡ all) }
    {
        match self.meter.operating {
            Operating::Off => Ok(()),
            Operating::ForHire | Operating::Hired | Operating::Stopped => {
                self.tell(Event::Down, alloc, checked, params, stories)
            }
        }
    }
}
