//! Puts what happened into the stories.
ghost use Rattle.std.specs.Prelude.{◌≡◌, OnOk, map, option_to_list};
ghost use Rattle.verify_bench.specs.{Common.{Context, Hired, Meter, Setting, last_tick}, Settings.{setting_under}};
ghost use Rattle.verify_bench.specs.Story.{line_by, moment_of, moments_at, rate_line, rate_told};
ghost use Rattle.verify_bench.specs.{Told.{Adds, end_by, happenings_in}, TripExplanations.{explanation_of}};
ghost use Rattle.verify_bench.specs.Story as spec;

use crate::explained::Explained;
use crate::fees::line_at;
use crate::happenings::Happenings;
use crate::moment::{Happening, Moment};
use crate::stories::Stories;
use crate::teller::Teller;
use crate::telling::stamp;
use seal_record::Params;
use std::alloc::Global;
use tariff_check::Checked;
use taxi_units::{Event, NoMemory, Operating, Stamp};

impl Teller {
    ghost use Rattle.verify_bench.specs.Bench.{BenchStands, IsMeterInRange};

    /// Tells the line of the interval that a tick ends in Hired, if another one charged last.
    pub(crate) fn tell_rate(
        &mut self,
        event: Event,
        alloc: Global,
        checked: &Checked,
        params: &Params,
        stories: &mut Stories,
    ) -> Result<(), NoMemory>
        requires { IsMeterInRange last_tick 0 self.old.meter }
        ensures told { OnOk result ((m : Meter) (hired : Context)
            → BenchStands (setting_under checked.now params.now) hired self.old.meter m
            → Adds (rate_told (setting_under checked.now params.now) event self.old.line m) stories.old stories.new) }
        ensures line { OnOk result ((m : Meter) (hired : Context)
            → BenchStands (setting_under checked.now params.now) hired self.old.meter m
            → self.new.line ≡ line_by (setting_under checked.now params.now) event m self.old.line) }
        ensures others { OnOk result (self.new ≡ record self.old { line = self.new.line }) }
    {
        match (event, self.meter.operating) {
            (Event::Tick, Operating::Hired) => {
                let line = self.rate_line(checked, params);
                self.put_line(line, alloc, params, stories)?;
                self.line = Some(line);
                Ok(())
            }
            _ => Ok(()),
        }
    }

    /// Puts the line of an interval into the stories, if another one charged last.
    fn put_line(
        &self,
        line: u32,
        alloc: Global,
        params: &Params,
        stories: &mut Stories,
    ) -> Result<(), NoMemory>
        requires { IsMeterInRange last_tick 0 self.now.meter }
        ensures { OnOk result ((s : Setting) (m : Meter) (hired : Context) → s.offsets ≡ params.now.offsets
            → BenchStands s hired self.now.meter m → line ≡ rate_line s m
            → Adds (spec.rate_in s Hired self.now.line m) stories.old stories.new) }
    {
        if is_line(self.line, line) {
            return Ok(());
        }
        let at = stamp(params, self.meter.began);
        stories.add(self.moment(at, Happening::Rate(line)), alloc)
    }

    /// The rate line of the running interval.
    fn rate_line(&self, checked: &Checked, params: &Params) -> u32
        requires { IsMeterInRange last_tick 0 self.now.meter }
        ensures { (m : Meter) (hired : Context)
            → BenchStands (setting_under checked.now params.now) hired self.now.meter m
            → result ≡ rate_line (setting_under checked.now params.now) m }
    {
        let x = self.meter.context(self.meter.began, checked, params);
        let place = checked.rate_of(&x).unwrap_or(0);
        line_at(checked.rates(), place)
    }

    /// A moment of the trip, as it is now.
    fn moment(&self, at: Stamp, happening: Happening) -> Moment
        requires { IsMeterInRange last_tick 0 self.now.meter }
        ensures { (s : Setting) (m : Meter) (hired : Context) → BenchStands s hired self.now.meter m
            → result ≡ moment_of m.trip at happening }
    {
        Moment {
            ticks: self.meter.ticks(),
            pulses: self.meter.pulses(),
            at,
            happening,
        }
    }

    /// Puts what an event did to the trip into the stories, and a refusal.
    pub(crate) fn put_both(
        &self,
        happenings: Happenings,
        alloc: Global,
        params: &Params,
        stories: &mut Stories,
    ) -> Result<(), NoMemory>
        requires { IsMeterInRange last_tick 0 self.now.meter }
        ensures { OnOk result ((s : Setting) (m : Meter) (hired : Context) → s.offsets ≡ params.now.offsets
            → BenchStands s hired self.now.meter m
            → Adds (moments_at s m (happenings_in happenings)) stories.old stories.new) }
    {
        self.put(happenings.own, alloc, params, stories)?;
        self.put(happenings.refusal, alloc, params, stories)
    }

    /// Puts a happening into the stories, if it is there, with the trip and the clock as they are now.
    pub(crate) fn put(
        &self,
        happening: Option<Happening>,
        alloc: Global,
        params: &Params,
        stories: &mut Stories,
    ) -> Result<(), NoMemory>
        requires { IsMeterInRange last_tick 0 self.now.meter }
        ensures { OnOk result ((s : Setting) (m : Meter) (hired : Context) → s.offsets ≡ params.now.offsets
            → BenchStands s hired self.now.meter m
            → Adds (moments_at s m (option_to_list happening)) stories.old stories.new) }
    {
        match happening {
            None => Ok(()),
            Some(happening) => {
                let at = stamp(params, self.meter.clock);
                stories.add(self.moment(at, happening), alloc)
            }
        }
    }
}

/// Whether a line is the one that charged last.
fn is_line(last: Option<u32>, line: u32) -> bool
    ensures { result ≡ spec.is_line last line }
{
    match last {
        None => false,
        Some(last) => last == line,
    }
}

/// Puts the ends of the hirings that were closed into the stories.
pub(crate) fn put_ends(
    found: &[Explained],
    alloc: Global,
    stories: &mut Stories,
) -> Result<(), NoMemory>
    ensures { OnOk result (Adds (map end_by (map explanation_of found.now)) stories.old stories.new) }
{
    for explained in found {
        let end = Moment {
            ticks: explained.whole.ticks,
            pulses: explained.whole.pulses,
            at: explained.receipt.finish,
            happening: Happening::Ended {
                kind: explained.receipt.kind,
                fare: explained.receipt.fare,
                supplements: explained.receipt.supplements,
            },
        };
        stories.add(end, alloc)?;
    }
    Ok(())
}
