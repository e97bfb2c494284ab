//! The meter that tells the story of each hiring, event by event.
#![tactic(auto, using(crate::proofs::Benches::looser))]

ghost use Rattle.std.specs.Prelude.{[], ◌+◌, ◌<◌, ◌^◌, ◌≡◌, ◌≤◌, IfOk, OnOk, Option};
ghost use Rattle.verify_bench.specs.{Bench.{AreTrips}, Settings.{setting_under}, Story.{Telling, line_behind}};
ghost use Rattle.verify_bench.specs.Common.{Context, IsTripKept, Meter, MeterTrip, Setting, last_tick};

use crate::bench_meter::BenchMeter;
use crate::explained::Explained;
use crate::happenings::Happenings;
use crate::putting::put_ends;
use crate::stories::Stories;
use seal_record::Params;
use std::alloc::Global;
use tariff_check::Checked;
use taxi_units::{Display, Event, NoMemory};

/// The meter of the bench, and what a story goes by beside it: what was shown last, the ticks since the clock was last
/// read or the supply came, and the line of the rate that charged the last interval of the trip.
#[derive(Drop)]
pub(crate) struct Teller {
    pub(crate) meter: BenchMeter,
    pub(crate) shown: Option<Display>,
    pub(crate) since: u128,
    pub(crate) line: Option<u32>,
}

impl Teller {
    ghost use Rattle.verify_bench.specs.{Bench.{BenchStands, IsMeterInRange, MayTake}, Told.{Happens, Tells}};

    /// Carries out an event, and tells of it.
    pub(crate) fn tell(
        &mut self,
        event: Event,
        alloc: Global,
        checked: &Checked,
        params: &Params,
        stories: &mut Stories,
    ) -> Result<(), NoMemory>
        requires takes { MayTake self.old.meter event }
        requires few { self.old.since + 1 < 2 ^ 128 }
        ensures tells { OnOk result (Tells (setting_under checked.now params.now) event self.old self.new
            stories.old stories.new) }
        ensures sound { OnOk result (IsMeterInRange last_tick 0 self.new.meter) }
        ensures few { OnOk result (self.new.since ≤ self.old.since + 1) }
    {
        self.tell_rate(event, alloc, checked, params, stories)?;
        let mut found = Vec::new(alloc);
        let happenings = self.happen(event, alloc, checked, params, &mut found)?;
        self.put_both(happenings, alloc, params, stories)?;
        put_ends(found.as_slice(), alloc, stories)?;
        self.put(happenings.shown, alloc, params, stories)?;
        self.forget();
        Ok(())
    }

    /// Carries out an event, and says what happened but for the line of its interval and the end of the trip.
    fn happen(
        &mut self,
        event: Event,
        alloc: Global,
        checked: &Checked,
        params: &Params,
        found: &mut Vec<Explained>,
    ) -> Result<Happenings, NoMemory>
        requires takes { MayTake self.old.meter event }
        requires few { self.old.since + 1 < 2 ^ 128 }
        requires none { found.old.items ≡ [] }
        ensures happens { IfOk result (λ happenings. (m : Meter) (hired : Context) (telling : Telling)
            → BenchStands (setting_under checked.now params.now) hired self.old.meter m
            → self.old.shown ≡ m.shown → self.old.since ≡ telling.since
            → IsTripKept (setting_under checked.now params.now) m
            → Happens (setting_under checked.now params.now) event m hired telling self.new
            happenings found.new.items) }
        ensures sound { OnOk result (IsMeterInRange last_tick 0 self.new.meter) }
        ensures few { OnOk result (self.new.since ≤ self.old.since + 1) }
        ensures line { OnOk result (self.new.line ≡ self.old.line) }
    {
        let before = self.before(event, checked);
        self.meter.event(event, alloc, checked, params, found)?;
        self.since = before.since;
        Ok(Happenings {
            own: self.own(event, before),
            refusal: self.refused(before.refusal),
            shown: self.look(event, before.operating, checked, params),
        })
    }

    /// Forgets the line that charged last, if there is no trip.
    fn forget(&mut self)
        ensures line { (trip : Option MeterTrip) (s : Setting) (hired : Context)
            → AreTrips s hired self.old.meter.hiring trip → self.new.line ≡ line_behind trip self.old.line }
        ensures others { self.new ≡ record self.old { line = self.new.line } }
    {
        if self.meter.hiring.is_none() {
            self.line = None;
        }
    }
}
