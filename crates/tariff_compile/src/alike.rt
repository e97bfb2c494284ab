//! What contexts have in common.
ghost use Rattle.std.specs.Prelude.{◌&&◌, ◌≡◌};
ghost use Rattle.tariff_compile.specs.{Alike.{Agree, AllAgree, asks_alike}, Common.{Context, condition_of}};

use tariff_tree::{Cond, Context};

/// Which parts are the same in all of some contexts. A condition that asks for one of them alone has one answer.
#[derive(Clone, Copy)]
pub(crate) struct Alike {
    position: bool,
    zone: bool,
    weekday: bool,
    month_day: bool,
    holiday: bool,
    minute: bool,
    distance: bool,
    time: bool,
}

impl Alike {
    /// The parts that are the same in these contexts.
    pub(crate) fn of(contexts: &[Context]) -> Alike
        ensures { AllAgree result contexts.now }
    {
        let mut alike = Alike {
            position: true,
            zone: true,
            weekday: true,
            month_day: true,
            holiday: true,
            minute: true,
            distance: true,
            time: true,
        };
        for place in 0..contexts.len() {
            alike = alike.and_in(&contexts[0], &contexts[place]);
        }
        alike
    }

    /// The parts that are alike here, and the same in two contexts too.
    fn and_in(self, first: &Context, x: &Context) -> Alike
        ensures added { Agree result first.now x.now }
        ensures kept { (y : Context) → Agree self first.now y → Agree result first.now y }
    {
        let reach = and(first.constant == x.constant, first.pulses == x.pulses);
        Alike {
            position: and(self.position, first.position == x.position),
            zone: and(self.zone, first.zone == x.zone),
            weekday: and(self.weekday, first.weekday == x.weekday),
            month_day: and(self.month_day, first.month_day == x.month_day),
            holiday: and(self.holiday, first.holiday == x.holiday),
            minute: and(self.minute, first.minute == x.minute),
            distance: and(self.distance, reach),
            time: and(self.time, first.ticks == x.ticks),
        }
    }

    /// Whether a condition asks for one such part alone.
    pub(crate) fn is_asked(self, cond: &Cond) -> bool
        ensures { result ≡ asks_alike self (condition_of cond.now) }
    {
        match cond {
            Cond::Position(_) => self.position,
            Cond::Zone(_) => self.zone,
            Cond::Time { .. } => self.minute,
            Cond::Day { .. } => self.weekday,
            Cond::Date { .. } => self.month_day,
            Cond::Holiday => self.holiday,
            Cond::AfterDistance(_) => self.distance,
            Cond::AfterTime(_) => self.time,
            _ => false,
        }
    }
}

/// Whether both are true.
fn and(one: bool, other: bool) -> bool
    ensures { result ≡ (one && other) }
{
    one && other
}
