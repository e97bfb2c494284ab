//! What is known of an event before it is carried out.
ghost use Rattle.std.specs.Prelude.{◌+◌, ◌/◌, ◌<◌, ◌^◌, ◌≡◌, ◌≤◌, option_to_list};
ghost use Rattle.verify_bench.specs.{Common.{Context, Meter, Params, Setting, last_tick}, Refusals.{refusal_of}};
ghost use Rattle.verify_bench.specs.{Settings.{setting_under}, Story.{Telling, clock_told, reading_told, since_behind}};
ghost use Rattle.verify_bench.specs.Told.{reading_by};

use crate::happenings::is_in_trip;
use crate::moment::Happening;
use crate::teller::Teller;
use tariff_check::Checked;
use taxi_units::{Event, Key, Operating, Why};

/// What is known of an event before it is carried out: the operating position, the key that waits, why the event is
/// refused, if it is, what is told of a reading of the clock, and the ticks since the last reading, behind the event.
#[derive(Clone, Copy)]
pub(crate) struct Before {
    pub(crate) operating: Operating,
    pub(crate) latch: Option<Key>,
    pub(crate) refusal: Option<Why>,
    pub(crate) reading: Option<Happening>,
    pub(crate) since: u128,
}

impl Teller {
    ghost use Rattle.verify_bench.specs.Bench.{BenchStands, IsMeterInRange};

    /// What is known of an event.
    pub(crate) fn before(&self, event: Event, checked: &Checked) -> Before
        requires sound { IsMeterInRange last_tick 0 self.now.meter }
        requires few { self.now.since + 1 < 2 ^ 128 }
        ensures operating { result.operating ≡ self.now.meter.operating }
        ensures latch { result.latch ≡ self.now.meter.latch }
        ensures refusal { (params : Params) (m : Meter) (hired : Context)
            → BenchStands (setting_under checked.now params) hired self.now.meter m
            → result.refusal ≡ refusal_of (setting_under checked.now params) event m }
        ensures reading { (s : Setting) (m : Meter) (hired : Context) (telling : Telling)
            → BenchStands s hired self.now.meter m
            → self.now.since ≡ telling.since → option_to_list result.reading ≡ reading_by telling event m }
        ensures since { (s : Setting) (m : Meter) (hired : Context) → BenchStands s hired self.now.meter m
            → result.since ≡ since_behind event m self.now.since }
        ensures few { result.since ≤ self.now.since + 1 }
    {
        Before {
            operating: self.meter.operating,
            latch: self.meter.latch,
            refusal: self.meter.refusal(event, checked),
            reading: self.reading(event),
            since: self.since_behind(event),
        }
    }

    /// What is told of a reading of the clock that is accepted in a trip.
    fn reading(&self, event: Event) -> Option<Happening>
        ensures { (s : Setting) (m : Meter) (hired : Context) (telling : Telling)
            → BenchStands s hired self.now.meter m
            → self.now.since ≡ telling.since → option_to_list result ≡ reading_by telling event m }
    {
        match event {
            Event::Clock(second) => self.clock_told(second),
            _ => None,
        }
    }

    /// The same, by its second.
    fn clock_told(&self, second: u64) -> Option<Happening>
        ensures { (s : Setting) (m : Meter) (hired : Context) (telling : Telling)
            → BenchStands s hired self.now.meter m
            → self.now.since ≡ telling.since → option_to_list result ≡ clock_told telling second m }
    {
        if !is_in_trip(self.meter.operating) || second < self.meter.clock {
            return None;
        }
        reading_told(self.meter.clock, self.since, second)
    }

    /// The ticks since the clock was last read or the supply came, behind an event.
    fn since_behind(&self, event: Event) -> u128
        requires { self.now.since + 1 < 2 ^ 128 }
        ensures value { (s : Setting) (m : Meter) (hired : Context) → BenchStands s hired self.now.meter m
            → result ≡ since_behind event m self.now.since }
        ensures few { result ≤ self.now.since + 1 }
    {
        match event {
            Event::Tick => self.since + 1,
            Event::Up(_) => match self.meter.operating {
                Operating::Off => 0,
                Operating::ForHire | Operating::Hired | Operating::Stopped => self.since,
            },
            Event::Clock(second) => {
                if is_in_trip(self.meter.operating) && second < self.meter.clock {
                    return self.since;
                }
                0
            }
            Event::Down | Event::Pulses(_) | Event::Key(_) => self.since,
        }
    }
}

/// What is told of a reading of the clock, if it is two seconds or more away from the second that is reckoned from the
/// last one and the ticks since.
fn reading_told(last: u64, since: u128, second: u64) -> Option<Happening>
    ensures { option_to_list result ≡ reading_told (last + since / 10) second }
{
    let reckoned = last as u128 + since / 10;
    let second = second as u128;
    if reckoned + 2 <= second {
        return Some(Happening::ClockAhead((second - reckoned) as u64));
    }
    if second + 2 <= reckoned {
        return Some(Happening::ClockBehind(reckoned - second));
    }
    None
}
