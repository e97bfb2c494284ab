//! What the meter of the bench refuses.
ghost use Rattle.std.specs.Prelude.{◌≡◌};
ghost use Rattle.verify_bench.specs.Common.{Context, Meter, Params, Setting, last_tick};
ghost use Rattle.verify_bench.specs.Refusals.{clock_refusal, extra_refusal, key_refusal, latch_refusal, number_refusal};
ghost use Rattle.verify_bench.specs.{Refusals.{powered_refusal, pulse_refusal, refusal_of}, Settings.{setting_under}};

use crate::bench_meter::BenchMeter;
use tariff_check::{Checked, Supplement};
use taxi_units::{Event, HIRINGS_END, Key, Operating, Why};

/// The most pulses of an interval.
const INTERVAL_MOST: u32 = 2000;

impl BenchMeter {
    ghost use Rattle.verify_bench.specs.Bench.{BenchStands, IsMeterInRange};

    /// Why an event is refused, if it is. At a tick it is the key that waits, unless the trip expires.
    pub(crate) fn refusal(&self, event: Event, checked: &Checked) -> Option<Why>
        requires { IsMeterInRange last_tick 0 self.now }
        ensures { (params : Params) (m : Meter) (hired : Context)
            → BenchStands (setting_under checked.now params) hired self.now m
            → result ≡ refusal_of (setting_under checked.now params) event m }
    {
        match self.operating {
            Operating::Off => match event {
                Event::Up(_) => None,
                _ => Some(Why::NotNow),
            },
            Operating::ForHire | Operating::Hired | Operating::Stopped => {
                self.powered_refusal(event, checked)
            }
        }
    }

    /// Why an event is refused while the meter is powered.
    fn powered_refusal(&self, event: Event, checked: &Checked) -> Option<Why>
        requires { IsMeterInRange last_tick 0 self.now }
        ensures { (params : Params) (m : Meter) (hired : Context)
            → BenchStands (setting_under checked.now params) hired self.now m
            → result ≡ powered_refusal (setting_under checked.now params) event m }
    {
        match event {
            Event::Up(_) => Some(Why::Powered),
            Event::Down => None,
            Event::Pulses(pulses) => self.pulse_refusal(pulses),
            Event::Tick => self.latch_refusal(checked),
            Event::Clock(second) => self.clock_refusal(second),
            Event::Key(_) => match self.latch {
                None => None,
                Some(_) => Some(Why::KeyWaiting),
            },
        }
    }

    /// Why pulses are refused, if the interval has no room for some of them.
    fn pulse_refusal(&self, pulses: u32) -> Option<Why>
        requires { IsMeterInRange last_tick 0 self.now }
        ensures { (s : Setting) (m : Meter) (hired : Context) → BenchStands s hired self.now m
            → result ≡ pulse_refusal pulses m }
    {
        let room = INTERVAL_MOST - self.taken;
        if pulses > room {
            return Some(Why::TooFast(pulses - room));
        }
        None
    }

    /// Why a reading of the clock is refused, if it is before the last one amid a trip.
    fn clock_refusal(&self, second: u64) -> Option<Why>
        ensures { (s : Setting) (m : Meter) (hired : Context) → BenchStands s hired self.now m
            → result ≡ clock_refusal m.operating second m.clock }
    {
        match self.operating {
            Operating::Off | Operating::ForHire => None,
            Operating::Hired | Operating::Stopped => {
                if second < self.clock {
                    return Some(Why::ClockBack {
                        last: self.clock,
                        given: second,
                    });
                }
                None
            }
        }
    }

    /// Why the key that waits is refused, if one waits and it is.
    fn latch_refusal(&self, checked: &Checked) -> Option<Why>
        requires { IsMeterInRange last_tick 0 self.now }
        ensures { (params : Params) (m : Meter) (hired : Context)
            → BenchStands (setting_under checked.now params) hired self.now m
            → result ≡ latch_refusal (setting_under checked.now params) m.latch m }
    {
        match self.latch {
            None => None,
            Some(key) => self.key_refusal(key, checked),
        }
    }

    /// Why a key is refused, if it is.
    fn key_refusal(&self, key: Key, checked: &Checked) -> Option<Why>
        requires { IsMeterInRange last_tick 0 self.now }
        ensures { (params : Params) (m : Meter) (hired : Context)
            → BenchStands (setting_under checked.now params) hired self.now m
            → result ≡ key_refusal (setting_under checked.now params) key m.operating m }
    {
        match (key, self.operating) {
            (Key::Hire, Operating::ForHire) => {
                if self.number >= HIRINGS_END {
                    return Some(Why::Ended);
                }
                None
            }
            (Key::Hire | Key::Clear, Operating::Stopped) => None,
            (Key::Stop, Operating::Hired) => None,
            (Key::Position(number), Operating::ForHire | Operating::Hired) => {
                number_refusal(checked.positions(), number)
            }
            (Key::Zone(number), Operating::ForHire | Operating::Hired) => {
                number_refusal(checked.zones(), number)
            }
            (Key::Extra(number), Operating::Hired | Operating::Stopped) => {
                self.extra_refusal(number, checked.supplement(number))
            }
            _ => Some(Why::NotNow),
        }
    }

    /// Why a supplement is refused, if it is none of the tariff, or was added as often as it may be.
    fn extra_refusal(&self, number: u8, supplement: Option<Supplement>) -> Option<Why>
        ensures { (s : Setting) (m : Meter) (hired : Context) → BenchStands s hired self.now m
            → result ≡ extra_refusal number supplement m.trip }
    {
        match supplement {
            None => Some(Why::NoSuch),
            Some(supplement) => match &self.hiring {
                None => None,
                Some(hiring) => {
                    if hiring.times(number) >= supplement.max as usize {
                        return Some(Why::AtMost);
                    }
                    None
                }
            },
        }
    }
}

/// Why a position or a zone is refused, if the tariff has so many and not this one.
fn number_refusal(most: u8, number: u8) -> Option<Why>
    ensures { result ≡ number_refusal most number }
{
    if 1 <= number && number <= most {
        return None;
    }
    Some(Why::NoSuch)
}
