//! What the meter of the bench shows.
ghost use Rattle.std.specs.Prelude.{◌≡◌};
ghost use Rattle.meter_model.specs.Display.{extras_shown, fare_shown};
ghost use Rattle.verify_bench.specs.{Common.{Context, Meter, display_of, last_tick}, Settings.{setting_under}};
ghost use Rattle.meter_model.specs.Display as displays;

use crate::bench_meter::BenchMeter;
use crate::fares;
use crate::telling::supplements;
use seal_record::Params;
use tariff_check::Checked;
use taxi_units::Display;

impl BenchMeter {
    ghost use Rattle.verify_bench.specs.Bench.{BenchStands, IsMeterInRange};

    /// What the meter shows now.
    pub(crate) fn display(&self, checked: &Checked, params: &Params) -> Display
        requires { IsMeterInRange last_tick 0 self.now }
        ensures { (m : Meter) (hired : Context) → BenchStands (setting_under checked.now params.now) hired self.now m
            → result ≡ display_of (setting_under checked.now params.now) m }
    {
        Display {
            operating: self.operating,
            position: self.position,
            zone: self.zone,
            fare: self.fare(checked, params),
            supplements: self.extras(checked),
            decimals: checked.decimals(),
        }
    }

    /// The fare of the trip, 0 without one.
    fn fare(&self, checked: &Checked, params: &Params) -> u64
        requires { IsMeterInRange last_tick 0 self.now }
        ensures { (m : Meter) (hired : Context) → BenchStands (setting_under checked.now params.now) hired self.now m
            → result ≡ fare_shown (setting_under checked.now params.now) m.trip }
    {
        match &self.hiring {
            None => 0,
            Some(hiring) => {
                let (step, _) = checked.step();
                let fee = hiring.fees.amounts;
                let steps = fares::steps_shown(checked, params, fee, hiring.whole.charge);
                fares::fare_shown(fee, step, steps)
            }
        }
    }

    /// The amount of the trip's supplements, 0 without one.
    fn extras(&self, checked: &Checked) -> u64
        requires { IsMeterInRange last_tick 0 self.now }
        ensures { (params : Params) (m : Meter) (hired : Context)
            → BenchStands (setting_under checked.now params) hired self.now m
            → result ≡ extras_shown (setting_under checked.now params) m.trip }
    {
        match &self.hiring {
            None => 0,
            Some(hiring) => supplements(hiring, checked),
        }
    }
}

/// Whether a display is the one that was shown last.
pub(crate) fn is_shown(old: &Option<Display>, new: &Display) -> bool
    ensures { result ≡ displays.is_shown old.now new.now }
{
    match old {
        None => false,
        Some(old) => old == new,
    }
}
