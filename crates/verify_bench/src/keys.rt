//! What keys do to the meter of the bench.
#![tactic(auto, using(crate::proofs::Benches::looser))]

ghost use Rattle.std.specs.Prelude.{◌≡◌, ◌≤◌, OnOk, Some};
ghost use Rattle.meter_model.specs.Keys.{position_set, zone_set};
ghost use Rattle.verify_bench.specs.Common.{ForHire, IsSupplementNumber, Params, Setting, extra_added, last_tick};
ghost use Rattle.verify_bench.specs.{Common.{latched, supplement_numbered}, Settings.{setting_under}};

use crate::bench_meter::BenchMeter;
use crate::explained::Explained;
use crate::fees::fees_of_hiring;
use crate::hiring::Hiring;
use seal_record::Params;
use std::alloc::Global;
use tariff_check::{Checked, Supplement};
use taxi_units::{HIRINGS_END, Key, Kind, NoMemory, Operating};

impl BenchMeter {
    ghost use Rattle.verify_bench.specs.Bench.{GoesThroughHiring, GoesThroughKey, GoesThroughQuietly, IsMeterInRange};

    /// Lets a key wait, if none does.
    pub(crate) fn latch_key(&mut self, key: Key)
        requires sound { IsMeterInRange last_tick 0 self.old }
        ensures moves { (s : Setting) → GoesThroughQuietly s (λ s m. latched m.latch key m) self.old self.new }
        ensures sound { IsMeterInRange last_tick 0 self.new }
    {
        match self.latch {
            None => self.latch = Some(key),
            Some(_) => {}
        }
    }

    /// Begins a trip.
    pub(crate) fn hire(&mut self, alloc: Global, checked: &Checked, params: &Params)
        requires sound { IsMeterInRange last_tick 0 self.old }
        requires for_hire { self.old.operating ≡ ForHire }
        ensures moves { GoesThroughHiring (setting_under checked.now params.now) self.old self.new }
        ensures sound { IsMeterInRange last_tick 0 self.new }
    {
        if self.number >= HIRINGS_END {
            return;
        }
        let x = self.context(self.clock, checked, params);
        let fees = fees_of_hiring(checked, &x);
        self.hiring = Some(Hiring::new(alloc, self.clock, fees));
        self.operating = Operating::Hired;
        self.roam = 0;
    }

    /// Sets a tariff position.
    fn set_position(&mut self, number: u8, checked: &Checked)
        requires sound { IsMeterInRange last_tick 0 self.old }
        ensures moves { (params : Params) → GoesThroughQuietly (setting_under checked.now params)
            (λ s. position_set s number) self.old self.new }
        ensures sound { IsMeterInRange last_tick 0 self.new }
    {
        if 1 <= number && number <= checked.positions() {
            self.position = number;
        }
    }

    /// Sets a zone.
    fn set_zone(&mut self, number: u8, checked: &Checked)
        requires sound { IsMeterInRange last_tick 0 self.old }
        ensures moves { (params : Params) → GoesThroughQuietly (setting_under checked.now params)
            (λ s. zone_set s number) self.old self.new }
        ensures sound { IsMeterInRange last_tick 0 self.new }
    {
        if 1 <= number && number <= checked.zones() {
            self.zone = number;
        }
    }

    /// Adds a supplement to the trip, up to its most, if the tariff has it.
    fn add_supplement(&mut self, number: u8, checked: &Checked) -> Result<(), NoMemory>
        requires sound { IsMeterInRange last_tick 0 self.old }
        ensures moves { OnOk result ((params : Params) → GoesThroughQuietly (setting_under checked.now params)
            (λ s. extra_added number (supplement_numbered s.tariff.supplements number)) self.old self.new) }
        ensures sound { OnOk result (IsMeterInRange last_tick 0 self.new) }
    {
        match checked.supplement(number) {
            None => Ok(()),
            Some(supplement) => self.add_up_to(number, supplement),
        }
    }

    /// Adds it up to its most.
    fn add_up_to(&mut self, number: u8, supplement: Supplement) -> Result<(), NoMemory>
        requires sound { IsMeterInRange last_tick 0 self.old }
        requires number { IsSupplementNumber number }
        requires most { supplement.max ≤ 99 }
        ensures moves { OnOk result ((s : Setting) → GoesThroughQuietly s (λ s. extra_added number (Some supplement))
            self.old self.new) }
        ensures sound { OnOk result (IsMeterInRange last_tick 0 self.new) }
    {
        match &mut self.hiring {
            None => Ok(()),
            Some(hiring) => {
                if hiring.times(number) >= supplement.max as usize {
                    Ok(())
                } else {
                    hiring.add_extra(number)
                }
            }
        }
    }

    /// Does what a key does as it acts.
    pub(crate) fn act(
        &mut self,
        key: Key,
        alloc: Global,
        checked: &Checked,
        params: &Params,
        found: &mut Vec<Explained>,
    ) -> Result<(), NoMemory>
        requires sound { IsMeterInRange last_tick 0 self.old }
        ensures moves { OnOk result (GoesThroughKey (setting_under checked.now params.now) key
            self.old self.new found.old.items found.new.items) }
        ensures sound { OnOk result (IsMeterInRange last_tick 0 self.new) }
    {
        match (key, self.operating) {
            (Key::Hire, Operating::ForHire) => {
                self.hire(alloc, checked, params);
                Ok(())
            }
            (Key::Hire, Operating::Stopped) => {
                self.operating = Operating::Hired;
                Ok(())
            }
            (Key::Stop, Operating::Hired) => {
                self.operating = Operating::Stopped;
                Ok(())
            }
            (Key::Clear, Operating::Stopped) => {
                self.close(Kind::Closed, self.clock, alloc, checked, params, found)?;
                Ok(())
            }
            (Key::Position(number), Operating::ForHire | Operating::Hired) => {
                self.set_position(number, checked);
                Ok(())
            }
            (Key::Zone(number), Operating::ForHire | Operating::Hired) => {
                self.set_zone(number, checked);
                Ok(())
            }
            (Key::Extra(number), Operating::Hired | Operating::Stopped) => {
                self.add_supplement(number, checked)
            }
            _ => Ok(()),
        }
    }
}
