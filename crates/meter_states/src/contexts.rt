//! The context of an interval, and what the interval weighs in it.
ghost use Rattle.std.specs.Prelude.{◌+◌, ◌≡◌, ◌≤◌, Some};
ghost use Rattle.meter_states.specs.{Cache.{IsCacheOf, IsCachedTimeOf}, Equals.{context_by}, Setting.{IsSettingOf}};
ghost use Rattle.meter_states.specs.Common.{AreFit, CoreTrip, IsInRangeFor, IsSecond, Meter, Seal, Setting, context_of};
ghost use Rattle.meter_states.specs.Common.{context_on, local_at, longest_trip, roaming_amid, weights_in_force};
ghost use Rattle.meter_states.specs.{Core.{core_of}, Lawful.{IsPowered}};

use crate::cache::{Cache, CachedTime, cached_time};
use crate::meter_state::State;
use drive_modes::Weights;
use seal_record::Seal;
use std::sync::ledger::Ledger;
use tariff_compile::Tables;
use tariff_tree::Context;
use taxi_units::Steps;

impl State {
    /// What the running interval weighs, by the cache if it serves. At most 36 steps.
    pub(crate) fn weights<L: Ledger>(
        &self,
        cache: &mut Cache,
        tables: &Tables,
        seal: &Seal,
        steps: &mut Steps<L>,
    ) -> Weights
        requires lawful { IsPowered tables.now longest_trip roaming_amid 1 self.now }
        requires cache { IsCacheOf tables.now seal.now cache.old }
        ensures cache { IsCacheOf tables.now seal.now cache.new }
        ensures rate { (s : Setting) (m : Meter) → IsSettingOf s tables.now seal.now → self.now ≡ core_of s m
            → result ≡ weights_in_force s.tariff tables.now.constant (context_of s m) }
        ensures fit { AreFit tables.now.measure result }
        ensures steps { steps.new ≤ steps.old + 36 }
    {
        let local = cache.local_at(self.began, tables, seal, steps);
        let x = self.context_on(&local, tables);
        cache.rate_at(&x, tables, steps)
    }

    /// The context at a second. At most 14 steps.
    pub(crate) fn context_at<L: Ledger>(
        &self,
        second: u64,
        tables: &Tables,
        seal: &Seal,
        steps: &mut Steps<L>,
    ) -> Context
        requires second { IsSecond second }
        requires lawful { IsPowered tables.now longest_trip roaming_amid 1 self.now }
        ensures value { (s : Setting) (m : Meter) → IsSettingOf s tables.now seal.now → self.now ≡ core_of s m
            → result ≡ context_on s (local_at s second) m }
        ensures range { IsInRangeFor tables.now result }
        ensures steps { steps.new ≤ steps.old + 14 }
    {
        let local = cached_time(second, tables, seal, steps);
        self.context_on(&local, tables)
    }

    /// The context at a local time.
    pub(crate) fn context_on(&self, local: &CachedTime, tables: &Tables) -> Context
        requires lawful { IsPowered tables.now longest_trip roaming_amid 1 self.now }
        ensures value { (seal : Seal) (s : Setting) (m : Meter) → IsCachedTimeOf tables.now seal local.now
            → IsSettingOf s tables.now seal → self.now ≡ core_of s m
            → result ≡ context_on s (local_at s local.now.second) m }
        ensures exact { (t : CoreTrip) → self.now.trip ≡ Some t
            → result ≡ context_by tables.now local.now self.now t }
        ensures range { (seal : Seal) → IsCachedTimeOf tables.now seal local.now → IsInRangeFor tables.now result }
    {
        Context {
            constant: tables.constant(),
            position: self.position,
            zone: self.zone,
            weekday: local.weekday,
            month_day: local.month_day,
            holiday: local.holiday,
            minute: local.minute,
            pulses: self.pulses(),
            ticks: self.ticks(),
        }
    }
}
