//! What each event does.
ghost use Rattle.std.specs.Prelude.{[], ◌+◌, ◌↔◌, ◌≡◌, ◌≤◌, ◌⊎◌, IsTrue};
ghost use Rattle.{meter_model.specs.Step.{clock_read}, meter_states.specs.Core.{ComesToOutcome, Meets, core_of}};
ghost use Rattle.meter_states.specs.{Acts.{StayLawful}, Cache.{IsCacheOf}, Setting.{IsSettingOf}};
ghost use Rattle.meter_states.specs.Common.{IsSecond, Meter, Off, Setting, TableParts, powered_step};
ghost use Rattle.meter_states.specs.{EventOnCore.{MayStep, Takes}, Lawful.{IsBetweenEvents, IsTimely}};

use crate::cache::Cache;
use crate::core_state::Core;
use crate::meter_state::State;
use crate::refusing::refuse;
use meter_model::Acts;
use seal_record::Seal;
use std::sync::ledger::Ledger;
use tariff_compile::Tables;
use taxi_units::{Event, Operating, Steps, Why};

impl Core {
    /// Carries out an event, but an `Up` while the meter is off, which is for `resume`. A reading of the clock is
    /// 946,684,800 to 7,258,118,399, and the tables were compiled with the seal's constant. The core is lawful for the
    /// tables and the seal, as `off`, `resume` and `step` leave it. A refused event changes nothing, but of pulses that
    /// are too fast the interval takes those for which it has room. At most 48 steps.
    ///
    /// The measuring instruments directive rules that the fare is calculated in Hired alone, in steps, and by the rules
    /// of the modes S and D. All else is this project's own.
    pub fn step<L: Ledger>(
        &mut self,
        tables: &Tables,
        seal: &Seal,
        event: Event,
        steps: &mut Steps<L>,
    ) -> Acts
        requires ready { MayStep tables.now seal.now self.old event }
        ensures takes { Takes tables.now seal.now event self.old result.items self.new }
        ensures steps { steps.new ≤ steps.old + 48 }
    {
        let mut acts = Acts::new();
        self.step_into(tables, seal, event, &mut acts, steps);
        acts
    }

    /// Carries out an event as `step` does, with the acts in a list that is handed in empty. A list for four acts is
    /// large, so whoever goes over many events hands in one list again and again.
    #[inline(always)]
    pub fn step_into<L: Ledger>(
        &mut self,
        tables: &Tables,
        seal: &Seal,
        event: Event,
        acts: &mut Acts,
        steps: &mut Steps<L>,
    )
        requires ready { MayStep tables.now seal.now self.old event }
        requires empty { acts.old.items ≡ [] }
        ensures takes { Takes tables.now seal.now event self.old acts.new.items self.new }
        ensures steps { steps.new ≤ steps.old + 48 }
    {
        if self.state.is_off() {
            refuse(Why::NotNow, acts);
            return;
        }
        let cache = &mut self.cache;
        self.state
            .take_event(cache, tables, seal, event, acts, steps);
    }
}

impl State {
    /// Whether the meter is off.
    pub(crate) fn is_off(&self) -> bool
        ensures { IsTrue result ↔ (self.now.operating ≡ Off) }
    {
        matches!(self.operating, Operating::Off)
    }

    /// Carries out an event while the meter is powered. At most 48 steps.
    #[inline(always)]
    fn take_event<L: Ledger>(
        &mut self,
        cache: &mut Cache,
        tables: &Tables,
        seal: &Seal,
        event: Event,
        acts: &mut Acts,
        steps: &mut Steps<L>,
    )
        requires lawful { IsBetweenEvents tables.now self.old }
        requires cache { IsCacheOf tables.now seal.now cache.old }
        requires timely { IsTimely event }
        requires room { acts.old.items ≡ [] }
        ensures lawful { (self.new.operating ≡ Off) ⊎ IsBetweenEvents tables.now self.new }
        ensures cache { IsCacheOf tables.now seal.now cache.new }
        ensures ranges { StayLawful tables.now self.old.number acts.old.items acts.new.items }
        ensures meets { (s : Setting) (m : Meter) → IsSettingOf s tables.now seal.now → self.old ≡ core_of s m
            → Meets s self.new acts.new.items (powered_step s event m) }
        ensures steps { steps.new ≤ steps.old + 48 }
    {
        match event {
            Event::Up(_) => refuse(Why::Powered, acts),
            Event::Down => self.drop_supply(tables, seal, acts, steps),
            Event::Pulses(n) => self.take_pulses(n, acts),
            Event::Tick => self.tick(cache, tables, seal, acts, steps),
            Event::Clock(second) => self.read_clock(second, acts),
            Event::Key(key) => self.take_key(key, acts),
        }
    }

    /// Reads the clock: in a trip it doesn't go back.
    fn read_clock(&mut self, second: u64, acts: &mut Acts)
        requires second { IsSecond second }
        requires room { acts.old.items ≡ [] }
        ensures lawful { (tables : TableParts) → IsBetweenEvents tables self.old → IsBetweenEvents tables self.new }
        ensures ranges { (tables : TableParts) → StayLawful tables self.old.number acts.old.items acts.new.items }
        ensures follows { (s : Setting) (m : Meter) → self.old ≡ core_of s m
            → ComesToOutcome s self.new acts.old.items acts.new.items (clock_read m.operating second m) }
    {
        let busy = self.is_busy();
        if let Err(back) = self.clock.set(second, busy) {
            refuse(
                Why::ClockBack {
                    last: back.last,
                    given: back.given,
                },
                acts,
            );
        }
    }
}
