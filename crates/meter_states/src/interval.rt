//! The measuring interval: its pulses, the context of its beginning, and what it becomes at its end.
ghost use Rattle.std.specs.Prelude.{[], ◌+◌, ◌≡◌, ◌≢◌, ◌≤◌, None, sum};
ghost use Rattle.meter_model.specs.Interval.{interval_left, left_in, pulses_taken};
ghost use Rattle.meter_states.specs.{Acts.{StayLawful}, Core.{ComesToOutcome, core_of}, Setting.{IsSettingOf}};
ghost use Rattle.meter_states.specs.Cache.{IsCacheOf};
ghost use Rattle.meter_states.specs.Common.{ForHire, Hired, Meter, Setting, Stopped, TableParts, counted_in};
ghost use Rattle.meter_states.specs.Common.{interval_counted, last_tick, longest_trip, roaming_amid, roaming_between};
ghost use Rattle.meter_states.specs.Lawful.{IsAmidEvent, IsBetweenEvents, IsPowered, counting_steps};

use crate::cache::Cache;
use crate::meter_state::State;
use crate::refusing::refuse;
use crate::trip::{add_hired, add_rest, add_stopped};
use meter_model::Acts;
use seal_record::Seal;
use std::sync::ledger::Ledger;
use tariff_compile::Tables;
use taxi_units::{HIRINGS_END, Operating, Steps, Why};

impl State {
    /// Adds the pulses for which the interval has room; the others are refused.
    #[inline(always)]
    pub(crate) fn take_pulses(&mut self, n: u32, acts: &mut Acts)
        requires gate { self.old.gate ≤ 2000 }
        requires room { acts.old.items ≡ [] }
        ensures lawful { (tables : TableParts) → IsBetweenEvents tables self.old → IsBetweenEvents tables self.new }
        ensures ranges { (tables : TableParts) → StayLawful tables self.old.number acts.old.items acts.new.items }
        ensures follows { (s : Setting) (m : Meter) → self.old ≡ core_of s m
            → ComesToOutcome s self.new acts.old.items acts.new.items (pulses_taken n m) }
    {
        let left = self.gate.add(n);
        if left > 0 {
            refuse(Why::TooFast(left), acts);
        }
    }

    /// Adds the interval to what runs. At most 36 steps in Hired, and none otherwise.
    pub(crate) fn count_interval<L: Ledger>(
        &mut self,
        cache: &mut Cache,
        tables: &Tables,
        seal: &Seal,
        steps: &mut Steps<L>,
    )
        requires lawful { IsBetweenEvents tables.now self.old }
        requires cache { IsCacheOf tables.now seal.now cache.old }
        ensures lawful { IsPowered tables.now longest_trip roaming_amid 0 self.new }
        ensures cache { IsCacheOf tables.now seal.now cache.new }
        ensures same { (self.new.operating ≡ self.old.operating) × (self.new.number ≡ self.old.number) }
        ensures state { (s : Setting) (m : Meter) → IsSettingOf s tables.now seal.now → self.old ≡ core_of s m
            → self.new ≡ core_of s (interval_counted s m).next }
        ensures steps { steps.new ≤ steps.old + counting_steps self.old.operating }
    {
        match self.operating {
            Operating::Off => {}
            Operating::ForHire => self.roam_interval(),
            Operating::Hired => self.charge_interval(cache, tables, seal, steps),
            Operating::Stopped => self.pass_interval(),
        }
    }

    /// The interval roams, while the store takes hirings.
    fn roam_interval(&mut self)
        requires hire { self.old.operating ≡ ForHire }
        requires roam { self.old.roam ≤ roaming_between }
        ensures lawful { (tables : TableParts) → IsBetweenEvents tables self.old → IsAmidEvent tables self.new }
        ensures same { (self.new.operating ≡ self.old.operating) × (self.new.number ≡ self.old.number) }
        ensures state { (s : Setting) (m : Meter) → self.old ≡ core_of s m
            → self.new ≡ core_of s (counted_in s ForHire (sum m.taken) m) }
    {
        let pulses = self.gate.take();
        if self.number < HIRINGS_END {
            self.roam += pulses;
        }
    }

    /// The interval is charged, by the rate of its beginning. At most 36 steps.
    fn charge_interval<L: Ledger>(
        &mut self,
        cache: &mut Cache,
        tables: &Tables,
        seal: &Seal,
        steps: &mut Steps<L>,
    )
        requires lawful { IsBetweenEvents tables.now self.old }
        requires cache { IsCacheOf tables.now seal.now cache.old }
        requires on { self.old.operating ≡ Hired }
        ensures lawful { IsPowered tables.now longest_trip roaming_between 0 self.new }
        ensures cache { IsCacheOf tables.now seal.now cache.new }
        ensures same { (self.new.operating ≡ self.old.operating) × (self.new.number ≡ self.old.number) }
        ensures state { (s : Setting) (m : Meter) → IsSettingOf s tables.now seal.now → self.old ≡ core_of s m
            → self.new ≡ core_of s (counted_in s Hired (sum m.taken) m) }
        ensures steps { steps.new ≤ steps.old + 36 }
    {
        let weights = self.weights(cache, tables, seal, steps);
        let pulses = self.gate.take();
        if let Some(trip) = &mut self.trip {
            add_hired(trip, tables, seal, weights, pulses);
        }
    }

    /// The interval passes.
    fn pass_interval(&mut self)
        requires lawful { (tables : TableParts) × IsBetweenEvents tables self.old }
        requires on { self.old.operating ≡ Stopped }
        ensures lawful { (tables : TableParts) → IsBetweenEvents tables self.old
            → IsPowered tables longest_trip roaming_between 0 self.new }
        ensures same { (self.new.operating ≡ self.old.operating) × (self.new.number ≡ self.old.number) }
        ensures state { (s : Setting) (m : Meter) → self.old ≡ core_of s m
            → self.new ≡ core_of s (counted_in s Stopped (sum m.taken) m) }
    {
        let pulses = self.gate.take();
        let Some(trip) = &mut self.trip else {
            return;
        };
        add_stopped(trip, pulses);
    }

    /// A supply drop leaves the interval unfinished.
    pub(crate) fn leave_interval(&mut self)
        requires lawful { (tables : TableParts) × IsBetweenEvents tables self.old }
        ensures lawful { (tables : TableParts) → IsBetweenEvents tables self.old
            → IsPowered tables last_tick roaming_amid 1 self.new }
        ensures same { (self.new.operating ≡ self.old.operating) × (self.new.number ≡ self.old.number) }
        ensures state { (s : Setting) (m : Meter) → self.old ≡ core_of s m
            → self.new ≡ core_of s (interval_left m).next }
    {
        match self.operating {
            Operating::Off => {}
            Operating::ForHire => self.roam_interval(),
            Operating::Hired => self.leave_trip(),
            Operating::Stopped => self.leave_trip(),
        }
    }

    /// The trip takes the pulses of the unfinished interval.
    fn leave_trip(&mut self)
        requires lawful { (tables : TableParts) × IsBetweenEvents tables self.old }
        requires trip { self.old.trip ≢ None }
        ensures lawful { (tables : TableParts) → IsBetweenEvents tables self.old
            → IsPowered tables last_tick roaming_between 1 self.new }
        ensures same { (self.new.operating ≡ self.old.operating) × (self.new.number ≡ self.old.number) }
        ensures state { (s : Setting) (m : Meter) → self.old ≡ core_of s m
            → self.new ≡ core_of s (left_in Hired (sum m.taken) m) }
    {
        let pulses = self.gate.take();
        let Some(trip) = &mut self.trip else {
            return;
        };
        add_rest(trip, pulses);
    }
}
