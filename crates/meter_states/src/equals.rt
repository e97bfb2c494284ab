//! Equal measuring intervals that are carried out at once.
ghost use Rattle.std.specs.{Option.{ForSome}, Prelude.{[], ◌+◌, ◌↔◌, ◌≡◌, ◌≤◌, ◌⊎◌, IfSome, IsNone, IsTrue, Some}};
ghost use Rattle.meter_states.specs.{Cache.{IsCacheOf, IsCachedRateOf}, Lawful.{IsBetweenEvents, IsLawful}};
ghost use Rattle.meter_states.specs.Common.{AreFit, CachedRate, Context, CoreTrip, ForHire, Hired, IsInRangeFor};
ghost use Rattle.meter_states.specs.Common.{IsNear, Meter, Seal, Setting, Stopped, TableParts, context_of};
ghost use Rattle.meter_states.specs.Common.{roaming_between, roaming_most, run, weights_in_force};
ghost use Rattle.meter_states.specs.Core.{Meets, Stands, core_of};
ghost use Rattle.meter_states.specs.{EqualStages.{FollowsIntervals, HasTaken, LastsFrom}, Setting.{IsSettingOf}};
ghost use Rattle.meter_states.specs.Equals.{IsStill, MayBeCharged, MayGo, Outlasts, Serves, intervals_of, roams};

use crate::cache::Cache;
use crate::core_state::Core;
use crate::equal_trip::{add_charged, add_passed, most_times, roams, spare};
use crate::meter_state::State;
use crate::shown::is_shown;
use drive_modes::charge;
use seal_record::Seal;
use tariff_compile::{Lasting, Tables};
use taxi_units::{LONGEST_TRIP, Operating, ROAMING_MOST};

impl Core {
    /// Carries out equal intervals of `pulses` pulses at once, and answers how many: all `count`, or so many that one
    /// more may not go at once. They show, refuse and enter nothing. An interval may not go if roaming is entered
    /// behind it, it is the trip's last, its charge moves the fare on by a display step, or the cache doesn't know what
    /// the interval behind it weighs. None may go if the meter is off, a key waits, another display was shown last, or
    /// an interval has more than 2,000 pulses; nor if, since the last tick, the clock was read with another second or a
    /// pulse came. The tables' constant is the seal's. No steps. That rows of intervals are carried out at once is this
    /// project's own.
    #[inline(always)]
    pub fn equal_intervals(&mut self, tables: &Tables, seal: &Seal, pulses: u32, count: u32) -> u32
        requires lawful { IsLawful tables.now seal.now self.old }
        requires constant { tables.now.constant ≡ seal.now.params.constant }
        ensures lawful { IsLawful tables.now seal.now self.new }
        ensures most { result ≤ count }
        ensures full { (result ≡ count) ⊎ ¬ MayGo tables.now seal.now self.old.cache pulses self.new.state }
        ensures same { (self.new.state.operating ≡ self.old.state.operating)
            × (self.new.state.number ≡ self.old.state.number) }
        ensures cache { self.new.cache ≡ self.old.cache }
        ensures meets { (s : Setting) (m : Meter) → IsSettingOf s tables.now seal.now → Stands s self.old.state m
            → Meets s self.new.state [] (run s (intervals_of pulses result) m) }
    {
        if count == 0 || self.state.is_off() {
            return 0;
        }
        let cache = &self.cache;
        self.state.take_equal(cache, tables, seal, pulses, count)
    }
}

impl State {
    /// Takes as many of these equal intervals at once as may go, while the meter is powered.
    #[inline(never)]
    fn take_equal(
        &mut self,
        cache: &Cache,
        tables: &Tables,
        seal: &Seal,
        pulses: u32,
        count: u32,
    ) -> u32
        requires lawful { IsBetweenEvents tables.now self.old }
        requires cache { IsCacheOf tables.now seal.now cache.now }
        ensures taken { HasTaken tables.now count self.old self.new result }
        ensures full { (result ≡ count) ⊎ ¬ MayGo tables.now seal.now cache.now pulses self.new }
        ensures follows { FollowsIntervals tables.now seal.now self.old self.new pulses result }
    {
        if pulses > 2000 {
            return 0;
        }
        if !self.is_still(tables) {
            return 0;
        }
        match self.operating {
            Operating::Off => 0,
            Operating::ForHire => self.roam_equal(pulses, count),
            Operating::Hired => self.charge_equal(cache, tables, seal, pulses, count),
            Operating::Stopped => self.pass_equal(pulses, count),
        }
    }

    /// Whether the interval began at the clock's second and has no pulses yet, no key waits, and the
    /// display is shown.
    fn is_still(&self, tables: &Tables) -> bool
        requires lawful { IsBetweenEvents tables.now self.now }
        ensures { IsTrue result ↔ IsStill tables.now self.now }
    {
        let display = self.display(tables);
        let mut gate = self.gate;
        gate.take() == 0
            && self.began == self.clock.second()
            && matches!(self.latch, None)
            && is_shown(&self.shown, &display)
    }

    /// Takes as many of `count` equal intervals for hire as enter no roaming.
    fn roam_equal(&mut self, pulses: u32, count: u32) -> u32
        requires hire { self.old.operating ≡ ForHire }
        requires roam { self.old.roam ≤ roaming_between }
        requires pulses { pulses ≤ 2000 }
        ensures taken { (tables : TableParts) → IsBetweenEvents tables self.old
            → HasTaken tables count self.old self.new result }
        ensures full { (result ≡ count) ⊎ (roaming_most ≤ self.new.roam + roams self.new.number pulses) }
        ensures follows { (tables : TableParts) (seal : Seal) → IsBetweenEvents tables self.old
            → IsStill tables self.old → FollowsIntervals tables seal self.old self.new pulses result }
    {
        let each = roams(self.number, pulses);
        let n = most_times(count, (ROAMING_MOST - 1 - self.roam) as u128, each as u128);
        self.roam += n * each;
        n
    }

    /// Takes as many of `count` equal intervals in Stopped as don't end the trip.
    fn pass_equal(&mut self, pulses: u32, count: u32) -> u32
        requires lawful { (tables : TableParts) × IsBetweenEvents tables self.old }
        requires stopped { self.old.operating ≡ Stopped }
        requires pulses { pulses ≤ 2000 }
        ensures taken { (tables : TableParts) → IsBetweenEvents tables self.old
            → HasTaken tables count self.old self.new result }
        ensures full { (result ≡ count) ⊎ ¬ Outlasts self.new }
        ensures follows { (tables : TableParts) (seal : Seal) → IsBetweenEvents tables self.old
            → IsStill tables self.old → FollowsIntervals tables seal self.old self.new pulses result }
    {
        let Some(trip) = &mut self.trip else {
            return 0;
        };
        let n = count.min(LONGEST_TRIP - 1 - trip.ticks);
        add_passed(trip, pulses, n);
        n
    }

    /// Takes as many of `count` equal intervals in Hired as may be charged at once.
    fn charge_equal(
        &mut self,
        cache: &Cache,
        tables: &Tables,
        seal: &Seal,
        pulses: u32,
        count: u32,
    ) -> u32
        requires lawful { IsBetweenEvents tables.now self.old }
        requires cache { IsCacheOf tables.now seal.now cache.now }
        requires hired { self.old.operating ≡ Hired }
        requires still { IsStill tables.now self.old }
        requires pulses { pulses ≤ 2000 }
        ensures taken { HasTaken tables.now count self.old self.new result }
        ensures full { (result ≡ count) ⊎ ¬ MayBeCharged tables.now seal.now cache.now pulses self.new }
        ensures follows { FollowsIntervals tables.now seal.now self.old self.new pulses result }
    {
        let Some(lasting) = self.cached_rate(cache, tables) else {
            return 0;
        };
        let Some(trip) = &mut self.trip else {
            return 0;
        };
        let each = charge(seal.params.mode, lasting.weights, pulses);
        let few = count.min(LONGEST_TRIP - 1 - trip.ticks);
        let longest = most_times(few, lasting.longer as u128, 1);
        let near = most_times(longest, lasting.further as u128, pulses as u128);
        let n = most_times(near, spare(trip, tables), each);
        add_charged(trip, pulses, each, n);
        n
    }

    /// What the running interval weighs, and for how many more pulses and ticks, if that is kept.
    fn cached_rate(&self, cache: &Cache, tables: &Tables) -> Option<Lasting>
        requires lawful { IsBetweenEvents tables.now self.now }
        requires lasting { ForSome cache.now.rate (IsCachedRateOf tables.now) }
        ensures fit { IfSome result (λ lasting. AreFit tables.now.measure lasting.weights) }
        ensures range { IfSome result (λ lasting. (seal : Seal) (s : Setting) (m : Meter)
            → IsCacheOf tables.now seal cache.now → IsSettingOf s tables.now seal → self.now ≡ core_of s m
            → IsInRangeFor tables.now (context_of s m)) }
        ensures near { IfSome result (λ lasting. (seal : Seal) (s : Setting) (m : Meter) (y : Context)
            → IsCacheOf tables.now seal cache.now → IsSettingOf s tables.now seal → self.now ≡ core_of s m
            → IsInRangeFor tables.now y
            → IsNear lasting.further lasting.longer (context_of s m) y
            → lasting.weights ≡ weights_in_force s.tariff tables.now.constant y) }
        ensures lasts { IfSome result (λ lasting. (t : CoreTrip) (rate : CachedRate) → self.now.trip ≡ Some t
            → cache.now.rate ≡ Some rate → LastsFrom rate t.pulses t.ticks lasting) }
        ensures none { IsNone result → (t : CoreTrip) → self.now.trip ≡ Some t
            → ¬ Serves tables.now cache.now self.now t }
    {
        let local = cache.cached_local(self.began)?;
        let x = self.context_on(&local, tables);
        cache.cached_rate(&x)
    }
}
