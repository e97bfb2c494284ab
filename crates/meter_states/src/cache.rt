//! The cache of a core: the local time of a second, and what an interval weighs while no cut is passed.
ghost use Rattle.std.specs.{Option.{ForSome}, Prelude.{◌+◌, ◌↔◌, ◌≡◌, ◌≢◌, ◌≤◌, IfSome, IsNone, IsTrue, Some}};
ghost use Rattle.meter_states.specs.Cache.{IsCacheOf, IsCachedRateOf, IsCachedTimeOf};
ghost use Rattle.meter_states.specs.Common.{AreFit, CachedRate, CachedTime, Context, IsInRangeFor, IsNear, IsSecond};
ghost use Rattle.meter_states.specs.{Common.{IsTablesOf, Seal, TableParts, Tree, rate_by}, EqualStages.{LastsFrom}};

use drive_modes::Weights;
use interval_clock::civil;
use seal_record::Seal;
use std::sync::ledger::Ledger;
use tariff_compile::{Lasting, Tables};
use tariff_tree::Context;
use taxi_units::Steps;

/// What a condition may ask of the local time at a second.
#[derive(Clone, Copy)]
pub(crate) struct CachedTime {
    pub(crate) second: u64,
    pub(crate) weekday: u8,
    pub(crate) month_day: u16,
    pub(crate) minute: u16,
    pub(crate) holiday: bool,
}

/// The weights of a context, and of those that follow it shortly.
#[derive(Clone, Copy)]
pub(crate) struct CachedRate {
    pub(crate) first: Context,
    pub(crate) lasting: Lasting,
}

/// What was looked up last: it stays true whatever the meter does, and serves at the second and in the
/// contexts that it names.
#[derive(Drop)]
pub(crate) struct Cache {
    pub(crate) local: Option<CachedTime>,
    pub(crate) rate: Option<CachedRate>,
}

/// What the tables and the seal say of a second's local time. At most 14 steps.
#[inline(never)]
pub(crate) fn cached_time<L: Ledger>(
    second: u64,
    tables: &Tables,
    seal: &Seal,
    steps: &mut Steps<L>,
) -> CachedTime
    requires { IsSecond second }
    ensures second { result.second ≡ second }
    ensures local { IsCachedTimeOf tables.now seal.now result }
    ensures steps { steps.new ≤ steps.old + 14 }
{
    let local = civil(&seal.params.offsets, second, steps);
    CachedTime {
        second,
        weekday: local.weekday,
        month_day: local.month_day,
        minute: local.minute,
        holiday: tables.holiday(local.day, steps),
    }
}

/// Whether a context follows the one of this rate so shortly that its weights are the same.
fn is_near(rate: &CachedRate, x: &Context) -> bool
    ensures { IsTrue result ↔ IsNear rate.now.lasting.further rate.now.lasting.longer rate.now.first x.now }
{
    let first = &rate.first;
    first.pulses <= x.pulses
        && x.pulses - first.pulses <= rate.lasting.further
        && first.ticks <= x.ticks
        && (x.ticks - first.ticks) as u64 <= rate.lasting.longer
        && first.minute == x.minute
        && first.weekday == x.weekday
        && first.month_day == x.month_day
        && first.holiday == x.holiday
        && first.position == x.position
        && first.zone == x.zone
}

/// The weights of this rate, and how far they last from a context for which they hold.
fn lasting_from(rate: &CachedRate, x: &Context) -> Lasting
    requires { IsNear rate.now.lasting.further rate.now.lasting.longer rate.now.first x.now }
    ensures weights { result.weights ≡ rate.now.lasting.weights }
    ensures near { (y : Context) → IsNear result.further result.longer x.now y
        → IsNear rate.now.lasting.further rate.now.lasting.longer rate.now.first y }
    ensures lasts { LastsFrom rate.now x.now.pulses x.now.ticks result }
{
    Lasting {
        weights: rate.lasting.weights,
        further: rate.lasting.further - (x.pulses - rate.first.pulses),
        longer: rate.lasting.longer - (x.ticks - rate.first.ticks) as u64,
    }
}

impl Cache {
    /// An empty cache.
    pub(crate) fn empty() -> Cache
        ensures { (tables : TableParts) (seal : Seal) → IsCacheOf tables seal result }
    {
        Cache {
            local: None,
            rate: None,
        }
    }

    /// The local time of a second, if it is kept.
    pub(crate) fn cached_local(&self, second: u64) -> Option<CachedTime>
        ensures second { IfSome result (λ local. local.second ≡ second) }
        ensures kept { IfSome result (λ local. self.now.local ≡ Some local) }
        ensures none { IsNone result → (local : CachedTime) → self.now.local ≡ Some local → local.second ≢ second }
    {
        match &self.local {
            Some(local) if local.second == second => Some(*local),
            _ => None,
        }
    }

    /// The weights of a context, and for how many more pulses and ticks they are the same, if that is kept.
    pub(crate) fn cached_rate(&self, x: &Context) -> Option<Lasting>
        ensures fit { IfSome result (λ lasting. (tables : TableParts) → ForSome self.now.rate (IsCachedRateOf tables)
            → AreFit tables.measure lasting.weights) }
        ensures near { IfSome result (λ lasting. (tables : TableParts) (t : Tree) (y : Context)
            → ForSome self.now.rate (IsCachedRateOf tables) → IsTablesOf t tables → IsInRangeFor tables y
            → IsNear lasting.further lasting.longer x.now y → lasting.weights ≡ rate_by t tables.constant y) }
        ensures lasts { IfSome result (λ lasting. (rate : CachedRate) → self.now.rate ≡ Some rate
            → LastsFrom rate x.now.pulses x.now.ticks lasting) }
        ensures none { IsNone result → (rate : CachedRate) → self.now.rate ≡ Some rate
            → ¬ IsNear rate.lasting.further rate.lasting.longer rate.first x.now }
    {
        match &self.rate {
            Some(rate) if is_near(rate, x) => Some(lasting_from(rate, x)),
            _ => None,
        }
    }

    /// The local time of a second: as it is kept, or looked up and kept from now on. At most 14 steps.
    pub(crate) fn local_at<L: Ledger>(
        &mut self,
        second: u64,
        tables: &Tables,
        seal: &Seal,
        steps: &mut Steps<L>,
    ) -> CachedTime
        requires second { IsSecond second }
        requires cache { IsCacheOf tables.now seal.now self.old }
        ensures cache { IsCacheOf tables.now seal.now self.new }
        ensures second { result.second ≡ second }
        ensures local { IsCachedTimeOf tables.now seal.now result }
        ensures steps { steps.new ≤ steps.old + 14 }
    {
        if let Some(local) = self.cached_local(second) {
            return local;
        }
        let local = cached_time(second, tables, seal, steps);
        self.local = Some(local);
        local
    }

    /// The weights of a context: as they are kept, or looked up and kept from now on. At most 22 steps.
    pub(crate) fn rate_at<L: Ledger>(
        &mut self,
        x: &Context,
        tables: &Tables,
        steps: &mut Steps<L>,
    ) -> Weights
        requires range { IsInRangeFor tables.now x.now }
        requires lasting { ForSome self.old.rate (IsCachedRateOf tables.now) }
        ensures lasting { ForSome self.new.rate (IsCachedRateOf tables.now) }
        ensures local { self.new.local ≡ self.old.local }
        ensures tree { (t : Tree) → IsTablesOf t tables.now → result ≡ rate_by t tables.now.constant x.now }
        ensures fit { AreFit tables.now.measure result }
        ensures steps { steps.new ≤ steps.old + 22 }
    {
        if let Some(rate) = &self.rate {
            if is_near(rate, x) {
                return rate.lasting.weights;
            }
        }
        self.look_up_rate(*x, tables, steps)
    }

    /// The weights of a context, looked up and kept from now on. At most 22 steps.
    #[inline(never)]
    fn look_up_rate<L: Ledger>(
        &mut self,
        x: Context,
        tables: &Tables,
        steps: &mut Steps<L>,
    ) -> Weights
        requires range { IsInRangeFor tables.now x }
        ensures lasting { ForSome self.new.rate (IsCachedRateOf tables.now) }
        ensures local { self.new.local ≡ self.old.local }
        ensures tree { (t : Tree) → IsTablesOf t tables.now → result ≡ rate_by t tables.now.constant x }
        ensures fit { AreFit tables.now.measure result }
        ensures steps { steps.new ≤ steps.old + 22 }
    {
        let lasting = tables.rate_until(&x, steps);
        self.rate = Some(CachedRate { first: x, lasting });
        lasting.weights
    }
}
