//! A hiring, with the sums of its intervals.
ghost use Rattle.std.specs.Prelude.{[], ◌++◌, ◌+◌, ◌<◌, ◌^◌, ◌∷◌, ◌≡◌, ◌≤◌, OnOk};
ghost use Rattle.verify_bench.specs.Common.{Context, InHired, InStopped, IsFitInitial, IsSecond, IsSupplementNumber};
ghost use Rattle.verify_bench.specs.{Common.{MeterTrip, Rest, Setting, times, with_part}, IntervalPrice.{IsPriceOf}};
ghost use Rattle.verify_bench.specs.{Gathered.{no_sums}, Hirings.{IsHiringOf}, Limits.{most_charge}};

use crate::explained::Sums;
use crate::fees::HiringFees;
use crate::pricing::Price;
use crate::sums::RateSums;
use crate::table::add_to_table;
use std::alloc::Global;
use taxi_units::NoMemory;

/// The second at which a hiring began and its fees; the sums of the intervals that each rate charged, by the
/// rate's place, of all intervals, and of those in Stopped; the pulses of intervals that supply drops left
/// unfinished; and the numbers of its supplements in order.
#[derive(Drop)]
pub(crate) struct Hiring {
    pub(crate) started: u64,
    pub(crate) fees: HiringFees,
    pub(crate) rates: Vec<RateSums>,
    pub(crate) whole: Sums,
    pub(crate) stopped: Sums,
    pub(crate) dropped: u64,
    pub(crate) extras: Vec<u8>,
}

impl Hiring {
    ghost use Rattle.verify_bench.specs.Hirings.{IsWhole};

    /// A hiring without intervals.
    pub(crate) fn new(alloc: Global, started: u64, fees: HiringFees) -> Hiring
        requires started { IsSecond started }
        requires fees { IsFitInitial fees.amounts }
        ensures whole { IsWhole result }
        ensures started { result.started ≡ started }
        ensures fees { result.fees ≡ fees }
        ensures rates { result.rates.items ≡ [] }
        ensures sums { (result.whole ≡ no_sums) × (result.stopped ≡ no_sums) × (result.dropped ≡ 0) }
        ensures extras { result.extras.items ≡ [] }
    {
        Hiring {
            started,
            fees,
            rates: Vec::new(alloc),
            whole: Sums::new(),
            stopped: Sums::new(),
            dropped: 0,
            extras: Vec::new(alloc),
        }
    }

    /// Adds an interval in Hired, with its price.
    pub(crate) fn add_hired(&mut self, pulses: u32, price: Price) -> Result<(), NoMemory>
        requires whole { IsWhole self.old }
        requires price { (pulses ≤ 2000) × (price.charge ≤ most_charge) × (price.place < 64) }
        requires pulses { self.old.whole.pulses + 2000 < 2 ^ 64 }
        requires ticks { self.old.whole.ticks < 8640000 }
        ensures whole { OnOk result (IsWhole self.new) }
        ensures pulses { OnOk result (self.new.whole.pulses ≡ self.old.whole.pulses + pulses) }
        ensures ticks { OnOk result (self.new.whole.ticks ≡ self.old.whole.ticks + 1) }
        ensures trip { OnOk result ((s : Setting) (hired x : Context) (trip : MeterTrip)
            → IsHiringOf s hired self.old trip
            → IsPriceOf s x pulses price → IsHiringOf s hired self.new (with_part (InHired pulses x) trip)) }
    {
        let sums = Sums {
            pulses: pulses as u64,
            ticks: 1,
            charge: price.charge,
        };
        add_to_table(&mut self.rates, price.place, price.way, sums)?;
        self.whole = self.whole.with(sums);
        Ok(())
    }

    /// Adds an interval in Stopped.
    pub(crate) fn add_stopped(&mut self, pulses: u32)
        requires whole { IsWhole self.old }
        requires slow { pulses ≤ 2000 }
        requires pulses { self.old.whole.pulses + 2000 < 2 ^ 64 }
        requires ticks { self.old.whole.ticks < 8640000 }
        ensures whole { IsWhole self.new }
        ensures pulses { self.new.whole.pulses ≡ self.old.whole.pulses + pulses }
        ensures ticks { self.new.whole.ticks ≡ self.old.whole.ticks + 1 }
        ensures trip { (s : Setting) (hired : Context) (trip : MeterTrip) → IsHiringOf s hired self.old trip
            → IsHiringOf s hired self.new (with_part (InStopped pulses) trip) }
    {
        let sums = Sums {
            pulses: pulses as u64,
            ticks: 1,
            charge: 0,
        };
        self.stopped = self.stopped.with(sums);
        self.whole = self.whole.with(sums);
    }

    /// Adds the pulses of an interval that was left unfinished.
    pub(crate) fn add_rest(&mut self, pulses: u32)
        requires whole { IsWhole self.old }
        requires slow { pulses ≤ 2000 }
        requires pulses { self.old.whole.pulses + 2000 < 2 ^ 64 }
        requires ticks { self.old.whole.ticks < 8640000 }
        ensures whole { IsWhole self.new }
        ensures pulses { self.new.whole.pulses ≡ self.old.whole.pulses + pulses }
        ensures ticks { self.new.whole.ticks ≡ self.old.whole.ticks }
        ensures trip { (s : Setting) (hired : Context) (trip : MeterTrip) → IsHiringOf s hired self.old trip
            → IsHiringOf s hired self.new (with_part (Rest pulses) trip) }
    {
        let sums = Sums {
            pulses: pulses as u64,
            ticks: 0,
            charge: 0,
        };
        self.dropped += pulses as u64;
        self.whole = self.whole.with(sums);
    }

    /// Adds a supplement.
    pub(crate) fn add_extra(&mut self, number: u8) -> Result<(), NoMemory>
        requires whole { IsWhole self.old }
        requires number { IsSupplementNumber number }
        requires few { times number self.old.extras.items < 99 }
        ensures whole { OnOk result (IsWhole self.new) }
        ensures extras { OnOk result (self.new.extras.items ≡ self.old.extras.items ++ number ∷ []) }
        ensures others { OnOk result (self.new ≡ record self.old { extras = self.new.extras }) }
    {
        self.extras.push(number).map_err(|_| NoMemory)
    }

    /// How often a supplement was added.
    pub(crate) fn times(&self, number: u8) -> usize
        ensures { result ≡ times number self.now.extras.items }
    {
        let mut count = 0;
        for extra in self.extras.as_slice() {
            if *extra == number {
                count += 1;
            }
        }
        count
    }
}
