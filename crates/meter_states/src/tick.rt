//! The tick, which ends a measuring interval.
ghost use Rattle.std.specs.Prelude.{[], ◌+◌, ◌≡◌, ◌≢◌, ◌≤◌, IsTrue, None, false, nat_le};
ghost use Rattle.meter_states.specs.{Cache.{IsCacheOf}, Common.{roaming_amid, ticked, ticks_so_far}, Core.{core_of}};
ghost use Rattle.meter_states.specs.Common.{Meter, Setting, TableParts, expired, expired_or_pressed, longest_trip};
ghost use Rattle.meter_states.specs.Lawful.{IsAmidEvent, IsBetweenEvents, IsPowered, pressing_steps};
ghost use Rattle.meter_states.specs.Stages.{CarriesStage, ClosesTrip, MayClose};

use crate::cache::Cache;
use crate::meter_state::State;
use crate::records::Closing;
use crate::refusing::refuse;
use meter_model::Acts;
use seal_record::Seal;
use std::sync::ledger::Ledger;
use tariff_compile::Tables;
use taxi_units::{Kind, LONGEST_TRIP, Steps, Why};

impl State {
    /// A tick. At most 48 steps.
    #[inline(always)]
    pub(crate) fn tick<L: Ledger>(
        &mut self,
        cache: &mut Cache,
        tables: &Tables,
        seal: &Seal,
        acts: &mut Acts,
        steps: &mut Steps<L>,
    )
        requires lawful { IsBetweenEvents tables.now self.old }
        requires cache { IsCacheOf tables.now seal.now cache.old }
        requires room { acts.old.items ≡ [] }
        ensures lawful { IsBetweenEvents tables.now self.new }
        ensures cache { IsCacheOf tables.now seal.now cache.new }
        ensures stage { CarriesStage tables.now seal.now self.old self.new acts.old.items acts.new.items ticked }
        ensures steps { steps.new ≤ steps.old + 48 }
    {
        self.count_interval(cache, tables, seal, steps);
        self.expire_or_press(tables, seal, acts, steps);
        self.check_roaming(tables, acts);
        self.show(tables, acts);
        let second = self.clock.second();
        self.began = second;
    }

    /// A trip that has reached its longest time expires; otherwise the key that waits acts. At most the
    /// steps of a key in its operating position.
    fn expire_or_press<L: Ledger>(
        &mut self,
        tables: &Tables,
        seal: &Seal,
        acts: &mut Acts,
        steps: &mut Steps<L>,
    )
        requires lawful { IsPowered tables.now longest_trip roaming_amid 0 self.old }
        requires room { acts.old.items ≡ [] }
        ensures stage { MayClose tables.now seal.now 3 self.old self.new acts.old.items acts.new.items
            expired_or_pressed }
        ensures steps { steps.new ≤ steps.old + pressing_steps self.old.operating }
    {
        if self.is_long() {
            self.expire(tables, seal, acts, steps);
        } else {
            self.press(tables, seal, acts, steps);
        }
    }

    /// Whether the trip has reached its longest time.
    fn is_long(&self) -> bool
        ensures state { (s : Setting) (m : Meter) → self.now ≡ core_of s m
            → result ≡ nat_le longest_trip (ticks_so_far m.trip) }
        ensures long { IsTrue result → self.now.trip ≢ None }
        ensures short { (tables : TableParts) → IsPowered tables longest_trip roaming_amid 0 self.now
            → result ≡ false → IsAmidEvent tables self.now }
    {
        match &self.trip {
            None => false,
            Some(trip) => trip.ticks >= LONGEST_TRIP,
        }
    }

    /// The trip expires: it is closed, and a key that waits is refused. At most 12 steps.
    #[inline(never)]
    fn expire<L: Ledger>(
        &mut self,
        tables: &Tables,
        seal: &Seal,
        acts: &mut Acts,
        steps: &mut Steps<L>,
    )
        requires lawful { IsPowered tables.now longest_trip roaming_amid 0 self.old }
        requires trip { self.old.trip ≢ None }
        requires room { acts.old.items ≡ [] }
        ensures stage { ClosesTrip tables.now seal.now 3 self.old self.new acts.old.items acts.new.items expired }
        ensures steps { steps.new ≤ steps.old + 12 }
    {
        let closing = Closing {
            kind: Kind::Expired,
            finish: self.clock.second(),
        };
        self.close(closing, tables, seal, acts, steps);
        if let Some(_) = self.latch {
            self.latch = None;
            refuse(Why::Expired, acts);
        }
    }
}
