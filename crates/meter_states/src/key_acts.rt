//! What keys do.
ghost use Rattle.std.specs.Prelude.{◌+◌, ◌≡◌, ◌≢◌, ◌≤◌, None, Some};
ghost use Rattle.taxi_units.specs.declared.receipt.Kind.TheVariants.{Closed};
ghost use Rattle.{tariff_check.specs.Amounts.{IsFitInitial, fees_in_force}, meter_states.specs.Setting.{IsSettingOf}};
ghost use Rattle.meter_model.specs.{Interval.{context_now}, Keys.{extra_added, hiring, position_set, zone_set}};
ghost use Rattle.meter_states.specs.Common.{ForHire, Meter, Seal, Setting, TableParts, closed, extra_added_to};
ghost use Rattle.meter_states.specs.{Common.{supplement_numbered}, Stages.{ClosesTrip, CommitsNothing, IsReadyForKey}};
ghost use Rattle.meter_states.specs.{Core.{core_of}, Lawful.{IsAmidEvent, pressing_steps}, Supplements.{supplement_in}};

use crate::lookups::find_supplement;
use crate::meter_state::State;
use crate::records::Closing;
use crate::refusing::refuse;
use crate::trip::{add_extra, begun, times};
use meter_model::Acts;
use seal_record::Seal;
use std::sync::ledger::Ledger;
use tariff_check::{Initial, Supplement};
use tariff_compile::Tables;
use taxi_units::{HIRINGS_END, Kind, Operating, Steps, Why};

impl State {
    /// The key Hire, for hire. At most the steps of a key in For Hire.
    pub(crate) fn hire<L: Ledger>(
        &mut self,
        tables: &Tables,
        seal: &Seal,
        acts: &mut Acts,
        steps: &mut Steps<L>,
    )
        requires ready { IsReadyForKey tables.now self.old acts.old.items }
        requires hire { self.old.operating ≡ ForHire }
        ensures stage { CommitsNothing tables.now seal.now self.old self.new acts.old.items acts.new.items hiring }
        ensures steps { steps.new ≤ steps.old + pressing_steps ForHire }
    {
        if self.number >= HIRINGS_END {
            refuse(Why::Ended, acts);
            return;
        }
        let fee = self.fee(tables, seal, steps);
        self.operating = Operating::Hired;
        self.trip = Some(begun(tables, fee, self.clock.second(), self.roam));
        self.roam = 0;
    }

    /// What a hiring begins with at the clock's second. At most the steps of a key in For Hire.
    fn fee<L: Ledger>(&self, tables: &Tables, seal: &Seal, steps: &mut Steps<L>) -> Initial
        requires lawful { IsAmidEvent tables.now self.now }
        ensures value { (s : Setting) (m : Meter) → IsSettingOf s tables.now seal.now → self.now ≡ core_of s m
            → result ≡ fees_in_force s.tariff (context_now s m) }
        ensures fit { IsFitInitial result }
        ensures steps { steps.new ≤ steps.old + pressing_steps ForHire }
    {
        let x = self.context_at(self.clock.second(), tables, seal, steps);
        tables.initial_at(&x, steps)
    }

    /// The key Clear, in Stopped. At most 12 steps.
    pub(crate) fn clear<L: Ledger>(
        &mut self,
        tables: &Tables,
        seal: &Seal,
        acts: &mut Acts,
        steps: &mut Steps<L>,
    )
        requires ready { IsReadyForKey tables.now self.old acts.old.items }
        requires trip { self.old.trip ≢ None }
        ensures stage { ClosesTrip tables.now seal.now 2 self.old self.new acts.old.items acts.new.items
            (λ s m. closed s Closed m.clock m) }
        ensures steps { steps.new ≤ steps.old + 12 }
    {
        let closing = Closing {
            kind: Kind::Closed,
            finish: self.clock.second(),
        };
        self.close(closing, tables, seal, acts, steps);
    }

    /// A tariff position is chosen.
    pub(crate) fn set_position(&mut self, n: u8, tables: &Tables, acts: &mut Acts)
        requires ready { IsReadyForKey tables.now self.old acts.old.items }
        ensures stage { (seal : Seal) → CommitsNothing tables.now seal self.old self.new acts.old.items
            acts.new.items (λ s. position_set s n) }
    {
        if n < 1 || n > tables.positions() {
            refuse(Why::NoSuch, acts);
        } else {
            self.position = n;
        }
    }

    /// A zone is chosen.
    pub(crate) fn set_zone(&mut self, n: u8, tables: &Tables, acts: &mut Acts)
        requires ready { IsReadyForKey tables.now self.old acts.old.items }
        ensures stage { (seal : Seal) → CommitsNothing tables.now seal self.old self.new acts.old.items
            acts.new.items (λ s. zone_set s n) }
    {
        if n < 1 || n > tables.zones() {
            refuse(Why::NoSuch, acts);
        } else {
            self.zone = n;
        }
    }

    /// A supplement is added. One step.
    pub(crate) fn add_extra<L: Ledger>(
        &mut self,
        n: u8,
        tables: &Tables,
        acts: &mut Acts,
        steps: &mut Steps<L>,
    )
        requires ready { IsReadyForKey tables.now self.old acts.old.items }
        ensures stage { (seal : Seal) → CommitsNothing tables.now seal self.old self.new acts.old.items
            acts.new.items (λ s. extra_added n (supplement_numbered s.tariff.supplements n)) }
        ensures steps { steps.new ≤ steps.old + 1 }
    {
        let Some(supplement) = find_supplement(tables, n, steps) else {
            refuse(Why::NoSuch, acts);
            return;
        };
        self.add_found(n, supplement, acts);
    }

    /// A supplement that the tariff has is added, up to its most.
    fn add_found(&mut self, n: u8, supplement: Supplement, acts: &mut Acts)
        requires ready { (tables : TableParts) × IsReadyForKey tables self.old acts.old.items }
        requires number { (1 ≤ n) × (n ≤ 16) }
        requires amount { supplement.amount ≤ 1000000 }
        requires most { supplement.max ≤ 99 }
        ensures stage { (tables : TableParts) (seal : Seal) → IsReadyForKey tables self.old acts.old.items
            → supplement_in tables n ≡ Some supplement
            → CommitsNothing tables seal self.old self.new acts.old.items acts.new.items
            (λ s m. extra_added_to n supplement m.trip m) }
    {
        let Some(trip) = &mut self.trip else {
            return;
        };
        if times(trip, n) >= supplement.max {
            refuse(Why::AtMost, acts);
            return;
        }
        add_extra(trip, n, supplement);
    }
}
