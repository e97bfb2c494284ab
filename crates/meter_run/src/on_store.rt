//! The meter on a store carries out events.
ghost use Rattle.std.specs.Prelude.{[], ℕ, ◌+◌, ◌∷◌, ◌≡◌, ◌≢◌, ◌≤◌};
ghost use Rattle.{taxi_units.specs.Time.{IsSecond}, meter_run.specs.Common.{IsDurable, IsTimely, Off, Up, step}};
ghost use Rattle.meter_run.specs.{OnStore.{Agrees, Attempts, IsMeterReadyOn}, Supply.{StaysOff}};

use crate::carrier::{Carrier, SealedTables};
use crate::printing::print_refusal;
use crate::reading::read_store;
use crate::stored::{Known, StoreMeter};
use crate::storing::do_acts;
use crate::supply::supply_at;
use meter_model::Acts;
use meter_states::Core;
use outside::{Board, Failed, STORE_SIZE};
use seal_record::Seal;
use std::sync::ledger::Ledger;
use tariff_compile::Tables;
use taxi_units::{Event, Steps, Why};

/// Goes on from what was found in the store as the supply comes. At most 21 steps.
fn resume<B: Board<STORE_SIZE, L>, L: Ledger>(
    meter: &mut StoreMeter,
    found: Known,
    tables: &Tables,
    seal: &Seal,
    second: u64,
    board: &mut B,
    steps: &mut Steps<L>,
) -> Result<(), Failed>
    requires ready { IsMeterReadyOn B.Printer tables.now seal.now meter.old board.old }
    requires off { meter.old.core.state.operating ≡ Off }
    requires range { IsDurable found.durable }
    requires agrees { Agrees B.Printer tables.now found board.old }
    requires second { IsSecond second }
    ensures attempts { Attempts B.Printer tables.now seal.now (λ s m. step s (Up second) m)
        (record { core = meter.old.core; known = Some found }) board.old result meter.new board.new }
    ensures steps { steps.new ≤ steps.old + 21 }
{
    let mut known = found;
    let (core, acts) = Core::resume(tables, seal, &known.durable, second, steps);
    let done = do_acts(&mut known, acts.as_slice(), seal, board, steps);
    meter.core = core;
    meter.known = Some(known);
    done
}

/// The supply comes while the meter is off, which goes on from what a scan of the store finds. If that is no durable
/// state, or one whose held trip doesn't fit, the meter stays off. At most 40 steps.
#[inline(never)]
fn power_up<B: Board<STORE_SIZE, L>, L: Ledger>(
    meter: &mut StoreMeter,
    tables: &Tables,
    seal: &Seal,
    second: u64,
    board: &mut B,
    steps: &mut Steps<L>,
) -> Result<(), Failed>
    requires ready { IsMeterReadyOn B.Printer tables.now seal.now meter.old board.old }
    requires off { meter.old.core.state.operating ≡ Off }
    requires second { IsSecond second }
    ensures attempts { Attempts B.Printer tables.now seal.now (λ s m. step s (Up second) m) meter.old board.old result
        meter.new board.new }
    ensures steps { steps.new ≤ steps.old + 40 }
{
    meter.known = None;
    match read_store(tables, board, steps)? {
        None => Ok(()),
        Some(found) => resume(meter, found, tables, seal, second, board, steps),
    }
}

impl StoreMeter {
    /// Carries out an event on the board: prints its display, refusal and receipt, and commits its entry or held trip.
    /// If the meter is off, an `Up` goes on from what a scan of the store finds. At most 64 steps. `acts` is a list to
    /// work with: what it had is dropped, and what it has afterwards means nothing.
    ///
    /// `Failed` only if the board's count of faults rose. Then the event was carried out up to some point of its acts,
    /// and the meter is of no further use.
    #[inline(always)]
    pub fn carry_event<B: Board<STORE_SIZE, L>, L: Ledger>(
        &mut self,
        tables: &Tables,
        seal: &Seal,
        event: Event,
        acts: &mut Acts,
        board: &mut B,
        steps: &mut Steps<L>,
    ) -> Result<(), Failed>
        requires ready { IsMeterReadyOn B.Printer tables.now seal.now self.old board.old }
        requires timely { IsTimely event }
        ensures attempts { Attempts B.Printer tables.now seal.now (λ s m. step s event m) self.old board.old result
            self.new board.new }
        ensures supply { StaysOff self.old.core.state (event ∷ []) self.new.core.state }
        ensures steps { steps.new ≤ steps.old + 64 }
    {
        match supply_at(&self.core, event) {
            Some(second) => power_up(self, tables, seal, second, board, steps),
            None => match &mut self.known {
                None => print_refusal(Why::NotNow, board, steps),
                Some(known) => {
                    acts.clear();
                    self.core.step_into(tables, seal, event, acts, steps);
                    do_acts(known, acts.as_slice(), seal, board, steps)
                }
            },
        }
    }
}

impl<B: Board<STORE_SIZE, L>, L: Ledger> Carrier<B, L> for StoreMeter {
    ghost use Rattle.meter_run.specs.{Common.{run}, OnStore.{CarriesEvents, IsMeterReadyOn, StopsAmid}};
    ghost use Rattle.meter_run.specs.{StoreLaws.{amid_sooner}, SupplyLaws.{carried_later, carried_none, carried_then}};

    ghost ready = { λ r meter board. IsMeterReadyOn B.Printer r.tables.now r.seal.now meter board };

    ghost carried = { λ r x a events y b. CarriesEvents B.Printer r.tables.now r.seal.now events x a y b };

    ghost broke_off = { λ r x a events b. StopsAmid B.Printer r.tables.now r.seal.now (λ s m. run s events m) x a b };

    ghost nothing = { λ r x a ready. carried_none (record {
      tells_image = B.tells_image;
      tells_text = B.tells_text;
      image = B.image;
      in_flight = B.in_flight;
      printed = B.printed;
      moment = B.moment;
      left_since = B.left_since;
      faults = B.faults;
    }) r.tables.now r.seal.now x a (B.only_now a) };

    ghost behind = { λ r es fs x a y b z c h i. carried_then _ r.tables.now r.seal.now es fs x a y b z c h i };

    ghost later = { λ r es fs x a y b c h i. carried_later _ r.tables.now r.seal.now es fs x a y b c h i };

    ghost sooner = { λ r es fs x a c h. amid_sooner _ r.tables.now r.seal.now es fs x a c h };

    #[inline(always)]
    fn carry_event(
        &mut self,
        by: &SealedTables<'_>,
        event: Event,
        acts: &mut Acts,
        board: &mut B,
        steps: &mut Steps<L>,
    ) -> Result<(), Failed> {
        self.carry_event(by.tables, by.seal, event, acts, board, steps)
    }

    fn carry_equal(&mut self, by: &SealedTables<'_>, pulses: u32, count: u32) -> u32 {
        self.core.equal_intervals(by.tables, by.seal, pulses, count)
    }
}
