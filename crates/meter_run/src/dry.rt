//! The meter whose durable state is a value.
ghost use Rattle.std.specs.Prelude.{[], ◌++◌, ◌+◌, ◌∷◌, ◌≡◌, ◌≤◌, All, OnErr, OnOk, length};
ghost use Rattle.meter_run.specs.{BetweenEvents.{StandsWith}, Dry.{BreaksOff, CarriesEvents, IsMeterReady}};
ghost use Rattle.meter_run.specs.{Commits.{AreFor, IsFor, after_act, after_acts}, Texts.{shown_text, shown_texts}};
ghost use Rattle.meter_run.specs.Common.{Begins, HasCause, IsDurable, IsLawful, IsLawfulAct, IsSettingOf, IsTimely};
ghost use Rattle.meter_run.specs.Common.{KeepsStore, Meets, Meter, Off, Seal, Setting, TableParts, first_state, step};

use crate::carrier::{Carrier, SealedTables};
use crate::printing::{print_display, print_refusal};
use crate::supply::supply_at;
use meter_model::{Act, Acts};
use meter_states::Core;
use outside::{Failed, Printer, STORE_SIZE};
use seal_record::Seal;
use std::sync::ledger::Ledger;
use tariff_compile::Tables;
use taxi_units::{Event, Steps};
use totals_record::{Change, Durable};

/// Carries out an act: it prints displays and refusals, and commits into the durable state.
#[inline(never)]
fn perform<B: Printer<STORE_SIZE, L>, L: Ledger>(
    durable: &mut Durable,
    act: &Act,
    board: &mut B,
    steps: &mut Steps<L>,
) -> Result<(), Failed>
    requires { IsFor durable.old act.now }
    ensures durable { durable.new ≡ after_act durable.old act.now }
    ensures whole { B.tells_text → OnOk result (B.printed board.new ≡ B.printed board.old ++ shown_text act.now) }
    ensures begun { B.tells_text → Begins (B.printed board.old) (B.printed board.new) (shown_text act.now) }
    ensures cause { HasCause (B.faults board.old) (B.faults board.new) result }
    ensures steps { steps.new ≤ steps.old + 1 }
    ensures store { KeepsStore B.Printer board.old board.new }
{
    match act {
        Act::Show(display) => print_display(display, board, steps),
        Act::Refuse(why) => print_refusal(*why, board, steps),
        Act::Enter(entry) => {
            *durable = durable.after(&Change::Enter(*entry));
            Ok(())
        }
        Act::Hold(trip) => {
            *durable = durable.after(&Change::Hold(*trip));
            Ok(())
        }
        Act::Receipt(_) => Ok(()),
    }
}

/// Carries out acts, one after the other.
fn perform_all<B: Printer<STORE_SIZE, L>, L: Ledger>(
    durable: &mut Durable,
    acts: &[Act],
    board: &mut B,
    steps: &mut Steps<L>,
) -> Result<(), Failed>
    requires { AreFor durable.old acts.now }
    ensures durable { OnOk result (durable.new ≡ after_acts durable.old acts.now) }
    ensures whole { B.tells_text → OnOk result (B.printed board.new ≡ B.printed board.old ++ shown_texts acts.now) }
    ensures begun { B.tells_text → Begins (B.printed board.old) (B.printed board.new) (shown_texts acts.now) }
    ensures cause { HasCause (B.faults board.old) (B.faults board.new) result }
    ensures steps { steps.new ≤ steps.old + length acts.now }
    ensures store { KeepsStore B.Printer board.old board.new }
{
    for act in acts {
        perform(durable, act, board, steps)?;
    }
    Ok(())
}

/// Moves the core by an event, with its acts in a list that is handed in empty. If the meter is off, an `Up` goes on
/// from the durable state. At most 48 steps.
#[inline(always)]
fn step_or_resume<L: Ledger>(
    core: &mut Core,
    tables: &Tables,
    seal: &Seal,
    durable: &Durable,
    event: Event,
    acts: &mut Acts,
    steps: &mut Steps<L>,
)
    requires ready { IsMeterReady tables.now seal.now core.old durable.now }
    requires timely { IsTimely event }
    requires empty { acts.old.items ≡ [] }
    ensures lawful { IsLawful tables.now seal.now core.new }
    ensures ranges { All (IsLawfulAct tables.now durable.now.number) acts.new.items }
    ensures meets { (s : Setting) (m : Meter) → IsSettingOf s tables.now seal.now
        → StandsWith s core.old.state durable.now m → Meets s core.new.state acts.new.items (step s event m) }
    ensures steps { steps.new ≤ steps.old + 48 }
{
    match supply_at(core, event) {
        Some(second) => {
            let (powered, done) = Core::resume(tables, seal, durable, second, steps);
            *core = powered;
            *acts = done;
        }
        None => core.step_into(tables, seal, event, acts, steps),
    }
}

/// A meter without a store: its durable state is kept as a value.
#[derive(Drop)]
pub struct DryMeter {
    pub(crate) core: Core,
    pub(crate) durable: Durable,
}

impl DryMeter {
    /// A meter before the supply first comes.
    pub fn new() -> DryMeter
        ensures off { result.core.state.operating ≡ Off }
        ensures lawful { (tables : TableParts) (seal : Seal) → IsLawful tables seal result.core }
        ensures first { result.durable ≡ first_state }
        ensures range { IsDurable result.durable }
    {
        DryMeter {
            core: Core::off(),
            durable: Durable::zero(),
        }
    }

    /// Carries out an event: prints its display and its refusal, changes the durable state by its entry or held trip,
    /// and drops its receipt. At most 64 steps. `acts` is a list to work with: what it had is dropped, and what it has
    /// afterwards means nothing.
    ///
    /// `Failed` only if the board's count of faults rose. Then a beginning of what the event shows was printed, and the
    /// meter is of no further use.
    #[inline(always)]
    pub fn carry_event<B: Printer<STORE_SIZE, L>, L: Ledger>(
        &mut self,
        tables: &Tables,
        seal: &Seal,
        event: Event,
        acts: &mut Acts,
        board: &mut B,
        steps: &mut Steps<L>,
    ) -> Result<(), Failed>
        requires ready { IsMeterReady tables.now seal.now self.old.core self.old.durable }
        requires timely { IsTimely event }
        ensures ready { OnOk result (IsMeterReady tables.now seal.now self.new.core self.new.durable) }
        ensures carried { OnOk result (CarriesEvents B.Printer tables.now seal.now self.old board.old (event ∷ [])
            self.new board.new) }
        ensures broke_off { OnErr result (BreaksOff B.Printer tables.now seal.now self.old board.old (event ∷ [])
            board.new) }
        ensures cause { HasCause (B.faults board.old) (B.faults board.new) result }
        ensures steps { steps.new ≤ steps.old + 64 }
    {
        acts.clear();
        let durable = &self.durable;
        step_or_resume(&mut self.core, tables, seal, durable, event, acts, steps);
        perform_all(&mut self.durable, acts.as_slice(), board, steps)
    }
}

impl<B: Printer<STORE_SIZE, L>, L: Ledger> Carrier<B, L> for DryMeter {
    ghost use Rattle.meter_run.specs.Dry.{BreaksOff, CarriesEvents, IsMeterReady};
    ghost use Rattle.meter_run.specs.DryLaws.{breaks_later, breaks_sooner, carries_none, carries_then};

    ghost ready = { λ r meter board. IsMeterReady r.tables.now r.seal.now meter.core meter.durable };

    ghost carried = { λ r x a events y b. CarriesEvents B.Printer r.tables.now r.seal.now x a events y b };

    ghost broke_off = { λ r x a events b. BreaksOff B.Printer r.tables.now r.seal.now x a events b };

    ghost nothing = { λ r x a ready. carries_none _ r.tables.now r.seal.now x a };

    ghost behind = { λ r es fs x a y b z c h i. carries_then _ r.tables.now r.seal.now es fs x a y b z c h i };

    ghost later = { λ r es fs x a y b c h i. breaks_later _ r.tables.now r.seal.now es fs x a y b c h i };

    ghost sooner = { λ r es fs x a c h. breaks_sooner _ r.tables.now r.seal.now es fs x a c h };

    fn carry_equal(&mut self, by: &SealedTables<'_>, pulses: u32, count: u32) -> u32 {
        self.core.equal_intervals(by.tables, by.seal, pulses, count)
    }

    #[inline(always)]
    fn carry_event(
        &mut self,
        by: &SealedTables<'_>,
        event: Event,
        acts: &mut Acts,
        board: &mut B,
        steps: &mut Steps<L>,
    ) -> Result<(), Failed> {
        self.carry_event(by.tables, by.seal, event, acts, board, steps)
    }
}
