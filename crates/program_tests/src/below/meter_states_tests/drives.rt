//! A meter over a store with number 1 and no held trip.
ghost use Rattle.std.specs.{Option.{ForSome}, Prelude.{◌≡◌, IsTrue}};
ghost use Rattle.{totals_record.specs.Ranges.{IsDurable}, tariff_compile.specs.Tables.{TableParts}};
ghost use Rattle.meter_states.specs.{Fits.{Fits}, Lawful.{IsLawful, IsTimely}};

use crate::below::tariff_texts::compiled;
use arrayvec::ArrayVec;
use drive_modes::{Constant, Mode};
use interval_clock::Offsets;
use meter_model::Acts;
use meter_states::Core;
use seal_record::{Params, Seal};
use std::alloc::Global;
use std::sync::ledger::Ledger;
use std::test::Fail;
use tariff_compile::Tables;
use taxi_units::{Event, Operating, Steps};
use totals_record::Durable;

/// A seal with a constant of 10,000, an hour before UTC, a mode, and a hold of a minute.
fn sealed(mode: Mode) -> Option<Seal> {
    Some(Seal {
        seal_number: 1,
        params: Params {
            taxi: ArrayVec::new(),
            constant: Constant::new(10_000).ok()?,
            mode,
            hold_time: 60,
            offsets: Offsets::from_pairs(&[(946_684_800, 3600)]).ok()?,
            secured: 10_957,
        },
        digest: [0; 32],
        decimals: 2,
    })
}

/// The tables of a text's tariff, and a seal with the same constant and this mode.
pub(super) fn setting(alloc: Global, text: &str, mode: Mode) -> Result<(Tables, Seal), Fail> {
    let tables = compiled(alloc, text, 10_000)?;
    Ok((tables, sealed(mode).ok_or("no seal")?))
}

/// The durable state without totals and without a held trip.
fn first() -> Durable
    ensures range { IsDurable result }
    ensures fits { (tables : TableParts) → ForSome result.hold (Fits tables) }
{
    Durable::zero()
}

/// Whether an event's second is one that a clock may show.
pub(super) fn is_timely(event: Event) -> bool
    ensures { IsTrue result → IsTimely event }
{
    match event {
        Event::Up(second) | Event::Clock(second) => {
            946_684_800 <= second && second <= 7_258_118_399
        }
        Event::Down | Event::Pulses(_) | Event::Tick | Event::Key(_) => true,
    }
}

/// Whether tables have the constant of a seal.
pub(super) fn have_constant_of(tables: &Tables, seal: &Seal) -> bool
    ensures { IsTrue result → tables.now.constant ≡ seal.now.params.constant }
{
    tables.constant().get() == seal.params.constant.get()
}

/// The acts of an event.
pub(super) fn acts_at_first<L: Ledger>(
    tables: &Tables,
    seal: &Seal,
    core: &mut Core,
    event: Event,
    steps: &mut Steps<L>,
) -> Acts
    requires lawful { IsLawful tables.now seal.now core.old }
    requires constant { tables.now.constant ≡ seal.now.params.constant }
    requires timely { IsTimely event }
    ensures lawful { IsLawful tables.now seal.now core.new }
{
    if let Operating::Off = core.operating() {
        if let Event::Up(second) = event {
            let (resumed, acts) = Core::resume(tables, seal, &first(), second, steps);
            *core = resumed;
            return acts;
        }
    }
    core.step(tables, seal, event, steps)
}
