//! A context of each cell.
ghost use Rattle.std.specs.Prelude.{◌+◌, ◌≡◌, ◌≤◌};
ghost use Rattle.tariff_compile.specs.{Cells.{HasLowCuts, IsNarrow, bands_at, beginning, context_in}, Near.{IsNear}};
ghost use Rattle.tariff_compile.specs.Common.{Context, at_hiring, count_at_most};

use crate::parts::Bands;
use drive_modes::Constant;
use std::sync::ledger::Ledger;
use tariff_calendar::{Cuts, count_at_most};
use tariff_check::Dimension;
use tariff_tree::Context;
use taxi_units::{LONGEST_TRIP, Steps};

/// The context of a cell at the beginning of each band.
pub(crate) fn context_in(k: Constant, cuts: &Cuts, bands: &Bands) -> Context
    requires narrow { IsNarrow bands.now }
    requires low { HasLowCuts cuts.now }
    ensures { result ≡ context_in k cuts.now bands.now }
{
    let month_day = beginning(cuts.list(Dimension::MonthDay), bands.month_day);
    let minute = beginning(cuts.list(Dimension::Minute), bands.minute);
    let ticks = beginning(cuts.list(Dimension::Time), bands.time);
    Context {
        constant: k,
        position: (bands.position + 1) as u8,
        zone: (bands.zone + 1) as u8,
        weekday: (bands.weekday + 1) as u8,
        month_day: month_day as u16,
        holiday: bands.holiday == 1,
        minute: minute as u16,
        pulses: beginning(cuts.list(Dimension::Distance), bands.distance),
        ticks: ticks.min(LONGEST_TRIP as u64) as u32,
    }
}

/// Where a band begins: at its cut, and the first at 0.
fn beginning(cuts: &[u64], band: usize) -> u64
    ensures { result ≡ beginning cuts.now band }
{
    if band == 0 || band > cuts.len() {
        0
    } else {
        cuts[band - 1]
    }
}

/// The numbers of the cell in which a context is at the hiring. No distance and no time is cut there, so no
/// such cut is read. At most 12 steps.
pub(crate) fn bands_at_hiring<L: Ledger>(cuts: &Cuts, x: &Context, steps: &mut Steps<L>) -> Bands
    requires position { 1 ≤ x.now.position }
    requires zone { 1 ≤ x.now.zone }
    requires weekday { 1 ≤ x.now.weekday }
    requires distance { count_at_most 0 cuts.now.distances ≡ 0 }
    requires time { count_at_most 0 cuts.now.times ≡ 0 }
    ensures value { result ≡ bands_at cuts.now (at_hiring x.now) }
    ensures steps { (steps.old ≤ steps.new) × (steps.new ≤ steps.old + 12) }
{
    first_bands(cuts, x, steps)
}

/// The numbers of the cell in which a context is. At most 20 steps.
pub(crate) fn bands_at<L: Ledger>(cuts: &Cuts, x: &Context, steps: &mut Steps<L>) -> Bands
    requires position { 1 ≤ x.now.position }
    requires zone { 1 ≤ x.now.zone }
    requires weekday { 1 ≤ x.now.weekday }
    ensures value { result ≡ bands_at cuts.now x.now }
    ensures steps { (steps.old ≤ steps.new) × (steps.new ≤ steps.old + 20) }
{
    let mut bands = first_bands(cuts, x, steps);
    bands.distance = cuts.find(Dimension::Distance, x.pulses, steps);
    bands.time = cuts.find(Dimension::Time, x.ticks as u64, steps);
    bands
}

/// The numbers of the cell in which a context is, and for how many more pulses and more ticks it at least stays there.
/// At most 20 steps.
pub(crate) fn bands_until<L: Ledger>(
    cuts: &Cuts,
    x: &Context,
    steps: &mut Steps<L>,
) -> (Bands, u64, u64)
    requires position { 1 ≤ x.now.position }
    requires zone { 1 ≤ x.now.zone }
    requires weekday { 1 ≤ x.now.weekday }
    ensures near { (y : Context) → IsNear result.1 result.2 x.now y → result.0 ≡ bands_at cuts.now y }
    ensures value { result.0 ≡ bands_at cuts.now x.now }
    ensures steps { (steps.old ≤ steps.new) × (steps.new ≤ steps.old + 20) }
{
    let mut bands = first_bands(cuts, x, steps);
    let (distance, further) = cuts.find_until(Dimension::Distance, x.pulses, steps);
    let (time, longer) = cuts.find_until(Dimension::Time, x.ticks as u64, steps);
    bands.distance = distance;
    bands.time = time;
    (bands, further, longer)
}

/// The numbers of the cell in which a context is, by going over the cuts.
pub(crate) fn plain_bands_at(cuts: &Cuts, x: &Context) -> Bands
    requires position { 1 ≤ x.now.position }
    requires zone { 1 ≤ x.now.zone }
    requires weekday { 1 ≤ x.now.weekday }
    ensures { result ≡ bands_at cuts.now x.now }
{
    Bands {
        position: x.position as usize - 1,
        zone: x.zone as usize - 1,
        weekday: x.weekday as usize - 1,
        holiday: if x.holiday { 1 } else { 0 },
        month_day: count_at_most(x.month_day as u64, cuts.list(Dimension::MonthDay)),
        minute: count_at_most(x.minute as u64, cuts.list(Dimension::Minute)),
        distance: count_at_most(x.pulses, cuts.list(Dimension::Distance)),
        time: count_at_most(x.ticks as u64, cuts.list(Dimension::Time)),
    }
}

/// The numbers of the cell of a context, as if it lay before each cut of distance and time. At most 12 steps.
fn first_bands<L: Ledger>(cuts: &Cuts, x: &Context, steps: &mut Steps<L>) -> Bands
    requires position { 1 ≤ x.now.position }
    requires zone { 1 ≤ x.now.zone }
    requires weekday { 1 ≤ x.now.weekday }
    ensures value { result ≡ record (bands_at cuts.now x.now) { distance = 0; time = 0 } }
    ensures steps { (steps.old ≤ steps.new) × (steps.new ≤ steps.old + 12) }
{
    Bands {
        position: x.position as usize - 1,
        zone: x.zone as usize - 1,
        weekday: x.weekday as usize - 1,
        holiday: if x.holiday { 1 } else { 0 },
        month_day: cuts.find(Dimension::MonthDay, x.month_day as u64, steps),
        minute: cuts.find(Dimension::Minute, x.minute as u64, steps),
        distance: 0,
        time: 0,
    }
}
