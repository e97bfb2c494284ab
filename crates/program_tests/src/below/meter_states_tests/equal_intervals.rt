//! How many equal intervals go at once. That they are those intervals, one after the other, is a clause of
//! `Core::equal_intervals`.
ghost use Rattle.std.specs.Prelude.{◌<◌, ◌≡◌, ◌≤◌};
ghost use Rattle.meter_states.specs.Lawful.{IsLawful};

use super::drives::{acts_at_first, have_constant_of, is_timely, setting};
use super::equal_rows::{AHEAD, BEHIND, ROWS, Row};
use drive_modes::Mode;
use meter_states::Core;
use seal_record::Seal;
use std::alloc::Global;
use std::marker::Brand;
use std::process::Abort;
use std::sync::ledger::{Blank, Ledger};
use std::test::Fail;
use tariff_compile::Tables;
use taxi_units::{Event, Steps};

/// An event; gives how many acts it has.
fn take<L: Ledger>(
    rt: &impl Abort,
    tables: &Tables,
    seal: &Seal,
    core: &mut Core,
    event: Event,
    steps: &mut Steps<L>,
) -> usize
    requires lawful { IsLawful tables.now seal.now core.old }
    requires constant { tables.now.constant ≡ seal.now.params.constant }
    ensures lawful { IsLawful tables.now seal.now core.new }
    ensures few { result ≤ 4 }
{
    assert!(rt; is_timely(event));
    acts_at_first(tables, seal, core, event, steps).len()
}

/// One interval; gives how many acts it has.
fn take_interval<L: Ledger>(
    rt: &impl Abort,
    tables: &Tables,
    seal: &Seal,
    core: &mut Core,
    pulses: u32,
    steps: &mut Steps<L>,
) -> usize
    requires lawful { IsLawful tables.now seal.now core.old }
    requires constant { tables.now.constant ≡ seal.now.params.constant }
    ensures lawful { IsLawful tables.now seal.now core.new }
    ensures few { result ≤ 8 }
{
    let mut done = 0;
    if pulses > 0 {
        done = take(rt, tables, seal, core, Event::Pulses(pulses), steps);
    }
    done + take(rt, tables, seal, core, Event::Tick, steps)
}

/// A row of intervals: as many as go at once and then one, again and again. That is at most once for each act,
/// and six times more.
fn take_row<L: Ledger>(
    rt: &impl Abort,
    tables: &Tables,
    seal: &Seal,
    core: &mut Core,
    row: (u32, u32),
    steps: &mut Steps<L>,
)
    requires lawful { IsLawful tables.now seal.now core.old }
    requires constant { tables.now.constant ≡ seal.now.params.constant }
    ensures lawful { IsLawful tables.now seal.now core.new }
{
    let (pulses, count) = row;
    let mut left = count;
    let mut spare: usize = 6;
    for _ in 0..count {
        left -= core.equal_intervals(tables, seal, pulses, left);
        if left == 0 {
            return;
        }
        let done = take_interval(rt, tables, seal, core, pulses, steps);
        left -= 1;
        assert!(rt; spare < 100_000 && spare + done > 0);
        spare = spare + done - 1;
    }
    assert!(rt; left == 0);
}

/// Rows, one after the other.
fn take_rows<L: Ledger>(blank: Blank, rt: &impl Abort, tables: &Tables, seal: &Seal, rows: &[Row])
    requires name { blank.name ≡ L.name }
    requires parts { blank.parts ≡ L.parts }
    requires one { 0 < blank.parts }
    requires constant { tables.now.constant ≡ seal.now.params.constant }
{
    let mut steps: Steps<L> = Steps::open(blank);
    let mut core = Core::off();
    for (events, pulses, count) in rows {
        for event in *events {
            take(rt, tables, seal, &mut core, *event, &mut steps);
        }
        take_row(rt, tables, seal, &mut core, (*pulses, *count), &mut steps);
    }
}

/// All rows under a tariff and a mode.
fn take_rows_under(alloc: Global, rt: &impl Abort, text: &str, mode: Mode) -> Result<(), Fail> {
    let (tables, seal) = setting(alloc, text, mode)?;
    assert!(rt; have_constant_of(&tables, &seal));
    take_rows::<Brand>(Blank::new(1), rt, &tables, &seal, ROWS);
    Ok(())
}

const SETTINGS: &[(&str, Mode)] = &[
    (AHEAD, Mode::Single),
    (AHEAD, Mode::Double),
    (BEHIND, Mode::Single),
    (BEHIND, Mode::Double),
];

#[test]
fn carries_out_many_intervals_at_once(rt: HostRuntime) -> Result<(), Fail> {
    for (text, mode) in SETTINGS {
        take_rows_under(rt.alloc(), &rt, text, *mode)?;
    }
    Ok(())
}
