//! What a drive comes to, hiring by hiring.
ghost use Rattle.std.specs.Prelude.{[], ◌++◌, ◌<◌, ◌∷◌, ◌≡◌, ◌≤◌, All, IfOk, OnOk, flat_map, map};
ghost use Rattle.verify_bench.specs.{BenchProgress.{Carries}, Common.{intervals_events, last_tick, opened, run_events}};
ghost use Rattle.verify_bench.specs.Common.{Context, IsRunInRange, Setting, first_state, interval_events};
ghost use Rattle.verify_bench.specs.{ExpectedReceipts.{expected_of}, Shortened.{short_of}};
ghost use Rattle.verify_bench.specs.{Settings.{setting_under}, TripExplanations.{explanation_of, explanations_of}};

use crate::bench_meter::BenchMeter;
use crate::expected::Expected;
use crate::explained::Explained;
use drive_text::Run;
use seal_record::{Params, Seal};
use std::alloc::Global;
use tariff_check::Checked;
use taxi_units::{Event, FIRST_SECOND, NoMemory, Operating};

/// What a drive should come to: the receipts of its hirings, from an empty store of number 1, with a supply drop at its
/// end. It charges each interval of a trip by the tariff's parts, in the context of the interval's beginning. A meter
/// is judged by this plain program of the definition. A trip that is held at the end has no receipt.
///
/// `NoMemory`: only if memory ran out. The numbers in the runs are those that a line of a drive may have.
pub fn expect(
    alloc: Global,
    checked: &Checked,
    seal: &Seal,
    runs: &[Run],
) -> Result<Vec<Expected>, NoMemory>
    requires { All IsRunInRange runs.now }
    ensures { IfOk result (λ list. list.items
        ≡ expected_of (setting_under checked.now seal.now.params) (flat_map run_events runs.now)) }
{
    let params = &seal.params;
    let mut meter = BenchMeter::new();
    let mut found = Vec::new(alloc);
    for run in runs {
        let mut explained = Vec::new(alloc);
        meter.follow(*run, alloc, checked, params, &mut explained)?;
        put_expected(&mut found, explained.as_slice())?;
    }
    let mut explained = Vec::new(alloc);
    meter.drop_at_end(alloc, checked, params, &mut explained)?;
    put_expected(&mut found, explained.as_slice())?;
    Ok(found)
}

/// Why the fare of each hiring that a drive closes is what it is: the hirings in order, each taken apart by its rates
/// and by the ways in which they charged it. The drive begins on an empty store of number 1, and ends with a supply
/// drop. A trip that is held at the end isn't closed. No interval is kept: memory is taken for what is given alone.
///
/// `NoMemory`: only if memory ran out. The numbers in the runs are those that a line of a drive may have.
pub fn explain(
    alloc: Global,
    checked: &Checked,
    params: &Params,
    runs: &[Run],
) -> Result<Vec<Explained>, NoMemory>
    requires { All IsRunInRange runs.now }
    ensures { IfOk result (λ list. map explanation_of list.items
        ≡ explanations_of (setting_under checked.now params.now) (flat_map run_events runs.now)) }
{
    let mut meter = BenchMeter::new();
    let mut found = Vec::new(alloc);
    for run in runs {
        meter.follow(*run, alloc, checked, params, &mut found)?;
    }
    meter.drop_at_end(alloc, checked, params, &mut found)?;
    Ok(found)
}

/// What hirings that were taken apart should come to.
fn put_expected(found: &mut Vec<Expected>, explained: &[Explained]) -> Result<(), NoMemory>
    ensures { OnOk result (found.new.items
        ≡ found.old.items ++ map short_of (map explanation_of explained.now)) }
{
    for hiring in explained {
        let expected = Expected {
            kind: hiring.receipt.kind,
            fare: hiring.receipt.fare,
            hired_mm: hiring.receipt.hired_mm,
            ticks: hiring.whole.ticks,
        };
        found.push(expected).map_err(|_| NoMemory)?;
    }
    Ok(())
}

impl BenchMeter {
    ghost use Rattle.verify_bench.specs.Bench.{BenchStands, IsMeterInRange, MayTake};

    /// The meter before the supply first comes, over an empty store.
    pub(crate) fn new() -> BenchMeter
        ensures stands { (s : Setting) (hired : Context) → BenchStands s hired result (opened s first_state) }
        ensures sound { IsMeterInRange last_tick 0 result }
    {
        BenchMeter {
            operating: Operating::Off,
            clock: FIRST_SECOND,
            began: FIRST_SECOND,
            taken: 0,
            latch: None,
            position: 1,
            zone: 1,
            roam: 0,
            number: 1,
            held: None,
            hiring: None,
        }
    }

    /// Carries out a run of a drive.
    fn follow(
        &mut self,
        run: Run,
        alloc: Global,
        checked: &Checked,
        params: &Params,
        found: &mut Vec<Explained>,
    ) -> Result<(), NoMemory>
        requires sound { IsMeterInRange last_tick 0 self.old }
        requires range { IsRunInRange run }
        ensures carries { OnOk result (Carries (setting_under checked.now params.now) (run_events run)
            self.old self.new found.old.items found.new.items) }
        ensures sound { OnOk result (IsMeterInRange last_tick 0 self.new) }
    {
        match run {
            Run::One(event) => self.carry(event, alloc, checked, params, found),
            Run::Many { pulses, count } => {
                self.intervals(pulses, count, alloc, checked, params, found)
            }
        }
    }

    /// Carries out intervals, one after another.
    fn intervals(
        &mut self,
        pulses: u32,
        count: u32,
        alloc: Global,
        checked: &Checked,
        params: &Params,
        found: &mut Vec<Explained>,
    ) -> Result<(), NoMemory>
        requires sound { IsMeterInRange last_tick 0 self.old }
        requires pulses { pulses ≤ 65535 }
        ensures carries { OnOk result (Carries (setting_under checked.now params.now) (intervals_events pulses count)
            self.old self.new found.old.items found.new.items) }
        ensures sound { OnOk result (IsMeterInRange last_tick 0 self.new) }
    {
        for place in 0..count {
            self.interval(pulses, alloc, checked, params, found)?;
        }
        Ok(())
    }

    /// Carries out an interval.
    fn interval(
        &mut self,
        pulses: u32,
        alloc: Global,
        checked: &Checked,
        params: &Params,
        found: &mut Vec<Explained>,
    ) -> Result<(), NoMemory>
        requires sound { IsMeterInRange last_tick 0 self.old }
        requires pulses { pulses ≤ 65535 }
        ensures carries { OnOk result (Carries (setting_under checked.now params.now) (interval_events pulses)
            self.old self.new found.old.items found.new.items) }
        ensures sound { OnOk result (IsMeterInRange last_tick 0 self.new) }
    {
        if pulses == 0 {
            return self.carry(Event::Tick, alloc, checked, params, found);
        }
        self.carry(Event::Pulses(pulses), alloc, checked, params, found)?;
        self.carry(Event::Tick, alloc, checked, params, found)
    }

    /// Carries out an event.
    fn carry(
        &mut self,
        event: Event,
        alloc: Global,
        checked: &Checked,
        params: &Params,
        found: &mut Vec<Explained>,
    ) -> Result<(), NoMemory>
        requires takes { MayTake self.old event }
        ensures carries { OnOk result (Carries (setting_under checked.now params.now) (event ∷ [])
            self.old self.new found.old.items found.new.items) }
        ensures sound { OnOk result (IsMeterInRange last_tick 0 self.new) }
    {
        self.event(event, alloc, checked, params, found)?;
        Ok(())
    }
}
