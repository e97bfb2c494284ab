//! Carries out the runs of a drive.
ghost use Rattle.{std.specs.{List.{flat_map}, Prelude.{All, OnErr, OnOk}}, drive_text.specs.Ranges.{IsRunInRange}};
ghost use Rattle.meter_run.specs.{Common.{HasCause, interval_events, intervals_events, run_events}, Drives.{IsBounded}};

use crate::carrier::{Carrier, SealedTables};
use drive_text::Run;
use meter_model::Acts;
use outside::{Failed, Printer, STORE_SIZE};
use std::sync::ledger::Ledger;
use taxi_units::{Event, Steps};

/// Carries out one measuring interval: its pulses, if it has any, and its end.
fn carry_interval<C: Carrier<B, L>, B: Printer<STORE_SIZE, L>, L: Ledger>(
    meter: &mut C,
    by: &SealedTables<'_>,
    pulses: u32,
    acts: &mut Acts,
    board: &mut B,
    steps: &mut Steps<L>,
) -> Result<(), Failed>
    requires ready { C.ready by.now meter.old board.old }
    ensures ready { OnOk result (C.ready by.now meter.new board.new) }
    ensures carried { OnOk result (C.carried by.now meter.old board.old (interval_events pulses) meter.new board.new) }
    ensures broke_off { OnErr result (C.broke_off by.now meter.old board.old (interval_events pulses) board.new) }
    ensures cause { HasCause (B.faults board.old) (B.faults board.new) result }
    ensures steps { IsBounded steps.old steps.new (interval_events pulses) }
{
    if pulses == 0 {
        return meter.carry_event(by, Event::Tick, acts, board, steps);
    }
    meter.carry_event(by, Event::Pulses(pulses), acts, board, steps)?;
    meter.carry_event(by, Event::Tick, acts, board, steps)
}

/// Carries out a row of equal measuring intervals: one, and then as many as go at once, again and again.
fn carry_intervals<C: Carrier<B, L>, B: Printer<STORE_SIZE, L>, L: Ledger>(
    meter: &mut C,
    by: &SealedTables<'_>,
    pulses: u32,
    count: u32,
    acts: &mut Acts,
    board: &mut B,
    steps: &mut Steps<L>,
) -> Result<(), Failed>
    requires ready { C.ready by.now meter.old board.old }
    ensures ready { OnOk result (C.ready by.now meter.new board.new) }
    ensures carried { OnOk result
        (C.carried by.now meter.old board.old (intervals_events pulses count) meter.new board.new) }
    ensures broke_off { OnErr result
        (C.broke_off by.now meter.old board.old (intervals_events pulses count) board.new) }
    ensures cause { HasCause (B.faults board.old) (B.faults board.new) result }
    ensures steps { IsBounded steps.old steps.new (intervals_events pulses count) }
{
    let mut done = 0;
    while done < count {
        carry_interval(meter, by, pulses, acts, board, steps)?;
        done += 1;
        done += meter.carry_equal(by, pulses, count - done);
    }
    Ok(())
}

/// Carries out a run.
fn carry_run<C: Carrier<B, L>, B: Printer<STORE_SIZE, L>, L: Ledger>(
    meter: &mut C,
    by: &SealedTables<'_>,
    run: Run,
    acts: &mut Acts,
    board: &mut B,
    steps: &mut Steps<L>,
) -> Result<(), Failed>
    requires ready { C.ready by.now meter.old board.old }
    requires range { IsRunInRange run }
    ensures ready { OnOk result (C.ready by.now meter.new board.new) }
    ensures carried { OnOk result (C.carried by.now meter.old board.old (run_events run) meter.new board.new) }
    ensures broke_off { OnErr result (C.broke_off by.now meter.old board.old (run_events run) board.new) }
    ensures cause { HasCause (B.faults board.old) (B.faults board.new) result }
    ensures steps { IsBounded steps.old steps.new (run_events run) }
{
    match run {
        Run::One(event) => meter.carry_event(by, event, acts, board, steps),
        Run::Many { pulses, count } => {
            carry_intervals(meter, by, pulses, count, acts, board, steps)
        }
    }
}

/// Carries out runs, one after the other.
pub(crate) fn carry_runs<C: Carrier<B, L>, B: Printer<STORE_SIZE, L>, L: Ledger>(
    meter: &mut C,
    by: &SealedTables<'_>,
    runs: &[Run],
    acts: &mut Acts,
    board: &mut B,
    steps: &mut Steps<L>,
) -> Result<(), Failed>
    requires ready { C.ready by.now meter.old board.old }
    requires ranges { All IsRunInRange runs.now }
    ensures ready { OnOk result (C.ready by.now meter.new board.new) }
    ensures carried { OnOk result
        (C.carried by.now meter.old board.old (flat_map run_events runs.now) meter.new board.new) }
    ensures broke_off { OnErr result (C.broke_off by.now meter.old board.old (flat_map run_events runs.now) board.new) }
    ensures cause { HasCause (B.faults board.old) (B.faults board.new) result }
    ensures steps { IsBounded steps.old steps.new (flat_map run_events runs.now) }
{
    for run in runs {
        carry_run(meter, by, *run, acts, board, steps)?;
    }
    Ok(())
}
