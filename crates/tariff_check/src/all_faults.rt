//! All faults of a tariff.
ghost use Rattle.std.specs.Prelude.{◌++◌, ◌≡◌, IfOk, IfSome, OnOk, map, nat_lt};
ghost use Rattle.tariff_check.specs.{AllFaults.{all_faults, those_there}, Cells.{cells_of}, Common.{line_of, tree_of}};
ghost use Rattle.tariff_check.specs.{Cuts.{count_of}, Parts.{step_of}};
ghost use Rattle.tariff_check.specs.Faults.{fault_if, faults_before_cuts, faults_from_cuts, is_step_zero};

use crate::cells::{Counts, MOST_CELLS, any_cells};
use crate::choice::ChoiceKind;
use crate::counts::cuts_fault;
use crate::cuts::cut_count;
use crate::early::fault_at;
use crate::fault::{CheckFault, Dimension};
use crate::measure::has_great_measure;
use crate::parts::{has_default, has_holidays, positions, step_said, zones};
use crate::rules::LineRule;
use std::alloc::Global;
use tariff_tree::{Tariff, TariffLine};
use taxi_units::NoMemory;

/// All faults of a tariff, in the order of `CheckFault`: each kind of fault once, with the first line that has it. The
/// faults of cuts, one for each dimension, and of cells are looked for only if there is no other. The first is the one
/// that `check` answers; there is none exactly if the tariff is sound. `NoMemory`: memory runs out, or there are more
/// cuts or cells than 32 or 64 bits count, which no text has. The faults are this project's own.
pub fn faults(alloc: Global, tariff: &Tariff) -> Result<Vec<CheckFault>, NoMemory>
    ensures { IfOk result (λ faults. faults.items ≡ all_faults (tree_of tariff.now).lines) }
{
    let lines = tariff.lines.as_slice();
    let mut faults = Vec::new(alloc);
    put_there(&faults_before_cuts(lines), &mut faults)?;
    if !faults.is_empty() {
        return Ok(faults);
    }
    put_there(&faults_from_cuts(alloc, lines)?, &mut faults)?;
    Ok(faults)
}

/// Puts those of some faults that are there behind others.
fn put_there(some: &[Option<CheckFault>], faults: &mut Vec<CheckFault>) -> Result<(), NoMemory>
    ensures { OnOk result (faults.new.items ≡ faults.old.items ++ those_there some.now) }
{
    for fault in some {
        if let Some(fault) = fault {
            faults.push(*fault).map_err(|_| NoMemory)?;
        }
    }
    Ok(())
}

/// A fault, if it is there.
fn fault_if(there: bool, fault: CheckFault) -> Option<CheckFault>
    ensures { result ≡ fault_if there fault }
{
    if there { Some(fault) } else { None }
}

/// The faults before those of cuts, each there or not, in their order.
fn faults_before_cuts(lines: &[TariffLine]) -> [Option<CheckFault>; 12]
    ensures { result ≡ faults_before_cuts (map line_of lines.now) }
{
    let known = LineRule::Known(positions(lines), zones(lines));
    [
        fault_if(step_said(lines).is_none(), CheckFault::NoStep),
        fault_if(is_step_zero(lines), CheckFault::StepZero),
        fault_at(LineRule::Once, lines),
        fault_at(LineRule::Few, lines),
        fault_at(known, lines),
        fault_if(
            !has_default(ChoiceKind::Rate, lines),
            CheckFault::NoDefaultRate,
        ),
        fault_if(
            !has_default(ChoiceKind::Initial, lines),
            CheckFault::NoDefaultInitial,
        ),
        fault_at(LineRule::NotAfterDefault, lines),
        fault_at(LineRule::Dated, lines),
        fault_at(LineRule::Moderate, lines),
        fault_at(LineRule::Measured, lines),
        fault_if(has_great_measure(lines), CheckFault::NoCommonMeasure),
    ]
}

/// Whether there is a display step, and it is 0.
fn is_step_zero(lines: &[TariffLine]) -> bool
    ensures { result ≡ is_step_zero (step_of (map line_of lines.now)) }
{
    match step_said(lines) {
        Some((amount, _)) => amount == 0,
        None => false,
    }
}

/// The faults of cuts and of cells, each there or not, in their order. `NoMemory` also if there are more cells than 64
/// bits count.
fn faults_from_cuts(
    alloc: Global,
    lines: &[TariffLine],
) -> Result<[Option<CheckFault>; 5], NoMemory>
    ensures { IfOk result (λ faults. faults ≡ faults_from_cuts (map line_of lines.now)) }
{
    let counts = any_counts(alloc, lines)?;
    let cells = any_cells(positions(lines), zones(lines), has_holidays(lines), &counts).ok_or(
        NoMemory,
    )?;
    Ok([
        cuts_fault(Dimension::MonthDay, counts.month_day),
        cuts_fault(Dimension::Minute, counts.minute),
        cuts_fault(Dimension::Distance, counts.distance),
        cuts_fault(Dimension::Time, counts.time),
        fault_if(cells > MOST_CELLS, CheckFault::TooManyCells(cells)),
    ])
}

/// How many cuts some lines have in each dimension, however many they are.
fn any_counts(alloc: Global, lines: &[TariffLine]) -> Result<Counts, NoMemory>
    ensures month_day { IfOk result (λ c. c.month_day ≡ count_of Dimension.MonthDay (map line_of lines.now)) }
    ensures minute { IfOk result (λ c. c.minute ≡ count_of Dimension.Minute (map line_of lines.now)) }
    ensures distance { IfOk result (λ c. c.distance ≡ count_of Dimension.Distance (map line_of lines.now)) }
    ensures time { IfOk result (λ c. c.time ≡ count_of Dimension.Time (map line_of lines.now)) }
{
    Ok(Counts {
        month_day: cut_count(alloc, lines, Dimension::MonthDay)?,
        minute: cut_count(alloc, lines, Dimension::Minute)?,
        distance: cut_count(alloc, lines, Dimension::Distance)?,
        time: cut_count(alloc, lines, Dimension::Time)?,
    })
}
