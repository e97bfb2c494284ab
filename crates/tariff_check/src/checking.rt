//! Whether a tariff is sound.
ghost use Rattle.std.specs.Prelude.{◌≡◌, ◌⊎◌, IfErr, IfOk, None, OnErr, Some, map};
ghost use Rattle.tariff_check.specs.{Common.{IsWritable, NoMemory, line_of, tree_of}, Counted.{HasNumbers}};
ghost use Rattle.tariff_check.specs.Faults.{HasNone, IsSound, fault_of, faults_before_cuts, faults_of, first_some};
ghost use Rattle.tariff_check.specs.Resolved.{HasParts};

use crate::cells::{MOST_CELLS, cells};
use crate::checked::Checked;
use crate::counts::counts;
use crate::early::early_fault;
use crate::fault::CheckFault;
use crate::measure::measure;
use crate::numbers::Numbers;
use crate::parts::{has_holidays, positions, step, zones};
use crate::resolving::{Parts, resolved};
use std::alloc::Global;
use tariff_tree::{Tariff, TariffLine};

/// Whether a tariff is sound, that is, has none of the faults. Its numbers have to be ones that a text can have. If it
/// isn't sound, the answer is its first fault in the order of `CheckFault`, and the tariff is dropped. `NoMemory`:
/// there is no fault in front of those of cuts, and memory runs out or a dimension has more cuts than 32 bits count,
/// which no text has. The faults are this project's own.
pub fn check(alloc: Global, tariff: Tariff) -> Result<Checked, CheckFault>
    requires { IsWritable (tree_of tariff) }
    ensures sound { IfOk result (λ c. (c ≡ tariff) × IsSound (tree_of tariff)) }
    ensures fault { IfErr result (λ f. (f ≡ NoMemory) ⊎ (fault_of (tree_of tariff) ≡ Some f)) }
    ensures memory { IfErr result (λ f. f ≡ NoMemory → HasNone (faults_before_cuts (tree_of tariff).lines)) }
{
    let numbers = numbers(alloc, tariff.lines.as_slice())?;
    let parts = parts_of(alloc, tariff.lines.as_slice())?;
    Ok(Checked {
        tariff,
        numbers,
        parts,
    })
}

/// The parts of lines that have no fault.
fn parts_of(alloc: Global, lines: &[TariffLine]) -> Result<Parts, CheckFault>
    requires { first_some (faults_of (map line_of lines.now)) ≡ None }
    ensures parts { IfOk result (HasParts (map line_of lines.now)) }
    ensures fault { IfErr result (λ f. f ≡ NoMemory) }
    ensures memory { OnErr result (HasNone (faults_before_cuts (map line_of lines.now))) }
{
    resolved(alloc, lines).map_err(|_| CheckFault::NoMemory)
}

/// The numbers of lines, or their first fault. Nothing is counted if the lines have an earlier fault.
fn numbers(alloc: Global, lines: &[TariffLine]) -> Result<Numbers, CheckFault>
    ensures numbers { IfOk result (HasNumbers (map line_of lines.now)) }
    ensures fault { IfErr result (λ f. (f ≡ NoMemory) ⊎ (first_some (faults_of (map line_of lines.now)) ≡ Some f)) }
    ensures memory { IfErr result (λ f. f ≡ NoMemory → HasNone (faults_before_cuts (map line_of lines.now))) }
{
    let (step, rounding) = step(lines)?;
    let positions = positions(lines);
    let zones = zones(lines);
    if let Some(fault) = early_fault(lines, positions, zones) {
        return Err(fault);
    }
    let Some(measure) = measure(lines) else {
        return Err(CheckFault::NoCommonMeasure);
    };
    let counts = counts(alloc, lines)?;
    let cells = cells(positions, zones, has_holidays(lines), &counts);
    if cells > MOST_CELLS {
        return Err(CheckFault::TooManyCells(cells));
    }
    Ok(Numbers {
        step,
        rounding,
        positions,
        zones,
        cells,
        measure,
    })
}
