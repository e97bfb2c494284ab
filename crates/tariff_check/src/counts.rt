//! How many cuts there are.
ghost use Rattle.std.specs.Prelude.{◌≡◌, ◌≤◌, ◌⊎◌, IfErr, IfOk, None, OnOk, Some, map, nat_lt};
ghost use Rattle.tariff_check.specs.{Common.{NoMemory, TooManyCuts, line_of}, Faults.{cuts_fault, fault_if}};
ghost use Rattle.tariff_check.specs.{Counted.{HasCounts}, Cuts.{count_of, most_cuts}, Stages.{cut_fault}};

use crate::cells::Counts;
use crate::cuts::cut_count;
use crate::fault::{CheckFault, Dimension};
use std::alloc::Global;
use tariff_tree::TariffLine;

/// How many cuts some lines have in each dimension, or that they are too many.
pub(crate) fn counts(alloc: Global, lines: &[TariffLine]) -> Result<Counts, CheckFault>
    ensures counts { IfOk result (HasCounts (map line_of lines.now)) }
    ensures none { OnOk result (cut_fault (map line_of lines.now) ≡ None) }
    ensures fault { IfErr result (λ f. (f ≡ NoMemory) ⊎ (cut_fault (map line_of lines.now) ≡ Some f)) }
{
    let month_day = count(alloc, lines, Dimension::MonthDay)?;
    let minute = count(alloc, lines, Dimension::Minute)?;
    let distance = count(alloc, lines, Dimension::Distance)?;
    let time = count(alloc, lines, Dimension::Time)?;
    Ok(Counts {
        month_day,
        minute,
        distance,
        time,
    })
}

/// How many cuts some lines have in a dimension, or that they are too many.
fn count(alloc: Global, lines: &[TariffLine], dimension: Dimension) -> Result<u32, CheckFault>
    ensures count { IfOk result (λ n. (n ≡ count_of dimension (map line_of lines.now)) × (n ≤ most_cuts dimension)) }
    ensures none { OnOk result (cuts_fault (map line_of lines.now) dimension ≡ None) }
    ensures fault { IfErr result (λ f. (f ≡ NoMemory) ⊎ (cuts_fault (map line_of lines.now) dimension ≡ Some f)) }
{
    let count = cut_count(alloc, lines, dimension).map_err(|_| CheckFault::NoMemory)?;
    match cuts_fault(dimension, count) {
        Some(fault) => Err(fault),
        None => Ok(count),
    }
}

/// The fault that a dimension has this many cuts, if that is too many.
pub(crate) fn cuts_fault(dimension: Dimension, count: u32) -> Option<CheckFault>
    ensures { result ≡ fault_if (nat_lt (most_cuts dimension) count) (TooManyCuts dimension count) }
{
    if count > most(dimension) {
        Some(CheckFault::TooManyCuts(dimension, count))
    } else {
        None
    }
}

/// How many cuts there may be in a dimension.
fn most(dimension: Dimension) -> u32
    ensures { result ≡ most_cuts dimension }
{
    match dimension {
        Dimension::MonthDay => 63,
        Dimension::Minute => 63,
        Dimension::Distance => 15,
        Dimension::Time => 15,
    }
}
