//! The parts of a tariff on which faults depend, from its lines.
ghost use Rattle.std.specs.Prelude.{◌&&◌, ◌≡◌, IfErr, IfOk, None, OnOk, Some, is_none, map, unwrap_or};
ghost use Rattle.tariff_check.specs.{Common.{entry_of, line_of}, Kinds.{is_of, part_of}, Parts.{zones_of, zones_part}};
ghost use Rattle.tariff_check.specs.{Faults.{has_default}, Stages.{step_fault}};
ghost use Rattle.tariff_check.specs.Parts.{has_holidays, positions_of, positions_part, step_of, step_part, when_part};

use crate::choice::{ChoiceKind, condition, is_of};
use crate::fault::CheckFault;
use crate::found_lines::{FramePart, first_saying};
use drive_modes::Rounding;
use tariff_tree::{Item, TariffLine};

/// The display step and its rounding, of the first such line, or what is wrong with it.
pub(crate) fn step(lines: &[TariffLine]) -> Result<(u64, Rounding), CheckFault>
    ensures step { IfOk result (λ s. step_of (map line_of lines.now) ≡ Some s) }
    ensures none { OnOk result (step_fault (map line_of lines.now) ≡ None) }
    ensures fault { IfErr result (λ f. step_fault (map line_of lines.now) ≡ Some f) }
{
    match step_said(lines) {
        Some((amount, rounding)) => {
            if amount == 0 {
                Err(CheckFault::StepZero)
            } else {
                Ok((amount, rounding))
            }
        }
        None => Err(CheckFault::NoStep),
    }
}

/// The display step and its rounding, of the first such line, if there is one.
pub(crate) fn step_said(lines: &[TariffLine]) -> Option<(u64, Rounding)>
    ensures { result ≡ step_of (map line_of lines.now) }
{
    match first_saying(FramePart::Step, lines) {
        Some(line) => step_in(&line.item),
        None => None,
    }
}

/// What a line says of the display step.
fn step_in(item: &Item) -> Option<(u64, Rounding)>
    ensures { result ≡ step_part (entry_of item.now) }
{
    match item {
        Item::Step { amount, rounding } => Some((*amount, *rounding)),
        _ => None,
    }
}

/// How many tariff positions there are.
pub(crate) fn positions(lines: &[TariffLine]) -> u8
    ensures { result ≡ positions_of (map line_of lines.now) }
{
    match first_saying(FramePart::Positions, lines) {
        Some(line) => positions_in(&line.item),
        None => 1,
    }
}

/// The number of tariff positions that a line says, or 1.
fn positions_in(item: &Item) -> u8
    ensures { result ≡ unwrap_or (positions_part (entry_of item.now)) 1 }
{
    match item {
        Item::Positions(number) => *number,
        _ => 1,
    }
}

/// How many zones there are.
pub(crate) fn zones(lines: &[TariffLine]) -> u8
    ensures { result ≡ zones_of (map line_of lines.now) }
{
    match first_saying(FramePart::Zones, lines) {
        Some(line) => zones_in(&line.item),
        None => 1,
    }
}

/// The number of zones that a line says, or 1.
fn zones_in(item: &Item) -> u8
    ensures { result ≡ unwrap_or (zones_part (entry_of item.now)) 1 }
{
    match item {
        Item::Zones(number) => *number,
        _ => 1,
    }
}

/// Whether there is a holiday.
pub(crate) fn has_holidays(lines: &[TariffLine]) -> bool
    ensures { result ≡ has_holidays (map line_of lines.now) }
{
    for line in lines {
        if let Item::Holiday { .. } = &line.item {
            return true;
        }
    }
    false
}

/// Whether there is a line of a kind without a condition.
pub(crate) fn has_default(kind: ChoiceKind, lines: &[TariffLine]) -> bool
    ensures { result ≡ has_default (part_of kind) (map line_of lines.now) }
{
    for line in lines {
        if is_default(kind, &line.item) {
            return true;
        }
    }
    false
}

/// Whether an item is of a kind and has no condition.
fn is_default(kind: ChoiceKind, item: &Item) -> bool
    ensures { result ≡ (is_of kind (entry_of item.now) && is_none (when_part (entry_of item.now))) }
{
    is_of(kind, item) && condition(item).is_none()
}
