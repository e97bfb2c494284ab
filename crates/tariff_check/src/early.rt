//! The faults of the lines of a tariff.
ghost use Rattle.std.specs.Prelude.{◌≡◌, None, map};
ghost use Rattle.tariff_check.specs.{Common.{line_of}, Faults.{fault_at}, Lines.{first_line}};
ghost use Rattle.tariff_check.specs.{Parts.{positions_of, zones_of}, Rules.{breaks_rule, fault_of_rule}};
ghost use Rattle.tariff_check.specs.Stages.{default_fault, early_fault, line_fault, number_fault, step_fault};

use crate::choice::ChoiceKind;
use crate::fault::CheckFault;
use crate::parts::has_default;
use crate::rules::{LineRule, first_line};
use tariff_tree::TariffLine;

/// The first fault of lines that have this many positions and zones, and whose display step is right.
pub(crate) fn early_fault(lines: &[TariffLine], positions: u8, zones: u8) -> Option<CheckFault>
    requires step { step_fault (map line_of lines.now) ≡ None }
    requires positions { positions ≡ positions_of (map line_of lines.now) }
    requires zones { zones ≡ zones_of (map line_of lines.now) }
    ensures { result ≡ early_fault (map line_of lines.now) }
{
    if let Some(fault) = line_fault(lines, positions, zones) {
        return Some(fault);
    }
    if let Some(fault) = default_fault(lines) {
        return Some(fault);
    }
    number_fault(lines)
}

/// A line that is there too often, or that names what the tariff doesn't have.
#[tactic(auto, using(crate::proofs::FaultStages::or_none))]
fn line_fault(lines: &[TariffLine], positions: u8, zones: u8) -> Option<CheckFault>
    requires positions { positions ≡ positions_of (map line_of lines.now) }
    requires zones { zones ≡ zones_of (map line_of lines.now) }
    ensures { result ≡ line_fault (map line_of lines.now) }
{
    if let Some(fault) = fault_at(LineRule::Once, lines) {
        return Some(fault);
    }
    if let Some(fault) = fault_at(LineRule::Few, lines) {
        return Some(fault);
    }
    fault_at(LineRule::Known(positions, zones), lines)
}

/// A default that is missing, or a line after it.
#[tactic(auto, using(crate::proofs::FaultStages::or_none))]
fn default_fault(lines: &[TariffLine]) -> Option<CheckFault>
    ensures { result ≡ default_fault (map line_of lines.now) }
{
    if !has_default(ChoiceKind::Rate, lines) {
        return Some(CheckFault::NoDefaultRate);
    }
    if !has_default(ChoiceKind::Initial, lines) {
        return Some(CheckFault::NoDefaultInitial);
    }
    fault_at(LineRule::NotAfterDefault, lines)
}

/// A line with a number that it may not have.
#[tactic(auto, using(crate::proofs::FaultStages::or_none))]
fn number_fault(lines: &[TariffLine]) -> Option<CheckFault>
    ensures { result ≡ number_fault (map line_of lines.now) }
{
    if let Some(fault) = fault_at(LineRule::Dated, lines) {
        return Some(fault);
    }
    if let Some(fault) = fault_at(LineRule::Moderate, lines) {
        return Some(fault);
    }
    fault_at(LineRule::Measured, lines)
}

/// The fault of the first line that breaks a rule.
pub(crate) fn fault_at(rule: LineRule, lines: &[TariffLine]) -> Option<CheckFault>
    ensures { result ≡ fault_at (fault_of_rule rule) (first_line (breaks_rule rule) (map line_of lines.now)) }
{
    let line = first_line(rule, lines)?;
    Some(fault_of(rule, line))
}

/// The fault of a line that breaks a rule.
fn fault_of(rule: LineRule, line: u32) -> CheckFault
    ensures { result ≡ fault_of_rule rule line }
{
    match rule {
        LineRule::Once => CheckFault::Duplicate(line),
        LineRule::Few => CheckFault::TooManyLines(line),
        LineRule::Known(_, _) => CheckFault::UnknownNumber(line),
        LineRule::NotAfterDefault => CheckFault::LineAfterDefault(line),
        LineRule::Dated => CheckFault::BadDate(line),
        LineRule::Moderate => CheckFault::AmountTooBig(line),
        LineRule::Measured => CheckFault::MeasureZero(line),
    }
}
