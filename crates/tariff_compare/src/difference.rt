//! What differs first between two tariffs.
ghost use Rattle.std.specs.Prelude.{◌≡◌, IfOk, find, not};
ghost use Rattle.tariff_compare.specs.Common.{positions_of, supplement_of, tree_of, zones_of};
ghost use Rattle.tariff_compare.specs.{DifferenceTexts.{IsDatedOrNone}, Grids.{IsGridOf, grid_of}, Sides.{side_of}};
ghost use Rattle.tariff_compare.specs.Differences.{context_difference, difference_of, frame_difference};
ghost use Rattle.tariff_compare.specs.Differences.{is_same_rounding, is_same_supplement, other_supplement};

use crate::asking::part_at;
use crate::grid::Grid;
use crate::meter_context::MeterContext;
use crate::question::Question;
use crate::search::first_met;
use crate::side::Side;
use drive_modes::{Constant, Rounding};
use std::alloc::Global;
use tariff_check::{Checked, ChoiceKind, Supplement};
use taxi_units::NoMemory;

/// What differs between two tariffs.
#[derive(Clone, Copy)]
pub enum Difference {
    /// The decimals of money.
    Decimals,
    /// The amount of the display step.
    Step,
    /// How the fare is rounded to the display step.
    Rounded,
    /// How many positions there are.
    Positions,
    /// How many zones there are.
    Zones,
    /// The amount of the supplement of a number, or how often a hiring may have it.
    Supplement(u8),
    /// What the line of a kind says that counts in a context of a meter. The context is at a hiring if lines of the
    /// kind count there alone.
    In(ChoiceKind, MeterContext),
}

/// What differs first between two sound tariffs under a constant; `None` exactly if they are the same. Decimals,
/// display step, rounding, positions, zones and supplements come before all contexts. In one context the kinds come in
/// the order of docs/FORMATS.md. When tariffs are the same is this project's own. `NoMemory` if memory runs out.
pub fn first_difference(
    alloc: Global,
    one: &Checked,
    other: &Checked,
    k: Constant,
) -> Result<Option<Difference>, NoMemory>
    ensures value { IfOk result (λ d. d ≡ difference_of (tree_of one.now) (tree_of other.now) k) }
    ensures dated { IfOk result IsDatedOrNone }
{
    match frame_difference(one, other) {
        Some(difference) => Ok(Some(difference)),
        None => context_difference(alloc, one, other, k),
    }
}

/// What differs first in the frame of two tariffs.
fn frame_difference(one: &Checked, other: &Checked) -> Option<Difference>
    ensures value { result ≡ frame_difference (tree_of one.now) (tree_of other.now) }
    ensures dated { IsDatedOrNone result }
{
    let (step, rounding) = one.step();
    let (other_step, other_rounding) = other.step();
    if one.decimals() != other.decimals() {
        Some(Difference::Decimals)
    } else if step != other_step {
        Some(Difference::Step)
    } else if !is_same_rounding(rounding, other_rounding) {
        Some(Difference::Rounded)
    } else if one.positions() != other.positions() {
        Some(Difference::Positions)
    } else if one.zones() != other.zones() {
        Some(Difference::Zones)
    } else {
        match other_supplement(one, other) {
            Some(number) => Some(Difference::Supplement(number)),
            None => None,
        }
    }
}

/// Whether two roundings are the same.
fn is_same_rounding(one: Rounding, other: Rounding) -> bool
    ensures { result ≡ is_same_rounding one other }
{
    match (one, other) {
        (Rounding::Behind, Rounding::Behind) => true,
        (Rounding::Ahead, Rounding::Ahead) => true,
        _ => false,
    }
}

/// The numbers that supplements have.
const NUMBERS: [u8; 16] = [1, 2, 3, 4, 5, 6, 7, 8, 9, 10, 11, 12, 13, 14, 15, 16];

/// The lowest number of a supplement that differs.
fn other_supplement(one: &Checked, other: &Checked) -> Option<u8>
    ensures { result ≡ other_supplement (tree_of one.now) (tree_of other.now) }
{
    first_other(one, other, &NUMBERS)
}

/// The first of some numbers whose supplements differ.
fn first_other(one: &Checked, other: &Checked, numbers: &[u8]) -> Option<u8>
    ensures { result ≡ find (λ number. not (is_same_supplement (supplement_of (tree_of one.now).lines number)
        (supplement_of (tree_of other.now).lines number))) numbers.now }
{
    for number in numbers {
        if !has_same_supplement(one, other, *number) {
            return Some(*number);
        }
    }
    None
}

/// Whether the supplements of a number are the same.
fn has_same_supplement(one: &Checked, other: &Checked, number: u8) -> bool
    ensures { result ≡ is_same_supplement (supplement_of (tree_of one.now).lines number)
        (supplement_of (tree_of other.now).lines number) }
{
    is_same_supplement(one.supplement(number), other.supplement(number))
}

/// Whether two supplements are the same.
fn is_same_supplement(one: Option<Supplement>, other: Option<Supplement>) -> bool
    ensures { result ≡ is_same_supplement one other }
{
    match (one, other) {
        (None, None) => true,
        (Some(s), Some(r)) => s.amount == r.amount && s.max == r.max,
        _ => false,
    }
}

/// What differs first in the contexts of a meter under two tariffs of the same positions and zones.
fn context_difference(
    alloc: Global,
    one: &Checked,
    other: &Checked,
    k: Constant,
) -> Result<Option<Difference>, NoMemory>
    requires positions { positions_of (tree_of one.now).lines ≡ positions_of (tree_of other.now).lines }
    requires zones { zones_of (tree_of one.now).lines ≡ zones_of (tree_of other.now).lines }
    ensures value { IfOk result (λ d. d
        ≡ context_difference (side_of (tree_of one.now) k) (side_of (tree_of other.now) k)) }
    ensures dated { IfOk result IsDatedOrNone }
{
    let one = Side::of(alloc, one, k)?;
    let other = Side::of(alloc, other, k)?;
    side_difference(alloc, &one, &other)
}

/// What differs first in the contexts of a meter between two sides of the same positions and zones.
fn side_difference(alloc: Global, one: &Side, other: &Side) -> Result<Option<Difference>, NoMemory>
    requires positions { one.now.tables.positions ≡ other.now.tables.positions }
    requires zones { one.now.tables.zones ≡ other.now.tables.zones }
    ensures value { IfOk result (λ d. d ≡ context_difference one.now other.now) }
    ensures dated { IfOk result IsDatedOrNone }
{
    let grid = Grid::of(alloc, one.tables(), other.tables())?;
    Ok(difference_found(one, other, &grid))
}

/// What differs first in the contexts of a grid.
fn difference_found(one: &Side, other: &Side, grid: &Grid) -> Option<Difference>
    requires grid { grid.now ≡ grid_of one.now.tables other.now.tables }
    requires both { IsGridOf one.now.tables other.now.tables grid.now }
    ensures value { result ≡ context_difference one.now other.now }
    ensures dated { IsDatedOrNone result }
{
    match first_met(one, other, grid, Question::Differs) {
        Some(m) => match part_at(one, other, &m) {
            Some(kind) => Some(Difference::In(kind, m)),
            None => None,
        },
        None => None,
    }
}
