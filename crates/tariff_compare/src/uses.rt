//! Which lines of a tariff are ever the ones that count.
ghost use Rattle.std.specs.Prelude.{◌≡◌, All, IfOk, map};
ghost use Rattle.tariff_compare.specs.{Common.{tree_of}, Grids.{IsGridOf, grid_of}, Uses.{IsDatedUse, use_of, uses_of}};

use crate::grid::Grid;
use crate::meter_context::MeterContext;
use crate::question::Question;
use crate::search::first_met;
use crate::side::Side;
use drive_modes::Constant;
use std::alloc::Global;
use tariff_check::{Checked, ChoiceKind, ChoiceLine};
use taxi_units::NoMemory;

/// A line by its number in the text and its kind, and the first context of a meter in which it counts; `None` exactly
/// if it counts in none.
#[derive(Clone, Copy)]
pub struct LineUse {
    pub line: u32,
    pub kind: ChoiceKind,
    pub first: Option<MeterContext>,
}

/// The use of each line of a sound tariff that is of a kind, under a constant, in the order of the text. That a line is
/// asked in all contexts of a meter is this project's own. `NoMemory` if memory runs out.
pub fn line_uses(alloc: Global, checked: &Checked, k: Constant) -> Result<Vec<LineUse>, NoMemory>
    ensures value { IfOk result (λ uses. uses.items ≡ uses_of (tree_of checked.now) k) }
    ensures dated { IfOk result (λ uses. All IsDatedUse uses.items) }
{
    let side = Side::of(alloc, checked, k)?;
    let grid = Grid::of(alloc, side.tables(), side.tables())?;
    uses(alloc, checked.choice_lines(), &side, &grid)
}

/// The uses of some choices.
fn uses(
    alloc: Global,
    choices: &[ChoiceLine],
    side: &Side,
    grid: &Grid,
) -> Result<Vec<LineUse>, NoMemory>
    requires grid { grid.now ≡ grid_of side.now.tables side.now.tables }
    requires both { IsGridOf side.now.tables side.now.tables grid.now }
    ensures value { IfOk result (λ uses. uses.items ≡ map (use_of side.now) choices.now) }
    ensures dated { IfOk result (λ uses. All IsDatedUse uses.items) }
{
    let mut uses = Vec::new(alloc);
    for choice in choices {
        if uses.push(use_of(choice, side, grid)).is_err() {
            return Err(NoMemory);
        }
    }
    Ok(uses)
}

/// The use of the line of a choice.
fn use_of(choice: &ChoiceLine, side: &Side, grid: &Grid) -> LineUse
    requires grid { grid.now ≡ grid_of side.now.tables side.now.tables }
    requires both { IsGridOf side.now.tables side.now.tables grid.now }
    ensures value { result ≡ use_of side.now choice.now }
    ensures dated { IsDatedUse result }
{
    let question = Question::Counts(choice.kind, choice.place_in_kind);
    LineUse {
        line: choice.line,
        kind: choice.kind,
        first: first_met(side, side, grid, question),
    }
}
