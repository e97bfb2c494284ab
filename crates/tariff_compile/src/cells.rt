//! The lines of each cell, by asking the tariff's conditions in contexts of 64 cells at a time.
ghost use Rattle.std.specs.{List.{range_with_len}, Prelude.{ℕ, ◌++◌, ◌-◌, ◌<◌, ◌≡◌, ◌≤◌, IfOk, OnOk, length, map}};
ghost use Rattle.{std.specs.Option.{ForSome}, tariff_compile.specs.Common.{place_of, tree_of}};
ghost use Rattle.tariff_compile.specs.Cells.{HasLowCuts, IsBelow, IsNarrow, bands_of, context_in};
ghost use Rattle.tariff_compile.specs.Common.{HasSoundParts, at_hiring, lists_of, own_conditions, place_number};
ghost use Rattle.tariff_compile.specs.Tables.{all_cells, lines_at};

use crate::bands::{bands_of, sizes_of};
use crate::contexts::context_in;
use crate::marking::{first_marked, marks_of_each};
use crate::parts::Bands;
use drive_modes::Constant;
use std::alloc::Global;
use tariff_calendar::Cuts;
use tariff_check::{Checked, Choice};
use tariff_tree::Context;
use taxi_units::NoMemory;

/// The lines of a cell: the places of its rate and its initial hire fee, from 0, and the number of its minimum fare,
/// from 1, or 0 if it has none.
#[derive(Clone, Copy)]
pub struct CellLines {
    pub rate: u8,
    pub initial: u8,
    pub minimum: u8,
}

impl CellLines {
    /// Takes the lines of a cell apart. It compiles only while they are three numbers and nothing else.
    fn take_apart(self) -> (u8, u8, u8) {
        let CellLines {
            rate,
            initial,
            minimum,
        } = self;
        (rate, initial, minimum)
    }
}

/// The lines of each cell. `NoMemory` if memory runs out.
pub(crate) fn all_cells(
    alloc: Global,
    checked: &Checked,
    cuts: &Cuts,
    k: Constant,
) -> Result<Vec<CellLines>, NoMemory>
    requires parts { HasSoundParts (tree_of checked.now) }
    requires cuts { cuts.now ≡ lists_of (tree_of checked.now) k }
    ensures { IfOk result (λ cells. cells.items ≡ all_cells (tree_of checked.now) k) }
{
    let sizes = sizes_of(checked.positions(), checked.zones(), cuts);
    let count = checked.cells() as usize;
    let mut cells = Vec::new(alloc);
    let mut first = 0;
    while first < count {
        let end = count.min(first + 64);
        let contexts = contexts_of(alloc, cuts, k, &sizes, first, end)?;
        push_lines(alloc, checked, contexts.as_slice(), &mut cells)?;
        first = end;
    }
    Ok(cells)
}

/// A context of each cell from the first on and before the end.
fn contexts_of(
    alloc: Global,
    cuts: &Cuts,
    k: Constant,
    sizes: &Bands,
    first: usize,
    end: usize,
) -> Result<Vec<Context>, NoMemory>
    requires low { HasLowCuts cuts.now }
    requires below { (cell : ℕ) → cell < end → IsBelow sizes.now (bands_of sizes.now cell) }
    requires narrow { (cell : ℕ) → cell < end → IsNarrow (bands_of sizes.now cell) }
    requires order { first ≤ end }
    ensures { IfOk result (λ contexts. contexts.items
        ≡ map (λ cell. context_in k cuts.now (bands_of sizes.now cell)) (range_with_len first (end - first))) }
{
    let mut contexts = Vec::new(alloc);
    for cell in first..end {
        let context = context_in(k, cuts, &bands_of(sizes, cell));
        if contexts.push(context).is_err() {
            return Err(NoMemory);
        }
    }
    Ok(contexts)
}

/// Appends the lines that hold first in each of up to 64 contexts.
fn push_lines(
    alloc: Global,
    checked: &Checked,
    contexts: &[Context],
    cells: &mut Vec<CellLines>,
) -> Result<(), NoMemory>
    requires { length contexts.now ≤ 64 }
    ensures { OnOk result (cells.new.items ≡ cells.old.items ++ map (lines_at (tree_of checked.now)) contexts.now) }
{
    let hirings = hirings(alloc, contexts)?;
    let rates = first_numbers(alloc, checked, checked.rates(), contexts)?;
    let initials = first_numbers(alloc, checked, checked.initials(), hirings.as_slice())?;
    let minimums = first_numbers(alloc, checked, checked.minimums(), hirings.as_slice())?;
    for place in 0..contexts.len() {
        let lines = CellLines {
            rate: rates.as_slice()[place].saturating_sub(1),
            initial: initials.as_slice()[place].saturating_sub(1),
            minimum: minimums.as_slice()[place],
        };
        if cells.push(lines).is_err() {
            return Err(NoMemory);
        }
    }
    Ok(())
}

/// The first of some choices that holds in each of up to 64 contexts: its number among them, from 1, or 0 if none
/// holds.
fn first_numbers<V>(
    alloc: Global,
    checked: &Checked,
    choices: &[Choice<V>],
    contexts: &[Context],
) -> Result<Vec<u8>, NoMemory>
    requires contexts { length contexts.now ≤ 64 }
    requires choices { length choices.now ≤ 64 }
    ensures { IfOk result (λ numbers. numbers.items ≡ map
        (λ x. place_number (place_of x (own_conditions (tree_of checked.now).lines choices.now))) contexts.now) }
{
    let marks = marks_of_each(alloc, checked, choices, contexts)?;
    let mut numbers = Vec::new(alloc);
    for place in 0..contexts.len() {
        let first = first_marked(marks.as_slice(), place);
        if numbers.push(place_number(first)).is_err() {
            return Err(NoMemory);
        }
    }
    Ok(numbers)
}

/// Contexts at the hiring, with no pulse and no tick of the trip.
fn hirings(alloc: Global, contexts: &[Context]) -> Result<Vec<Context>, NoMemory>
    ensures { IfOk result (λ hirings. hirings.items ≡ map at_hiring contexts.now) }
{
    let mut hirings = Vec::new(alloc);
    for x in contexts {
        let hiring = Context {
            pulses: 0,
            ticks: 0,
            ..*x
        };
        if hirings.push(hiring).is_err() {
            return Err(NoMemory);
        }
    }
    Ok(hirings)
}

/// The number of a place, from 1; 0 if there is none.
fn place_number(place: Option<usize>) -> u8
    requires { ForSome place (λ p. p < 255) }
    ensures { result ≡ place_number place }
{
    match place {
        Some(place) => place as u8 + 1,
        None => 0,
    }
}
