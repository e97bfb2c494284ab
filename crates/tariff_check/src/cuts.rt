//! The cuts of a tariff.
ghost use Rattle.std.specs.{BTreeSet.{insert_key}, List.{flat_map}, Ordering.{nat_cmp}, Prelude.{◌≡◌, IfOk, OnOk, map}};
ghost use Rattle.tariff_check.specs.{Common.{condition_of, entry_of, line_of, tree_of}, Lines.{atoms_in, atoms_of}};
ghost use Rattle.tariff_check.specs.Cuts.{atom_cuts, count_of, cuts_of, with_each};

use crate::atom_cuts::atom_cuts;
use crate::checked::Checked;
use crate::choice::condition;
use crate::fault::Dimension;
use std::alloc::{AllocError, Global};
use std::collections::BTreeSet;
use tariff_tree::{Cond, Item, TariffLine};
use taxi_units::NoMemory;

/// The different numbers with which the conditions of a tariff compare in a dimension, in order: places in a leap year,
/// minutes of the day, decimetres or tenths of a second. `NoMemory`: memory runs out.
pub fn cut_values(
    alloc: Global,
    checked: &Checked,
    dimension: Dimension,
) -> Result<Vec<u64>, NoMemory>
    ensures { IfOk result (λ v. v.items ≡ cuts_of dimension (tree_of checked.now).lines) }
{
    let cuts = cuts(alloc, checked.tariff().lines.as_slice(), dimension)?;
    let values: Result<Vec<u64>, AllocError> = cuts.into_iter().collect(alloc);
    values.map_err(|_| NoMemory)
}

/// The different cuts of some lines in a dimension.
pub(crate) fn cuts(
    alloc: Global,
    lines: &[TariffLine],
    dimension: Dimension,
) -> Result<BTreeSet<u64>, NoMemory>
    ensures { IfOk result (λ s. s.keys ≡ cuts_of dimension (map line_of lines.now)) }
{
    let mut cuts = BTreeSet::new(alloc);
    for line in lines {
        add_line(&mut cuts, dimension, &line.item)?;
    }
    Ok(cuts)
}

/// How many cuts some lines have in a dimension. `NoMemory` also if 32 bits don't count them, which takes more than 32
/// GiB.
pub(crate) fn cut_count(
    alloc: Global,
    lines: &[TariffLine],
    dimension: Dimension,
) -> Result<u32, NoMemory>
    ensures { IfOk result (λ n. n ≡ count_of dimension (map line_of lines.now)) }
{
    let count = cuts(alloc, lines, dimension)?.len();
    if count > u32::MAX as usize {
        return Err(NoMemory);
    }
    Ok(count as u32)
}

/// Puts the cuts of a line among others.
fn add_line(cuts: &mut BTreeSet<u64>, dimension: Dimension, item: &Item) -> Result<(), NoMemory>
    ensures { OnOk result (cuts.new.keys ≡ with_each cuts.old.keys (flat_map (atom_cuts dimension) (atoms_in
        (entry_of item.now)))) }
{
    match condition(item) {
        Some(cond) => add_condition(cuts, dimension, cond),
        None => Ok(()),
    }
}

/// Puts the cuts of a condition among others.
fn add_condition(
    cuts: &mut BTreeSet<u64>,
    dimension: Dimension,
    cond: &Cond,
) -> Result<(), NoMemory>
    ensures { OnOk result (cuts.new.keys ≡ with_each cuts.old.keys (flat_map (atom_cuts dimension) (atoms_of
        (condition_of cond.now)))) }
{
    match cond {
        Cond::And(left, right) => {
            add_condition(cuts, dimension, left)?;
            add_condition(cuts, dimension, right)
        }
        Cond::Or(left, right) => {
            add_condition(cuts, dimension, left)?;
            add_condition(cuts, dimension, right)
        }
        Cond::Not(inner) => add_condition(cuts, dimension, inner),
        _ => add_atom(cuts, dimension, cond),
    }
}

/// Puts the cuts of an atom among others.
fn add_atom(cuts: &mut BTreeSet<u64>, dimension: Dimension, cond: &Cond) -> Result<(), NoMemory>
    ensures { OnOk result (cuts.new.keys ≡ with_each cuts.old.keys (atom_cuts dimension (condition_of cond.now))) }
{
    let (first, second) = atom_cuts(dimension, cond);
    if let Some(cut) = first {
        add(cuts, cut)?;
    }
    if let Some(cut) = second {
        add(cuts, cut)?;
    }
    Ok(())
}

/// Puts a cut among others.
fn add(cuts: &mut BTreeSet<u64>, cut: u64) -> Result<(), NoMemory>
    ensures { OnOk result (cuts.new.keys ≡ insert_key nat_cmp cuts.old.keys cut) }
{
    cuts.insert(cut).map_err(|_| NoMemory)?;
    Ok(())
}
