//! The text of what differs first between two tariffs.
ghost use Rattle.std.specs.Prelude.{[], ◌++◌, ◌≡◌, ◌≤◌, IfOk, OnOk, Some, decimal};
ghost use Rattle.tariff_tree.specs.Tree.{line_of};
ghost use Rattle.tariff_compare.specs.{Common.{tree_of}, DifferenceTexts.{line_text, part_text, side_text}};
ghost use Rattle.tariff_compare.specs.DifferenceTexts.{IsDatedDifference, IsDatedOrNone, comparison_text, default_text};

use crate::difference::Difference;
use crate::difference_lines::line_of_difference;
use crate::kinds::push_part_word;
use crate::texts::{push_context, push_decimal};
use drive_modes::Constant;
use std::alloc::{AllocError, Global};
use tariff_check::Checked;
use tariff_syntax::print_line;
use tariff_tree::TariffLine;
use taxi_units::NoMemory;

/// The text of what differs between two tariffs under a constant. It is `SAME`, or `DIFFERENT` with what differs and
/// the line of each tariff that says it: its number, and its text up to `when`. If no line says it, the number is 0,
/// and behind it stands what holds then. The form is this project's own. `NoMemory` if memory runs out.
pub fn print_difference(
    alloc: Global,
    one: &Checked,
    other: &Checked,
    k: Constant,
    difference: &Option<Difference>,
) -> Result<Vec<u8>, NoMemory>
    requires { IsDatedOrNone difference.now }
    ensures { IfOk result (λ text. text.items
        ≡ comparison_text (tree_of one.now) (tree_of other.now) k difference.now) }
{
    let mut text = Vec::new(alloc);
    match push_comparison(alloc, &mut text, one, other, k, difference) {
        Ok(()) => Ok(text),
        Err(_) => Err(NoMemory),
    }
}

/// What differs between two tariffs, if anything does.
fn push_comparison(
    alloc: Global,
    text: &mut Vec<u8>,
    one: &Checked,
    other: &Checked,
    k: Constant,
    difference: &Option<Difference>,
) -> Result<(), AllocError>
    requires { IsDatedOrNone difference.now }
    ensures { OnOk result (text.new.items ≡ text.old.items
        ++ comparison_text (tree_of one.now) (tree_of other.now) k difference.now) }
{
    match difference {
        None => text.extend_from_slice(b"SAME\n"),
        Some(difference) => {
            text.extend_from_slice(b"DIFFERENT ")?;
            push_part(text, difference)?;
            text.push(b'\n')?;
            push_side(alloc, text, one, k, difference)?;
            push_side(alloc, text, other, k, difference)
        }
    }
}

/// What differs.
fn push_part(text: &mut Vec<u8>, difference: &Difference) -> Result<(), AllocError>
    requires { IsDatedDifference difference.now }
    ensures { OnOk result (text.new.items ≡ text.old.items ++ part_text difference.now) }
{
    match difference {
        Difference::Decimals => text.extend_from_slice(b"DECIMALS"),
        Difference::Step => text.extend_from_slice(b"STEP"),
        Difference::Rounded => text.extend_from_slice(b"ROUNDING"),
        Difference::Positions => text.extend_from_slice(b"POSITIONS"),
        Difference::Zones => text.extend_from_slice(b"ZONES"),
        Difference::Supplement(number) => push_named(text, b"SUPPLEMENT ", *number),
        Difference::In(kind, m) => {
            push_part_word(text, *kind)?;
            push_context(text, *kind, m)
        }
    }
}

/// A name and a number.
fn push_named(text: &mut Vec<u8>, name: &[u8], number: u8) -> Result<(), AllocError>
    ensures { OnOk result (text.new.items ≡ text.old.items ++ (name.now ++ decimal number)) }
{
    text.extend_from_slice(name)?;
    push_decimal(text, number as u64)
}

/// A tariff's line of what differs.
#[tactic(auto, unfolding(tariff_syntax::specs::Printed::number_line))]
fn push_side(
    alloc: Global,
    text: &mut Vec<u8>,
    checked: &Checked,
    k: Constant,
    difference: &Difference,
) -> Result<(), AllocError>
    requires { IsDatedDifference difference.now }
    ensures { OnOk result (text.new.items ≡ text.old.items ++ side_text (tree_of checked.now) k difference.now) }
{
    let decimals = checked.decimals();
    match difference {
        Difference::Decimals => {
            text.extend_from_slice(b"decimals ")?;
            push_decimal(text, decimals as u64)?;
            text.extend_from_slice(b"\n")
        }
        said => match line_of_difference(checked, k, said) {
            Some(line) => push_line(alloc, text, decimals, line),
            None => push_default(text, said),
        },
    }
}

/// A line by its number and its printed form up to `when`.
fn push_line(
    alloc: Global,
    text: &mut Vec<u8>,
    decimals: u8,
    line: &TariffLine,
) -> Result<(), AllocError>
    requires { decimals ≤ 3 }
    ensures { OnOk result (text.new.items ≡ text.old.items ++ line_text decimals [] (Some (line_of line.now))) }
{
    push_decimal(text, line.line as u64)?;
    text.push(b' ')?;
    match print_line(alloc, decimals, &line.item) {
        Ok(form) => text.extend_from_slice(form.as_slice()),
        Err(_) => Err(AllocError),
    }
}

/// What holds if no line says what differs.
fn push_default(text: &mut Vec<u8>, difference: &Difference) -> Result<(), AllocError>
    ensures { OnOk result (text.new.items ≡ text.old.items ++ default_text difference.now) }
{
    match difference {
        Difference::Positions => text.extend_from_slice(b"0 positions 1\n"),
        Difference::Zones => text.extend_from_slice(b"0 zones 1\n"),
        _ => text.extend_from_slice(b"0 none\n"),
    }
}
