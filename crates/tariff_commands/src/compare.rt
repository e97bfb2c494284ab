//! The command `compare`.
ghost use Rattle.std.specs.Prelude.{ℕ, ◌≡◌, IfOk, List, is_some};
ghost use Rattle.tariff_compare.specs.{DifferenceTexts.{comparison_text}, Differences.{difference_of}};
ghost use Rattle.tariff_commands.specs.Common.{Carries, Makes, end_made, text_made, tree_of};
ghost use Rattle.tariff_commands.specs.{Compare.{compare_command}, CompareSteps.{ended_comparing, ended_for_other}};

use call_ends::{Ended, Made, TextFault, print_made, read_tariff, refused_by};
use drive_modes::Constant;
use outside::{Files, Printer, STORE_SIZE};
use std::alloc::Global;
use std::sync::ledger::Ledger;
use tariff_check::Checked;
use tariff_compare::{first_difference, print_difference};
use taxi_units::{NoMemory, Steps};

/// Prints what differs first under a constant between the tariffs of words 1 and 2. It prints nothing before it has
/// read both, word 1 first.
pub fn print_comparison<F: Files, B: Printer<STORE_SIZE, L>, L: Ledger>(
    alloc: Global,
    constant: Constant,
    files: &mut F,
    board: &mut B,
    steps: &mut Steps<L>,
) -> Ended
    ensures { Carries F.Files B.Printer (compare_command constant) files.old files.new board.old board.new
        steps.old steps.new result }
{
    print_made(compare_words(alloc, files, constant), board, steps)
}

/// How the command ended that printed a comparison.
fn compared(differ: bool) -> Ended
    ensures { result ≡ ended_comparing differ }
{
    if differ {
        Ended::Different
    } else {
        Ended::Done
    }
}

/// How the command ended that couldn't read its other tariff.
fn refused_other(fault: TextFault) -> Ended
    ensures { result ≡ ended_for_other fault }
{
    match fault {
        TextFault::ReadFault => Ended::ReadFault,
        TextFault::Refused(why) => Ended::BadOther(why),
        TextFault::NoMemory => Ended::NoMemory,
    }
}

/// Compares the tariffs of words 1 and 2 under a constant. It reads word 1 first, and word 2 only if that is sound.
fn compare_words<F: Files>(alloc: Global, files: &mut F, constant: Constant) -> Result<Made, Ended>
    ensures { (image : List ℕ) → Makes F.Files (compare_command constant) image files.old files.new
        (text_made result) (end_made result) }
{
    let one = match read_tariff(alloc, files, 1) {
        Ok(one) => one,
        Err(fault) => return Err(refused_by(fault)),
    };
    let other = match read_tariff(alloc, files, 2) {
        Ok(other) => other,
        Err(fault) => return Err(refused_other(fault)),
    };
    match compare(alloc, &one, &other, constant) {
        Ok(made) => Ok(made),
        Err(_) => Err(Ended::NoMemory),
    }
}

/// Compares two tariffs under a constant.
fn compare(
    alloc: Global,
    one: &Checked,
    other: &Checked,
    constant: Constant,
) -> Result<Made, NoMemory>
    ensures text { IfOk result (λ made. made.text.items ≡ comparison_text (tree_of one.now) (tree_of other.now) constant
        (difference_of (tree_of one.now) (tree_of other.now) constant)) }
    ensures ended { IfOk result (λ made. made.ended
        ≡ ended_comparing (is_some (difference_of (tree_of one.now) (tree_of other.now) constant))) }
{
    let difference = first_difference(alloc, one, other, constant)?;
    let text = print_difference(alloc, one, other, constant, &difference)?;
    let ended = compared(difference.is_some());
    Ok(Made { text, ended })
}
