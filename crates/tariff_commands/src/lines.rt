//! The command `lines`.
ghost use Rattle.{std.specs.Prelude.{ℕ, List}, tariff_commands.specs.Lines.{lines_answer, lines_command}};
ghost use Rattle.tariff_commands.specs.Common.{Carries, IsMade, Makes, end_made, tariff_in, text_made};

use call_ends::{Ended, Made, print_made, refused_by, tariff_of_text, text_of_word};
use drive_modes::Constant;
use outside::{Files, Printer, STORE_SIZE};
use std::alloc::Global;
use std::sync::ledger::Ledger;
use tariff_compare::{line_uses, print_uses};
use taxi_units::Steps;

/// Prints for each line of the tariff of word 1 whether it ever counts under a constant.
pub fn print_lines<F: Files, B: Printer<STORE_SIZE, L>, L: Ledger>(
    alloc: Global,
    constant: Constant,
    files: &mut F,
    board: &mut B,
    steps: &mut Steps<L>,
) -> Ended
    ensures { Carries F.Files B.Printer (lines_command constant) files.old files.new board.old board.new
        steps.old steps.new result }
{
    print_made(list_of_word(alloc, files, constant), board, steps)
}

/// The text of the lines of a text's tariff.
fn list_of_text(alloc: Global, text: &[u8], constant: Constant) -> Result<Made, Ended>
    ensures { IsMade (lines_answer constant (tariff_in text.now)) result }
{
    let checked = match tariff_of_text(alloc, text) {
        Ok(checked) => checked,
        Err(fault) => return Err(refused_by(fault)),
    };
    let uses = match line_uses(alloc, &checked, constant) {
        Ok(uses) => uses,
        Err(_) => return Err(Ended::NoMemory),
    };
    match print_uses(alloc, uses.as_slice()) {
        Ok(text) => Ok(Made {
            text,
            ended: Ended::Done,
        }),
        Err(_) => Err(Ended::NoMemory),
    }
}

/// Reads the tariff of word 1, and gives the text of its lines. Nothing is left of the text, nor of the tree.
fn list_of_word<F: Files>(alloc: Global, files: &mut F, constant: Constant) -> Result<Made, Ended>
    ensures { (image : List ℕ) → Makes F.Files (lines_command constant) image files.old files.new
        (text_made result) (end_made result) }
{
    match text_of_word(alloc, files, 1) {
        Ok(text) => list_of_text(alloc, text.as_slice(), constant),
        Err(fault) => Err(refused_by(fault)),
    }
}
