//! The command `form`.
ghost use Rattle.std.specs.Prelude.{ℕ, ◌≡◌, ◌≤◌, List};
ghost use Rattle.tariff_commands.specs.Common.{Carries, IsMade, Makes, end_made, printed_form, shows, text_made};
ghost use Rattle.tariff_commands.specs.{Common.{tree_of}, Form.{form_answer, form_command, tree_in}};
ghost use Rattle.tariff_commands.specs.FormSteps.{ended_unparsed};

use call_ends::{Ended, Made, Refusal, print_made, refused_by, text_of_word};
use outside::{Files, Printer, STORE_SIZE};
use std::alloc::Global;
use std::sync::ledger::Ledger;
use tariff_syntax::{ParseFault, parse, print};
use tariff_tree::Tariff;
use taxi_units::Steps;

/// Prints the printed form of the tariff of word 1, sound or not.
pub fn print_form<F: Files, B: Printer<STORE_SIZE, L>, L: Ledger>(
    alloc: Global,
    files: &mut F,
    board: &mut B,
    steps: &mut Steps<L>,
) -> Ended
    ensures { Carries F.Files B.Printer form_command files.old files.new board.old board.new
        steps.old steps.new result }
{
    print_made(form_of_word(alloc, files), board, steps)
}

/// The printed form of a text's tariff.
fn form_of_text(alloc: Global, text: &[u8]) -> Result<Made, Ended>
    ensures { IsMade (form_answer (tree_in text.now)) result }
{
    match parse(alloc, text) {
        Ok(tariff) => form_of(alloc, &tariff),
        Err(fault) => Err(unparsed(fault)),
    }
}

/// The printed form of a tariff.
fn form_of(alloc: Global, tariff: &Tariff) -> Result<Made, Ended>
    requires { tariff.now.decimals ≤ 3 }
    ensures { IsMade (shows (printed_form (tree_of tariff.now))) result }
{
    match print(alloc, tariff) {
        Ok(text) => Ok(Made {
            text,
            ended: Ended::Done,
        }),
        Err(_) => Err(Ended::NoMemory),
    }
}

/// How the command ended whose text has no tariff.
fn unparsed(fault: ParseFault) -> Ended
    ensures { result ≡ ended_unparsed fault }
{
    match fault {
        ParseFault::TooLong => Ended::BadTariff(Refusal::TooLong),
        ParseFault::Syntax { line } => Ended::BadTariff(Refusal::Syntax(line)),
        ParseFault::NoMemory => Ended::NoMemory,
    }
}

/// Reads the tariff of word 1, and gives its printed form. Nothing is left of the text, nor of the tree.
fn form_of_word<F: Files>(alloc: Global, files: &mut F) -> Result<Made, Ended>
    ensures { (image : List ℕ) → Makes F.Files form_command image files.old files.new
        (text_made result) (end_made result) }
{
    match text_of_word(alloc, files, 1) {
        Ok(text) => form_of_text(alloc, text.as_slice()),
        Err(fault) => Err(refused_by(fault)),
    }
}
