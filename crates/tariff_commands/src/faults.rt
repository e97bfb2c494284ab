//! The command `faults`.
ghost use Rattle.{std.specs.List.{Contains, slice_get}, tariff_tree.specs.Writable.{IsWritable}};
ghost use Rattle.std.specs.Prelude.{[], ℕ, ◌++◌, ◌<◌, ◌↔◌, ◌≡◌, ◌≤◌, Err, IfOk, List, OnOk, Some, length, map};
ghost use Rattle.tariff_syntax.specs.Formless.{HasNoForm};
ghost use Rattle.tariff_commands.specs.{Check.{check_answer}, Common.{end_made, tariff_in, text_made, tree_of}};
ghost use Rattle.tariff_commands.specs.Common.{Carries, HasTariff, Makes, Syntax, TooLong, Unsound, bad_tariff_line};
ghost use Rattle.tariff_commands.specs.Faults.{faults_command, faults_in, refusal_lines, refusals_in};
ghost use Rattle.tariff_commands.specs.FaultsSteps.{IsFoundIn, IsFoundOf, found_end, found_text};

use call_ends::{Ended, Made, Refusal, TextFault, bad_tariff_line, print_made, text_of_word};
use outside::{Files, Printer, STORE_SIZE};
use std::alloc::{AllocError, Global};
use std::sync::ledger::Ledger;
use tariff_check::{CheckFault, check, faults};
use tariff_syntax::{ParseFault, bad_lines, parse};
use tariff_tree::Tariff;
use taxi_units::{NoMemory, Steps};

/// What is found of a tariff.
#[derive(Drop)]
pub enum Found {
    /// It is sound, with this number of cells and this common measure.
    Sound(u64, u64),
    /// It isn't, and these are the lines of its faults.
    Faults(Vec<u8>),
}

/// Prints a line for each fault of the tariff of word 1, or that it is sound. It takes no memory after a line is
/// printed.
pub fn print_faults<F: Files, B: Printer<STORE_SIZE, L>, L: Ledger>(
    alloc: Global,
    files: &mut F,
    board: &mut B,
    steps: &mut Steps<L>,
) -> Ended
    ensures { Carries F.Files B.Printer faults_command files.old files.new board.old board.new
        steps.old steps.new result }
{
    print_made(found_in_word(alloc, files), board, steps)
}

/// Reads the tariff of word 1, and gives what is printed of it. Nothing is left of the text, nor of the tree.
fn found_in_word<F: Files>(alloc: Global, files: &mut F) -> Result<Made, Ended>
    ensures { (image : List ℕ) → Makes F.Files faults_command image files.old files.new
        (text_made result) (end_made result) }
{
    match text_of_word(alloc, files, 1) {
        Ok(text) => match found_in_text(alloc, text.as_slice()) {
            Ok(found) => Ok(made_of(alloc, found)),
            Err(_) => Err(Ended::NoMemory),
        },
        Err(TextFault::ReadFault) => Err(Ended::ReadFault),
        Err(TextFault::Refused(_)) => match long_line(alloc) {
            Ok(text) => Ok(Made {
                text,
                ended: Ended::Faulty,
            }),
            Err(_) => Err(Ended::NoMemory),
        },
        Err(TextFault::NoMemory) => Err(Ended::NoMemory),
    }
}

/// What is printed of what was found.
fn made_of(alloc: Global, found: Found) -> Made
    ensures text { result.text.items ≡ found_text found }
    ensures ended { result.ended ≡ found_end found }
{
    match found {
        Found::Sound(cells, measure) => Made {
            text: Vec::new(alloc),
            ended: Ended::Sound(cells, measure),
        },
        Found::Faults(text) => Made {
            text,
            ended: Ended::Faulty,
        },
    }
}

/// What is found of a text.
fn found_in_text(alloc: Global, text: &[u8]) -> Result<Found, NoMemory>
    ensures { IfOk result (IsFoundIn text.now) }
{
    match parse(alloc, text) {
        Ok(tariff) => found_in_tariff(alloc, tariff),
        Err(ParseFault::TooLong) => match long_line(alloc) {
            Ok(line) => Ok(Found::Faults(line)),
            Err(_) => Err(NoMemory),
        },
        Err(ParseFault::Syntax { .. }) => {
            let numbers = bad_lines(alloc, text)?;
            match syntax_lines(alloc, numbers.as_slice()) {
                Ok(lines) => Ok(Found::Faults(lines)),
                Err(_) => Err(NoMemory),
            }
        }
        Err(ParseFault::NoMemory) => Err(NoMemory),
    }
}

/// What is found of a tariff that was parsed.
fn found_in_tariff(alloc: Global, tariff: Tariff) -> Result<Found, NoMemory>
    requires { IsWritable (tree_of tariff) }
    ensures { IfOk result (IsFoundOf (tree_of tariff)) }
{
    let faults = faults(alloc, &tariff)?;
    if faults.is_empty() {
        return match check(alloc, tariff) {
            Ok(checked) => Ok(Found::Sound(checked.cells(), checked.measure())),
            // No tariff has the fault `NoMemory`: memory ran out.
            Err(_) => Err(NoMemory),
        };
    }
    match fault_lines(alloc, faults.as_slice()) {
        Ok(lines) => Ok(Found::Faults(lines)),
        Err(_) => Err(NoMemory),
    }
}

/// The line of a text that is too long.
fn long_line(alloc: Global) -> Result<Vec<u8>, AllocError>
    ensures { IfOk result (λ line. line.items ≡ bad_tariff_line TooLong) }
{
    let mut line = Vec::new(alloc);
    push_line(&mut line, Refusal::TooLong)?;
    Ok(line)
}

/// The lines that name a text's bad lines.
fn syntax_lines(alloc: Global, numbers: &[u32]) -> Result<Vec<u8>, AllocError>
    ensures { IfOk result (λ lines. lines.items ≡ refusal_lines (map Syntax numbers.now)) }
{
    let mut lines = Vec::new(alloc);
    for number in numbers {
        push_line(&mut lines, Refusal::Syntax(*number))?;
    }
    Ok(lines)
}

/// The lines of faults of a tariff.
fn fault_lines(alloc: Global, faults: &[CheckFault]) -> Result<Vec<u8>, AllocError>
    ensures { IfOk result (λ lines. lines.items ≡ refusal_lines (map Unsound faults.now)) }
{
    let mut lines = Vec::new(alloc);
    for fault in faults {
        push_line(&mut lines, Refusal::Unsound(*fault))?;
    }
    Ok(lines)
}

/// Appends the line of a refusal.
fn push_line(lines: &mut Vec<u8>, why: Refusal) -> Result<(), AllocError>
    ensures { OnOk result (lines.new.items ≡ lines.old.items ++ bad_tariff_line why) }
{
    let line = bad_tariff_line(why);
    lines.extend_from_slice(line.as_slice())
}

/// A law: what `faults` prints of a text begins with the line of `check`, and has the same status; for a sound tariff
/// it is that line alone. A text has refusals exactly if it has no sound tariff, and the first is the one that `check`
/// names. A line is among them as `Syntax` exactly if it has no form.
pub fn faults_begin_with_the_line_of_check()
    ensures status { (text : List ℕ) → (faults_in text).status ≡ (check_answer (tariff_in text)).status }
    ensures begins { (text : List ℕ) → (rest : List ℕ)
        × ((faults_in text).shown ++ (faults_in text).line ≡ (check_answer (tariff_in text)).line ++ rest) }
    ensures sound { (text : List ℕ) → HasTariff text → faults_in text ≡ check_answer (tariff_in text) }
    ensures none { (text : List ℕ) → (refusals_in text ≡ []) ↔ HasTariff text }
    ensures first { (text : List ℕ) (why : Refusal) → tariff_in text ≡ Err why
        → slice_get (refusals_in text) 0 ≡ Some why }
    ensures syntax { (text : List ℕ) (line : ℕ) → length text ≤ 65536
        → HasNoForm text line ↔ Contains (refusals_in text) (Syntax line) }
{}
