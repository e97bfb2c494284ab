//! The command `near`.
ghost use Rattle.std.specs.Prelude.{ℕ, ◌<◌, ◌≡◌, ◌≤◌, ◌⊎◌, Err, IfErr, IfOk, List, true};
ghost use Rattle.call_ends.specs.{Carried.{Carries}, Making.{Makes, end_made, text_made}};
ghost use Rattle.near_commands.specs.Common.{IsMade, IsWritable, fault_of, first_some, rates_of, tree_of};
ghost use Rattle.near_commands.specs.Near.{near_command, near_for, near_in, near_text, share_line};
ghost use Rattle.near_commands.specs.{NearSteps.{IsFault, IsNearText, ended_unparsed}, NearTariff.{other_faults}};
ghost use Rattle.near_commands.specs.NearTariff.{fit, measures_of_rates, near_measures, numbered_rates, numbers_of};

use crate::copies::{Change, copy_tariff};
use crate::nearest::Measures;
use crate::rates::{NumberedRate, greatest_share, measures_by, rates_of};
use call_ends::{Ended, Made, Refusal, print_made, refused_by, text_of_word};
use outside::{Files, Printer, STORE_SIZE};
use std::alloc::Global;
use std::sync::ledger::Ledger;
use tariff_check::{CheckFault, check};
use tariff_syntax::{ParseFault, parse, print};
use tariff_tree::Tariff;
use taxi_units::{Line, NoMemory, Steps, push_bytes, push_number};

/// Prints the tariff of word 1 with the nearest amounts for one pair of measures, so that it has a common measure.
pub fn print_near<F: Files, B: Printer<STORE_SIZE, L>, L: Ledger>(
    alloc: Global,
    files: &mut F,
    board: &mut B,
    steps: &mut Steps<L>,
) -> Ended
    ensures { Carries F.Files B.Printer near_command files.old files.new board.old board.new
        steps.old steps.new result }
{
    print_made(near_of_word(alloc, files), board, steps)
}

/// Reads the tariff of word 1, and gives its near text. Nothing is left of the text, nor of the tree.
fn near_of_word<F: Files>(alloc: Global, files: &mut F) -> Result<Made, Ended>
    ensures { (image : List ℕ) → Makes F.Files near_command image files.old files.new
        (text_made result) (end_made result) }
{
    match text_of_word(alloc, files, 1) {
        Ok(text) => near_of_text(alloc, text.as_slice()),
        Err(fault) => Err(refused_by(fault)),
    }
}

/// The near text of a text's tariff.
#[tactic(auto, using(tariff_syntax::proofs::Laws::parsed_is_writable))]
fn near_of_text(alloc: Global, text: &[u8]) -> Result<Made, Ended>
    ensures { IsMade (near_in text.now) result }
{
    match parse(alloc, text) {
        Ok(tariff) => near_of_tariff(alloc, &tariff),
        Err(fault) => Err(unparsed(fault)),
    }
}

/// How the command ended whose text has no tariff.
fn unparsed(fault: ParseFault) -> Ended
    ensures { result ≡ ended_unparsed fault }
{
    match fault {
        ParseFault::TooLong => Ended::BadTariff(Refusal::TooLong),
        ParseFault::Syntax { line } => Ended::BadTariff(Refusal::Syntax(line)),
        ParseFault::NoMemory => Ended::NoMemory,
    }
}

/// The near text of a tariff.
fn near_of_tariff(alloc: Global, tariff: &Tariff) -> Result<Made, Ended>
    requires { IsWritable (tree_of tariff.now) }
    ensures { IsMade (near_for (tree_of tariff.now) (near_measures (tree_of tariff.now))) result }
{
    match near_text(alloc, tariff) {
        Ok(text) => Ok(Made {
            text,
            ended: Ended::Done,
        }),
        Err(CheckFault::NoMemory) => Err(Ended::NoMemory),
        Err(fault) => Err(Ended::BadTariff(Refusal::Unsound(fault))),
    }
}

/// The near text of a tariff, or why it has none.
fn near_text(alloc: Global, tariff: &Tariff) -> Result<Vec<u8>, CheckFault>
    requires { IsWritable (tree_of tariff.now) }
    ensures text { IfOk result (λ text. IsNearText (tree_of tariff.now) (near_measures (tree_of tariff.now))
        text.items) }
    ensures fault { IfErr result (λ f. (f ≡ CheckFault.NoMemory) ⊎ (near_measures (tree_of tariff.now) ≡ Err f)) }
{
    if let Err(fault) = other_fault(alloc, tariff) {
        return Err(fault);
    }
    match rates_of(alloc, tariff.lines.as_slice()) {
        Ok(rates) => text_by(alloc, rates.as_slice(), tariff),
        Err(_) => Err(CheckFault::NoMemory),
    }
}

/// Looks for a fault of a tariff other than that it has no common measure; the error is the first one.
fn other_fault(alloc: Global, tariff: &Tariff) -> Result<(), CheckFault>
    requires { IsWritable (tree_of tariff.now) }
    ensures { IsFault (first_some (other_faults (tree_of tariff.now).lines)) result }
{
    match copy_tariff(alloc, Change::Plain, tariff) {
        Ok(plain) => first_fault(alloc, plain),
        Err(_) => Err(CheckFault::NoMemory),
    }
}

/// Looks for a fault of a tariff; the error is the first one.
fn first_fault(alloc: Global, tariff: Tariff) -> Result<(), CheckFault>
    requires { IsWritable (tree_of tariff) }
    ensures { IsFault (fault_of (tree_of tariff)) result }
{
    if let Err(fault) = check(alloc, tariff) {
        return Err(fault);
    }
    Ok(())
}

/// The near text of a tariff that has some rates, or why it has none.
fn text_by(alloc: Global, rates: &[NumberedRate], tariff: &Tariff) -> Result<Vec<u8>, CheckFault>
    requires rates { rates.now ≡ numbered_rates (tree_of tariff.now).lines }
    requires decimals { tariff.now.decimals ≤ 3 }
    ensures text { IfOk result (λ text. IsNearText (tree_of tariff.now) (measures_of_rates rates.now) text.items) }
    ensures fault { IfErr result (λ f. (f ≡ CheckFault.NoMemory) ⊎ (measures_of_rates rates.now ≡ Err f)) }
{
    let measures = match measures_by(rates) {
        Ok(measures) => measures,
        Err(fault) => return Err(fault),
    };
    match text_for(alloc, measures, rates, tariff) {
        Ok(text) => Ok(text),
        Err(_) => Err(CheckFault::NoMemory),
    }
}

/// The near text of a tariff for measures.
fn text_for(
    alloc: Global,
    measures: Measures,
    rates: &[NumberedRate],
    tariff: &Tariff,
) -> Result<Vec<u8>, NoMemory>
    requires rates { numbers_of rates.now ≡ rates_of (tree_of tariff.now).lines }
    requires fits { fit measures (numbers_of rates.now) ≡ true }
    requires distance { 0 < measures.distance }
    requires time { 0 < measures.time }
    requires decimals { tariff.now.decimals ≤ 3 }
    ensures { IfOk result (λ text. text.items ≡ near_text measures (tree_of tariff.now)) }
{
    let near = copy_tariff(alloc, Change::Near(measures), tariff)?;
    let form = print(alloc, &near)?;
    let mut text = Vec::new(alloc);
    let line = share_line(greatest_share(measures, rates));
    text.extend_from_slice(line.as_slice())
        .map_err(|_| NoMemory)?;
    text.extend_from_slice(form.as_slice())
        .map_err(|_| NoMemory)?;
    Ok(text)
}

/// The line of a share.
#[tactic(auto, unfolding(crate::specs::Near::share_line))]
fn share_line(share: u128) -> Line
    ensures { result.items ≡ share_line share }
{
    let mut line = Line::new();
    push_bytes(&mut line, b"# each amount is within ");
    push_number(&mut line, share);
    push_bytes(&mut line, b" in 1000000000\n");
    line
}
