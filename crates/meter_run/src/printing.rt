//! Prints displays, refusals and receipts.
ghost use Rattle.std.specs.Prelude.{◌+◌, ◌<◌, ◌≤◌, length};
ghost use Rattle.{taxi_units.specs.Shown.{IsReceipt}, outside.specs.Disk.{piece_size}};
ghost use Rattle.{receipt_text.specs.Receipts.{receipt_text}, meter_run.specs.PrintedText.{PrintsText}};
ghost use Rattle.meter_run.specs.Common.{IsSeal, IsShown, display_text, part_of_seal, refusal_text};

use outside::{Failed, Printer, STORE_SIZE};
use receipt_text::{put_display, put_receipt, put_refusal};
use seal_record::Seal;
use std::sync::ledger::Ledger;
use taxi_units::{Display, Line, Receipt, Steps, Why};

/// Prints a text of 1 to 512 bytes.
fn print_text<B: Printer<STORE_SIZE, L>, L: Ledger>(
    text: &[u8],
    board: &mut B,
    steps: &mut Steps<L>,
) -> Result<(), Failed>
    requires some { 0 < length text.now }
    requires few { length text.now ≤ piece_size }
    ensures printed { PrintsText B.Printer board.old text.now board.new result }
    ensures steps { steps.new ≤ steps.old + 1 }
{
    board.print(text, steps)
}

/// Prints the line of a display.
pub(crate) fn print_display<B: Printer<STORE_SIZE, L>, L: Ledger>(
    display: &Display,
    board: &mut B,
    steps: &mut Steps<L>,
) -> Result<(), Failed>
    requires { IsShown display.now }
    ensures printed { PrintsText B.Printer board.old (display_text display.now) board.new result }
    ensures steps { steps.new ≤ steps.old + 1 }
{
    let mut line = Line::new();
    put_display(&mut line, display).unwrap();
    print_text(line.as_slice(), board, steps)
}

/// Prints the line of a refusal.
pub(crate) fn print_refusal<B: Printer<STORE_SIZE, L>, L: Ledger>(
    why: Why,
    board: &mut B,
    steps: &mut Steps<L>,
) -> Result<(), Failed>
    ensures printed { PrintsText B.Printer board.old (refusal_text why) board.new result }
    ensures steps { steps.new ≤ steps.old + 1 }
{
    let mut line = Line::new();
    put_refusal(&mut line, why).unwrap();
    print_text(line.as_slice(), board, steps)
}

/// Prints a receipt under a seal.
pub(crate) fn print_receipt<B: Printer<STORE_SIZE, L>, L: Ledger>(
    receipt: &Receipt,
    seal: &Seal,
    board: &mut B,
    steps: &mut Steps<L>,
) -> Result<(), Failed>
    requires receipt { IsReceipt receipt.now }
    requires seal { IsSeal seal.now }
    ensures printed { PrintsText B.Printer board.old (receipt_text receipt.now
        (part_of_seal seal.now)) board.new result }
    ensures steps { steps.new ≤ steps.old + 1 }
{
    let mut line = Line::new();
    put_receipt(&mut line, receipt, seal).unwrap();
    print_text(line.as_slice(), board, steps)
}
