//! The command `sealed`.
#![tactic(auto, using(call_ends::proofs::Laws::board_runs))]

ghost use Rattle.{std.specs.Prelude.{ℕ, List}, store_commands.specs.Common.{Carries, IsSeal, PrintsOut, no_files}};
ghost use Rattle.store_commands.specs.{Sealed.{sealed_command}, SealedText.{sealed_text}};

use crate::offsets::print_pairs;
use crate::sealed::open_sealed;
use crate::sealed_text::{sealed_heading, secured_line};
use call_ends::{Ended, ended_behind};
use outside::{Board, Failed, Printer, STORE_SIZE};
use seal_record::Seal;
use std::sync::ledger::Ledger;
use taxi_units::Steps;

/// Scans the store, and prints what it was sealed with. It takes no memory.
pub fn print_sealed<B: Board<STORE_SIZE, L>, L: Ledger>(
    board: &mut B,
    steps: &mut Steps<L>,
) -> Ended
    ensures { (contents : ℕ → List ℕ) → Carries (no_files contents) B.Printer sealed_command tt tt
        board.old board.new steps.old steps.new result }
{
    let store = match open_sealed(board, steps) {
        Ok(store) => store,
        Err(why) => return why,
    };
    ended_behind(print_seal(&store.1, board, steps), Ended::Done)
}

/// Prints a seal: the comments and the settings, a line for each pair of the offsets, and the date of securing.
fn print_seal<B: Printer<STORE_SIZE, L>, L: Ledger>(
    seal: &Seal,
    board: &mut B,
    steps: &mut Steps<L>,
) -> Result<(), Failed>
    requires { IsSeal seal.now }
    ensures { PrintsOut B.Printer (sealed_text seal.now) 34 board.old board.new steps.old steps.new result }
{
    let heading = sealed_heading(seal);
    board.print(heading.as_slice(), steps)?;
    print_pairs(seal.params.offsets.pairs(), board, steps)?;
    let last = secured_line(seal.params.secured);
    board.print(last.as_slice(), steps)
}
