//! Prints what a command has made.
ghost use Rattle.std.specs.Prelude.{◌≡◌, ◌≢◌, length};
ghost use Rattle.call_ends.specs.{Making.{Prints, end_made, end_printed, text_made}, Pieces.{pieces_of}};

use crate::ending::Ended;
use crate::pieces::print_text;
use outside::{Failed, Printer, STORE_SIZE};
use std::sync::ledger::Ledger;
use taxi_units::Steps;

/// What a command has made: the text that it prints, and how it ends behind it.
#[derive(Drop)]
pub struct Made {
    pub text: Vec<u8>,
    pub ended: Ended,
}

/// How a command ended that printed its text, or whose board failed.
pub fn ended_behind(printed: Result<(), Failed>, ended: Ended) -> Ended
    ensures { result ≡ end_printed printed ended }
{
    match printed {
        Ok(()) => ended,
        Err(_) => Ended::BoardFault,
    }
}

/// Prints what a command has made, and gives how it ended. It prints nothing if nothing was made.
pub fn print_made<B: Printer<STORE_SIZE, L>, L: Ledger>(
    made: Result<Made, Ended>,
    board: &mut B,
    steps: &mut Steps<L>,
) -> Ended
    ensures { end_made made ≢ Ended.BoardFault → Prints B.Printer (text_made made) (pieces_of (length (text_made made)))
        (end_made made) board.old board.new steps.old steps.new result }
{
    let made = match made {
        Ok(made) => made,
        Err(why) => return why,
    };
    ended_behind(print_text(made.text.as_slice(), board, steps), made.ended)
}
