//! The command `shifts`.
ghost use Rattle.std.specs.Prelude.{ℕ, ◌*◌, ◌+◌, ◌≡◌, ◌≤◌, List, Ok, length};
ghost use Rattle.{call_ends.specs.Making.{IsMade}, store_commands.specs.Opening.{opening_in, store_of}};
ghost use Rattle.store_commands.specs.{Common.{Carries, Makes, book_read, end_made, text_made}, Opened.{also_told}};
ghost use Rattle.store_commands.specs.Shifts.{ended_for_book, reported, shifts_command};

use crate::sealed::open_sealed;
use call_ends::{Ended, Made, print_made};
use outside::{Board, Files, STORE_SIZE, TextFault, read_text};
use seal_record::Seal;
use shift_book::{BookFault, read_book, shifts};
use std::alloc::Global;
use std::sync::ledger::Ledger;
use taxi_units::Steps;
use totals_record::Durable;

/// How many bytes a book has at most.
const MOST: usize = 1_048_576;

/// Scans the store, reads the book of word 1, and prints its report. It makes the whole report in memory first.
pub fn print_shifts<F: Files, B: Board<STORE_SIZE, L>, L: Ledger>(
    alloc: Global,
    files: &mut F,
    board: &mut B,
    steps: &mut Steps<L>,
) -> Ended
    ensures { Carries F.Files B.Printer shifts_command files.old files.new board.old board.new
        steps.old steps.new result }
{
    let store = match open_sealed(board, steps) {
        Ok(store) => store,
        Err(why) => return why,
    };
    let report = report_of_word(alloc, files, &store);
    print_made(report, board, steps)
}

/// How the command ended by the fault of its book.
fn refused_book(fault: BookFault) -> Ended
    ensures { result ≡ ended_for_book fault }
{
    match fault {
        BookFault::TooLong => Ended::LongBook,
        BookFault::BadLine(line) => Ended::BadBook(line),
        BookFault::NoMemory => Ended::NoMemory,
    }
}

/// Reads the book of word 1 beside what a store holds, and makes its report.
fn report_of_word<F: Files>(
    alloc: Global,
    files: &mut F,
    store: &(Durable, Seal),
) -> Result<Made, Ended>
    requires { store.now.1.decimals ≤ 3 }
    ensures makes { (image : List ℕ) → Makes (also_told F.Files (store_of (opening_in image) ≡ Ok store.now))
        shifts_command image files.old files.new (text_made result) (end_made result) }
    ensures short { F.tells → length (text_made result) ≤ 1024 * (length (F.rest files.old 1) + 1) }
{
    match read_text(alloc, files, 1, MOST) {
        Ok(text) => report_of_text(alloc, text.as_slice(), store),
        Err(TextFault::TooLong) => Err(Ended::LongBook),
        Err(TextFault::DeviceFailed) => Err(Ended::ReadFault),
        Err(TextFault::NoMemory) => Err(Ended::NoMemory),
    }
}

/// The report of the book of a text beside what a store holds.
fn report_of_text(alloc: Global, text: &[u8], store: &(Durable, Seal)) -> Result<Made, Ended>
    requires { store.now.1.decimals ≤ 3 }
    ensures made { IsMade (reported store.now.1.decimals store.now.0 (book_read store.now.0 text.now)) result }
    ensures short { length (text_made result) ≤ 1024 * (length text.now + 1) }
{
    let marks = match read_book(alloc, text, &store.0) {
        Ok(marks) => marks,
        Err(fault) => return Err(refused_book(fault)),
    };
    match shifts(alloc, marks.as_slice(), &store.0, store.1.decimals) {
        Ok(text) => Ok(Made {
            text,
            ended: Ended::Done,
        }),
        Err(_) => Err(Ended::NoMemory),
    }
}
