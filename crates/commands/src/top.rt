//! The top call: words in, a status out.
#![tactic(auto, using(call_ends::proofs::Laws::board_runs))]

ghost use Rattle.std.specs.Prelude.{ℕ, ◌≡◌, ◌≢◌, None, Some};
ghost use Rattle.{outside.specs.{Faults.{RisesOnlyIf}, Runs.{LeavesOnly}}, call_ends.specs.Unwritten.{LeavesImage}};
ghost use Rattle.{call_ends.specs.Call.{StopsReading}, store_commands.specs.Seal.{Seals}};
ghost use Rattle.{drive_commands.specs.Run.{IsRun}, commands.specs.Carried.{CarriesRow}};
ghost use Rattle.commands.specs.Called.{ComesToAnswer, MayLeaveSealingBy, TakesSteps, called_by, row_in, sealing_by};
ghost use Rattle.commands.specs.{Command.{IsReadOnlyRow}, Common.{IsAtRest, IsCall, KeepsStore, WritesNothing}};

use crate::words::{Row, row_in};
use bench_commands::bench::bench;
use bench_commands::explain::explain;
use bench_commands::story::tell_stories;
use call_ends::{Ended, finish};
use drive_commands::fare::fare;
use drive_commands::generate::generate;
use drive_commands::run::run;
use near_commands::near::print_near;
use outside::{Board, Files, STORE_SIZE};
use rate_commands::rates::print_rates;
use std::alloc::Global;
use std::sync::ledger::Ledger;
use store_commands::mark::print_mark;
use store_commands::offsets::print_offsets;
use store_commands::port::serve_requests;
use store_commands::seal::seal_store;
use store_commands::sealed_params::print_sealed;
use store_commands::shifts::print_shifts;
use store_commands::totals::print_store;
use tariff_commands::check::check_tariff;
use tariff_commands::compare::print_comparison;
use tariff_commands::faults::print_faults;
use tariff_commands::form::print_form;
use tariff_commands::lines::print_lines;
use tariff_commands::tables::print_tables;
use taxi_units::Steps;

/// Carries out a command, but for its last line.
fn carry_out<F: Files, B: Board<STORE_SIZE, L>, L: Ledger>(
    alloc: Global,
    row: Row,
    files: &mut F,
    board: &mut B,
    steps: &mut Steps<L>,
) -> Ended
    ensures { CarriesRow F.Files B.Printer row files.old files.new board.old board.new steps.old steps.new result }
{
    match row {
        Row::Check => check_tariff(alloc, files),
        Row::Tables(k) => print_tables(alloc, k, files, board, steps),
        Row::Fare(k) => fare(alloc, k, files, board, steps),
        Row::Totals => print_store(board, steps),
        Row::Seal => seal_store(alloc, files, board, steps),
        Row::Run => run(alloc, files, board, steps),
        Row::Bench => bench(alloc, files, board, steps),
        Row::Gen(seed, trips) => generate(alloc, seed, trips.get(), board, steps),
        Row::Port => serve_requests(files, board, steps),
        Row::Offsets(years) => print_offsets(years, files, board, steps),
        Row::Mark(driver) => print_mark(driver, board, steps),
        Row::Shifts => print_shifts(alloc, files, board, steps),
        Row::Sealed => print_sealed(board, steps),
        Row::Form => print_form(alloc, files, board, steps),
        Row::Lines(k) => print_lines(alloc, k, files, board, steps),
        Row::Rates(k) => print_rates(alloc, k, files, board, steps),
        Row::Explain => explain(alloc, files, board, steps),
        Row::Story => tell_stories(alloc, files, board, steps),
        Row::Compare(k) => print_comparison(alloc, k, files, board, steps),
        Row::Faults => print_faults(alloc, files, board, steps),
        Row::Near => print_near(alloc, files, board, steps),
    }
}

/// Carries out the words of a call of the program, and gives its status. Word 0 is the command; word
/// n's file is that of place n.
///
/// The words, and what is printed if the status is 0 (for `bench` and `compare`, 0 or 11):
///
/// - `check TARIFF`: `OK CELLS n MEASURE m`, for a sound tariff
/// - `tables TARIFF CONSTANT`: the rows of its tables, with CONSTANT pulses to a kilometre
/// - `fare TARIFF DRIVE CONSTANT`: the displays and refusals of the drive under the tariff
/// - `totals`: the totals of the store
/// - `seal TARIFF PARAMS`: `SEALED n`, with the number of the seal that is put in
/// - `run TARIFF DRIVE`: the displays, refusals and receipts of the drive on the sealed store
/// - `bench TARIFF DRIVE READINGS`: the cross-over speeds of the tariff, and the report of the readings on the
///   hirings that the drive should come to on the sealed store
/// - `gen SEED N`: the totals that the generated drive of a seed and N trips comes to on a new store
/// - `port REQUESTS`: the replies to the requests, from the store
/// - `offsets RULES FROM TO`: the `offset` lines of the rules for the years from FROM to TO, at most fifteen of
///   2000 to 2199
/// - `mark on DRIVER`, `mark off`: the mark of the store as it is, by which a driver signs on, or whoever is on
///   signs off
/// - `shifts BOOK`: what the totals grew by in the shifts of a book of marks, for each driver, and while nobody
///   was on
/// - `sealed`: what the store was sealed with, as a text of parameters
/// - `form TARIFF`: the printed form of the tariff, sound or not
/// - `faults TARIFF`: as `check`, for a sound tariff; at 2 it prints a line of that status for each fault
/// - `lines TARIFF CONSTANT`: for each line of a kind of which the first that holds counts, the first context of a
///   meter in which it counts, or that it never does
/// - `rates TARIFF CONSTANT`: for each rate its cross-over speed, the pulses of an interval at it, and the most that
///   mode S can charge an even speed too much; then the nearest constants under which that is at most 10 percent
/// - `near TARIFF`: how far its amounts are off, and the tariff with the nearest amounts for one pair of measures, so
///   that it has a common measure
/// - `explain TARIFF DRIVE PARAMS`: why the fare of each hiring that the drive closes is what it is, on a new store
///   that is sealed with the tariff and the parameters
/// - `story TARIFF DRIVE PARAMS`: what happened in each hiring that the drive closes, moment by moment, on such a store
/// - `compare TARIFF OTHER CONSTANT`: what differs first between two tariffs, and the line of each, or `SAME`
///
/// The statuses, their last lines, and when they come. A command looks at its words, at the store and at its
/// files in the order of docs/FORMATS.md, and answers the first thing that is wrong. So 'exactly if' is said of a
/// call in which nothing is wrong before, and which 7, 8 or 12 doesn't end earlier.
///
/// - 0, no line: the output is whole, and the drive was read to its end; for `bench`, every row of the report
///   passes, and for `compare`, the tariffs are the same
/// - 1, `BAD WORDS`: exactly if the words are no command
/// - 2, `BAD TARIFF` with `TooLong`, `Syntax n` or the fault: exactly if the tariff has more than 65,536
///   bytes, its line n is the first that is no line of a tariff, or, but for `form`, this is its first fault; for
///   `near` the first one other than NoCommonMeasure, or, if there is none, AmountTooBig or NoCommonMeasure for its
///   near amounts; with
///   `faults` such a line for each line that is none of a tariff, or else for each fault;
///   `BAD OTHER` with the same, for `compare`: exactly if the other tariff isn't accepted for this
/// - 3, `BAD DRIVE n` or `BAD DRIVE TOO LONG`, for `fare`, `run`, `bench`, `explain` and `story`: exactly if line n
///   is the first that is no line of a drive, or if 2^40 bytes were taken, none of their lines is bad, and the end
///   wasn't told
/// - 4, `NOT SEALED`, for `totals`, `run`, `bench`, `port`, `mark`, `shifts` and `sealed`: exactly if the store's
///   pair of totals or of seals is blank
/// - 5, `BAD STORE s`, `BAD STORE s t` or `BAD STORE TRIP`, for a command that opens the store: exactly if slot
///   s is open and its body isn't read, if slots s and t are open with bodies of one number, or, for `run`, if the
///   held trip doesn't fit the tariff
/// - 6, `WRONG TARIFF x y`, for `run` and `bench`: exactly if the sealed digest x and that of the tariff's text,
///   y, differ
/// - 7, `READ FAULT`: only if the count of faults of a file that the command reads rose by one
/// - 8, no line: exactly if the board's count of faults rose, by one
/// - 9, `BAD PARAMS` with the fault, for `seal`, `explain` and `story`: exactly if the parameters have this first fault
/// - 10, `BAD READINGS n` or `BAD READINGS TOO LONG`, for `bench`: exactly if row n is the first that is no row
///   of readings, or the readings have more than 1,048,576 bytes
/// - 11, no line: exactly if a row of the report of `bench` doesn't pass, or the tariffs of `compare` differ; the
///   output is whole, and each file was read to its end
/// - 12, `NO MEMORY`: never for `totals`, `port`, `mark`, `offsets`, `sealed` and refused words; else free, before
///   anything is printed or written and, but for `bench`, `explain` and `story`, before the first byte of the drive is taken
/// - 13, `TRIP HELD`, for `seal`: exactly if the totals of the store hold a trip
/// - 14, `SEAL ENDED`, for `seal`: exactly if the found seal has the last number, 10^15
/// - 15, `OTHER DECIMALS x y`, for `seal`: exactly if the found seal has x decimals, and the tariff y, which is
///   another number
/// - 16, `BAD FRAME p` or `BAD FRAME TOO LONG`: exactly if byte p, from 0 on, is the first that no stream of
///   requests has there, or the end is and a request is unfinished, or 2^40 bytes were taken, none of their places
///   is bad, and the end wasn't told
/// - 17, `BAD RULES` with `TooLong`, `BadLine n` or `SameMonth`: exactly if the rules have more than 4,096 bytes,
///   their line n is the first that isn't as it should be or is absent, with n 5 if bytes follow the four lines, or
///   both changes are in one month
/// - 18, `BAD BOOK TOO LONG` or `BAD BOOK n`: exactly if the book has more than 1,048,576 bytes, or its line n is
///   the first that is no mark, may not follow those before it, or has a number greater than the store's
///
/// The words, the statuses and the lines are this project's own.
pub fn taxi<F: Files, B: Board<STORE_SIZE, L>, L: Ledger>(
    alloc: Global,
    words: &[String],
    files: &mut F,
    board: &mut B,
    steps: &mut Steps<L>,
) -> u8
    // A call takes a course that its words, their files' contents and the opening image allow, and ends as it says. It
    // leaves each file unread that it doesn't come to read, as the drive if the tariff is refused.
    ensures call { (called_by words.now).told F.tells B.tells_image
        → IsCall F.Files B.Printer (called_by words.now) files.old files.new board.old board.new result }

    // Refused words read nothing, and no command reads a word that it doesn't name, whatever the files tell.
    ensures refused { row_in words.now ≡ None → files.new ≡ files.old }
    ensures others { (word : ℕ) → ¬ (called_by words.now).reads word → F.rest files.new word ≡ F.rest files.old word }

    // Each fault of the outside has its cause, whatever is told. At 7 the count of a file that the command reads rose
    // by one, and no word was read whose turn comes later. At 8 the board's count rose. At each other status no count
    // rose, and at 7 the board's didn't.
    ensures read_fault { result ≡ 7 → StopsReading F.Files (called_by words.now) files.old files.new }
    ensures board_fault { RisesOnlyIf (result ≡ 8) (B.faults board.old) (B.faults board.new) }
    ensures unfailed { result ≢ 7 → result ≢ 8 → (word : ℕ) → F.faults files.new word ≡ F.faults files.old word }

    // If no count rose, the status is that of the answer, unless memory ran out.
    ensures complete { (called_by words.now).told F.tells B.tells_image
        → ComesToAnswer F.Files B.Printer (called_by words.now) files.old files.new board.old board.new result }

    // The steps: one for the last line, one for each row of tables, at most 31 for offsets; 64 for an opening of the
    // store, and for each event of a drive that is run and the supply drop at its end; one for each 512 bytes that are
    // printed of a bench, a form, faults, lines, rates, a near tariff or a comparison; one for each reply, two for each
    // byte of a shift book.
    ensures steps { TakesSteps F.Files B.Printer (called_by words.now) files.old files.new board.old steps.old
        steps.new }

    // A command that doesn't open the store leaves alone what it holds; no clause says that it doesn't read it. Nothing
    // is written unless the command may write.
    ensures kept { ¬ (called_by words.now).opens → KeepsStore B.Printer board.old board.new }
    ensures unwritten { ¬ (called_by words.now).writes result → WritesNothing B.Printer board.old board.new result }

    // A command that opens the store leaves nothing in flight, unless the board failed.
    ensures at_rest { (called_by words.now).told F.tells B.tells_image → B.tells_image
        → (called_by words.now).opens → result ≢ 8 → IsAtRest B.Printer board.new }

    // If a command only looks at the store, a cut of the power from its opening sync on leaves the image as it was.
    ensures looks { IsReadOnlyRow (row_in words.now) → B.tells_image
        → LeavesImage B.Printer (result ≡ 8) board.old board.new }

    // Sealing leaves what it says at 0. A cut of the power from its opening sync on leaves the store that was found, or
    // one amid the sealing; a cut before that sync has succeeded leaves what it might have left before the call. So if
    // nothing was in flight before, a cut at any moment of the call leaves an image amid the sealing. If a byte of the
    // line `SEALED n` was printed before the cut, it leaves the new seal.
    ensures seals { row_in words.now ≡ Some Row.Seal → F.tells → B.tells_image
        → Seals B.Printer (sealing_by F.Files B.Printer files.old board.old) board.old board.new result }
    ensures settled { row_in words.now ≡ Some Row.Seal → F.tells → B.tells_image → IsAtRest B.Printer board.old
        → LeavesOnly B.Printer board.old board.new (MayLeaveSealingBy F.Files B.Printer files.old board.old) }

    // The headline. A run prints the displays, refusals and receipts that the tariff's text means for its drive, and no
    // others. In the end the store has the state after all its commits. A cut of the power from the run's opening sync
    // on leaves a place in the list of what the run does. The totals found are the opening ones plus the sums over the
    // entries before that place, with as many commits as the stored number says. Each hiring of whose receipt a byte
    // was printed has its entry among them. `IsRun` says it clause by clause.
    ensures runs { row_in words.now ≡ Some Row.Run → F.tells → B.tells_image
        → IsRun F.Files B.Printer files.old files.new board.old board.new result }
{
    match row_in(words) {
        None => finish(Ended::BadWords, board, steps),
        Some(row) => {
            let ended = carry_out(alloc, row, files, board, steps);
            finish(ended, board, steps)
        }
    }
}
