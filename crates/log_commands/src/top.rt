//! The top call: words in, a status out.
ghost use Rattle.std.specs.Prelude.{[], ℕ, ◌+◌, ◌<◌, ◌≡◌, ◌≢◌, ◌≤◌, ◌⊎◌, List, Some, false, length, map, string_bytes};
ghost use Rattle.{std.specs.Prelude.{true}, log_commands.specs.Endings.{filing_end, line_of, status_of, unread_end}};
ghost use Rattle.log_commands.specs.{BeforeLastLine.{CallReachesLine, IsTold}, Slots.{IsClosed, IsOpen, slot_of}};
ghost use Rattle.log_commands.specs.Calls.{AppendsNothing, AreFew, IsCall, IsFit, LeavesLogUnwritten, MayHave};
ghost use Rattle.log_commands.specs.{Calls.{MayHaveReadFault, TakesNothing, WritesNothing, known_of}, Record.{Record}};
ghost use Rattle.log_commands.specs.{Common.{KeepsStore, MayRise, RisesOnlyIf, Rose, stream_limit}, Words.{call_of}};
ghost use Rattle.log_commands.specs.{FilingEnds.{newest_of}, ListedRows.{RowsReachLine}, LogList.{EndsWith, StandsFor}};
ghost use Rattle.log_commands.specs.RowsCalls.{IsRowsCall};

use crate::ending::{Ended, last_line, status};
use crate::file_roll::{FileEnd, file_roll};
use crate::finding::{FindFault, find_tail};
use crate::list_rows::list_rows;
use crate::scanning::SLOTS;
use crate::show::show_records;
use crate::tail::Tail;
use crate::words::{Call, call_in};
use outside::{Board, Files, LOG_SIZE};
use std::sync::ledger::Ledger;
use taxi_units::Steps;

/// How a call ends if its log isn't read.
fn ended_unread(fault: FindFault) -> Ended
    ensures { result ≡ unread_end fault }
{
    match fault {
        FindFault::BadSlot(slot) => Ended::BadLog(slot),
        FindFault::Broken => Ended::BrokenLog,
        FindFault::LogFault => Ended::BoardFault,
    }
}

/// How a call ends if its filing of a roll ends so.
fn ended_filing(end: FileEnd) -> Ended
    ensures { result ≡ filing_end end }
{
    match end {
        FileEnd::Filed(count) => Ended::Filed(count),
        FileEnd::OtherTaxi(place) => Ended::OtherTaxi(place),
        FileEnd::TooLong => Ended::TooLong,
        FileEnd::ReadFault => Ended::ReadFault,
    }
}

/// Finds the end of the log, and files the receipts of the roll of word 1 behind it.
fn file<F: Files, G: Board<LOG_SIZE, L>, L: Ledger>(
    files: &mut F,
    log: &mut G,
    steps: &mut Steps<L>,
) -> Ended
    ensures comes { F.tells → G.tells_image → CallReachesLine F.Files G.Printer (Some Call.File)
        files.old files.new log.old log.new steps.old steps.new result }
    ensures read_fault { result ≡ Ended.ReadFault → Rose (F.faults files.old 1) (F.faults files.new 1) }
    ensures reads { (word : ℕ) → MayRise (MayHaveReadFault (status_of result))
        (F.faults files.old word) (F.faults files.new word) }
    ensures board_fault { RisesOnlyIf (result ≡ Ended.BoardFault) (G.faults log.old) (G.faults log.new) }
    ensures has { MayHave (Some Call.File) (status_of result) }
    ensures looks { WritesNothing (Some Call.File) (status_of result)
        → LeavesLogUnwritten G.Printer log.old log.new (status_of result) }
    ensures untaken { TakesNothing (Some Call.File) (status_of result) → files.new ≡ files.old }
    ensures others { (word : ℕ) → word ≢ 1 → F.rest files.new word ≡ F.rest files.old word }
{
    let mut tail = match find_tail(log, steps) {
        Ok(tail) => tail,
        Err(fault) => return ended_unread(fault),
    };
    match file_roll(&mut tail, files, 1, log, steps) {
        Ok(end) => ended_filing(end),
        Err(_) => Ended::BoardFault,
    }
}

/// How many records a log has that ends so.
fn count_of(tail: &Tail) -> u64
    ensures within { result ≤ tail.now.last }
    ensures most { result ≤ 256 }
    ensures count { (image : List ℕ) (records : List Record) → EndsWith image tail.now.last records
        → (tail.now.is_open ≡ true → IsOpen image (slot_of (tail.now.last + 1)))
        → (tail.now.is_open ≡ false → IsClosed image (slot_of (tail.now.last + 1))) → length records ≡ result }
{
    if tail.last < SLOTS as u64 {
        tail.last
    } else if tail.is_open {
        SLOTS as u64
    } else {
        255
    }
}

/// Finds the end of the log, and prints its records, the oldest first.
fn show<F: Files, G: Board<LOG_SIZE, L>, L: Ledger>(log: &mut G, steps: &mut Steps<L>) -> Ended
    ensures comes { G.tells_image → (files : F) → CallReachesLine F.Files G.Printer (Some Call.Show)
        files files log.old log.new steps.old steps.new result }
    ensures unread { result ≢ Ended.ReadFault }
    ensures board_fault { RisesOnlyIf (result ≡ Ended.BoardFault) (G.faults log.old) (G.faults log.new) }
    ensures has { MayHave (Some Call.Show) (status_of result) }
    ensures looks { LeavesLogUnwritten G.Printer log.old log.new (status_of result) }
    ensures steps { steps.new ≤ steps.old + 770 }
{
    let tail = match find_tail(log, steps) {
        Ok(tail) => tail,
        Err(fault) => return ended_unread(fault),
    };
    let count = count_of(&tail);
    match show_records(tail.last + 1 - count, count, log, steps) {
        Ok(()) => Ended::Shown,
        Err(_) => Ended::BoardFault,
    }
}

/// Carries out a command, but for its last line.
fn carry_out<F: Files, G: Board<LOG_SIZE, L>, L: Ledger>(
    call: Option<Call>,
    files: &mut F,
    log: &mut G,
    steps: &mut Steps<L>,
) -> Ended
    ensures comes { known_of call F.tells G.tells_image → CallReachesLine F.Files G.Printer call
        files.old files.new log.old log.new steps.old steps.new result }
    ensures rows { F.tells → call ≡ Some Call.Rows → RowsReachLine F.Files G.Printer
        files.old files.new log.old log.new result steps.old steps.new × KeepsStore G.Printer log.old log.new }
    ensures read_fault { result ≡ Ended.ReadFault → Rose (F.faults files.old 1) (F.faults files.new 1) }
    ensures reads { (word : ℕ) → MayRise (MayHaveReadFault (status_of result))
        (F.faults files.old word) (F.faults files.new word) }
    ensures board_fault { RisesOnlyIf (result ≡ Ended.BoardFault) (G.faults log.old) (G.faults log.new) }
    ensures has { MayHave call (status_of result) }
    ensures looks { WritesNothing call (status_of result)
        → LeavesLogUnwritten G.Printer log.old log.new (status_of result) }
    ensures untaken { TakesNothing call (status_of result) → files.new ≡ files.old }
    ensures others { (word : ℕ) → word ≢ 1 → F.rest files.new word ≡ F.rest files.old word }
    ensures steps { AreFew call steps.old (steps.new + 1) }
{
    match call {
        Some(Call::File) => file(files, log, steps),
        Some(Call::Show) => show::<F, G, L>(log, steps),
        Some(Call::Rows) => list_rows(files, log, steps),
        None => Ended::BadWords,
    }
}

/// Prints the last line of an end, and gives its status, or 8 if the board fails.
fn finish<G: Board<LOG_SIZE, L>, L: Ledger>(ended: Ended, log: &mut G, steps: &mut Steps<L>) -> u8
    ensures told { IsTold G.Printer ended log.old log.new result }
    ensures silent { line_of ended ≡ [] → (log.new ≡ log.old) × (result ≡ status_of ended) }
    ensures keeps { KeepsStore G.Printer log.old log.new }
    ensures cause { ended ≢ Ended.BoardFault → RisesOnlyIf (result ≡ 8) (G.faults log.old) (G.faults log.new) }
    ensures steps { steps.new ≤ steps.old + 1 }
{
    let line = last_line(ended);
    if line.is_empty() {
        return status(ended);
    }
    match log.print(line.as_slice(), steps) {
        Ok(()) => status(ended),
        Err(_) => status(Ended::BoardFault),
    }
}

/// Carries out the words of a call of the program, and gives its status. Word 0 is the command, and the file of word 1
/// is the roll. It takes no memory itself; the devices may.
///
/// | Words | Output |
/// |---|---|
/// | `file ROLL` | `FILED n`: n of the roll's receipts were appended to the log |
/// | `show` | the texts of the log's receipts, the oldest first |
/// | `rows ROLL` | a heading, and the roll's receipts as rows of CSV, in its order |
///
/// | Status | Last line | When |
/// |---|---|---|
/// | 0 | as above, none of `show` and `rows` | the roll was read to its end, or the log was shown whole |
/// | 1 | `BAD WORDS` | exactly: the words are no command |
/// | 2 | `BAD LOG s` | exactly: slot s is the lowest that is open and holds no record of its own |
/// | 3 | `BROKEN LOG` | exactly: no slot is bad, and the log stands for no list of receipts |
/// | 4 | `OTHER TAXI j` | exactly: the roll's receipt j is the first of another taxi; those before it are filed |
/// | 5 | `ROLL TOO LONG` | exactly: 2^40 bytes of the roll were taken, and its end wasn't seen; but 4 comes first |
/// | 7 | `READ FAULT` | only if the roll's count of faults rose; what was taken is filed or listed |
/// | 8 | none | exactly: the board's count of faults rose |
///
/// The words are looked at before the log, and the log before the roll. If any receipt in 2^40 bytes of the roll is of
/// another taxi, the status of `file` is 4, even if a read behind the bytes taken failed. `rows` reads no log, and its
/// heading comes with the first reading that succeeds. The words, the statuses and the lines are this project's own.
pub fn keep_log<F: Files, G: Board<LOG_SIZE, L>, L: Ledger>(
    words: &[String],
    files: &mut F,
    log: &mut G,
    steps: &mut Steps<L>,
) -> u8
    // A call ends for its reason and prints that end's text. `file` leaves, at each moment from its opening sync on,
    // the last 256 or 255 of the found list with some first ones of the filed behind it. A cut before that sync has
    // succeeded leaves what it might have left before the call. In the end all that is filed is behind the list.
    ensures call { known_of (call_of (map string_bytes words.now)) F.tells G.tells_image
        → IsCall F.Files G.Printer (call_of (map string_bytes words.now))
        files.old files.new log.old log.new steps.old steps.new result }

    // `rows` lists the receipts of the bytes taken in their order, ends as the roll does, and leaves the log alone. If
    // the board fails, a beginning of that is printed.
    ensures rows { F.tells → call_of (map string_bytes words.now) ≡ Some Call.Rows
        → IsRowsCall F.Files G.Printer files.old files.new log.old log.new steps.old steps.new result }

    // After status 0, 4 or 5 filing the roll again appends nothing, however much of it is read then.
    ensures again { F.tells → G.tells_image → call_of (map string_bytes words.now) ≡ Some Call.File
        → (result ≡ 0) ⊎ ((result ≡ 4) ⊎ (result ≡ 5)) → AppendsNothing (G.image log.new) (F.rest files.old 1) }

    // A log that is read, a roll that is fit for the command, and no fault give 0.
    ensures complete { known_of (call_of (map string_bytes words.now)) F.tells G.tells_image
        → (command : Call) (records : List Record) → call_of (map string_bytes words.now) ≡ Some command
        → StandsFor records (G.image log.old) → IsFit command (F.rest files.old 1) (newest_of records)
        → ¬ Rose (F.faults files.old 1) (F.faults files.new 1) → ¬ Rose (G.faults log.old) (G.faults log.new)
        → result ≡ 0 }

    // A roll of fewer than 2^40 bytes and no fault give 0.
    ensures complete_rows { F.tells → call_of (map string_bytes words.now) ≡ Some Call.Rows
        → length (F.rest files.old 1) < stream_limit
        → ¬ Rose (F.faults files.old 1) (F.faults files.new 1) → ¬ Rose (G.faults log.old) (G.faults log.new)
        → result ≡ 0 }

    // Each status is one of the command's, whatever is told. The board's count of faults rose by one at 8, and else
    // stayed. That of the roll rose by one at 7. No word's rose at a status but 4, 7 and 8, and none by more than one.
    ensures has { MayHave (call_of (map string_bytes words.now)) result }
    ensures read_fault { result ≡ 7 → Rose (F.faults files.old 1) (F.faults files.new 1) }
    ensures reads { (word : ℕ)
        → MayRise (MayHaveReadFault result) (F.faults files.old word) (F.faults files.new word) }
    ensures board_fault { RisesOnlyIf (result ≡ 8) (G.faults log.old) (G.faults log.new) }

    // `show`, `rows` and a call with refused words or a refused log write nothing, and all but `rows` take nothing of
    // the roll.
    ensures looks { WritesNothing (call_of (map string_bytes words.now)) result
        → LeavesLogUnwritten G.Printer log.old log.new result }
    ensures untaken { TakesNothing (call_of (map string_bytes words.now)) result → files.new ≡ files.old }
    ensures others { (word : ℕ) → word ≢ 1 → F.rest files.new word ≡ F.rest files.old word }

    // `show` takes at most 771 steps, and refused words take 1. `call` bounds the steps of `file`, over files and a log
    // that tell, and `rows` those of `rows`.
    ensures steps { AreFew (call_of (map string_bytes words.now)) steps.old steps.new }
{
    let ended = carry_out(call_in(words), files, log, steps);
    finish(ended, log, steps)
}
