//! How a command ends: its last line, and its status.
ghost use Rattle.std.specs.Prelude.{[], ◌+◌, ◌≡◌, ◌≢◌, ◌≤◌};
ghost use Rattle.outside.specs.{Disk.{MayLeaveAmid}, Faults.{RisesOnlyIf}, Runs.{LeavesOnly}};
ghost use Rattle.call_ends.specs.Call.{IsEnd};
ghost use Rattle.call_ends.specs.{Common.{KeepsStore, Rose}, Ending.{ended_for}, LastLine.{line_of, status_of}};

use crate::last_line::last_line;
use crate::tariff::{Refusal, TextFault};
use offset_rules::RuleFault;
use outside::{Printer, STORE_SIZE};
use seal_record::ParamFault;
use std::sync::ledger::Ledger;
use taxi_units::Steps;

/// The status of a call in which the board failed.
pub const BOARD_FAULT: u8 = 8;

/// The status of a call for which there was no memory.
pub const NO_MEMORY: u8 = 12;

/// How a command ended.
#[derive(Clone, Copy)]
pub enum Ended {
    /// The output was printed.
    Done,
    /// The tariff is sound, with this number of cells and this common measure.
    Sound(u64, u64),
    /// The words are no command.
    BadWords,
    /// The tariff isn't accepted, and why.
    BadTariff(Refusal),
    /// The other one of two tariffs isn't accepted, and why.
    BadOther(Refusal),
    /// The totals' pair of slots or the seal's is blank.
    NotSealed,
    /// This slot of the store is open, and its body isn't read.
    BadSlot(u8),
    /// These two slots of the store have bodies of one number.
    SameNumber(u8, u8),
    /// The trip that the store holds doesn't fit the tariff.
    BadTrip,
    /// The tariff isn't the sealed one: the sealed digest, and that of its text.
    WrongTariff([u8; 32], [u8; 32]),
    /// The store holds a trip.
    TripHeld,
    /// The found seal has the last number.
    SealEnded,
    /// The decimals of the found seal, and those of the tariff, which differ.
    OtherDecimals(u8, u8),
    /// The parameters aren't accepted, and why.
    BadParams(ParamFault),
    /// The store was sealed, with this number.
    Sealed(u64),
    /// The byte at this place, from 0 on, is the first that no stream of requests has there.
    BadFrame(u64),
    /// The requests have no end within the bytes that they may have.
    EndlessRequests,
    /// This row, from 1 on, is the first that is no row of readings.
    BadReadings(u64),
    /// The readings have more bytes than readings may have.
    LongReadings,
    /// The report was printed, and a verdict in it isn't a pass.
    NotPassed,
    /// What differs first between two tariffs was printed.
    Different,
    /// The lines of a tariff's faults were printed.
    Faulty,
    /// The rules of offsets aren't accepted, and why.
    BadRules(RuleFault),
    /// The book has more than 1,048,576 bytes.
    LongBook,
    /// This line, from 1 on, is the first of the book that is no mark that may follow.
    BadBook(u64),
    /// The line of this number is no line of a drive.
    BadDrive(u64),
    /// The drive has no end within the bytes that it may have.
    EndlessDrive,
    /// A read failed.
    ReadFault,
    /// The board failed.
    BoardFault,
    /// Memory ran out.
    NoMemory,
}

/// How a command ended that couldn't read its tariff.
pub fn refused_by(fault: TextFault) -> Ended
    ensures { result ≡ ended_for fault }
{
    match fault {
        TextFault::ReadFault => Ended::ReadFault,
        TextFault::Refused(why) => Ended::BadTariff(why),
        TextFault::NoMemory => Ended::NoMemory,
    }
}

/// The status of an end after its last line was printed.
fn status(ended: Ended) -> u8
    ensures { result ≡ status_of ended }
{
    match ended {
        Ended::Done => 0,
        Ended::Sound(_, _) => 0,
        Ended::BadWords => 1,
        Ended::BadTariff(_) => 2,
        Ended::BadOther(_) => 2,
        Ended::NotSealed => 4,
        Ended::BadSlot(_) => 5,
        Ended::SameNumber(_, _) => 5,
        Ended::BadTrip => 5,
        Ended::WrongTariff(_, _) => 6,
        Ended::TripHeld => 13,
        Ended::SealEnded => 14,
        Ended::OtherDecimals(_, _) => 15,
        Ended::BadParams(_) => 9,
        Ended::Sealed(_) => 0,
        Ended::BadFrame(_) => 16,
        Ended::EndlessRequests => 16,
        Ended::BadReadings(_) => 10,
        Ended::LongReadings => 10,
        Ended::NotPassed => 11,
        Ended::Different => 11,
        Ended::Faulty => 2,
        Ended::BadRules(_) => 17,
        Ended::LongBook => 18,
        Ended::BadBook(_) => 18,
        Ended::BadDrive(_) => 3,
        Ended::EndlessDrive => 3,
        Ended::ReadFault => 7,
        Ended::BoardFault => BOARD_FAULT,
        Ended::NoMemory => NO_MEMORY,
    }
}

/// Prints the last line of an end, and gives its status: 8 if the board fails.
#[tactic(auto, using(crate::proofs::BoardRuns::board_runs))]
pub fn finish<B: Printer<STORE_SIZE, L>, L: Ledger>(
    ended: Ended,
    board: &mut B,
    steps: &mut Steps<L>,
) -> u8
    ensures ends { IsEnd B.tells_text (Rose (B.faults board.old) (B.faults board.new)) (status_of ended) (line_of ended)
        result (B.printed board.old) (B.printed board.new) }
    ensures count { RisesOnlyIf (result ≢ status_of ended) (B.faults board.old) (B.faults board.new) }
    ensures steps { steps.new ≤ steps.old + 1 }
    ensures store { KeepsStore B.Printer board.old board.new }
    ensures leaves { LeavesOnly B.Printer board.old board.new
        (MayLeaveAmid (B.image board.old) (B.in_flight board.old) (B.printed board.old) (line_of ended)) }
    ensures silent { line_of ended ≡ [] → board.new ≡ board.old }
{
    let line = last_line(ended);
    if line.is_empty() {
        return status(ended);
    }
    match board.print(line.as_slice(), steps) {
        Ok(()) => status(ended),
        Err(_) => BOARD_FAULT,
    }
}
