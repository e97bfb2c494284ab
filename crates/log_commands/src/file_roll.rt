//! Files the receipts of a roll.
ghost use Rattle.std.specs.Prelude.{ℕ, ◌≡◌, IfOk, Ok, OnErr, OnOk};
ghost use Rattle.{outside.specs.Reading.{LeavesOthers}, log_commands.specs.Common.{HasCause, MayRise, Rose}};
ghost use Rattle.log_commands.specs.Filings.{FailsInRoll, FilesRoll, IsLast, MayHaveFailed};

use crate::filing::Filing;
use crate::roll::{Roll, RollEnd};
use crate::tail::{Tail, file_one};
use outside::{Board, Failed, Files, LOG_SIZE};
use std::sync::ledger::Ledger;
use taxi_units::Steps;

/// How the filing of a roll ends.
#[derive(Clone, Copy)]
pub(crate) enum FileEnd {
    /// The roll was read to its end, and this number of receipts was filed.
    Filed(u64),
    /// The roll's receipt with this number, from 1 on, is of another taxi.
    OtherTaxi(u64),
    /// As many bytes as a roll may have were taken, and its end wasn't seen.
    TooLong,
    /// A read failed.
    ReadFault,
}

/// How the filing ends if the roll ends so.
fn file_end(end: RollEnd, filed: u64) -> FileEnd
    ensures whole { end ≡ RollEnd.Whole → result ≡ FileEnd.Filed filed }
    ensures too_long { end ≡ RollEnd.TooLong → result ≡ FileEnd.TooLong }
    ensures fault { end ≡ RollEnd.ReadFault → result ≡ FileEnd.ReadFault }
{
    match end {
        RollEnd::Whole => FileEnd::Filed(filed),
        RollEnd::TooLong => FileEnd::TooLong,
        RollEnd::ReadFault => FileEnd::ReadFault,
    }
}

/// Files the receipts of the roll of a word behind the end of the log: those of its taxi that are newer than the newest
/// record, up to the first of another taxi.
pub(crate) fn file_roll<F: Files, G: Board<LOG_SIZE, L>, L: Ledger>(
    tail: &mut Tail,
    files: &mut F,
    word: usize,
    log: &mut G,
    steps: &mut Steps<L>,
) -> Result<FileEnd, Failed>
    requires last { IsLast tail.old.last tail.old.newest }
    requires none { tail.old.filed ≡ 0 }
    ensures last { OnOk result (IsLast tail.new.last tail.new.newest) }
    ensures ok { IfOk result (λ end. FilesRoll G.Printer G.tells_image F.tells log.old log.new
        tail.old tail.new (F.rest files.old word) (F.rest files.new word) end steps.old steps.new) }
    ensures failed { OnErr result (FailsInRoll G.Printer G.tells_image F.tells log.old log.new
        tail.old (F.rest files.old word) (F.rest files.new word) steps.old steps.new) }
    ensures text { G.printed log.new ≡ G.printed log.old }
    ensures cause { HasCause (G.faults log.old) (G.faults log.new) result }
    ensures read_fault { result ≡ Ok FileEnd.ReadFault → Rose (F.faults files.old word) (F.faults files.new word) }
    ensures others { LeavesOthers F.rest word files.old files.new }
    ensures counts { (other : ℕ)
        → MayRise (MayHaveFailed result) (F.faults files.old other) (F.faults files.new other) }
{
    let mut roll = Roll::new();
    let mut seen = 0;
    loop {
        match roll.next(files, word) {
            Err(end) => return Ok(file_end(end, tail.filed)),
            Ok(receipt) => {
                seen += 1;
                if let Filing::OtherTaxi = file_one(tail, receipt, log, steps)? {
                    return Ok(FileEnd::OtherTaxi(seen));
                }
            }
        }
    }
}
