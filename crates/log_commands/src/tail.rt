//! The end of the log, as it is kept in memory while receipts are filed.
ghost use Rattle.std.specs.Prelude.{[], ◌+◌, ◌<◌, ◌^◌, ◌∷◌, ◌≡◌, ◌≤◌, Ok, OnErr, OnOk};
ghost use Rattle.log_commands.specs.{Common.{HasCause}, Record.{IsRecord}};
ghost use Rattle.log_commands.specs.{Filed.{IsNewer, IsOther}, Filings.{FilesTo, IsLast, LeavesSome}};

use crate::appending::append;
use crate::filing::{Filing, filing_of};
use crate::log_record::LogRecord;
use outside::{Board, Failed, LOG_SIZE};
use std::sync::ledger::Ledger;
use taxi_units::Steps;

/// The end of the log: the place of its newest record, or 0 if it has none; whether the slot of the next place is open;
/// the newest record; and how many records have been filed.
#[derive(Drop)]
pub(crate) struct Tail {
    pub(crate) last: u64,
    pub(crate) is_open: bool,
    pub(crate) newest: Option<LogRecord>,
    pub(crate) filed: u64,
}

/// Appends a receipt that is newer than the newest record.
fn append_one<G: Board<LOG_SIZE, L>, L: Ledger>(
    tail: &mut Tail,
    receipt: LogRecord,
    log: &mut G,
    steps: &mut Steps<L>,
) -> Result<(), Failed>
    requires receipt { IsRecord receipt }
    requires last { IsLast tail.old.last tail.old.newest }
    requires newer { IsNewer tail.old.newest receipt }
    requires few { tail.old.filed < 2 ^ 63 }
    ensures last { OnOk result (IsLast tail.new.last tail.new.newest) }
    ensures filed { OnOk result (tail.new.filed ≡ tail.old.filed + 1) }
    ensures files { OnOk result (FilesTo G.Printer G.tells_image log.old log.new tail.old tail.new
        (receipt ∷ []) (receipt ∷ [])) }
    ensures any_moment { LeavesSome G.Printer G.tells_image log.old log.new tail.old (receipt ∷ []) }
    ensures text { G.printed log.new ≡ G.printed log.old }
    ensures cause { HasCause (G.faults log.old) (G.faults log.new) result }
    ensures steps { steps.new ≤ steps.old + 6 }
{
    append(tail.last, tail.is_open, &receipt, log, steps)?;
    tail.is_open = 254 < tail.last;
    tail.last += 1;
    tail.newest = Some(receipt);
    tail.filed += 1;
    Ok(())
}

/// Does with a receipt what is to be done with it.
pub(crate) fn file_one<G: Board<LOG_SIZE, L>, L: Ledger>(
    tail: &mut Tail,
    receipt: LogRecord,
    log: &mut G,
    steps: &mut Steps<L>,
) -> Result<Filing, Failed>
    requires receipt { IsRecord receipt }
    requires last { IsLast tail.old.last tail.old.newest }
    requires few { tail.old.filed < 2 ^ 63 }
    ensures last { OnOk result (IsLast tail.new.last tail.new.newest) }
    ensures filed { OnOk result ((tail.old.filed ≤ tail.new.filed) × (tail.new.filed ≤ tail.old.filed + 1)) }
    ensures other { result ≡ Ok Filing.OtherTaxi → IsOther tail.old.newest receipt
        × (tail.new ≡ tail.old) × (log.new ≡ log.old) × (steps.new ≡ steps.old) }
    ensures passed { result ≡ Ok Filing.Passed → FilesTo G.Printer G.tells_image log.old log.new
        tail.old tail.new (receipt ∷ []) [] × (steps.new ≡ steps.old) }
    ensures appended { result ≡ Ok Filing.Appended → FilesTo G.Printer G.tells_image log.old log.new
        tail.old tail.new (receipt ∷ []) (receipt ∷ []) }
    ensures failed { OnErr result (IsNewer tail.old.newest receipt
        × LeavesSome G.Printer G.tells_image log.old log.new tail.old (receipt ∷ [])) }
    ensures text { G.printed log.new ≡ G.printed log.old }
    ensures cause { HasCause (G.faults log.old) (G.faults log.new) result }
    ensures steps { steps.new ≤ steps.old + 6 }
{
    match filing_of(&tail.newest, &receipt) {
        Filing::OtherTaxi => Ok(Filing::OtherTaxi),
        Filing::Passed => Ok(Filing::Passed),
        Filing::Appended => {
            append_one(tail, receipt, log, steps)?;
            Ok(Filing::Appended)
        }
    }
}
