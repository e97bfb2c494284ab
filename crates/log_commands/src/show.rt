//! Prints the receipts of the log.
ghost use Rattle.std.specs.Prelude.{◌*◌, ◌++◌, ◌+◌, ◌<◌, ◌^◌, ◌≡◌, ◌≤◌, List, OnOk, length};
ghost use Rattle.log_commands.specs.{Common.{Begins, HasCause, KeepsStore}, Slots.{HasRecord, slot_of}};
ghost use Rattle.log_commands.specs.{LogList.{AreInSlots}, Record.{Record}, ShownLog.{texts_of}};

use crate::log_record::LogRecord;
use crate::scanning::{Content, SLOTS, read_slot};
use outside::{Board, Failed, LOG_SIZE};
use std::sync::ledger::Ledger;
use taxi_units::Steps;

/// Prints the text of the record at a place in the log.
fn show_one<G: Board<LOG_SIZE, L>, L: Ledger>(
    place: u64,
    log: &mut G,
    steps: &mut Steps<L>,
) -> Result<(), Failed>
    requires { 1 ≤ place }
    ensures shown { G.tells_image → G.tells_text → (it : Record) → HasRecord (G.image log.old) (slot_of place) place it
        → OnOk result (G.printed log.new ≡ G.printed log.old ++ it.text) }
    ensures begun { G.tells_image → G.tells_text → (it : Record) → HasRecord (G.image log.old) (slot_of place) place it
        → Begins (G.printed log.old) (G.printed log.new) it.text }
    ensures keeps { KeepsStore G.Printer log.old log.new }
    ensures cause { HasCause (G.faults log.old) (G.faults log.new) result }
    ensures steps { steps.new ≤ steps.old + 2 }
{
    let slot = ((place - 1) % SLOTS as u64) as u32;
    match read_slot(slot, log, steps)? {
        Content::Filled(_, it) => log.print(it.text.as_slice(), steps),
        Content::Unread => Ok(()),
        Content::Closed => Ok(()),
    }
}

/// Prints the texts of a number of records of the log, which are one after another from a place on. Nothing is written.
/// `Failed` comes exactly if the count of faults rose, by one: a beginning of the texts is printed then.
pub(crate) fn show_records<G: Board<LOG_SIZE, L>, L: Ledger>(
    first: u64,
    count: u64,
    log: &mut G,
    steps: &mut Steps<L>,
) -> Result<(), Failed>
    requires some { 1 ≤ first }
    requires fits { first + count < 2 ^ 64 }
    ensures shown { G.tells_image → G.tells_text → (records : List Record)
        → AreInSlots (G.image log.old) first records → length records ≡ count
        → OnOk result (G.printed log.new ≡ G.printed log.old ++ texts_of records) }
    ensures begun { G.tells_image → G.tells_text → (records : List Record)
        → AreInSlots (G.image log.old) first records → length records ≡ count
        → Begins (G.printed log.old) (G.printed log.new) (texts_of records) }
    ensures keeps { KeepsStore G.Printer log.old log.new }
    ensures cause { HasCause (G.faults log.old) (G.faults log.new) result }
    ensures steps { steps.new ≤ steps.old + 2 * count }
{
    for more in 0..count {
        show_one(first + more, log, steps)?;
    }
    Ok(())
}
