//! The end of the log, found by a scan.
ghost use Rattle.std.specs.Prelude.{ℕ, ◌+◌, ◌↔◌, ◌≡◌, ◌≢◌, ◌≤◌, Err, IfOk, IfSome, List, Some};
ghost use Rattle.log_commands.specs.{Appends.{IsStill}, declared.scanning.Content.TheVariants.{Filled}};
ghost use Rattle.log_commands.specs.{Common.{IsAsHeld, LeavesFromSync, ReadsOnly, RisesOnlyIf}, LogRow.{AreEntries}};
ghost use Rattle.log_commands.specs.{Filings.{IsLast, IsTailOf, newest_of}, LogList.{EndsWith, StandsAt, StandsFor}};
ghost use Rattle.log_commands.specs.{LogScan.{IsBroken, IsContentInRange, IsLowestBad}, Record.{IsRecord, Record}};
ghost use Rattle.log_commands.specs.declared.finding.FindFault.{FindFault, TheVariants.{Broken, LogFault}};
ghost use Rattle.log_commands.specs.declared.scanning.ScanFault.TheVariants.{BadSlot, DeviceFailed};

use crate::entries::read_entries;
use crate::log_record::LogRecord;
use crate::newest::newest_place;
use crate::row::is_row;
use crate::scanning::{Content, Entry, SLOTS, ScanFault, read_slot};
use crate::tail::Tail;
use outside::{Board, Failed, LOG_SIZE};
use std::sync::ledger::Ledger;
use taxi_units::Steps;

/// The record that a slot holds, if it is at this place in the log.
fn record_at(last: u64, content: Content) -> Option<LogRecord>
    requires { IsContentInRange content }
    ensures record { (it : Record) → content ≡ Filled last it → result ≡ Some it }
    ensures sound { IfSome result (λ it. IsRecord it × (last ≤ it.number)) }
{
    match content {
        Content::Filled(place, it) => { if place == last { Some(it) } else { None } }
        Content::Unread | Content::Closed => None,
    }
}

/// The newest record, which is at this place in the log; none if the place is 0.
fn read_newest<G: Board<LOG_SIZE, L>, L: Ledger>(
    last: u64,
    log: &mut G,
    steps: &mut Steps<L>,
) -> Result<Option<LogRecord>, ScanFault>
    ensures newest { G.tells_image → (records : List Record) → EndsWith (G.image log.old) last records
        → IfOk result (λ newest. newest_of records ≡ newest) }
    ensures bad { (slot : ℕ) → result ≡ Err (BadSlot slot) → G.tells_image → ¬ StandsAt (G.image log.old) last }
    ensures last { IfOk result (IsLast last) }
    ensures cause { RisesOnlyIf (result ≡ Err DeviceFailed) (G.faults log.old) (G.faults log.new) }
    ensures image { G.image log.new ≡ G.image log.old }
    ensures reads { ReadsOnly G.Printer log.old log.new }
    ensures step { steps.new ≤ steps.old + 1 }
{
    if last == 0 {
        return Ok(None);
    }
    let slot = ((last - 1) % SLOTS as u64) as u32;
    let content = read_slot(slot, log, steps)?;
    match record_at(last, content) {
        Some(it) => Ok(Some(it)),
        None => Err(ScanFault::BadSlot(slot)),
    }
}

/// Why no end of the log is found.
#[derive(Clone, Copy)]
pub(crate) enum FindFault {
    /// This slot, the lowest such, is open, and holds no record at a place whose slot it is.
    BadSlot(u32),

    /// No slot is bad, and the log stands for no list.
    Broken,

    /// The board failed.
    LogFault,
}

impl From<Failed> for FindFault {
    ghost from_gives = { λ _ fault. fault ≡ LogFault };

    fn from(_: Failed) -> Self {
        FindFault::LogFault
    }
}

/// The fault of a scan.
fn fault_of(fault: ScanFault) -> FindFault
    ensures bad { (slot : ℕ) → result ≡ FindFault.BadSlot slot → fault ≡ BadSlot slot }
    ensures whole { ¬ (result ≡ Broken) }
    ensures failed { (result ≡ LogFault) ↔ (fault ≡ DeviceFailed) }
{
    match fault {
        ScanFault::BadSlot(slot) => FindFault::BadSlot(slot),
        ScanFault::DeviceFailed => FindFault::LogFault,
    }
}

/// The end of a log whose slots are known, and which was synced. Nothing is written.
fn tail_of<G: Board<LOG_SIZE, L>, L: Ledger>(
    entries: &[Option<Entry>; SLOTS],
    log: &mut G,
    steps: &mut Steps<L>,
) -> Result<Tail, FindFault>
    ensures found { G.tells_image → IsStill (G.in_flight log.old) → AreEntries (G.image log.old) entries.now
        → IfOk result (λ tail. (records : List Record) × StandsFor records (G.image log.old)
        × IsTailOf (G.image log.old) (G.in_flight log.new) tail records) }
    ensures bad { (slot : ℕ) → result ≡ Err (FindFault.BadSlot slot) → G.tells_image
        → ¬ AreEntries (G.image log.old) entries.now }
    ensures broken { result ≡ Err Broken → (image : List ℕ) → AreEntries image entries.now → IsBroken image }
    ensures last { IfOk result (λ tail. IsLast tail.last tail.newest × (tail.filed ≡ 0)) }
    ensures cause { RisesOnlyIf (result ≡ Err LogFault) (G.faults log.old) (G.faults log.new) }
    ensures image { G.image log.new ≡ G.image log.old }
    ensures reads { ReadsOnly G.Printer log.old log.new }
    ensures steps { steps.new ≤ steps.old + 1 }
{
    let last = newest_place(entries);
    if !is_row(entries, last) {
        return Err(FindFault::Broken);
    }
    match read_newest(last, log, steps) {
        Ok(newest) => Ok(Tail {
            last,
            is_open: entries[(last % SLOTS as u64) as usize].is_some(),
            newest,
            filed: 0,
        }),
        Err(fault) => Err(fault_of(fault)),
    }
}

/// Finds the end of the log by one sync and then a scan. The list for which it stands is that of its image at the
/// call's start. Nothing is written: from the sync on a cut leaves what the log held before the call.
///
/// `BadSlot` names the lowest slot that is open and holds no record at a place whose slot it is. Else `Broken` comes if
/// the log stands for no list. `LogFault` comes exactly if the count of faults rose, which it does by one.
pub(crate) fn find_tail<G: Board<LOG_SIZE, L>, L: Ledger>(
    log: &mut G,
    steps: &mut Steps<L>,
) -> Result<Tail, FindFault>
    ensures found { G.tells_image → IfOk result (λ tail. (records : List Record)
        × StandsFor records (G.image log.old) × IsTailOf (G.image log.new) (G.in_flight log.new) tail records) }
    ensures bad { (slot : ℕ) → result ≡ Err (FindFault.BadSlot slot) → G.tells_image
        → IsLowestBad (G.image log.old) slot }
    ensures broken { result ≡ Err Broken → G.tells_image → IsBroken (G.image log.old) }
    ensures last { IfOk result (λ tail. IsLast tail.last tail.newest × (tail.filed ≡ 0)) }
    ensures cause { RisesOnlyIf (result ≡ Err LogFault) (G.faults log.old) (G.faults log.new) }
    ensures synced { G.tells_image → LeavesFromSync G.Printer (result ≡ Err LogFault)
        log.old log.new (IsAsHeld G.Printer log.old) }
    ensures reads { ReadsOnly G.Printer log.old log.new }
    ensures same { result ≢ Err LogFault → G.image log.new ≡ G.image log.old }
    ensures steps { steps.new ≤ steps.old + 258 }
{
    log.sync(steps)?;
    match read_entries(log, steps) {
        Ok(entries) => tail_of(&entries, log, steps),
        Err(fault) => Err(fault_of(fault)),
    }
}
