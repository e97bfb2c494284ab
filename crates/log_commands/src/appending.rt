//! Appends a record to the log, in three stages on the slot of its place. Each stage is one write and its sync.
ghost use Rattle.std.specs.Prelude.{[], ◌++◌, ◌+◌, ◌<◌, ◌∷◌, ◌≡◌, ◌≤◌, ◌⊎◌, List, OnOk, nat_lt};
ghost use Rattle.log_commands.specs.Appends.{IsListKept, IsReady, IsShut, IsStep, IsWritten};
ghost use Rattle.log_commands.specs.{Common.{HasCause, LeavesOnly}, LogList.{RiseFrom, StandsFor, last_ones}};
ghost use Rattle.log_commands.specs.{Record.{IsRecord, Record}, Slots.{slot_at, slot_of}};

use crate::log_record::LogRecord;
use crate::scanning::SLOTS;
use crate::slot_record::spelled;
use outside::{Board, Failed, LOG_SIZE};
use slot_store::write_and_sync;
use std::sync::ledger::Ledger;
use taxi_units::Steps;

/// The gate of an open slot. A slot with any other gate is closed.
pub(crate) const OPEN: u8 = 0xA5;

/// The gate of a slot that is shut.
const SHUT: u8 = 0;

/// The byte at which the slot of the place behind this one begins.
fn next_at(last: u64) -> u32
    ensures is { result ≡ slot_at (slot_of (last + 1)) }
    ensures inside { result ≤ 130560 }
{
    512 * (last % SLOTS as u64) as u32
}

/// The first stage: if the gate of the next place is open, 0x00 is written there and synced. A closed gate is left
/// alone.
fn shut_gate<G: Board<LOG_SIZE, L>, L: Ledger>(
    last: u64,
    is_open: bool,
    log: &mut G,
    steps: &mut Steps<L>,
) -> Result<(), Failed>
    ensures any_moment { G.tells_image → (records : List Record)
        → IsReady (G.image log.old) (G.in_flight log.old) last is_open records
        → LeavesOnly G.Printer log.old log.new (λ image text. IsListKept records image) }
    ensures shut { G.tells_image → OnOk result ((records : List Record)
        → IsReady (G.image log.old) (G.in_flight log.old) last is_open records
        → IsShut (G.image log.new) (G.in_flight log.new) last (last_ones 255 records)) }
    ensures text { G.printed log.new ≡ G.printed log.old }
    ensures cause { HasCause (G.faults log.old) (G.faults log.new) result }
    ensures steps { steps.new ≤ steps.old + 2 }
{
    if !is_open {
        return Ok(());
    }
    write_and_sync(log, next_at(last), &[SHUT], steps)
}

/// The second stage: the record's bytes are written behind the closed gate and synced.
fn write_body<G: Board<LOG_SIZE, L>, L: Ledger>(
    last: u64,
    it: &LogRecord,
    log: &mut G,
    steps: &mut Steps<L>,
) -> Result<(), Failed>
    requires receipt { IsRecord it.now }
    requires place { last < it.now.number }
    ensures any_moment { G.tells_image → (records : List Record)
        → IsShut (G.image log.old) (G.in_flight log.old) last records
        → LeavesOnly G.Printer log.old log.new (λ image text. StandsFor records image) }
    ensures written { G.tells_image → OnOk result ((records : List Record)
        → IsShut (G.image log.old) (G.in_flight log.old) last records
        → IsWritten (G.image log.new) (G.in_flight log.new) last records it.now) }
    ensures text { G.printed log.new ≡ G.printed log.old }
    ensures cause { HasCause (G.faults log.old) (G.faults log.new) result }
    ensures steps { steps.new ≤ steps.old + 2 }
{
    let bytes = spelled(last + 1, it.text.as_slice());
    write_and_sync(log, next_at(last) + 1, bytes.as_slice(), steps)
}

/// The third stage: 0xA5 is written at the gate and synced.
fn open_gate<G: Board<LOG_SIZE, L>, L: Ledger>(
    last: u64,
    log: &mut G,
    steps: &mut Steps<L>,
) -> Result<(), Failed>
    ensures any_moment { G.tells_image → (records : List Record) (it : Record)
        → IsWritten (G.image log.old) (G.in_flight log.old) last records it → RiseFrom 0 (records ++ it ∷ [])
        → LeavesOnly G.Printer log.old log.new
        (λ image text. StandsFor records image ⊎ StandsFor (records ++ it ∷ []) image) }
    ensures ready { G.tells_image → OnOk result ((records : List Record) (it : Record)
        → IsWritten (G.image log.old) (G.in_flight log.old) last records it → RiseFrom 0 (records ++ it ∷ [])
        → IsReady (G.image log.new) (G.in_flight log.new) (last + 1) (nat_lt 254 last) (records ++ it ∷ [])) }
    ensures text { G.printed log.new ≡ G.printed log.old }
    ensures cause { HasCause (G.faults log.old) (G.faults log.new) result }
    ensures steps { steps.new ≤ steps.old + 2 }
{
    write_and_sync(log, next_at(last), &[OPEN], steps)
}

/// Appends a record behind the newest, which is at this place in the log. It is known whether the slot of the next
/// place is open, and the record's number is greater than the newest's. At each moment a cut leaves a log that stands
/// for the list before, for it without its oldest record, whose slot is written again, or for the last 256 of the list
/// with the new record. `Failed` comes exactly if the count of faults rose, which it does by one.
pub(crate) fn append<G: Board<LOG_SIZE, L>, L: Ledger>(
    last: u64,
    is_open: bool,
    it: &LogRecord,
    log: &mut G,
    steps: &mut Steps<L>,
) -> Result<(), Failed>
    requires receipt { IsRecord it.now }
    requires place { last < it.now.number }
    ensures any_moment { G.tells_image → (records : List Record)
        → IsReady (G.image log.old) (G.in_flight log.old) last is_open records → RiseFrom 0 (records ++ it.now ∷ [])
        → LeavesOnly G.Printer log.old log.new (λ image text. IsStep records it.now image) }
    ensures ready { G.tells_image → OnOk result ((records : List Record)
        → IsReady (G.image log.old) (G.in_flight log.old) last is_open records → RiseFrom 0 (records ++ it.now ∷ [])
        → IsReady (G.image log.new) (G.in_flight log.new) (last + 1) (nat_lt 254 last)
        (last_ones 256 (records ++ it.now ∷ []))) }
    ensures text { G.printed log.new ≡ G.printed log.old }
    ensures cause { HasCause (G.faults log.old) (G.faults log.new) result }
    ensures steps { steps.new ≤ steps.old + 6 }
{
    shut_gate(last, is_open, log, steps)?;
    write_body(last, it, log, steps)?;
    open_gate(last, log, steps)
}
