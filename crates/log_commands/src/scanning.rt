//! The slots of the log, read one after another.
ghost use Rattle.std.specs.Prelude.{◌+◌, ◌<◌, ◌≡◌, IfOk};
ghost use Rattle.log_commands.specs.Common.{HasCause, ReadsOnly};
ghost use Rattle.log_commands.specs.LogScan.{IsContent, IsContentInRange, IsContentOf, IsEntryOf};
ghost use Rattle.log_commands.specs.declared.scanning.ScanFault.TheVariants.{DeviceFailed};

use crate::appending::OPEN;
use crate::log_record::LogRecord;
use crate::slot_record::record_in;
use outside::{Board, Failed, LOG_SIZE};
use std::sync::ledger::Ledger;
use taxi_units::Steps;

/// How many slots the log has.
pub(crate) const SLOTS: usize = 256;

/// What is known of an open slot: the place in the log and the number of its record.
#[derive(Clone, Copy)]
pub(crate) struct Entry {
    pub(crate) place: u64,
    pub(crate) number: u64,
}

/// What a slot holds.
#[derive(Drop)]
pub(crate) enum Content {
    /// Nothing: the slot is closed.
    Closed,

    /// Bytes that are no record's: the slot is open.
    Unread,

    /// A record, at this place in the log: the slot is open.
    Filled(u64, LogRecord),
}

/// What the bytes of a slot hold.
fn content_in(bytes: &[u8; 512]) -> Content
    ensures { IsContentOf bytes.now result }
{
    if bytes[0] != OPEN {
        return Content::Closed;
    }
    match record_in(&bytes[1..]) {
        Some((place, record)) => Content::Filled(place, record),
        None => Content::Unread,
    }
}

/// Reads a slot, 0 to 255.
pub(crate) fn read_slot<G: Board<LOG_SIZE, L>, L: Ledger>(
    slot: u32,
    log: &mut G,
    steps: &mut Steps<L>,
) -> Result<Content, Failed>
    requires { slot < 256 }
    ensures content { G.tells_image → IfOk result (IsContent (G.image log.old) slot) }
    ensures sound { IfOk result IsContentInRange }
    ensures image { G.image log.new ≡ G.image log.old }
    ensures reads { ReadsOnly G.Printer log.old log.new }
    ensures cause { HasCause (G.faults log.old) (G.faults log.new) result }
    ensures step { steps.new ≡ steps.old + 1 }
{
    let mut bytes = [0; 512];
    log.read(512 * slot, &mut bytes, steps)?;
    Ok(content_in(&bytes))
}

/// Why a scan tells no list.
#[derive(Clone, Copy)]
pub(crate) enum ScanFault {
    /// This slot, the lowest such, is open, and holds no record at a place whose slot it is.
    BadSlot(u32),

    /// The board failed.
    DeviceFailed,
}

impl From<Failed> for ScanFault {
    ghost from_gives = { λ _ fault. fault ≡ DeviceFailed };

    fn from(_: Failed) -> Self {
        ScanFault::DeviceFailed
    }
}

/// What is known of a slot, 0 to 255, by what it holds: nothing if it is closed.
pub(crate) fn entry_of(slot: u32, content: Content) -> Result<Option<Entry>, ScanFault>
    requires { IsContentInRange content }
    ensures { IsEntryOf slot content result }
{
    match content {
        Content::Closed => Ok(None),
        Content::Filled(place, it) => {
            if (place - 1) % SLOTS as u64 == u64::from(slot) {
                Ok(Some(Entry {
                    place,
                    number: it.number,
                }))
            } else {
                Err(ScanFault::BadSlot(slot))
            }
        }
        Content::Unread => Err(ScanFault::BadSlot(slot)),
    }
}
