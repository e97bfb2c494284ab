//! What is known of each slot of the log.
ghost use Rattle.std.specs.Prelude.{ℕ, ◌+◌, ◌<◌, ◌≡◌, ◌≤◌, Err, IfOk};
ghost use Rattle.log_commands.specs.{Common.{ReadsOnly, RisesOnlyIf}, LogScan.{IsBad, IsEntry, IsLowestBad}};
ghost use Rattle.log_commands.specs.LogRow.{AreEntries};
ghost use Rattle.log_commands.specs.declared.scanning.ScanFault.TheVariants.{BadSlot, DeviceFailed};

use crate::scanning::{Entry, SLOTS, ScanFault, entry_of, read_slot};
use outside::{Board, LOG_SIZE};
use std::sync::ledger::Ledger;
use taxi_units::Steps;

/// What is known of a slot, 0 to 255.
fn read_entry<G: Board<LOG_SIZE, L>, L: Ledger>(
    slot: u32,
    log: &mut G,
    steps: &mut Steps<L>,
) -> Result<Option<Entry>, ScanFault>
    requires { slot < 256 }
    ensures entry { G.tells_image → IfOk result (IsEntry (G.image log.old) slot) }
    ensures bad { (other : ℕ) → result ≡ Err (BadSlot other)
        → (other ≡ slot) × (G.tells_image → IsBad (G.image log.old) slot) }
    ensures cause { RisesOnlyIf (result ≡ Err DeviceFailed) (G.faults log.old) (G.faults log.new) }
    ensures image { G.image log.new ≡ G.image log.old }
    ensures reads { ReadsOnly G.Printer log.old log.new }
    ensures step { steps.new ≡ steps.old + 1 }
{
    let content = read_slot(slot, log, steps)?;
    entry_of(slot, content)
}

/// What is known of each slot of the log. `BadSlot` names the lowest slot that is open and holds no record at a place
/// whose slot it is.
pub(crate) fn read_entries<G: Board<LOG_SIZE, L>, L: Ledger>(
    log: &mut G,
    steps: &mut Steps<L>,
) -> Result<[Option<Entry>; SLOTS], ScanFault>
    ensures entries { G.tells_image → IfOk result (AreEntries (G.image log.old)) }
    ensures bad { (slot : ℕ) → result ≡ Err (BadSlot slot) → G.tells_image → IsLowestBad (G.image log.old) slot }
    ensures cause { RisesOnlyIf (result ≡ Err DeviceFailed) (G.faults log.old) (G.faults log.new) }
    ensures image { G.image log.new ≡ G.image log.old }
    ensures reads { ReadsOnly G.Printer log.old log.new }
    ensures steps { steps.new ≤ steps.old + 256 }
{
    let mut entries = [None; SLOTS];
    for slot in 0..SLOTS as u32 {
        entries[slot as usize] = read_entry(slot, log, steps)?;
    }
    Ok(entries)
}
