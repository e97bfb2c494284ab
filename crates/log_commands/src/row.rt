//! Whether the records of the log are a list: their places are in a row, and their numbers rise.
ghost use Rattle.std.specs.Prelude.{ℕ, ◌+◌, ◌<◌, ◌≡◌, IfSome, IsTrue, List, MatchOption};
ghost use Rattle.log_commands.specs.{LogList.{EndsWith, StandsAt}, LogRow.{AreEntries, IsBound, IsRow, slot_back}};
ghost use Rattle.log_commands.specs.{LogScan.{IsEntry}, Record.{Record}};

use crate::scanning::{Entry, SLOTS};

/// The slot that lies a number of places before a place in the log.
fn slot_back(last: u64, back: u64) -> usize
    requires { back < 256 }
    ensures is { result ≡ slot_back last back }
    ensures within { result < 256 }
{
    ((last % SLOTS as u64 + 255 - back) % SLOTS as u64) as usize
}

/// The number of the record that lies some places before the newest, if its slot has it, or the number of the one after
/// it if the slot is rightly closed. `None` if the slot breaks the row.
#[tactic(auto, using(crate::proofs::Rows::row_record, crate::proofs::Rows::row_over, crate::proofs::Rows::row_spare))]
fn number_back(entry: Option<Entry>, last: u64, back: u64, newer: u64) -> Option<u64>
    requires { back < 256 }
    ensures row { (image : List ℕ) → IsEntry image (slot_back last back) entry → IsRow image last back newer
        → IfSome result (λ number. IsRow image last (back + 1) number) }
    ensures stands { (image : List ℕ) (records : List Record) → IsEntry image (slot_back last back) entry
        → EndsWith image last records → IsBound records back newer
        → MatchOption result ⊥ (λ number. IsBound records (back + 1) number) }
{
    match entry {
        Some(entry) => {
            if back < last && entry.place == last - back && entry.number < newer {
                return Some(entry.number);
            }
            None
        }
        None => {
            if back >= last || back == 255 {
                return Some(newer);
            }
            None
        }
    }
}

/// Whether the entries are those of a list whose newest record is at this place in the log.
#[tactic(auto, using(crate::proofs::Rows::row_none, crate::proofs::Bounds::bound_first))]
pub(crate) fn is_row(entries: &[Option<Entry>; SLOTS], last: u64) -> bool
    ensures row { IsTrue result → (image : List ℕ) → AreEntries image entries.now → StandsAt image last }
    ensures stands { (image : List ℕ) → AreEntries image entries.now → StandsAt image last → IsTrue result }
{
    let mut newer = u64::MAX;
    for back in 0..SLOTS as u64 {
        match number_back(entries[slot_back(last, back)], last, back, newer) {
            Some(number) => newer = number,
            None => return false,
        }
    }
    true
}
