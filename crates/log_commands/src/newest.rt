//! The place of the newest record of a log.
ghost use Rattle.std.specs.Prelude.{ℕ, ◌≡◌, ◌≤◌, ◌⊎◌, List};
ghost use Rattle.log_commands.specs.{LogList.{StandsAt}, LogRow.{AreEntries, IsAtMost, IsPlaceOf}};

use crate::scanning::{Entry, SLOTS};

/// The greater of a place and that of an entry.
fn greater(place: u64, entry: Option<Entry>) -> u64
    ensures most { IsAtMost result entry }
    ensures least { place ≤ result }
    ensures one { (result ≡ place) ⊎ IsPlaceOf result entry }
{
    match entry {
        Some(entry) => place.max(entry.place),
        None => place,
    }
}

/// The greatest place of the entries, and 0 if all slots are closed. If the log stands for a list, it is the place of
/// its newest record, and 0 for the empty list.
pub(crate) fn newest_place(entries: &[Option<Entry>; SLOTS]) -> u64
    ensures { (image : List ℕ) (last : ℕ) → AreEntries image entries.now → StandsAt image last → last ≡ result }
{
    let mut newest = 0;
    for slot in 0..SLOTS {
        newest = greater(newest, entries[slot]);
    }
    newest
}
