//! Commits of the meter keep the ranges.
ghost use Rattle.std.specs.Prelude.{◌+◌, ◌≤◌};
ghost use Rattle.totals_record.specs.{Common.{Durable, Enter, Entry, Hold, Trip, last_number}, States.{after}};
ghost use Rattle.totals_record.specs.Ranges.{HasRoom, IsDurable, IsEntry, IsTripInItsRanges};

/// A law: the commits of the meter keep the ranges of a state with a number of at most 2 * 10^15. An entry keeps them
/// if it has at most 10^22 mm in all, a fare of at most 99,999,999 and supplements of at most 1,584,000,000. It has a
/// position of 1 to 9, or no fare if it is of roaming. If it is of roaming beside a held trip, the number must leave
/// room for that trip's own entry. A trip that is held keeps them if it is in its ranges beside the number after the
/// commit, which is at most 2 * 10^15.
pub fn commits_keep_the_ranges()
    ensures closed { (durable : Durable) (entry : Entry) → IsDurable durable → durable.number ≤ last_number
        → IsEntry entry → HasRoom durable entry → IsDurable (after durable (Enter entry)) }
    ensures held { (durable : Durable) (trip : Trip) → IsDurable durable → durable.number + 1 ≤ last_number
        → IsTripInItsRanges (durable.number + 1) trip → IsDurable (after durable (Hold trip)) }
{}
