//! The durable state: what the meter keeps over any cut of the power.
ghost use Rattle.std.specs.Prelude.{◌+◌, ◌≡◌, ◌≤◌};
ghost use Rattle.totals_record.specs.Common.{last_number};
ghost use Rattle.totals_record.specs.{Ranges.{IsDurable, newest_layout}, States.{after, first_state}};

use crate::ranges::NEWEST_LAYOUT;
use crate::{Change, Entry, Totals, Trip};

/// The number of the state, which each commit raises by 1, the totals, the trip that is held, and the layout in which a
/// slot has them. In layout 1 the shares are none, and all hirings and fares were counted before. `IsDurable` has the
/// ranges of the fields.
#[derive(Clone, Copy)]
pub struct Durable {
    pub number: u64,
    pub totals: Totals,
    pub hold: Option<Trip>,
    pub layout: u8,
}

impl Durable {
    /// What sealing begins with: number 1, totals of 0, no held trip, the newest layout.
    pub fn zero() -> Durable
        ensures state { result ≡ first_state }
        ensures range { IsDurable result }
    {
        Durable {
            number: 1,
            totals: Totals::NONE,
            hold: None,
            layout: NEWEST_LAYOUT,
        }
    }

    /// The state after one commit, in the newest layout. An entry is added to the totals, and if it closes a hiring, no
    /// trip is held then. A trip that is held from now on leaves the totals as they are. The state after it must be in
    /// its ranges, so its number is at most 2 * 10^15.
    pub fn after(&self, commit: &Change) -> Durable
        requires { IsDurable (after self.now commit.now) }
        ensures state { result ≡ after self.now commit.now }
        ensures range { IsDurable result }
    {
        match commit {
            Change::Enter(entry) => self.after_entry(entry),
            Change::Hold(trip) => self.next(self.totals, Some(*trip)),
        }
    }

    /// The state after an entry.
    fn after_entry(&self, entry: &Entry) -> Durable
        requires { IsDurable (after self.now (Change.Enter entry.now)) }
        ensures { result ≡ after self.now (Change.Enter entry.now) }
    {
        let hold = if entry.closes() { None } else { self.hold };
        self.next(self.totals.with(entry), hold)
    }

    /// The state that follows, with these totals and this held trip.
    fn next(&self, totals: Totals, hold: Option<Trip>) -> Durable
        requires { self.now.number ≤ last_number }
        ensures { result
            ≡ record { number = self.now.number + 1; totals = totals; hold = hold; layout = newest_layout } }
    {
        let layout = NEWEST_LAYOUT;
        Durable {
            number: self.number + 1,
            totals,
            hold,
            layout,
        }
    }
}
