//! The totals.
ghost use Rattle.std.specs.{List.{All}, Prelude.{◌<◌, ◌^◌, ◌≡◌}};
ghost use Rattle.totals_record.specs.{Entries.{shares_with, totals_with}, Table.{Fit}};

use crate::Entry;
use crate::ranges::is_digit;

/// A number of closed hirings, and the sum of their fares.
#[derive(Clone, Copy)]
pub struct Share {
    pub hirings: u64,
    pub fare: u128,
}

impl Share {
    /// No hiring.
    pub(crate) const NONE: Share = Share {
        hirings: 0,
        fare: 0,
    };
}

/// The totals, which never fall. All distance and the distance when hired are in millimetres; the money charged as
/// supplements and as fare is in the tariff's smallest units. Hirings and fare are made of a share for each tariff
/// position, 1 to 9, and what was counted before there were shares.
#[derive(Clone, Copy)]
pub struct Totals {
    pub distance_mm: u128,
    pub hired_mm: u128,
    pub hirings: u64,
    pub supplements: u128,
    pub fare: u128,
    pub shares: [Share; 9],
    pub before: Share,
}

impl Totals {
    /// Those of no entry.
    pub(crate) const NONE: Totals = Totals {
        distance_mm: 0,
        hired_mm: 0,
        hirings: 0,
        supplements: 0,
        fare: 0,
        shares: [Share::NONE; 9],
        before: Share::NONE,
    };

    /// The totals with an entry more.
    pub(crate) fn with(&self, entry: &Entry) -> Totals
        requires { Fit (totals_with self.now entry.now) }
        ensures { result ≡ totals_with self.now entry.now }
    {
        Totals {
            distance_mm: self.distance_mm + (entry.roam_mm + entry.hired_mm),
            hired_mm: self.hired_mm + entry.hired_mm,
            hirings: self.hirings + u64::from(entry.closes()),
            supplements: self.supplements + u128::from(entry.supplements),
            fare: self.fare + u128::from(entry.fare),
            shares: shares_with(&self.shares, entry),
            before: self.before,
        }
    }
}

/// The shares with an entry more: if it closes a hiring, that of its tariff position grows.
fn shares_with(shares: &[Share; 9], entry: &Entry) -> [Share; 9]
    requires hirings { All (λ share. share.hirings < 2 ^ 64) (shares_with entry.now 1 shares.now) }
    requires fare { All (λ share. share.fare < 2 ^ 128) (shares_with entry.now 1 shares.now) }
    ensures { result ≡ shares_with entry.now 1 shares.now }
{
    if !entry.closes() {
        return *shares;
    }
    if !is_digit(entry.position) {
        return *shares;
    }
    let place = usize::from(entry.position - 1);
    let mut grown = *shares;
    grown[place] = Share {
        hirings: shares[place].hirings + 1,
        fare: shares[place].fare + u128::from(entry.fare),
    };
    grown
}
