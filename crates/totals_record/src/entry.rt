//! What one entry of the totalisers records.
ghost use Rattle.std.specs.Prelude.{◌≡◌};
ghost use Rattle.totals_record.specs.Entries.{closes};

use taxi_units::Kind;

/// An entry: a closed hiring, or distance driven for hire. Distances are in millimetres, money in the
/// tariff's smallest units. `position` is the tariff position at closing, 1 to 9.
#[derive(Clone, Copy)]
pub struct Entry {
    pub kind: Kind,
    pub roam_mm: u128,
    pub hired_mm: u128,
    pub fare: u64,
    pub supplements: u64,
    pub position: u8,
}

impl Entry {
    /// Whether the entry closes a hiring, which all kinds but `Roam` do.
    pub fn closes(&self) -> bool
        ensures { result ≡ closes self.now }
    {
        !matches!(self.kind, Kind::Roam)
    }
}
