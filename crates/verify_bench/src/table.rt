//! The table of what the rates of a tariff charged.
ghost use Rattle.std.specs.{Prelude.{ℕ, ◌<◌, ◌≡◌, ◌≢◌, OnOk}, Vec.{vec_len}};
ghost use Rattle.verify_bench.specs.Gathered.{HaveRoom, rate_at, rate_sums_with};

use crate::explained::{Sums, Way};
use crate::sums::RateSums;
use taxi_units::NoMemory;

/// Adds an interval that the rate at a place charged in a way.
pub(crate) fn add_to_table(
    table: &mut Vec<RateSums>,
    place: usize,
    way: Way,
    sums: Sums,
) -> Result<(), NoMemory>
    requires place { place < 64 }
    requires room { HaveRoom (rate_at table.old.items place) sums }
    ensures here { OnOk result (rate_at table.new.items place
        ≡ rate_sums_with (rate_at table.old.items place) way sums) }
    ensures others { OnOk result ((other : ℕ) → other ≢ place
        → rate_at table.new.items other ≡ rate_at table.old.items other) }
{
    lengthen(table, place)?;
    table[place] = table[place].with(way, sums);
    Ok(())
}

/// A table that is longer than a place, with the same sums.
fn lengthen(table: &mut Vec<RateSums>, place: usize) -> Result<(), NoMemory>
    requires { place < 64 }
    ensures long { OnOk result (place < vec_len table.new) }
    ensures same { OnOk result ((other : ℕ) → rate_at table.new.items other ≡ rate_at table.old.items other) }
{
    for length in table.len()..place + 1 {
        table.push(RateSums::new()).map_err(|_| NoMemory)?;
    }
    Ok(())
}
