//! Rows of readings.
ghost use Rattle.std.specs.Prelude.{[], ◌↔◌, ◌∷◌, ◌≡◌, ◌≢◌, IsTrue, MatchOption, length};
ghost use Rattle.{csv.specs.Records.{fields_of}, verify_bench.specs.ReadingStages.{reading_of_row}};
ghost use Rattle.verify_bench.specs.Readings.{header};

use crate::reading::Reading;
use csv::ByteRecord;
use taxi_units::read_decimal;

/// The fields of a row that has three.
#[tactic(auto, using(crate::proofs::Fields::three_are_all, crate::proofs::Fields::none_beyond))]
fn three_fields(row: &ByteRecord) -> Option<(&[u8], &[u8], &[u8])>
    ensures { MatchOption result (length (fields_of row.now) ≢ 3)
        (λ f. fields_of row.now ≡ f.0.now ∷ f.1.now ∷ f.2.now ∷ []) }
{
    if row.len() != 3 {
        return None;
    }
    let first = row.get(0)?;
    let second = row.get(1)?;
    let third = row.get(2)?;
    Some((first, second, third))
}

/// Whether a row is the header.
pub(crate) fn is_header(row: &ByteRecord) -> bool
    ensures { IsTrue result ↔ (fields_of row.now ≡ header) }
{
    match three_fields(row) {
        Some((fare, distance, time)) => fare == b"fare".as_slice()
            && distance == b"distance".as_slice()
            && time == b"time".as_slice(),
        None => false,
    }
}

/// The reading that a row says, under a tariff's decimals.
pub(crate) fn reading_of(row: &ByteRecord, decimals: u8) -> Option<Reading>
    ensures { result ≡ reading_of_row decimals (fields_of row.now) }
{
    let (fare, distance, time) = three_fields(row)?;
    let Ok(fare) = read_decimal(fare, decimals) else {
        return None;
    };
    let Ok(distance_mm) = read_decimal(distance, 3) else {
        return None;
    };
    let Ok(tenths) = read_decimal(time, 1) else {
        return None;
    };
    Some(Reading {
        fare,
        distance_mm,
        tenths,
    })
}
