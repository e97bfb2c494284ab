//! Whether receipts and what they say of a seal are in their ranges.
ghost use Rattle.std.specs.{List.{AllByRecursion}, Prelude.{◌<◌, ◌^◌, ◌↔◌, ◌≢◌, ◌≤◌, IsTrue}};
ghost use Rattle.{taxi_units.specs.{Limits.{number_most}, Shown.{IsStamp}}, receipt_text.specs.Part.{IsDigest}};
ghost use Rattle.{drive_modes.specs.Constant.{greatest_constant, least_constant}, seal_record.specs.Ranges.{IsDay}};
ghost use Rattle.receipt_reading.specs.Common.{IsIdentifierCharacter, IsPart, IsReceipt, IsTaxi, Roam};

use crate::sums::has_amounts;
use drive_modes::{GREATEST_CONSTANT, LEAST_CONSTANT};
use receipt_text::SealPart;
use seal_record::{FIRST_DAY, LAST_DAY};
use taxi_units::{Kind, Receipt, Stamp, is_date, is_identifier_character};

/// Whether a receipt is one for a hiring, with each number in its range and the fare that its lines give.
pub(crate) fn is_receipt(receipt: &Receipt) -> bool
    ensures { IsTrue result ↔ IsReceipt receipt.now }
{
    has_numbers(receipt)
        && has_amounts(receipt)
        && is_stamp(&receipt.start)
        && is_stamp(&receipt.finish)
}

/// Whether the kind, the number, the position, the distance and the decimals are in their ranges.
fn has_numbers(receipt: &Receipt) -> bool
    ensures { IsTrue result ↔ ((receipt.now.kind ≢ Roam) × (1 ≤ receipt.now.number) × (receipt.now.number ≤ number_most)
        × (1 ≤ receipt.now.position) × (receipt.now.position ≤ 9) × (receipt.now.hired_mm < 10 ^ 23)
        × (receipt.now.decimals ≤ 3)) }
{
    is_hiring(receipt.kind)
        && 1 <= receipt.number
        && receipt.number <= 2_000_000_000_000_001
        && 1 <= receipt.position
        && receipt.position <= 9
        && receipt.hired_mm < 100_000_000_000_000_000_000_000
        && receipt.decimals <= 3
}

/// Whether the kind is one of a hiring.
fn is_hiring(kind: Kind) -> bool
    ensures { IsTrue result ↔ (kind ≢ Roam) }
{
    !matches!(kind, Kind::Roam)
}

/// Whether a stamp is a real date of the years 1999 to 2200, and a second of a day.
fn is_stamp(stamp: &Stamp) -> bool
    ensures { IsTrue result ↔ IsStamp stamp.now }
{
    1999 <= stamp.year
        && stamp.year <= 2200
        && is_date(stamp.year, stamp.month, stamp.date)
        && stamp.second <= 86_399
}

/// Whether what a receipt says of a seal is in its ranges.
pub(crate) fn is_part(part: &SealPart) -> bool
    ensures { IsTrue result ↔ IsPart part.now }
{
    is_digest(&part.digest)
        && is_constant(part.constant)
        && is_day(part.secured)
        && is_taxi(part.taxi.as_slice())
}

/// Whether bytes are as many as a digest has.
fn is_digest(digest: &[u8]) -> bool
    ensures { IsTrue result ↔ IsDigest digest.now }
{
    digest.len() == 32
}

/// Whether a number is a constant of a taximeter.
fn is_constant(constant: u32) -> bool
    ensures { IsTrue result ↔ ((least_constant ≤ constant) × (constant ≤ greatest_constant)) }
{
    LEAST_CONSTANT <= constant && constant <= GREATEST_CONSTANT
}

/// Whether a day is one of the years 2000 to 2199.
fn is_day(day: i32) -> bool
    ensures { IsTrue result ↔ IsDay day }
{
    FIRST_DAY <= day && day <= LAST_DAY
}

/// Whether a text is a taxi identifier.
fn is_taxi(text: &[u8]) -> bool
    ensures { IsTrue result ↔ IsTaxi text.now }
{
    1 <= text.len() && text.len() <= 16 && are_characters(text)
}

/// Whether all bytes are characters of taxi identifiers.
fn are_characters(text: &[u8]) -> bool
    ensures { IsTrue result ↔ AllByRecursion IsIdentifierCharacter text.now }
{
    match text.split_first() {
        None => true,
        Some((first, rest)) => is_identifier_character(*first) && are_characters(rest),
    }
}
