//! Numbers at the front of a text.
ghost use Rattle.std.specs.Prelude.{◌<◌, ◌^◌, ◌≤◌, IfSome};
ghost use Rattle.{taxi_units.specs.Reading.{GivesSame}, receipt_text.specs.Figures.{AreDigits}};
ghost use Rattle.receipt_reading.specs.Common.{Gives};
ghost use Rattle.receipt_text.specs.Figures as spec;

use taxi_units::{count_digits, word};

/// Numbers and amounts of a receipt are read if they are below this, except those of its trip and its dates.
pub(crate) const READ_BELOW: u128 = 1_000_000_000_000_000_000;

/// A number at the front of a text, of all the digits there, and the text behind it. `None` if there is no digit, or
/// the number isn't below the limit.
#[tactic(auto, unfolding(receipt_text::specs::Figures::number_below), using(taxi_units::proofs::Laws::digits_in_front))]
pub(crate) fn number_below(text: &[u8], limit: u128) -> Option<(u128, &[u8])>
    requires some { 0 < limit }
    requires most { limit ≤ 10 ^ 24 }
    ensures value { Gives (λ x. (x.0, x.1.now)) result (spec.number_below limit text.now) }
    ensures below { IfSome result (λ x. x.0 < limit) }
{
    let (digits, rest) = text.split_at(count_digits(text));
    if digits.is_empty() {
        return None;
    }
    let value = value_below(0, digits, limit)?;
    Some((value, rest))
}

/// The number behind a word at the front of a text, and the text behind it.
pub(crate) fn number_behind<'a>(
    text: &'a [u8],
    before: &[u8],
    limit: u128,
) -> Option<(u128, &'a [u8])>
    requires some { 0 < limit }
    requires most { limit ≤ 10 ^ 24 }
    ensures value { Gives (λ x. (x.0, x.1.now)) result (spec.number_behind before.now limit text.now) }
    ensures below { IfSome result (λ x. x.0 < limit) }
{
    number_below(word(text, before)?, limit)
}

/// The number that digits make after those of another number, if it is below the limit.
pub(crate) fn value_below(start: u128, digits: &[u8], limit: u128) -> Option<u128>
    requires start { start < limit }
    requires most { limit ≤ 10 ^ 24 }
    requires digits { AreDigits digits.now }
    ensures value { GivesSame result (spec.value_below limit start digits.now) }
    ensures below { IfSome result (λ x. x < limit) }
{
    let mut value = start;
    for byte in digits {
        value = value * 10 + (*byte - b'0') as u128;
        if limit <= value {
            return None;
        }
    }
    Some(value)
}
